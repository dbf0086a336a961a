//! The names of a made input.

ghost use Rattle.std.specs.Prelude.{◌≡◌, ◌<◌, ◌≤◌, [], ◌∷◌, map, codes, IfOk};
ghost use Rattle.std.specs.List.{range_with_len};
ghost use Rattle.txn_types.specs.Names.{IsLower, IsName};
ghost use Rattle.soak_input.specs.Generator.{app_name, numbered, record_name};

use std::alloc::Global;
use txn_types::{Name, Names, OutOfMemory};

/// How many records there are.
pub const RECORDS: u16 = 256;

/// The name with these bytes.
pub fn named(bytes: &[u8]) -> Name
    requires { IsName bytes.now }
    ensures { result ≡ bytes.now }
{
    Name::new(bytes).unwrap()
}

/// The one client.
pub fn client() -> Name
    ensures { result ≡ codes "c1" }
{
    numbered(b'c', 1)
}

// A letter and a digit.
fn numbered(letter: u8, number: u8) -> Name
    requires letter { IsLower letter }
    requires number { number ≤ 9 }
    ensures { result ≡ numbered (letter ∷ []) number }
{
    named(&[letter, b'0' + number])
}

/// The name of an application, by its number from 1 on.
pub fn app_name(number: u8) -> Name
    requires { number ≤ 9 }
    ensures { result ≡ app_name number }
{
    numbered(b'a', number)
}

// `r` and three digits.
fn record_name(number: u16) -> Name
    requires { number < 1000 }
    ensures { result ≡ record_name number }
{
    let hundreds = (number / 100) as u8;
    let tens = (number / 10 % 10) as u8;
    let ones = (number % 10) as u8;
    named(&[b'r', b'0' + hundreds, b'0' + tens, b'0' + ones])
}

/// The names of all records.
pub fn record_names(alloc: Global) -> Result<Names, OutOfMemory>
    ensures { IfOk result (λ names. names ≡ map record_name (range_with_len 0 256)) }
{
    let mut names = Names::new(alloc);
    for number in 0..RECORDS {
        names.push(record_name(number))?;
    }
    Ok(names)
}

/// Names of this letter, numbered from 1 on.
pub fn numbered_names(alloc: Global, letter: u8, count: u8) -> Result<Names, OutOfMemory>
    requires letter { IsLower letter }
    requires count { count ≤ 9 }
    ensures { IfOk result (λ names. names ≡ map (numbered (letter ∷ [])) (range_with_len 1 count)) }
{
    let mut names = Names::new(alloc);
    for i in 0..count {
        names.push(numbered(letter, i + 1))?;
    }
    Ok(names)
}
