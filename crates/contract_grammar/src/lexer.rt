//! The next token of a text, each as long as it can be.

ghost use Rattle.std.specs.Prelude.{◌≡◌, ◌<◌, ◌≤◌, ◌+◌, [], ◌∷◌, IfOk, IsTrue, drop, length, min, take};
ghost use Rattle.std.specs.List.{All};
ghost use Rattle.txn_types.specs.Names.{BeginsLower, IsNameByte};
ghost use Rattle.txn_types.specs.Values.{max_value};
ghost use Rattle.contract_grammar.specs.Lexer.{is_space, is_letter, is_digit, is_name_byte, decimal, begins, is_padded, number_of, named, word_in_expression, word_in_block, word_of, single, with_equals, sign_at, digits_at, name_at, token_at, placed, tokens};

use crate::token::{Extent, Mark, Operator, Placed, Token};
use std::alloc::{AllocError, Global};
use txn_types::{GrowingList, MAX, Name, OutOfMemory};

fn is_space(b: u8) -> bool
    ensures { result ≡ is_space b }
{
    b == b' ' || b == b'\t' || b == b'\n' || b == b'\r'
}

fn is_letter(b: u8) -> bool
    ensures { result ≡ is_letter b }
{
    b'a' <= b && b <= b'z'
}

fn is_digit(b: u8) -> bool
    ensures { result ≡ is_digit b }
{
    b'0' <= b && b <= b'9'
}

fn is_name_byte(b: u8) -> bool
    ensures { result ≡ is_name_byte b }
{
    is_letter(b) || is_digit(b) || b == b'_'
}

/// The number of the digits, or 2^62 for a larger one.
fn value(digits: &[u8]) -> u64
    ensures { result ≡ min (decimal 0 digits.now) (max_value + 1) }
{
    let mut value = 0u64;
    for digit in digits {
        let more = u64::from(digit.saturating_sub(b'0'));
        value = value.saturating_mul(10).saturating_add(more).min(MAX + 1);
    }
    value
}

fn is_padded(digits: &[u8]) -> bool
    ensures { result ≡ is_padded digits.now }
{
    match digits {
        [first, _, ..] => *first == b'0',
        _ => false,
    }
}

fn begins_name_byte(bytes: &[u8]) -> bool
    ensures { result ≡ begins is_name_byte bytes.now }
{
    match bytes {
        [first, ..] => is_name_byte(*first),
        [] => false,
    }
}

/// The number that digits make, with its length, before the bytes after them.
#[tactic(auto, unfolding(crate::specs::Lexer::number_of))]
fn number_of(digits: &[u8], behind: &[u8]) -> (Token, usize)
    requires { 0 < length digits.now }
    ensures value { result ≡ number_of digits.now behind.now }
    ensures some { 0 < result.1 }
    ensures bound { result.1 ≤ length digits.now }
{
    if is_padded(digits) || begins_name_byte(behind) {
        (Token::Bad, 1)
    } else {
        (Token::Number(value(digits)), digits.len())
    }
}

/// The name of these bytes.
fn named(bytes: &[u8]) -> Token
    requires first { BeginsLower bytes.now }
    requires all { All IsNameByte bytes.now }
    ensures { result ≡ named bytes.now }
{
    match Name::new(&bytes[..bytes.len().min(32)]) {
        Some(name) => Token::Named(name, bytes.len() > 32),
        None => unreachable!(),
    }
}

/// A word that is in an expression, or a name.
#[tactic(auto, unfolding(crate::specs::Lexer::word_in_expression))]
fn word_in_expression(bytes: &[u8]) -> Token
    requires first { BeginsLower bytes.now }
    requires all { All IsNameByte bytes.now }
    ensures { result ≡ word_in_expression bytes.now }
{
    if bytes == b"and".as_slice() {
        Token::Infix(Operator::And)
    } else if bytes == b"or".as_slice() {
        Token::Infix(Operator::Or)
    } else if bytes == b"not".as_slice() {
        Token::Not
    } else {
        named(bytes)
    }
}

/// A word that begins a statement, or another one.
#[tactic(auto, unfolding(crate::specs::Lexer::word_in_block))]
fn word_in_block(bytes: &[u8]) -> Token
    requires first { BeginsLower bytes.now }
    requires all { All IsNameByte bytes.now }
    ensures { result ≡ word_in_block bytes.now }
{
    if bytes == b"let".as_slice() {
        Token::Fixed(Mark::WordLet)
    } else if bytes == b"require".as_slice() {
        Token::Fixed(Mark::WordRequire)
    } else if bytes == b"if".as_slice() {
        Token::Fixed(Mark::WordIf)
    } else if bytes == b"else".as_slice() {
        Token::Fixed(Mark::WordElse)
    } else if bytes == b"repeat".as_slice() {
        Token::Fixed(Mark::WordRepeat)
    } else {
        word_in_expression(bytes)
    }
}

/// A word that is before an operation's block, or another one, or a name.
#[tactic(auto, unfolding(crate::specs::Lexer::word_of))]
fn word_of(bytes: &[u8]) -> Token
    requires first { BeginsLower bytes.now }
    requires all { All IsNameByte bytes.now }
    ensures { result ≡ word_of bytes.now }
{
    if bytes == b"op".as_slice() {
        Token::Fixed(Mark::WordOp)
    } else if bytes == b"record".as_slice() {
        Token::Fixed(Mark::WordRecord)
    } else if bytes == b"number".as_slice() {
        Token::Fixed(Mark::WordNumber)
    } else {
        word_in_block(bytes)
    }
}

/// A sign that no `=` can follow within one token.
#[tactic(auto, unfolding(crate::specs::Lexer::single))]
fn single(b: u8) -> Token
    ensures { result ≡ single b }
{
    match b {
        b'(' => Token::Open,
        b')' => Token::Close,
        b'{' => Token::Fixed(Mark::OpenBlock),
        b'}' => Token::Fixed(Mark::CloseBlock),
        b':' => Token::Fixed(Mark::Colon),
        b',' => Token::Fixed(Mark::Comma),
        b';' => Token::Fixed(Mark::Semicolon),
        b'+' => Token::Infix(Operator::Plus),
        b'-' => Token::Infix(Operator::Minus),
        b'*' => Token::Infix(Operator::Times),
        b'/' => Token::Infix(Operator::Divide),
        b'%' => Token::Infix(Operator::Remainder),
        _ => Token::Bad,
    }
}

/// One token with a `=` after its first byte, another one without.
fn with_equals(behind: &[u8], with_it: Token, alone: Token) -> (Token, usize)
    ensures value { result ≡ with_equals behind.now with_it alone }
    ensures some { 0 < result.1 }
    ensures bound { result.1 ≤ length behind.now + 1 }
{
    match behind {
        [b'=', ..] => (with_it, 2),
        _ => (alone, 1),
    }
}

/// A sign, with its length.
#[tactic(auto, unfolding(crate::specs::Lexer::sign_at))]
fn sign_at(b: u8, behind: &[u8]) -> (Token, usize)
    ensures value { result ≡ sign_at b behind.now }
    ensures some { 0 < result.1 }
    ensures bound { result.1 ≤ length behind.now + 1 }
{
    match b {
        b'=' => with_equals(
            behind,
            Token::Infix(Operator::Equal),
            Token::Fixed(Mark::Becomes),
        ),
        b'!' => with_equals(behind, Token::Infix(Operator::NotEqual), Token::Bad),
        b'<' => with_equals(
            behind,
            Token::Infix(Operator::LessEqual),
            Token::Infix(Operator::Less),
        ),
        b'>' => with_equals(
            behind,
            Token::Infix(Operator::GreaterEqual),
            Token::Infix(Operator::Greater),
        ),
        _ => (single(b), 1),
    }
}

/// How many name bytes are at the front.
fn name_len(bytes: &[u8]) -> usize
    ensures value { result ≡ length (name_at bytes.now) }
    ensures bound { result ≤ length bytes.now }
{
    bytes.iter().take_while(|b| is_name_byte(**b)).count()
}

/// The longest run of name bytes at the front.
fn name_at(bytes: &[u8]) -> &[u8]
    ensures value { result.now ≡ name_at bytes.now }
    ensures all { All IsNameByte result.now }
{
    &bytes[..name_len(bytes)]
}

/// How many digits are at the front.
fn digits_len(bytes: &[u8]) -> usize
    requires { IsTrue (begins is_digit bytes.now) }
    ensures value { result ≡ length (digits_at bytes.now) }
    ensures some { 0 < result }
    ensures bound { result ≤ length bytes.now }
{
    bytes.iter().take_while(|b| is_digit(**b)).count()
}

/// The longest token at the front, with its length.
#[tactic(auto, unfolding(crate::specs::Lexer::token_at))]
fn token_at(bytes: &[u8]) -> (Token, usize)
    requires { 0 < length bytes.now }
    ensures value { result ≡ token_at bytes.now }
    ensures some { 0 < result.1 }
    ensures bound { result.1 ≤ length bytes.now }
{
    match bytes {
        [] => (Token::Bad, 1),
        [b, behind @ ..] => {
            if is_letter(*b) {
                let name = name_at(bytes);
                (word_of(name), name.len())
            } else if is_digit(*b) {
                let (digits, behind) = bytes.split_at(digits_len(bytes));
                number_of(digits, behind)
            } else {
                sign_at(*b, behind)
            }
        }
    }
}

/// The tokens of a text of at most 65,536 bytes.
pub fn tokens(alloc: Global, text: &[u8]) -> Result<GrowingList<Placed>, OutOfMemory>
    requires { length text.now ≤ 65536 }
    ensures { IfOk result (λ all. all ≡ tokens text.now) }
{
    let mut all = GrowingList::new(alloc);
    let mut skip = 0usize;
    for (i, b) in text.iter().enumerate() {
        if skip > 0 {
            skip -= 1;
        } else if !is_space(*b) {
            let (token, len) = token_at(&text[i..]);
            let span = Extent {
                start: i as u32,
                end: (i + len) as u32,
            };
            all.push(Placed { span, token })?;
            skip = len - 1;
        }
    }
    Ok(all)
}
