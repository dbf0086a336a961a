//! Numbers of command words.

ghost use Rattle.std.specs.Prelude.{ℕ, ◌≡◌, ◌≤◌, ◌<◌, decimal, option_map, MatchOption};
ghost use Rattle.std.specs.List.{list_all};
ghost use Rattle.std.specs.Char.{is_ascii_digit};
ghost use Rattle.par_words.specs.Numerals.{is_plain};
ghost use Rattle.par_words.specs.CommandOptions.{WritesWorkers};

fn all_digits(text: &[u8]) -> bool
    ensures { result ≡ list_all is_ascii_digit text.now }
{
    text.iter().all(|byte| byte.is_ascii_digit())
}

// Digits, of which 0 is the first only where it is the only one.
fn is_plain(text: &[u8]) -> bool
    ensures { result ≡ is_plain text.now }
{
    all_digits(text) && (text.len() == 1 || (text.len() > 1 && text[0] != b'0'))
}

// The number below 65536 that a text writes, without sign and leading zeros.
#[tactic(auto, using(crate::proofs::Numbers::only_plain))]
fn plain_number(text: &str) -> Option<u16>
    ensures { MatchOption result ((n : ℕ) → n < 65536 → ¬ (text.now ≡ decimal n)) (λ n. text.now ≡ decimal n) }
{
    if !is_plain(text.as_bytes()) {
        return None;
    }
    text.parse::<u16>().ok()
}

/// The number from `low` to `high` that a text writes, without sign and leading zeros.
pub fn number(text: &str, low: u16, high: u16) -> Option<u16>
    ensures { MatchOption result ((n : ℕ) → (low ≤ n) × (n ≤ high) → ¬ (text.now ≡ decimal n)) (λ n. ((low ≤ n) × (n ≤ high)) × (text.now ≡ decimal n)) }
{
    let number = plain_number(text)?;
    if low <= number && number <= high {
        Some(number)
    } else {
        None
    }
}

/// The number of workers that an option's text writes, and 4 where it isn't given.
pub fn workers_of(text: Option<&str>) -> Option<u8>
    ensures { MatchOption result ((n : ℕ) → ¬ WritesWorkers (option_map (λ t. t.now) text.entry) n) (WritesWorkers (option_map (λ t. t.now) text.entry)) }
{
    match text {
        None => Some(4),
        Some(text) => Some(number(text, 1, 16)? as u8),
    }
}
