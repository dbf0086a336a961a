//! The words of `soak`.

ghost use Rattle.std.specs.Prelude.{ℕ, ◌≡◌, ◌∷◌, None, codes, map, option_map, string_bytes, IfOk, MatchOption};
ghost use Rattle.par_words.specs.OptionUses.{uses_in};
ghost use Rattle.clap.specs.Words.{app_of, found_of};
ghost use Rattle.par_words.specs.Words.{Says, IsCommand, IsSeed, IsNumberOfTxns};
ghost use Rattle.par_words.specs.CommandOptions.{soak_options, soak_app, IsSoakOf, Writes};

use crate::command::Command;
use crate::number::{number, workers_of};
use crate::options::{bare_command, find, valued};
use clap::ArgMatches;
use std::alloc::{AllocError, Global};
use txn_types::OutOfMemory;

fn soak_command<'a>(alloc: Global) -> Result<clap::Command<'a>, AllocError>
    ensures { IfOk result (λ c. app_of c ≡ soak_app) }
{
    bare_command(alloc, "soak")
        .arg(valued(alloc, "seed"))?
        .arg(valued(alloc, "txns"))?
        .arg(valued(alloc, "workers"))
}

fn seed_of(text: Option<&str>) -> Option<u16>
    ensures { MatchOption result ((n : ℕ) → ¬ Writes IsSeed (option_map (λ t. t.now) text.entry) n) (Writes IsSeed (option_map (λ t. t.now) text.entry)) }
{
    number(text?, 0, 65535)
}

fn txns_of(text: Option<&str>) -> Option<u16>
    ensures { MatchOption result ((n : ℕ) → ¬ Writes IsNumberOfTxns (option_map (λ t. t.now) text.entry) n) (Writes IsNumberOfTxns (option_map (λ t. t.now) text.entry)) }
{
    number(text?, 1, 4096)
}

// What clap finds, or none where the words are no options of `soak`.
fn soak_matches<'a>(
    alloc: Global,
    words: &'a [String],
) -> Result<Option<ArgMatches<'a>>, OutOfMemory>
    ensures { IfOk result (λ o. MatchOption o
        (uses_in soak_options (map string_bytes words.entry.now) ≡ None)
        (λ m. IsSoakOf (found_of m) (map string_bytes words.entry.now))) }
{
    let command = soak_command(alloc)?;
    find(command, words)
}

/// The command that the word `soak` and these words after it are, if they are one.
pub fn read_soak(alloc: Global, words: &[String]) -> Result<Option<Command>, OutOfMemory>
    ensures { IfOk result (λ command. MatchOption command (¬ IsCommand (codes "soak" ∷ map string_bytes words.now)) (Says (codes "soak" ∷ map string_bytes words.now))) }
{
    let Some(matches) = soak_matches(alloc, words)? else {
        return Ok(None);
    };
    let Some(seed) = seed_of(matches.get_str("seed")) else {
        return Ok(None);
    };
    let Some(txns) = txns_of(matches.get_str("txns")) else {
        return Ok(None);
    };
    let Some(workers) = workers_of(matches.get_str("workers")) else {
        return Ok(None);
    };
    Ok(Some(Command::Soak {
        seed,
        txns,
        workers,
    }))
}
