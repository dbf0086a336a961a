//! The options of a command, read with clap.

ghost use Rattle.std.specs.Prelude.{◌≡◌, ◌≢◌, ⊤, None, true, false, map, string_bytes, IfOk, MatchOption, MatchResult};
ghost use Rattle.std.specs.List.{list_any};
ghost use Rattle.clap.specs.Words.{app_of, found_of, is_simple, is_simple_and_free, rule_of};
ghost use Rattle.par_words.specs.OptionUses.{is_stray};
ghost use Rattle.par_words.specs.CommandOptions.{bare_app, valued_rule, IsFound, IsNoneFound};

use clap::error::ErrorKind;
use clap::{Arg, ArgAction, ArgMatches, Command};
use std::alloc::Global;
use txn_types::OutOfMemory;

// A word that no command has, and that clap would take or look into by its letters.
fn is_stray(word: &str) -> bool
    ensures { result ≡ is_stray word.now }
{
    match word.as_bytes() {
        [b'-'] | [b'-', b'-'] => true,
        [b'-', b'-', ..] => false,
        [b'-', ..] => true,
        _ => false,
    }
}

fn has_stray(words: &[String]) -> bool
    ensures { result ≡ list_any (λ w. is_stray (string_bytes w)) words.now }
{
    words.iter().any(|word| is_stray(word.as_str()))
}

/// A command with no options yet, and with no word for help or the version.
pub fn bare_command<'a>(alloc: Global, name: &'a str) -> Command<'a>
    ensures { app_of result ≡ bare_app name.now }
{
    Command::new(alloc, name)
        .no_binary_name(true)
        .disable_help_flag(true)
        .disable_version_flag(true)
}

/// An option with a value.
pub fn valued<'a>(alloc: Global, name: &'a str) -> Arg<'a>
    ensures rule { rule_of result ≡ valued_rule name.now }
    ensures global { result.global ≡ false }
{
    Arg::new(alloc, name).long(name).action(ArgAction::Set)
}

// Each of clap's faults but want of memory is one of the words.
fn refused<T>(kind: ErrorKind) -> Result<Option<T>, OutOfMemory>
    ensures { MatchResult result (λ o. (o ≡ None) × (kind ≢ ErrorKind.OutOfMemory)) (λ _. ⊤) }
{
    if kind == ErrorKind::OutOfMemory {
        Err(OutOfMemory)
    } else {
        Ok(None)
    }
}

/// What clap finds, or none where it refuses the words or one of them is stray.
pub fn find<'a>(
    command: Command<'a>,
    words: &'a [String],
) -> Result<Option<ArgMatches<'a>>, OutOfMemory>
    requires simple { is_simple (app_of command) ≡ true }
    requires free { is_simple_and_free (app_of command) ≡ true }
    ensures { IfOk result (λ o. MatchOption o (IsNoneFound (app_of command.entry) (map string_bytes words.entry.now))
        (λ m. IsFound (app_of command.entry) (found_of m) (map string_bytes words.entry.now))) }
{
    if has_stray(words) {
        return Ok(None);
    }
    match command.try_get_matches_from(words) {
        Ok(matches) => Ok(Some(matches)),
        Err(error) => refused(error.kind()),
    }
}
