//! The words of `run`.

ghost use Rattle.std.specs.Prelude.{◌≡◌, ◌∷◌, None, false, codes, map, option_map, string_bytes, IfOk, MatchOption};
ghost use Rattle.par_words.specs.OptionUses.{uses_in};
ghost use Rattle.clap.specs.Words.{app_of, found_of, rule_of};
ghost use Rattle.par_words.specs.Words.{Says, IsCommand};
ghost use Rattle.par_words.specs.CommandOptions.{run_options, run_app, IsRunOf, flag_rule, is_true};

use crate::command::Command;
use crate::number::workers_of;
use crate::options::{bare_command, find, valued};
use clap::{Arg, ArgAction, ArgMatches};
use std::alloc::{AllocError, Global};
use txn_types::OutOfMemory;

// An option without a value.
fn flag<'a>(alloc: Global, name: &'a str) -> Arg<'a>
    ensures rule { rule_of result ≡ flag_rule name.now }
    ensures global { result.global ≡ false }
{
    Arg::new(alloc, name).long(name).action(ArgAction::SetTrue)
}

fn run_command<'a>(alloc: Global) -> Result<clap::Command<'a>, AllocError>
    ensures { IfOk result (λ c. app_of c ≡ run_app) }
{
    bare_command(alloc, "run")
        .arg(valued(alloc, "workers"))?
        .arg(flag(alloc, "trace"))?
        .arg(flag(alloc, "evidence"))
}

fn is_true(text: Option<&str>) -> bool
    ensures { result ≡ is_true (option_map (λ t. t.now) text.entry) }
{
    match text {
        None => false,
        Some(text) => text == "true",
    }
}

// What clap finds, or none where the words are no options of `run`.
fn run_matches<'a>(
    alloc: Global,
    words: &'a [String],
) -> Result<Option<ArgMatches<'a>>, OutOfMemory>
    ensures { IfOk result (λ o. MatchOption o
        (uses_in run_options (map string_bytes words.entry.now) ≡ None)
        (λ m. IsRunOf (found_of m) (map string_bytes words.entry.now))) }
{
    let command = run_command(alloc)?;
    find(command, words)
}

/// The command that the word `run` and these words after it are, if they are one.
pub fn read_run(alloc: Global, words: &[String]) -> Result<Option<Command>, OutOfMemory>
    ensures { IfOk result (λ command. MatchOption command (¬ IsCommand (codes "run" ∷ map string_bytes words.now)) (Says (codes "run" ∷ map string_bytes words.now))) }
{
    let Some(matches) = run_matches(alloc, words)? else {
        return Ok(None);
    };
    let Some(workers) = workers_of(matches.get_str("workers")) else {
        return Ok(None);
    };
    let trace = is_true(matches.get_str("trace"));
    let evidence = is_true(matches.get_str("evidence"));
    Ok(Some(Command::Run {
        workers,
        trace,
        evidence,
    }))
}
