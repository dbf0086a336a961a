//! The command that words are.

ghost use Rattle.std.specs.Prelude.{◌≡◌, ◌∷◌, codes, map, string_bytes, IfOk, IfSome, MatchOption};
ghost use Rattle.par_words.specs.Words.{Says, IsCommand, IsInRange, SayOneCommand};

use crate::run::read_run;
use crate::soak::read_soak;
use std::alloc::Global;
use txn_types::OutOfMemory;

/// What the program is asked to do.
#[derive(Clone, Copy, Debug, PartialEq, Eq)]
pub enum Command {
    /// Runs a document with this number of workers, and prints what each peer comes to, who was seen to say two different things where evidence is asked for, and what ran where it is traced.
    Run {
        workers: u8,
        trace: bool,
        evidence: bool,
    },
    /// Prints the agreed blocks of a document, with what each transaction depends on.
    Graph,
    /// Runs an input that is made from this seed, with so many transactions and workers, and prints a summary of it.
    Soak {
        seed: u16,
        txns: u16,
        workers: u8,
    },
}

// `graph` has no options.
fn read_graph(words: &[String]) -> Option<Command>
    ensures { MatchOption result (¬ IsCommand (codes "graph" ∷ map string_bytes words.now)) (Says (codes "graph" ∷ map string_bytes words.now)) }
{
    if words.is_empty() {
        Some(Command::Graph)
    } else {
        None
    }
}

// The command that a first word and those behind it are.
fn read_command(alloc: Global, first: &str, rest: &[String]) -> Result<Option<Command>, OutOfMemory>
    ensures { IfOk result (λ command. MatchOption command (¬ IsCommand (first.now ∷ map string_bytes rest.now)) (Says (first.now ∷ map string_bytes rest.now))) }
{
    match first {
        "run" => read_run(alloc, rest),
        "graph" => Ok(read_graph(rest)),
        "soak" => read_soak(alloc, rest),
        _ => Ok(None),
    }
}

/// The command that the words are, if they are one.
#[tactic(auto, using(crate::proofs::Commands::in_range))]
pub fn command_of(alloc: Global, words: &[String]) -> Result<Option<Command>, OutOfMemory>
    ensures says { IfOk result (λ command. MatchOption command (¬ IsCommand (map string_bytes words.now)) (Says (map string_bytes words.now))) }
    ensures range { IfOk result (λ command. IfSome command IsInRange) }
{
    match words {
        [] => Ok(None),
        [first, rest @ ..] => read_command(alloc, first.as_str(), rest),
    }
}

/// Words are at most one command.
#[tactic(auto, using(crate::proofs::Commands::one_command))]
pub fn words_are_one_command()
    ensures law { SayOneCommand }
{}
