//! The top call.

ghost use Rattle.std.specs.Prelude.{◌≡◌, ◌≤◌, ◌<◌, ◌⊎◌, ◌↔◌, ◌≢◌, Bool, true, List, ℕ, Some, length, map, string_bytes, IfOk, IfErr};
ghost use Rattle.par_io.specs.Causes.{Rose};
ghost use Rattle.input_doc.specs.Inputs.{Input};
ghost use Rattle.doc_forms.specs.Faults.{Fault};
ghost use Rattle.input_doc.specs.Means.{Means};
ghost use Rattle.input_doc.specs.FirstFaults.{HasFault};
ghost use Rattle.par_words.specs.declared.command.Command.TheVariants.{Run, Soak};
ghost use Rattle.par_words.specs.Words.{Says, IsCommand, IsInRange};
ghost use Rattle.par_top.specs.Sayable.{CanSay};
ghost use Rattle.par_top.specs.Endings.{Ends, IsNoText};
ghost use Rattle.par_top.specs.Refusals.{IsReadFault, IsRefusal, IsRefusedFor, Reads, too_long};
ghost use Rattle.par_top.specs.Texts.{OfCommand, IsHeadline, IsWrittenPart, Prints};
ghost use Rattle.par_top.specs.Headline.{IsSerialHeadline, document_limit};
ghost use Rattle.par_top.specs.WholeHeadline.{IsWholeHeadline};
ghost use Rattle.par_top.specs.CalmHeadline.{IsCalmHeadline};
ghost use Rattle.par_top.specs.InnocentHeadline.{IsInnocentHeadline};

use crate::document::read_document;
use crate::{DocFault, Gate, Status};
use command_text::{graph_report, run_text, soak_summary};
use par_io::{Sink, Source, write_all};
use par_words::{Command, command_of};
use std::alloc::Global;
use std::thread::Threads;
use txn_types::Text;

// The text of a command, or why there is none: of the document that the source has, and for `soak`, which leaves the source alone, of an input that it makes.
fn text_of<R: Threads + Sync, S: Source, G: Gate>(
    rt: &R,
    alloc: Global,
    command: Command,
    source: &mut S,
    gate: &G,
) -> Result<Text, Status>
    requires range { IsInRange command }
    ensures text { IfOk result (Prints command (S.rest source.old) (S.rest source.new)) }
    ensures none { IfErr result (IsNoText (Reads command) (S.faults source.old) (S.faults source.new) (S.rest source.old) (S.rest source.new)) }
    ensures unread { Reads command ⊎ (source.new ≡ source.old) }
{
    match command {
        Command::Run {
            workers,
            trace,
            evidence,
        } => {
            let input = read_document(alloc, source)?;
            let text = run_text(rt, alloc, &input, workers, trace, evidence, gate)?;
            Ok(text)
        }
        Command::Graph => {
            let input = read_document(alloc, source)?;
            let text = graph_report(alloc, &input)?;
            Ok(text)
        }
        Command::Soak {
            seed,
            txns,
            workers,
        } => {
            let text = soak_summary(rt, alloc, seed, txns, workers, gate)?;
            Ok(text)
        }
    }
}

fn run_command<R: Threads + Sync, S: Source, K: Sink, G: Gate>(
    rt: &R,
    alloc: Global,
    command: Command,
    source: &mut S,
    sink: &mut K,
    gate: &G,
) -> Status
    requires range { IsInRange command }
    ensures ends { Ends command (S.faults source.old) (S.faults source.new) (K.faults sink.old) (K.faults sink.new) (S.rest source.old) (S.rest source.new) (K.written sink.old) (K.written sink.new) (sink.new ≡ sink.old) result }
    ensures unread { Reads command ⊎ (source.new ≡ source.old) }
{
    let text = match text_of(rt, alloc, command, source, gate) {
        Ok(text) => text,
        Err(status) => return status,
    };
    if write_all(sink, text.as_slice()).is_err() {
        return Status::WriteFault;
    }
    Status::Ok
}

/// Does what the words say. Over a document that it reads from the source, `run` plays its schedule and writes what each peer that isn't faulty comes to, and `graph` writes its agreed blocks with their graphs. `soak` reads nothing: it plays an input that it makes from a seed, and writes a summary. `--workers` says how many workers a peer has, which changes no byte but those of the trace, `--evidence` adds who was seen to say two different things, and `--trace` adds what ran with each delivery, by which worker.
#[tactic(auto, using(crate::proofs::Endings::ended_ok, crate::proofs::Endings::ended_in_part, crate::proofs::Endings::no_usage, crate::proofs::Endings::ended_refused, crate::proofs::Endings::ended_unread, crate::proofs::Endings::sayable_so, crate::proofs::Endings::nothing_so))]
pub fn run<R: Threads + Sync, S: Source, K: Sink, G: Gate>(
    rt: &R,
    alloc: Global,
    words: &[String],
    source: &mut S,
    sink: &mut K,
    gate: &G,
) -> Status
    // The headline, for each number of workers: where few enough nodes are faulty, each peer that isn't printed exactly the blocks that it holds quorums for, with the outcomes of running their transactions one after another, whatever the schedule loses, repeats or reorders. What is said of these lines doesn't name the workers.
    ensures serial { result ≡ Status.Ok → (workers : ℕ) (traced evident : Bool) → Says (map string_bytes words.now) (Run workers traced evident) → IsSerialHeadline traced evident (S.rest source.old) (S.rest source.new) (K.written sink.old) (K.written sink.new) }

    // The other half: where besides enough nodes aren't faulty and the schedule has an `all`, each of these peers printed every block of the chain, whatever else is lost, repeated, reordered or said falsely.
    ensures whole { result ≡ Status.Ok → (workers : ℕ) (traced evident : Bool) → Says (map string_bytes words.now) (Run workers traced evident) → IsWholeHeadline traced evident (S.rest source.old) (S.rest source.new) (K.written sink.old) (K.written sink.new) }

    // The headline of a document that names any number of nodes that stay silent: only nodes that say something of their own in the schedule are counted.
    ensures calm { result ≡ Status.Ok → (workers : ℕ) (traced evident : Bool) → Says (map string_bytes words.now) (Run workers traced evident) → IsCalmHeadline traced evident (S.rest source.old) (S.rest source.new) (K.written sink.old) (K.written sink.new) }

    // Nobody innocent: where evidence is asked for, no line of it names a node that the document doesn't name faulty, whatever the document and its schedule.
    ensures innocent { result ≡ Status.Ok → (workers : ℕ) (traced : Bool) → Says (map string_bytes words.now) (Run workers traced true) → IsInnocentHeadline workers traced (S.rest source.old) (S.rest source.new) (K.written sink.old) (K.written sink.new) }

    // The whole text: of a document that was read to its end, whoever is faulty, with the evidence of each peer that isn't faulty and its trace in bursts of these workers, or of the input that a seed makes.
    ensures ok { result ≡ Status.Ok → OfCommand (map string_bytes words.now) (λ command. IsHeadline command (S.rest source.old) (S.rest source.new) (K.written sink.old) (K.written sink.new)) }

    // Usage exactly where the words are no command, unless memory is wanted; with such words nothing is touched.
    ensures usage { (result ≡ Status.Usage) ↔ ((¬ IsCommand (map string_bytes words.now)) × (result ≢ Status.OutOfMemory)) }
    ensures untouched { ¬ IsCommand (map string_bytes words.now) → (source.new ≡ source.old) × (sink.new ≡ sink.old) }

    // A refusal is of a command that reads a document, and has its cause in what was read, and a fault in the object that failed; before a read fault came no more bytes than a document has. Want of memory is no refusal.
    ensures sayable { CanSay result }
    ensures refused { (fault : DocFault) → result ≡ Status.Refused fault → OfCommand (map string_bytes words.now) Reads × IsRefusal (S.rest source.old) (S.rest source.new) fault }
    ensures read_fault { result ≡ Status.ReadFault → OfCommand (map string_bytes words.now) Reads × IsReadFault (S.faults source.old) (S.faults source.new) (S.rest source.old) (S.rest source.new) }
    ensures write_fault { result ≡ Status.WriteFault → Rose (K.faults sink.old) (K.faults sink.new) }

    // What was written is a part from the front of the text, and with every other answer nothing.
    ensures part { result ≡ Status.WriteFault → OfCommand (map string_bytes words.now) (λ command. IsWrittenPart command (S.rest source.old) (S.rest source.new) (K.written sink.old) (K.written sink.new)) }
    ensures nothing { (result ≡ Status.Ok) ⊎ ((result ≡ Status.WriteFault) ⊎ (sink.new ≡ sink.old)) }

    // `soak` leaves the source alone, and is answered, unless memory is wanted or a fault of the sink was counted.
    ensures soak { (seed txns workers : ℕ) → Says (map string_bytes words.now) (Soak seed txns workers) → (source.new ≡ source.old)
        × (¬ Rose (K.faults sink.old) (K.faults sink.new) → (result ≡ Status.Ok) ⊎ (result ≡ Status.OutOfMemory)) }

    // A document that has a meaning is answered, unless memory is wanted or a fault was counted.
    ensures complete { (command : Command) (bytes : List ℕ) (input : Input) → Says (map string_bytes words.now) command → Reads command → S.rest source.old ≡ Some bytes → length bytes ≤ document_limit → Means bytes input
        → ¬ Rose (S.faults source.old) (S.faults source.new) → ¬ Rose (K.faults sink.old) (K.faults sink.new)
        → (result ≡ Status.Ok) ⊎ (result ≡ Status.OutOfMemory) }

    // One that has a fault is refused for it, unless memory is wanted or a fault was counted.
    ensures faulty { (command : Command) (bytes : List ℕ) (fault : Fault) → Says (map string_bytes words.now) command → Reads command → S.rest source.old ≡ Some bytes → length bytes ≤ document_limit → HasFault bytes fault
        → ¬ Rose (S.faults source.old) (S.faults source.new)
        → IsRefusedFor result fault ⊎ (result ≡ Status.OutOfMemory) }

    // More bytes than a document has are refused for that, whatever they are.
    ensures too_long { (command : Command) (bytes : List ℕ) → Says (map string_bytes words.now) command → Reads command → S.rest source.old ≡ Some bytes → document_limit < length bytes
        → ¬ Rose (S.faults source.old) (S.faults source.new)
        → (result ≡ Status.Refused too_long) ⊎ (result ≡ Status.OutOfMemory) }
{
    match command_of(alloc, words) {
        Ok(Some(command)) => run_command(rt, alloc, command, source, sink, gate),
        Ok(None) => Status::Usage,
        Err(_) => Status::OutOfMemory,
    }
}
