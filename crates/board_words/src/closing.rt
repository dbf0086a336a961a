//! The trace: the runs by position, gathered in order of position without memory.
ghost use Rattle.std.specs.Prelude.{◌≡◌, ◌≤◌, ◌<◌, ℕ, length, map, take};
ghost use Rattle.board_work.specs.Spans.{span_of};
ghost use Rattle.script_laws.specs.Placed.{placed};
ghost use Rattle.board_words.specs.Runs.{Fills, run_at};

use board_work::{Span, Spans};

// Puts a span in its place, where there is one, and tells how many places are filled.
fn put_run(trace: &mut Spans, run: Option<Span>, count: usize) -> usize
    requires { (count < length trace.old) × (count < 256) }
    ensures same { length trace.new ≡ length trace.old }
    ensures put { Fills run count result trace.old trace.new }
{
    let Some(span) = run else {
        return count;
    };
    trace.set(count, span);
    count + 1
}

// Fills the front of the list with the runs, in order of position, and tells how many these are.
fn gather(trace: &mut Spans, runs: &[Option<Span>]) -> usize
    requires { (length runs.now ≡ length trace.old) × (length runs.now ≤ 256) }
    ensures same { length trace.new ≡ length trace.old }
    ensures count { result ≤ length trace.new }
    ensures front { map span_of (take result trace.new) ≡ placed (run_at runs.now) (length runs.now) }
{
    let mut count = 0;
    for t in 0..runs.len() {
        count = put_run(trace, runs[t], count);
    }
    count
}

// Takes out all behind the front.
fn shorten(trace: &mut Spans, count: usize)
    requires { count ≤ length trace.old }
    ensures { trace.new ≡ take count trace.old }
{
    let extra = trace.len() - count;
    for _ in 0..extra {
        let _ = trace.pop();
    }
}

/// The spans of the runs, in order of position, in the room of the list.
pub fn spans_of(mut trace: Spans, runs: &[Option<Span>]) -> Spans
    requires { (length runs.now ≡ length trace) × (length runs.now ≤ 256) }
    ensures { map span_of result ≡ placed (run_at runs.now) (length runs.now) }
{
    let count = gather(&mut trace, runs);
    shorten(&mut trace, count);
    trace
}
