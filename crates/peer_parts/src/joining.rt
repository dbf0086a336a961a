//! The spans of a round joined to those of the rounds before it.

ghost use Rattle.std.specs.Prelude.{◌≡◌, ◌<◌, ◌≤◌, ◌+◌, ◌^◌, [], ◌∷◌, length, map, OnOk};
ghost use Rattle.std.specs.List.{All, insert};
ghost use Rattle.board_defs.specs.Rounds.{joined_rounds, put_span, raised_span};
ghost use Rattle.board_work.specs.Spans.{span_of};
ghost use Rattle.peer_parts.specs.Joining.{IsShort, put_spans};
ghost use Rattle.board_work.specs.declared.plan.Span.{Span};

use board_work::{Span, Spans};
use std::alloc::Global;
use txn_types::OutOfMemory;

/// Where a span of position `t` belongs: before the first of a later position.
fn place_of(spans: &[Span], t: u16) -> usize
    ensures range { result ≤ length spans.now }
    ensures place { (s : Span) → s.t ≡ t → put_span (span_of s) (map span_of spans.now) ≡ map span_of (insert spans.now result s) }
{
    for i in 0..spans.len() {
        if t < spans[i].t {
            return i;
        }
    }
    spans.len()
}

/// Puts a span where it belongs by position.
fn put(spans: &mut Spans, span: Span) -> Result<(), OutOfMemory>
    ensures { OnOk result (map span_of spans.new ≡ put_span (span_of span) (map span_of spans.old)) }
{
    let place = place_of(spans.as_slice(), span.t);
    spans.insert(place, span)?;
    Ok(())
}

fn raise(span: Span, by: u64) -> Span
    requires begin { by + span.begin < 2 ^ 64 }
    requires finish { by + span.finish < 2 ^ 64 }
    ensures { span_of result ≡ raised_span by (span_of span) }
{
    Span {
        t: span.t,
        worker: span.worker,
        begin: by + span.begin,
        finish: by + span.finish,
    }
}

/// Puts each of these spans where it belongs by position, with its stamps raised.
fn put_each(all: &mut Spans, spans: &mut Spans, by: u64) -> Result<(), OutOfMemory>
    requires by { by ≤ 512 }
    requires short { IsShort spans.old }
    ensures { OnOk result (map span_of all.new ≡ put_spans (map (raised_span by) (map span_of spans.old)) (map span_of all.old)) }
{
    while let Some(span) = spans.pop() {
        put(all, raise(span, by))?;
    }
    Ok(())
}

/// Joins the spans of a round to those before it.
pub fn join(alloc: Global, spans: &mut Spans, mut round: Spans) -> Result<(), OutOfMemory>
    requires short { IsShort spans.old }
    requires round { IsShort round }
    ensures { OnOk result (map span_of spans.new ≡ joined_rounds (map span_of spans.old ∷ map span_of round ∷ [])) }
{
    let before = 2 * spans.len() as u64;
    let mut all = Spans::new(alloc);
    put_each(&mut all, &mut round, before)?;
    put_each(&mut all, spans, 0)?;
    *spans = all;
    Ok(())
}
