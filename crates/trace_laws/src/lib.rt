//! What a plan's run gives, and the laws of lawful traces.
#![tactic(auto)]

ghost use Rattle.trace_laws.specs.Laws.{ClosureIsClosed, JoinedOneByOne, JoinedRoundsAreLawful, NextRounds, OneMoreKnown, OneMoreRound, PlainCloses, PlainSpansAreLawful};

/// The spans of rounds that follow one another, joined, are a lawful trace of all positions.
pub fn joined_rounds_are_lawful()
    ensures { JoinedRoundsAreLawful }
{}

/// The spans of one worker that runs rising positions one after another are a lawful trace.
pub fn plain_spans_are_lawful()
    ensures { PlainSpansAreLawful }
{}

/// The round of a plan that knows what an earlier one comes to is a later round.
pub fn next_rounds()
    ensures { NextRounds }
{}

/// One more round of a lawful plan, joined to the trace of what ran before and is known, leaves a lawful trace.
pub fn one_more_round()
    ensures { OneMoreRound }
{}

/// The outcomes of a plan and the spans of one worker close the plan.
pub fn plain_closes()
    ensures { PlainCloses }
{}

/// What a run leaves known is closed under predecessors, where what it began with was.
pub fn closure_is_closed()
    ensures { ClosureIsClosed }
{}

/// So is what is known with one outcome more, whose predecessors are known.
pub fn one_more_known()
    ensures { OneMoreKnown }
{}

/// Rounds may be joined one by one.
pub fn joined_one_by_one()
    ensures { JoinedOneByOne }
{}
