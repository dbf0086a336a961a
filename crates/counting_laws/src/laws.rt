//! Laws of the first of each sender, and of the first to reach a count.

ghost use Rattle.counting_laws.specs.Laws.{SendersStay, ReachedStays};

/// Dropping all but the first of each sender loses no sender.
pub fn senders_stay<A>()
    ensures law { SendersStay A }
{}

/// What has reached the count first stays the first, whatever comes later.
pub fn reached_stays<A>()
    ensures law { ReachedStays A }
{}
