//! The law of the steps of a holder.

ghost use Rattle.commit_batches.specs.Cuts.{CutTheVotes};

/// Over any list of steps the COMMITs handed out and what is held are the added votes, cut where the steps cut.
pub fn steps_cut_the_votes()
    ensures law { CutTheVotes }
{}
