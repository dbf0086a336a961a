//! The laws of evidence.
#![tactic(auto)]

ghost use Rattle.evidence_laws.specs.Innocence.{Innocence};
ghost use Rattle.evidence_laws.specs.OneEvidence.{OneEvidence};

/// Whatever is lost, repeated or reordered, and whoever is faulty: a node that isn't named faulty is in no peer's evidence.
pub fn innocence()
    ensures { Innocence }
{}

/// Of one log there is one evidence.
pub fn one_evidence()
    ensures { OneEvidence }
{}
