//! What the core of a board knows of a plan is right, and what its closing comes to is what the plan's definitions say.
#![tactic(auto)]

ghost use Rattle.script_laws.specs.Laws.{ScriptsAreSound, TracesAreLawful, VersionsAreKept};

/// The rule of a board can be put over the script of a plan, of kind full where the words keep values.
pub fn scripts_are_sound()
    ensures { ScriptsAreSound }
{}

/// The runs of the last pass, in order of position, are a lawful trace.
pub fn traces_are_lawful()
    ensures { TracesAreLawful }
{}

/// Where the words keep versions, each is as meant once its writer is finished, and each earlier writer of what a taken position reads is known or finished.
pub fn versions_are_kept()
    ensures { VersionsAreKept }
{}
