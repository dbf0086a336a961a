//! The law of completion: where few enough nodes are faulty and enough are not, an `all` lets each peer complete every block.
#![tactic(auto)]

ghost use Rattle.completion_laws.specs.TextLaws.{CalmTextsAreSerial, CalmTextsAreWhole};
ghost use Rattle.completion_laws.specs.Completion.{Completion, DeliveredCompletion};
ghost use Rattle.completion_laws.specs.CalmLaws.{CalmCompletion, CalmSerialPart, TameIsCalm};
ghost use Rattle.completion_laws.specs.Needed.{NobodyFaulty, SilentCompletion, StaffIsNeeded};
ghost use Rattle.completion_laws.specs.TextLaws.{HonestTextsAreWhole, TextsAreWhole};
ghost use Rattle.completion_laws.specs.WitnessLaws.{FewFaultyIsTame, NobodyFaultyIsStaffed, NobodyFaultyIsTame, StaffedIsCounted, StaffedIsPlain, TameIsCounted, TameIsPlain};

/// Where the input is tame and well staffed, after any events among which there is an `all`, each peer that isn't faulty has completed every block of the chain.
pub fn completion()
    ensures { Completion }
{}

/// The same after any events that leave nothing under way, by an `all` or by deliveries alone.
pub fn delivered_completion()
    ensures { DeliveredCompletion }
{}

/// The same where few enough nodes say something of their own, however many are faulty and silent.
pub fn calm_completion()
    ensures { CalmCompletion }
{}

/// Where few enough nodes say something of their own, however many are faulty and silent, each peer's lines are those of the serial run of its completed blocks.
pub fn calm_serial_part()
    ensures { CalmSerialPart }
{}

/// Where the input is tame and well staffed, and the schedule has an `all`, the lines of each peer that isn't faulty are those of the serial run of the whole chain.
pub fn texts_are_whole()
    ensures { TextsAreWhole }
{}

/// Where few enough nodes say something of their own, however many are faulty and silent, the lines of each peer that isn't faulty are those of the serial run of the blocks that it completed.
pub fn calm_texts_are_serial()
    ensures { CalmTextsAreSerial }
{}

/// Where the input is besides well staffed, and the schedule has an `all`, they are those of the serial run of the whole chain.
pub fn calm_texts_are_whole()
    ensures { CalmTextsAreWhole }
{}

/// Where nobody is faulty and the schedule has an `all`, the lines of each peer are those of the serial run of the whole chain.
pub fn honest_texts_are_whole()
    ensures { HonestTextsAreWhole }
{}

/// Where nobody is faulty, an input is tame and well staffed.
pub fn nobody_faulty()
    ensures { NobodyFaulty }
{}

/// Where each faulty node is silent, a peer completes every block only where the input is well staffed.
pub fn staff_is_needed()
    ensures { StaffIsNeeded }
{}

/// Where each faulty node is silent and there is an `all`, a peer completes every block exactly where the input is well staffed.
pub fn silent_completion()
    ensures { SilentCompletion }
{}

/// A tame input is calm, where faulty nodes alone say what they like.
pub fn tame_is_calm()
    ensures { TameIsCalm }
{}

/// An input is tame exactly where few nodes are named faulty, counted at its agreed blocks.
pub fn tame_is_counted()
    ensures { TameIsCounted }
{}

/// A lawful input is well staffed exactly where enough nodes aren't named faulty, counted at its agreed blocks.
pub fn staffed_is_counted()
    ensures { StaffedIsCounted }
{}

/// Where the stream has no configuration, an input is tame exactly where few nodes are named faulty, counted by the agents that the table has.
pub fn tame_is_plain()
    ensures { TameIsPlain }
{}

/// Where the stream has no configuration, a lawful input is well staffed exactly where enough nodes aren't named faulty, counted by the agents that the table has.
pub fn staffed_is_plain()
    ensures { StaffedIsPlain }
{}

/// Where the stream has no configuration, and fewer orderers than the quorum and of each application of the table fewer agents than are to agree are named faulty, a lawful input is tame.
pub fn few_faulty_is_tame()
    ensures { FewFaultyIsTame }
{}

/// A lawful input in which no node is named faulty is tame.
pub fn nobody_faulty_is_tame()
    ensures { NobodyFaultyIsTame }
{}

/// A lawful input in which no node is named faulty is well staffed.
pub fn nobody_faulty_is_staffed()
    ensures { NobodyFaultyIsStaffed }
{}
