//! The laws of the protocol: growth, conflict order, cutting and agreement.
#![tactic(auto)]

ghost use Rattle.node_laws.specs.Admissions.{AdmissionIsMeant};
ghost use Rattle.node_laws.specs.Agreement.{Agreement, SerialPart};
ghost use Rattle.node_laws.specs.ConflictOrder.{ConflictOrder};
ghost use Rattle.node_laws.specs.Growth.{Growth};
ghost use Rattle.node_laws.specs.LawfulBodies.{LawfulBodies, LawfulPieces, NamedItemsMakeLawfulBodies};
ghost use Rattle.node_laws.specs.OneCutting.{ExactlyOneCutting, OneCutting};
ghost use Rattle.node_laws.specs.OneText.{OneText};
ghost use Rattle.node_laws.specs.OneWorld.{AllEnds, OneWorld};

/// What a log has accepted, run, agreed, known, believed and completed stays so for each longer log.
pub fn growth()
    ensures { Growth }
{}

/// A run of a plan along the dependencies has the outcomes of the serial run, for both kinds of graph.
pub fn conflict_order()
    ensures { ConflictOrder }
{}

/// Of admitted items there are no two cuttings.
pub fn one_cutting()
    ensures { OneCutting }
{}

/// With a lawful table, the answer to a request is the one that the rule gives, and no other is.
pub fn admission_is_meant()
    ensures { AdmissionIsMeant }
{}

/// With lawful limits and a lawful stream, the bodies of agreed blocks are lawful.
pub fn lawful_bodies()
    ensures { LawfulBodies }
{}

/// What the items of a lawful stream carry is lawful.
pub fn lawful_pieces()
    ensures { LawfulPieces }
{}

/// The items that a false block may name make a lawful body.
pub fn named_items_make_lawful_bodies()
    ensures { NamedItemsMakeLawfulBodies }
{}

/// Whatever is lost, repeated or reordered: where the input is tame, each vote, accepted block and known outcome is the chain's, and no peer is halted.
pub fn agreement()
    ensures { Agreement }
{}

/// Whatever is lost, repeated or reordered: where the input is tame, each peer's lines are those of the serial run of its completed blocks.
pub fn serial_part()
    ensures { SerialPart }
{}

/// Events lead to exactly one world.
pub fn one_world()
    ensures { OneWorld }
{}

/// The event `all` ends within a number of turns that the pool gives.
pub fn all_ends()
    ensures { AllEnds }
{}

/// With a lawful table and lawful limits, a list of items has exactly one cutting.
pub fn exactly_one_cutting()
    ensures { ExactlyOneCutting }
{}

/// With a lawful table and lawful limits, an input has exactly one text.
pub fn one_text()
    ensures { OneText }
{}
