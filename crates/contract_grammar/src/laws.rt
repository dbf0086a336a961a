//! Laws of tokens, trees and readings.

ghost use Rattle.contract_grammar.specs.Laws.{TokensAreMeant, SentencesHaveOneTree, ReadingsAreMeant, ReadingsAreDetermined, TalliesCount};

/// The tokens of a text follow one another in it, with spaces between them, and each is as long as it can be.
pub fn tokens_are_meant()
    ensures law { TokensAreMeant }
{}

/// A sentence has one tree.
pub fn sentences_have_one_tree()
    ensures law { SentencesHaveOneTree }
{}

/// The reading of a text is what the grammar, the limits and the positions of faults say.
pub fn readings_are_meant()
    ensures law { ReadingsAreMeant }
{}

/// A text is a contract with one tree, or has one first fault at one byte.
pub fn readings_are_determined()
    ensures law { ReadingsAreDetermined }
{}

/// What is counted of operations and commas over some tokens is their number.
pub fn tallies_count()
    ensures law { TalliesCount }
{}
