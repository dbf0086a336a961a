//! Laws of canonical texts.

ghost use Rattle.contract_printer.specs.Laws.{ContractsHaveOneCanonicalText, CanonicalTextsAreShortest, CanonicalTextsHaveTheirTokens, CanonicalTextsReadAsTheirContracts};

/// Texts that are one contract have one canonical text.
pub fn contracts_have_one_canonical_text()
    ensures law { ContractsHaveOneCanonicalText }
{}

/// No text of a contract is shorter than its canonical text.
pub fn canonical_texts_are_shortest()
    ensures law { CanonicalTextsAreShortest }
{}

/// The tokens of a canonical text are those that it was made of.
pub fn canonical_texts_have_their_tokens()
    ensures law { CanonicalTextsHaveTheirTokens }
{}

/// The canonical text of a contract is a text of it.
pub fn canonical_texts_read_as_their_contracts()
    ensures law { CanonicalTextsReadAsTheirContracts }
{}
