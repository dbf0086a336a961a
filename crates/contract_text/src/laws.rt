//! Laws of verdicts and of accepted contracts.

ghost use Rattle.contract_text.specs.Laws.{LimitsBoundOperations, VerdictsAreMeant, AcceptedContractsAreLawful};

/// What the tokens of a contract keep to is kept by its operations.
pub fn limits_bound_operations()
    ensures law { LimitsBoundOperations }
{}

/// A text is accepted, or has a fault, exactly where the grammar, the limits and the flaws say so.
pub fn verdicts_are_meant()
    ensures law { VerdictsAreMeant }
{}

/// The operations of a contract's text can be those of an application.
pub fn accepted_contracts_are_lawful()
    ensures law { AcceptedContractsAreLawful }
{}
