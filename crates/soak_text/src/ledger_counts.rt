//! What is counted over a ledger, and the hash of its last block.

ghost use Rattle.std.specs.Prelude.{◌≡◌, not, count_by};
ghost use Rattle.std.specs.List.{All};
ghost use Rattle.oxii_defs.specs.State.{State};
ghost use Rattle.node_defs.specs.Accepted.{tip};
ghost use Rattle.node_defs.specs.Programs.{rules_of};
ghost use Rattle.txn_core.specs.MeantTable.{table_of};
ghost use Rattle.hash_ledger.specs.Ledgers.{completed_of, IsLawfulEntry};
ghost use Rattle.soak_text.specs.Summary.{is_commit, commits, aborts};

use hash_ledger::{Ledger, block_hash};
use txn_core::Table;
use txn_types::Outcome;

fn is_commit(outcome: &Outcome) -> bool
    ensures { result ≡ is_commit outcome.now }
{
    match outcome {
        Outcome::Commit(_) => true,
        Outcome::Abort(_) => false,
    }
}

fn commits_of(outcomes: &[Outcome]) -> usize
    ensures { result ≡ count_by is_commit outcomes.now }
{
    outcomes.iter().filter(|outcome| is_commit(outcome)).count()
}

fn aborts_of(outcomes: &[Outcome]) -> usize
    ensures { result ≡ count_by (λ o. not (is_commit o)) outcomes.now }
{
    outcomes
        .iter()
        .filter(|outcome| !is_commit(outcome))
        .count()
}

/// How many transactions of a ledger committed.
pub fn commits(ledger: &Ledger) -> u128
    ensures { result ≡ commits (completed_of ledger.now) }
{
    let mut count = 0u128;
    for i in 0..ledger.len() {
        count += commits_of(ledger.outcomes(i).as_slice()) as u128;
    }
    count
}

/// How many aborted.
pub fn aborts(ledger: &Ledger) -> u128
    ensures { result ≡ aborts (completed_of ledger.now) }
{
    let mut count = 0u128;
    for i in 0..ledger.len() {
        count += aborts_of(ledger.outcomes(i).as_slice()) as u128;
    }
    count
}

/// The hash of the last block of a ledger, or 32 zero bytes where it has none.
pub fn tip(table: &Table, ledger: &Ledger) -> [u8; 32]
    requires { All (IsLawfulEntry (table_of table.now)) ledger.now }
    ensures { (genesis : State) → result ≡ tip (rules_of (table_of table.now) genesis) (completed_of ledger.now) }
{
    let count = ledger.len();
    if count == 0 {
        [0; 32]
    } else {
        block_hash(table, ledger.block(count - 1))
    }
}
