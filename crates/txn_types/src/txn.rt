//! Transactions, and their outcomes.

ghost use Rattle.std.specs.Prelude.{◌≡◌};
ghost use Rattle.txn_types.specs.Fitting.{fit_entries, is_fit};

use crate::{FixedList, GrowingList, MAX, RisingList};

/// Which pairs of a block's transactions depend on each other: those of every conflict, or those that read what was written.
#[derive(Clone, Copy, Debug, PartialEq, Eq)]
pub enum Kind {
    Full,
    Raw,
}

/// Why an operation aborts.
#[derive(Clone, Copy, Debug, PartialEq, Eq)]
pub enum Reason {
    Require,
    Overflow,
    Underflow,
    ZeroDivisor,
    Undeclared,
}

/// An argument: a record by its number in the table, or a number.
#[derive(Clone, Copy, Debug, PartialEq, Eq)]
pub enum Arg {
    Rec(u16),
    Num(u64),
}

impl Default for Arg {
    fn default() -> Arg {
        Arg::Num(0)
    }
}

/// At most 16 arguments.
pub type Args = FixedList<Arg, 16>;

/// At most 16 record numbers, strictly rising.
pub type Recs = RisingList<u16, 16>;

/// At most 16 peers by their positions in the table, strictly rising.
pub type PeerSet = RisingList<u8, 16>;

/// For each of at most 16 records its new value, or none where it was not written.
pub type Writes = FixedList<Option<u64>, 16>;

/// A call of an application's operation, with the records that it says to read and to write.
#[derive(PartialEq, Eq, Drop)]
pub struct Txn {
    pub app: u8,
    pub op: u8,
    pub args: Args,
    pub reads: Recs,
    pub writes: Recs,
}

impl Txn {
    pub fn copy(&self) -> Txn
        ensures { result ≡ self.now }
    {
        Txn {
            app: self.app,
            op: self.op,
            args: self.args.copy(),
            reads: self.reads.copy(),
            writes: self.writes.copy(),
        }
    }
}

/// What a transaction comes to: a commit with an entry for each record of its write set, or an abort.
#[derive(PartialEq, Eq, Drop)]
pub enum Outcome {
    Commit(Writes),
    Abort(Reason),
}

impl Outcome {
    pub fn copy(&self) -> Outcome
        ensures { result ≡ self.now }
    {
        match self {
            Outcome::Commit(writes) => Outcome::Commit(writes.copy()),
            Outcome::Abort(reason) => Outcome::Abort(*reason),
        }
    }

    /// Whether it can be the outcome of the transaction: an abort, or an entry up to `MAX` for each record that it writes.
    pub fn fits(&self, txn: &Txn) -> bool
        ensures { result ≡ is_fit txn.now self.now }
    {
        match self {
            Outcome::Commit(writes) => fit_entries(txn.writes.as_slice(), writes.as_slice()),
            Outcome::Abort(_) => true,
        }
    }
}

fn fit_entries(records: &[u16], entries: &[Option<u64>]) -> bool
    ensures { result ≡ fit_entries records.now entries.now }
{
    let [_, records @ ..] = records else {
        return entries.is_empty();
    };
    match entries {
        [] => false,
        [None, entries @ ..] => fit_entries(records, entries),
        [Some(value), entries @ ..] => *value <= MAX && fit_entries(records, entries),
    }
}

/// One outcome for each position of a block.
pub type Outcomes = GrowingList<Outcome>;

/// For each position of a block its outcome, where it is known.
pub type Known = GrowingList<Option<Outcome>>;
