//! Why a document is refused.

use contract_text::TextFault;
use std::alloc::{AllocError, AllocFailed, Global};
use std::marker::Model;
use txn_types::{OutOfMemory, Text};

/// One step of a path into a document: a key of an object, or the index of an item, from 0.
#[derive(Drop)]
pub enum Step {
    Key(Text),
    Index(u32),
}

/// Where in a document: the steps from its root.
#[derive(Drop)]
pub struct Path {
    steps: Vec<Step>,
}

impl Model for Path {
    ghost use Rattle.std.specs.Prelude.{List};
    ghost use Rattle.doc_forms.specs.declared.fault.Step.{Step};

    ghost Value = { List Step };

    ghost view = { λ path. path.steps.items };
}

impl Path {
    ghost use Rattle.std.specs.Prelude.{◌≡◌, [], ◌∷◌, OnOk, OnErr};

    /// The path without steps.
    pub fn new(alloc: Global) -> Path
        ensures { result ≡ [] }
    {
        Path {
            steps: Vec::new(alloc),
        }
    }

    pub fn as_slice(&self) -> &[Step]
        ensures { result.now ≡ self.now }
    {
        self.steps.as_slice()
    }

    /// The same position, seen from one step further up.
    pub fn push_front(&mut self, step: Step) -> Result<(), OutOfMemory>
        ensures ok { OnOk result (self.new ≡ step ∷ self.old) }
        ensures err { OnErr result (self.new ≡ self.old) }
    {
        self.steps.insert(0, step)?;
        Ok(())
    }
}

/// What a limit is on.
#[derive(Clone, Copy, Debug, PartialEq, Eq)]
pub enum Which {
    /// The bytes of the document.
    Document,
    Cut,
    Records,
    Value,
    Orderers,
    Quorum,
    Peers,
    Apps,
    Items,
    Faulty,
    Schedule,
    Agents,
    Tau,
    Clients,
    /// The bytes of a contract.
    Contract,
    /// The requests of the stream.
    Transactions,
    Args,
    /// The records of a read or a write set.
    Set,
    /// The `all` events.
    All,
    /// The messages of faulty nodes.
    False,
    Msg,
    Number,
    Txns,
    /// The number of a stream item.
    Item,
    Preds,
    Block,
    Votes,
    Txn,
    Out,
    /// The transactions of all messages of faulty nodes.
    FalseTxns,
    /// The votes of all messages of faulty nodes.
    FalseVotes,
    /// The configurations of the stream.
    Configs,
}

/// Why a document is refused, or that memory ran out.
#[derive(Drop)]
pub enum DocFault {
    /// It isn't UTF-8, isn't JSON, or nests more than 127 deep.
    NotJson,
    /// At this path there is another kind of value than the form asks for, or a key that it doesn't list.
    Field { path: Path },
    /// There is more than the greatest permitted number, or less than the least one; the number is the greatest.
    Limit { which: Which, limit: u64 },
    /// The contract of this application, from 0, has this fault, which is never `TextFault::OutOfMemory`.
    Contract { app: u32, fault: TextFault },
    /// At this path there is no name, or the name of nothing.
    Name { path: Path },
    /// At this path there is a name that is taken.
    Double { path: Path },
    /// Memory ran out.
    OutOfMemory,
}

impl From<OutOfMemory> for DocFault {
    ghost use Rattle.std.specs.Prelude.{◌≡◌};
    ghost use Rattle.doc_forms.specs.declared.fault.DocFault.TheVariants as fault;

    ghost from_gives = { λ _ e. e ≡ fault.OutOfMemory };

    fn from(_: OutOfMemory) -> DocFault {
        DocFault::OutOfMemory
    }
}

impl From<AllocError> for DocFault {
    ghost use Rattle.std.specs.Prelude.{◌≡◌};
    ghost use Rattle.doc_forms.specs.declared.fault.DocFault.TheVariants as fault;

    ghost from_gives = { λ _ e. e ≡ fault.OutOfMemory };

    fn from(_: AllocError) -> DocFault {
        DocFault::OutOfMemory
    }
}

impl<T: Drop> From<AllocFailed<T>> for DocFault {
    ghost use Rattle.std.specs.Prelude.{◌≡◌};
    ghost use Rattle.doc_forms.specs.declared.fault.DocFault.TheVariants as fault;

    ghost from_gives = { λ _ e. e ≡ fault.OutOfMemory };

    fn from(_: AllocFailed<T>) -> DocFault {
        DocFault::OutOfMemory
    }
}
