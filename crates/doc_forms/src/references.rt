//! New names, and references to the entries of a table.

ghost use Rattle.std.specs.Prelude.{◌≡◌, ◌≤◌, ℕ, List, Option, length};
ghost use Rattle.serde_json.specs.View.{view};
ghost use Rattle.txn_types.specs.Nodes.{rank_of};
ghost use Rattle.doc_forms.specs.Answers.{Gives};
ghost use Rattle.doc_forms.specs.Forms.{seen, is_listed};
ghost use Rattle.doc_forms.specs.Tables.{place_of, place_below, node_named, new_name, reference, has_rank, count_below, new_reference};

use crate::fault::DocFault;
use crate::forms::{double_fault, name, name_fault};
use crate::turns::Turn;
use serde_json::Value;
use std::alloc::Global;
use txn_types::{GrowingList, Name, Names, Node, Ranked};

/// Whether it is one of the names.
#[tactic(auto, unfolding(crate::specs::Forms::is_listed))]
pub fn has_name(names: &[Name], text: &[u8]) -> bool
    ensures { result ≡ is_listed names.now text.now }
{
    names.iter().any(|other| other.as_slice() == text)
}

/// New names, each also new among the taken ones.
#[derive(Clone, Copy, Drop)]
pub struct NewName<'t> {
    pub taken: &'t [Name],
}

impl<'t> Turn for NewName<'t> {
    type State = Names;

    ghost check = { λ s. new_name s.taken.now };

    #[tactic(auto, unfolding(crate::specs::Tables::new_name))]
    fn turn(&self, alloc: Global, mut done: Names, item: &Value) -> Result<Names, DocFault> {
        let text = name(alloc, Some(item))?;
        if has_name(self.taken, text.as_slice()) || has_name(done.as_slice(), text.as_slice()) {
            return Err(double_fault(alloc));
        }
        done.push(text)?;
        Ok(done)
    }
}

/// What a reference leads to.
pub trait Target: Ranked {
    /// Its rank.
    fn rank(self) -> u32
        ensures { result ≡ Self.rank self };
}

impl Target for u8 {
    fn rank(self) -> u32 {
        u32::from(self)
    }
}

impl Target for u16 {
    fn rank(self) -> u32 {
        u32::from(self)
    }
}

impl Target for Node {
    fn rank(self) -> u32 {
        match self {
            Node::Peer(p) => u32::from(p),
            Node::Orderer(o) => 256 + u32::from(o),
        }
    }
}

/// Names that lead to entries.
pub trait NamedTable {
    type Target: Target;

    ghost lookup: { Self → List ℕ → Option Self.Target };

    /// The entry with this name.
    fn find(&self, text: &[u8]) -> Option<Self::Target>
        ensures { result ≡ lookup self.now text.now };
}

#[tactic(auto, unfolding(crate::specs::Tables::place_of))]
fn place_of(names: &[Name], text: &[u8]) -> Option<usize>
    ensures { result ≡ place_of names.now text.now }
{
    names.iter().position(|other| other.as_slice() == text)
}

/// Names as they are in the document, whose positions are numbers of 8 bits.
impl NamedTable for Names {
    type Target = u8;

    ghost lookup = { λ names. place_below 256 names };

    #[tactic(auto, unfolding(crate::specs::Tables::place_below))]
    fn find(&self, text: &[u8]) -> Option<u8> {
        let place = place_of(self.as_slice(), text)?;
        u8::try_from(place).ok()
    }
}

/// The names of the orderers and of the peers of a document, which differ.
#[derive(Clone, Copy, Drop)]
pub struct NodeNames<'t> {
    pub orderers: &'t Names,
    pub peers: &'t Names,
}

impl<'t> NamedTable for NodeNames<'t> {
    type Target = Node;

    ghost lookup = { λ nodes. node_named nodes.orderers.now nodes.peers.now };

    #[tactic(auto, unfolding(crate::specs::Tables::node_named))]
    fn find(&self, text: &[u8]) -> Option<Node> {
        match self.peers.find(text) {
            Some(p) => Some(Node::Peer(p)),
            None => match self.orderers.find(text) {
                Some(o) => Some(Node::Orderer(o)),
                None => None,
            },
        }
    }
}

/// A reference to an entry of a table.
#[tactic(auto, unfolding(crate::specs::Tables::reference))]
pub fn reference<T: NamedTable>(
    alloc: Global,
    table: &T,
    value: Option<&Value>,
) -> Result<T::Target, DocFault>
    ensures { Gives (λ e. e) result (reference (T.lookup table.now) (seen value.entry)) }
{
    let text = name(alloc, value)?;
    match table.find(text.as_slice()) {
        Some(entry) => Ok(entry),
        None => Err(name_fault(alloc)),
    }
}

#[tactic(auto, unfolding(crate::specs::Tables::has_rank))]
fn has_rank<E: Target>(entries: &[E], rank: u32) -> bool
    ensures { result ≡ has_rank E.rank entries.now rank }
{
    entries.iter().any(|other| other.rank() == rank)
}

#[tactic(auto, unfolding(crate::specs::Tables::count_below))]
fn count_below<E: Target>(entries: &[E], rank: u32) -> usize
    ensures count { result ≡ count_below E.rank entries.now rank }
    ensures bound { result ≤ length entries.now }
{
    entries.iter().filter(|other| other.rank() < rank).count()
}

/// References, each new, put among those before it so that they rise.
#[derive(Clone, Copy, Drop)]
pub struct NewReference<'t, T> {
    pub table: &'t T,
}

impl<'t, T: NamedTable> Turn for NewReference<'t, T> {
    type State = GrowingList<T::Target>;

    ghost check = { λ s. new_reference T.Target.rank (T.lookup s.table.now) };

    #[tactic(auto, unfolding(crate::specs::Tables::new_reference))]
    fn turn(
        &self,
        alloc: Global,
        mut done: GrowingList<T::Target>,
        item: &Value,
    ) -> Result<GrowingList<T::Target>, DocFault> {
        let entry = reference(alloc, self.table, Some(item))?;
        let rank = entry.rank();
        if has_rank(done.as_slice(), rank) {
            return Err(double_fault(alloc));
        }
        let place = count_below(done.as_slice(), rank);
        done.insert(place, entry)?;
        Ok(done)
    }
}
