//! A peer.

ghost use Rattle.std.specs.Prelude.{◌∷◌, ◌≡◌, ◌<◌, ◌≤◌, [], true, length, is_some, if◌then◌else◌, IfOk, IfSome};
ghost use Rattle.std.specs.List.{All};
ghost use Rattle.oxii_defs.specs.Lawful.{IsLawfulTable};
ghost use Rattle.oxii_defs.specs.State.{State};
ghost use Rattle.txn_core.specs.MeantTable.{table_of};
ghost use Rattle.txn_core.specs.States.{state_of};
ghost use Rattle.node_defs.specs.Log.{Log};
ghost use Rattle.node_defs.specs.Ledger.{halt, heard, ledger, ledger_state};
ghost use Rattle.node_defs.specs.Rules.{in_force};
ghost use Rattle.node_defs.specs.Sent.{sent};
ghost use Rattle.evidence_marks.specs.Evidence.{IsEvidence};
ghost use Rattle.hash_ledger.specs.Halts.{IsLawfulSplit, halted_of};
ghost use Rattle.hash_ledger.specs.Ledgers.{IsLawfulEntry, completed_of};
ghost use Rattle.peer_laws.specs.Notes.{note_of};
ghost use Rattle.peer_laws.specs.Runs.{runs};
ghost use Rattle.peer_laws.specs.declared.note.Note.TheVariants.{Halted};
ghost use Rattle.peer_turns.specs.Peers.{IsLawfulMessage};
ghost use Rattle.peer_turns.specs.Relation.{StandsFor, letter_from, rules_for};
ghost use Rattle.peer_turns.specs.Traces.{AreTraced};

use crate::took::Took;
use crate::voters::all_peers;
use evidence_marks::Evidence;
use hash_ledger::Ledger;
use newblock_quorum::Inbox;
use peer_laws::Note;
use peer_parts::Force;
use peer_turns::{BlockSpansList, Desk, hear, turns};
use std::alloc::Global;
use std::marker::Model;
use std::thread::Threads;
use steal_pool::Gate;
use txn_core::Table;
use txn_types::{Commits, Copies, Message, Node, OutOfMemory, PeerSet, Split, Values};
use vote_book::Book;

/// A peer, as what it keeps of its log.
#[derive(Drop)]
pub struct Peer<'t> {
    table: &'t Table,
    desk: Desk,
}

impl<'t> Model for Peer<'t> {
    ghost use Rattle.std.specs.Coded.{codes};
    ghost use Rattle.txn_core.specs.contracts.syntax.Expr as expr;
    ghost use Rattle.txn_core.specs.contracts.syntax.Cond as cond;
    ghost use Rattle.txn_core.specs.contracts.syntax.Stmt as stmt;
    ghost use Rattle.peer_turns.specs.Peers.{KeptPeer, IsWellKept, peer_of};

    ghost Value = { KeptPeer };

    ghost coded = { Prim.hlevel (codes, expr.the_row.coded, cond.the_row.coded, stmt.the_row.coded) };

    ghost view = { λ p. peer_of p.table.now p.desk };

    ghost invariant = { λ p. IsWellKept (peer_of p.table.now p.desk) };
}

impl<'t> Peer<'t> {
    /// A peer before its first message. The votes of all peers of the table are kept.
    pub fn new(
        alloc: Global,
        table: &'t Table,
        me: u8,
        genesis: &Values,
    ) -> Result<Peer<'t>, OutOfMemory>
        requires lawful { IsLawfulTable (table_of table.now) }
        requires me { me < length table.now.peers }
        requires genesis { length genesis.now ≡ length table.now.records }
        ensures table { IfOk result (λ r. r.table ≡ table.now) }
        ensures me { IfOk result (λ r. r.me ≡ me) }
        ensures stands { IfOk result (λ r. StandsFor r (state_of genesis.now) []) }
    {
        let inbox = Inbox::new(
            alloc,
            table.orderers.as_slice().len() as u8,
            table.quorum,
            table.kind,
        )?;
        let voters = all_peers(table.peers.as_slice().len() as u8);
        let book = Book::new(alloc, &voters)?;
        let force = Force::new(alloc, table)?;
        let state = genesis.copy(alloc)?;
        let desk = Desk {
            me,
            inbox,
            book,
            ledger: Ledger::new(alloc),
            state,
            force,
            work: None,
            halted: None,
        };
        Ok(Peer { table, desk })
    }

    /// The note of a message, once all is done for it.
    fn note_behind(&self, note: Note) -> Note
        ensures { result ≡ (if is_some self.now.halted then Halted else note) }
    {
        if self.desk.halted.is_some() {
            Note::Halted
        } else {
            note
        }
    }

    /// Takes one more message, with so many workers. After OutOfMemory the peer is gone.
    pub fn take<R: Threads + Sync, G: Gate>(
        self,
        rt: &R,
        alloc: Global,
        from: Node,
        message: &Message,
        workers: u8,
        gate: &G,
    ) -> Result<(Peer<'t>, Took), OutOfMemory>
        requires lawful { IsLawfulMessage (table_of self.table) message.now }
        requires workers { (1 ≤ workers) × (workers ≤ 16) }
        ensures table { IfOk result (λ r. r.0.table ≡ self.entry.table) }
        ensures me { IfOk result (λ r. r.0.me ≡ self.entry.me) }
        ensures halted { is_some self.entry.halted ≡ true → IfOk result (λ r. (r.0 ≡ self.entry) × (r.1.note ≡ Halted)) }
        ensures stands { IfOk result (λ r. (genesis : State) (L : Log) → StandsFor self.entry genesis L → StandsFor r.0 genesis (letter_from from message.now ∷ L)) }
        ensures note { IfOk result (λ r. (genesis : State) (L : Log) → StandsFor self.entry genesis L → r.1.note ≡ note_of (rules_for self.entry genesis) self.entry.me (letter_from from message.now) L) }
        ensures sent { IfOk result (λ r. (genesis : State) (L : Log) → StandsFor self.entry genesis L → r.1.sent ≡ sent (rules_for self.entry genesis) self.entry.me (letter_from from message.now ∷ L)) }
        ensures spans { IfOk result (λ r. (genesis : State) (L : Log) → StandsFor self.entry genesis L → AreTraced self.entry.table.kind workers (runs (rules_for self.entry genesis) self.entry.me (letter_from from message.now ∷ L)) r.1.spans) }
    {
        let mut sent = Commits::new(alloc);
        let mut spans = BlockSpansList::new(alloc);
        if self.desk.halted.is_some() {
            let note = Note::Halted;
            return Ok((self, Took { note, sent, spans }));
        }
        let Peer { table, mut desk } = self;
        let heard = hear(alloc, table, &mut desk, from, message)?;
        turns(
            rt, alloc, table, &mut desk, &mut sent, &mut spans, workers, gate,
        )?;
        let peer = Peer { table, desk };
        let note = peer.note_behind(heard);
        Ok((peer, Took { note, sent, spans }))
    }

    /// The completed blocks.
    pub fn ledger(&self) -> &Ledger
        ensures kept { result.now ≡ self.now.ledger }
        ensures entries { All (IsLawfulEntry (table_of self.now.table)) result.now }
        ensures blocks { (genesis : State) (L : Log) → StandsFor self.now genesis L → completed_of result.now ≡ ledger (rules_for self.now genesis) self.now.me (heard (rules_for self.now genesis) self.now.me L) }
    {
        &self.desk.ledger
    }

    /// The state after them.
    pub fn state(&self) -> &Values
        ensures kept { result.now ≡ self.now.state }
        ensures values { length result.now ≡ length self.now.table.records }
        ensures state { (genesis : State) (L : Log) → StandsFor self.now genesis L → state_of result.now ≡ ledger_state (rules_for self.now genesis) (ledger (rules_for self.now genesis) self.now.me (heard (rules_for self.now genesis) self.now.me L)) }
    {
        &self.desk.state
    }

    /// What it is halted with, if it is.
    pub fn halted(&self) -> Option<&Split>
        ensures split { IfSome result (λ split. IsLawfulSplit (table_of self.now.table) split.now) }
        ensures halt { (genesis : State) (L : Log) → StandsFor self.now genesis L → halted_of result ≡ halt (rules_for self.now genesis) self.now.me L }
    {
        self.desk.halted.as_ref()
    }

    /// Who was seen to say two different things.
    pub fn evidence(&self) -> Evidence<'_>
        ensures kept { (result.orderers.now ≡ self.now.inbox.marks) × (result.agents.now ≡ self.now.book.marks) }
        ensures evidence { (genesis : State) (L : Log) → StandsFor self.now genesis L → IsEvidence (rules_for self.now genesis) self.now.me (heard (rules_for self.now genesis) self.now.me L) result.orderers.now result.agents.now }
    {
        Evidence {
            orderers: self.desk.inbox.evidence(),
            agents: self.desk.book.evidence(),
        }
    }

    /// The agents of an application that are in force at the next block.
    pub fn agents(&self, app: u8) -> &PeerSet
        requires { app < length self.now.table.apps }
        ensures { (genesis : State) (L : Log) → StandsFor self.now genesis L → result.now ≡ (in_force (rules_for self.now genesis) (ledger (rules_for self.now genesis) self.now.me (heard (rules_for self.now genesis) self.now.me L))).agents app }
    {
        self.desk.force.agents(app)
    }

    /// How many votes of its agents agree there.
    pub fn tau(&self, app: u8) -> u8
        requires { app < length self.now.table.apps }
        ensures { (genesis : State) (L : Log) → StandsFor self.now genesis L → result ≡ (in_force (rules_for self.now genesis) (ledger (rules_for self.now genesis) self.now.me (heard (rules_for self.now genesis) self.now.me L))).tau app }
    {
        self.desk.force.tau(app)
    }
}
