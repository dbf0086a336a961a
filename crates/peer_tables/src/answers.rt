//! A peer that gets messages one after another.

ghost use Rattle.std.specs.Prelude.{◌≡◌, ◌<◌, length, IfOk};
ghost use Rattle.std.specs.List.{All};
ghost use Rattle.oxii_defs.specs.Lawful.{IsLawfulBody, IsLawfulTable};
ghost use Rattle.txn_core.specs.MeantTable.{table_of};

use crate::Trouble;
use crate::letters::letter;
use peer_core::Peer;
use peer_lines::{push_answer, push_peer};
use row_settings::{Setting, setting_of};
use std::alloc::Global;
use std::thread::Threads;
use txn_core::FreeGate;

// Hands a peer the message of a row, and writes down what it answers.
fn hear<'t, R: Threads + Sync>(
    rt: &R,
    alloc: Global,
    setting: &Setting,
    peer: Peer<'t>,
    row: &str,
    text: &mut String,
) -> Result<Peer<'t>, Trouble>
    requires table { peer.table ≡ setting.now.table }
    requires bodies { All (λ body. IsLawfulBody (table_of setting.now.table) body.txns body.config) setting.now.bodies }
    ensures { IfOk result (λ peer. peer.table ≡ setting.now.table) }
{
    let (from, message) = letter(alloc, setting, row)?;
    let (peer, took) = peer.take(rt, alloc, from, &message, 1, &FreeGate)?;
    push_answer(alloc, text, row, &took)?;
    Ok(peer)
}

// The peer that has been handed the message of each row, and what it answered.
fn heard<'t, R: Threads + Sync>(
    rt: &R,
    alloc: Global,
    setting: &'t Setting,
    me: u8,
    rows: &str,
    text: &mut String,
) -> Result<Peer<'t>, Trouble>
    requires table { IsLawfulTable (table_of setting.now.table) }
    requires genesis { length setting.now.genesis ≡ length setting.now.table.records }
    requires bodies { All (λ body. IsLawfulBody (table_of setting.now.table) body.txns body.config) setting.now.bodies }
    requires me { me < length setting.now.table.peers }
    ensures { IfOk result (λ peer. peer.table ≡ setting.now.table) }
{
    let mut peer = Peer::new(alloc, &setting.table, me, &setting.genesis)?;
    for row in rows.lines() {
        let message = match row.split_once(" => ") {
            Some((message, _)) => message,
            None => row,
        };
        peer = hear(rt, alloc, setting, peer, message, text)?;
    }
    Ok(peer)
}

/// What this peer of a document answers to the message of each row, and what it holds after them.
/// A row is `MESSAGE => ANSWER`, of which the answer isn't looked at; after the rows is what begins with `peer `.
pub fn answered<R: Threads + Sync>(
    rt: &R,
    alloc: Global,
    document: &str,
    me: u8,
    table: &str,
) -> Result<String, Trouble> {
    let setting = setting_of(alloc, document)?;
    if usize::from(me) >= setting.table.peers.len() {
        return Err(Trouble::NotThere);
    }
    let (rows, _) = table.split_once("peer ").ok_or(Trouble::Row)?;
    let mut text = String::new(alloc);
    let peer = heard(rt, alloc, &setting, me, rows, &mut text)?;
    push_peer(alloc, &mut text, me, &peer)?;
    Ok(text)
}

/// What is in force of an application at the first peer of a document, after the messages of these rows.
pub fn in_force<R: Threads + Sync>(
    rt: &R,
    alloc: Global,
    document: &str,
    rows: &str,
    app: u8,
) -> Result<String, Trouble> {
    let setting = setting_of(alloc, document)?;
    if usize::from(app) >= setting.table.apps.len() {
        return Err(Trouble::NotThere);
    }
    let mut text = String::new(alloc);
    let peer = heard(rt, alloc, &setting, 0, rows, &mut text)?;
    let tau = peer.tau(app);
    let agents = peer.agents(app).as_slice();
    Ok(format!(in alloc; "tau {tau} agents {agents:?}")?)
}
