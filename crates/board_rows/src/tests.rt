//! The rows of what several passes run a plan on, with ample memory.

mod rows;

use board_settings::{
    ANTI_DEPENDENCY, RAW_ANTI_DEPENDENCY, READ_FIRST, RELAY, RELAYED, Setting, WRITERS,
    WRITTEN_FIRST, WRITTEN_IN_TURN, Want, ran_in_turn, set_up, written,
};
use board_work::Ran;
use ready_board::Board;
use rows::{anti_dependency, beside, relay, writers};
use std::process::Abort;
use std::test::Fail;
use version_slots::Slots;

// Each position came to what the row says.
fn came_to(rt: &impl Abort, ran: &Ran, wanted: &[Want]) {
    assert_eq!(rt; ran.outcomes.len(), wanted.len());
    assert_eq!(rt; ran.trace.len(), wanted.len());
    for (outcome, want) in ran.outcomes.as_slice().iter().zip(wanted) {
        match outcome {
            Some(outcome) => assert_eq!(rt; written(outcome), want.wrote),
            None => panic!(rt; "no outcome"),
        }
    }
}

#[test]
fn copies_are_relayed(rt: HostRuntime) -> Result<(), Fail> {
    let alloc = rt.alloc();
    let setting = set_up(alloc, RELAY)?;
    let ran = relay::<Board, Setting>(&rt, alloc, &setting.plan(), &setting, &RELAYED)?;
    ran_in_turn(&ran, &RELAYED)?;
    for span in ran.trace.as_slice() {
        assert_eq!(rt; span.worker, 0);
    }
    Ok(())
}

#[test]
fn versions_are_relayed(rt: HostRuntime) -> Result<(), Fail> {
    let alloc = rt.alloc();
    let setting = set_up(alloc, RELAY)?;
    let ran = relay::<Slots, Setting>(&rt, alloc, &setting.plan(), &setting, &RELAYED)?;
    ran_in_turn(&ran, &RELAYED)?;
    Ok(())
}

#[test]
fn a_write_runs_before_an_earlier_read(rt: HostRuntime) -> Result<(), Fail> {
    let alloc = rt.alloc();
    let setting = set_up(alloc, RAW_ANTI_DEPENDENCY)?;
    let ran = beside::<Slots, Setting>(&rt, alloc, &setting.plan(), &setting, &WRITTEN_FIRST)?;
    came_to(&rt, &ran, &WRITTEN_FIRST);
    Ok(())
}

#[test]
fn a_reader_passes_an_abort(rt: HostRuntime) -> Result<(), Fail> {
    let alloc = rt.alloc();
    let setting = set_up(alloc, WRITERS)?;
    let ran = writers::<Slots, Setting>(&rt, alloc, &setting.plan(), &setting, &WRITTEN_IN_TURN)?;
    came_to(&rt, &ran, &WRITTEN_IN_TURN);
    Ok(())
}

#[test]
fn a_write_waits_for_an_earlier_read(rt: HostRuntime) -> Result<(), Fail> {
    let alloc = rt.alloc();
    let setting = set_up(alloc, ANTI_DEPENDENCY)?;
    anti_dependency::<Board, Setting>(&rt, alloc, &setting.plan(), &setting, &READ_FIRST)?;
    Ok(())
}
