//! Rows of what several passes run a plan on, by two threads, with ample memory.

mod threads;

use board_settings::{ANTI_DEPENDENCY, READ_FIRST, RELAY, RELAYED, Setting, ran_in_turn, set_up};
use ready_board::Board;
use std::test::Fail;
use threads::in_two_threads;

// Which thread runs what is open; what each position comes to, and in what turn, is not.
#[test]
fn two_threads_run_the_rows(rt: HostRuntime) -> Result<(), Fail> {
    let alloc = rt.alloc();
    for (document, wanted) in [(RELAY, RELAYED.as_slice()), (ANTI_DEPENDENCY, &READ_FIRST)] {
        let setting = set_up(alloc, document)?;
        let plan = setting.plan();
        let ran = in_two_threads::<Board, Setting, HostRuntime>(
            &rt, alloc, &plan, &setting, wanted,
        )?;
        ran_in_turn(&ran, wanted)?;
        for span in ran.trace.as_slice() {
            assert!(rt; span.worker < 2);
        }
    }
    Ok(())
}
