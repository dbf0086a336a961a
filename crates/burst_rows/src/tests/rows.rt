// Runs of a block of three copies, each of what the one before it wrote.

use super::calls::Call::{self, Begin, End};
use super::calls::Listed;
use super::plans::{outcomes, run};
use super::setting::{NUMBER, set_up};
use board_work::Span;
use ready_board::Board;
use std::test::Fail;
use steal_pool::FreeGate;

// Copies from a to b, from b to c and from c to d, of which another application has the second.
const RELAY: &str =
    "{'version':1,'kind':'full','cut':{'txns':256,'bytes':1048576},'records':[['a',1],['b',0],['c',0],['d',0]],'orderers':['o1'],'quorum':1,'peers':['p1','p2'],'apps':[{'name':'left','agents':['p1'],'tau':1,'clients':['c1'],'contract':'op copy(from:record,to:record){to=from;}'},{'name':'right','agents':['p2'],'tau':1,'clients':['c1'],'contract':'op copy(from:record,to:record){to=from;}'}],'stream':[{'client':'c1','app':'left','op':'copy','args':['a','b'],'reads':['a'],'writes':['b']},{'client':'c1','app':'right','op':'copy','args':['b','c'],'reads':['b'],'writes':['c']},{'client':'c1','app':'left','op':'copy','args':['c','d'],'reads':['c'],'writes':['d']}],'faulty':[],'schedule':[]}";

fn begin(t: u16) -> Call {
    Begin(NUMBER, t)
}

fn end(t: u16) -> Call {
    End(NUMBER, t)
}

fn span(t: u16, begin: u64, finish: u64) -> Span {
    Span {
        t,
        worker: 0,
        begin,
        finish,
    }
}

#[test]
fn one_worker_runs_one_after_another_and_four_come_to_the_same(
    rt: HostRuntime,
) -> Result<(), Fail> {
    let alloc = rt.alloc();
    let setting = set_up(alloc, RELAY)?;
    for (own, known, due, given, spans) in [
        (
            [true, true, true].as_slice(),
            [None, None, None].as_slice(),
            [begin(0), end(0), begin(1), end(1), begin(2), end(2)].as_slice(),
            [Some(1), Some(1), Some(1)].as_slice(),
            [span(0, 0, 1), span(1, 2, 3), span(2, 4, 5)].as_slice(),
        ),
        (
            &[false, true, true],
            &[Some(8), None, None],
            &[begin(1), end(1), begin(2), end(2)],
            &[None, Some(8), Some(8)],
            &[span(1, 0, 1), span(2, 2, 3)],
        ),
        (
            &[true, false, true],
            &[None, None, None],
            &[begin(0), end(0)],
            &[Some(1), None, None],
            &[span(0, 0, 1)],
        ),
        (
            &[false, false, true],
            &[Some(1), Some(9), None],
            &[begin(2), end(2)],
            &[None, None, Some(9)],
            &[span(2, 0, 1)],
        ),
        (
            &[false, true, true],
            &[None, None, None],
            &[],
            &[None, None, None],
            &[],
        ),
    ] {
        let gate = Listed::new(due);
        let ran = run::<Board, _, _>(&rt, alloc, &setting, own, known, 1, &gate)?;
        let wanted = outcomes(alloc, given)?;
        assert!(rt;
            ran.outcomes == wanted,
            "outcomes of {own:?} behind {known:?}"
        );
        assert_eq!(rt;
            ran.trace.as_slice(),
            spans,
            "spans of {own:?} behind {known:?}"
        );
        assert!(rt; gate.is_as_due(), "calls of {own:?} behind {known:?}");
        let ran = run::<Board, _, _>(&rt, alloc, &setting, own, known, 4, &FreeGate)?;
        assert!(rt;
            ran.outcomes == wanted,
            "outcomes of {own:?} behind {known:?} by four"
        );
    }
    Ok(())
}
