// Blocks that two workers can end alone: each end waits for a begin.

use super::plans::run;
use super::setting::set_up;
use board_work::Work;
use meeting_gate::Meeting;
use ready_board::Board;
use std::alloc::Global;
use std::test::Fail;
use std::thread::Threads;
use version_slots::Slots;

// Two writes that don't depend on each other.
const APART: &str =
    "{'version':1,'kind':'full','cut':{'txns':256,'bytes':1048576},'records':[['a',0],['b',0]],'orderers':['o1'],'quorum':1,'peers':['p1'],'apps':[{'name':'k','agents':['p1'],'tau':1,'clients':['c1'],'contract':'op set(r:record,n:number){r=n;}\\nop pay(from:record,to:record,n:number){require from>=n;from=from-n;to=to+n;}\\nop copy(from:record,to:record){to=from;}\\nop maybe(r:record,n:number){if n>5{r=n;}}\\nop inc(r:record){r=r+1;}\\nop dec(r:record){r=r-1;}\\nop div(r:record,n:number){r=r/n;}'}],'stream':[{'client':'c1','app':'k','op':'set','args':['a',1],'reads':[],'writes':['a']},{'client':'c1','app':'k','op':'set','args':['b',1],'reads':[],'writes':['b']}],'faulty':[],'schedule':[]}";

// The same, and two copies of what the first writes.
const PASSED_ON: &str =
    "{'version':1,'kind':'full','cut':{'txns':256,'bytes':1048576},'records':[['a',0],['b',0],['c',0],['d',0]],'orderers':['o1'],'quorum':1,'peers':['p1'],'apps':[{'name':'k','agents':['p1'],'tau':1,'clients':['c1'],'contract':'op set(r:record,n:number){r=n;}\\nop pay(from:record,to:record,n:number){require from>=n;from=from-n;to=to+n;}\\nop copy(from:record,to:record){to=from;}\\nop maybe(r:record,n:number){if n>5{r=n;}}\\nop inc(r:record){r=r+1;}\\nop dec(r:record){r=r-1;}\\nop div(r:record,n:number){r=r/n;}'}],'stream':[{'client':'c1','app':'k','op':'set','args':['a',1],'reads':[],'writes':['a']},{'client':'c1','app':'k','op':'set','args':['b',1],'reads':[],'writes':['b']},{'client':'c1','app':'k','op':'copy','args':['a','c'],'reads':['a'],'writes':['c']},{'client':'c1','app':'k','op':'copy','args':['a','d'],'reads':['a'],'writes':['d']}],'faulty':[],'schedule':[]}";

fn both_begin<W: Work, R: Threads + Sync>(rt: &R, alloc: Global) -> Result<(), Fail> {
    let setting = set_up(alloc, APART)?;
    let gate = Meeting::new(&[&[1], &[0]]);
    let ran = run::<W, _, _>(rt, alloc, &setting, &[true, true], &[None, None], 2, &gate)?;
    if gate.has_given_up() || ran.trace.len() != 2 {
        return Err("an end waited in vain".into());
    }
    Ok(())
}

#[test]
fn workers_run_beside_one_another(rt: HostRuntime) -> Result<(), Fail> {
    both_begin::<Board, _>(&rt, rt.alloc())?;
    both_begin::<Slots, _>(&rt, rt.alloc())
}

fn both_copy<W: Work, R: Threads + Sync>(rt: &R, alloc: Global) -> Result<(), Fail> {
    let setting = set_up(alloc, PASSED_ON)?;
    let gate = Meeting::new(&[&[1], &[2, 3], &[3], &[2]]);
    let ran = run::<W, _, _>(rt, alloc, &setting, &[true; 4], &[None; 4], 2, &gate)?;
    let [_, _, third, fourth] = ran.trace.as_slice() else {
        return Err("four positions run".into());
    };
    if gate.has_given_up() || third.worker == fourth.worker {
        return Err("an end waited in vain".into());
    }
    Ok(())
}

#[test]
fn ready_work_passes_between_workers(rt: HostRuntime) -> Result<(), Fail> {
    both_copy::<Board, _>(&rt, rt.alloc())?;
    both_copy::<Slots, _>(&rt, rt.alloc())
}
