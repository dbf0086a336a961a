//! Documents that two workers can end alone: each end of a transaction waits for the begin of another.

use super::*;

const APART: &str =
    "{'version':1,'kind':'full','cut':{'txns':256,'bytes':1048576},'records':[['a',0],['b',0]],'orderers':['o1'],'quorum':1,'peers':['p1'],'apps':[{'name':'k','agents':['p1'],'tau':1,'clients':['c1'],'contract':'op set(r:record,n:number){r=n;}'}],'stream':[{'client':'c1','app':'k','op':'set','args':['a',1],'reads':[],'writes':['a']},{'client':'c1','app':'k','op':'set','args':['b',1],'reads':[],'writes':['b']}],'faulty':[],'schedule':[{'do':'all'}]}";

const PASSED_ON: &str =
    "{'version':1,'kind':'full','cut':{'txns':256,'bytes':1048576},'records':[['a',0],['b',0],['c',0],['d',0]],'orderers':['o1'],'quorum':1,'peers':['p1'],'apps':[{'name':'k','agents':['p1'],'tau':1,'clients':['c1'],'contract':'op set(r:record,n:number){r=n;} op copy(from:record,to:record){to=from;}'}],'stream':[{'client':'c1','app':'k','op':'set','args':['a',1],'reads':[],'writes':['a']},{'client':'c1','app':'k','op':'set','args':['b',1],'reads':[],'writes':['b']},{'client':'c1','app':'k','op':'copy','args':['a','c'],'reads':['a'],'writes':['c']},{'client':'c1','app':'k','op':'copy','args':['a','d'],'reads':['a'],'writes':['d']}],'faulty':[],'schedule':[{'do':'all'}]}";

// What a traced run by two workers writes of a document, unless an end waited in vain.
fn met<R: Threads + Sync>(
    rt: &R,
    alloc: Global,
    text: &str,
    gate: &Meeting<'_>,
) -> Result<String, Fail> {
    let bytes = json(alloc, text)?;
    let said = answer_with(rt, alloc, "run --workers 2 --trace", bytes.as_bytes(), gate)?;
    if gate.has_given_up() {
        return Err("an end waited in vain".into());
    }
    Ok(said.text)
}

// The worker of a transaction, by its line in a trace.
fn worker_of<'a>(text: &'a str, span: &str) -> Option<&'a str> {
    let (_, line) = text.split_once(span)?;
    let (worker, _) = line.split_once(" ")?;
    Some(worker)
}

#[test]
fn workers_run_beside_one_another(rt: HostRuntime) -> Result<(), Fail> {
    let gate = Meeting::new(&[&[1], &[0]]);
    let text = met(&rt, rt.alloc(), APART, &gate)?;
    assert!(rt; text.as_str().contains("burst p1 1 2\n"));
    Ok(())
}

#[test]
fn ready_work_passes_between_workers(rt: HostRuntime) -> Result<(), Fail> {
    let gate = Meeting::new(&[&[1], &[2, 3], &[3], &[2]]);
    let text = met(&rt, rt.alloc(), PASSED_ON, &gate)?;
    let third = worker_of(text.as_str(), "span 3 ");
    let fourth = worker_of(text.as_str(), "span 4 ");
    assert!(rt; third.is_some() && fourth.is_some() && third != fourth);
    Ok(())
}
