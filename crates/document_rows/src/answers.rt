//! What a command answers.

use crate::Trouble;
use par_io::{MemSink, MemSource};
use par_top::{FreeGate, Gate, run, status_line};
use std::alloc::Global;
use std::thread::Threads;

/// A document with each kind of item and event; ' stands for its quotation marks.
pub const BASE: &str =
    "{'version':1,'kind':'full','cut':{'txns':256,'bytes':1048576},'records':[['a',10],['b',0]],'orderers':['o1','o2'],'quorum':1,'peers':['p1','p2'],'apps':[{'name':'bank','agents':['p1'],'tau':1,'clients':['c1'],'contract':'op f(r:record,n:number){r=n;}'}],'stream':[{'client':'c1','app':'bank','op':'f','args':['a',4],'reads':['b'],'writes':['a']},'cut',{'config':'bank','agents':['p2'],'tau':1},{'client':'c9','app':'bank','op':'f','args':[],'reads':[],'writes':[]}],'faulty':['o2','p2'],'schedule':[{'do':'deliver','msg':1,'to':'p1'},{'do':'all'},{'do':'block','from':'o2','number':1,'txns':[1]},{'do':'commit','from':'p2','block':1,'votes':[{'txn':1,'out':[5]},{'txn':2,'abort':'require'}]}]}";

/// What a command writes, and the line that it says.
#[derive(Drop)]
pub struct Said {
    pub text: String,
    pub line: String,
}

/// Bytes that are text.
pub fn text_of(alloc: Global, bytes: &[u8]) -> Result<String, Trouble> {
    Ok(String::from_str(alloc, str::from_utf8(bytes)?)?)
}

/// Command words, which have one space between.
fn words_of(alloc: Global, line: &str) -> Result<Vec<String>, Trouble> {
    let mut words = Vec::new(alloc);
    for word in line.split(" ") {
        words.push(String::from_str(alloc, word)?)?;
    }
    Ok(words)
}

/// What the command of these words, which have one space between, makes of these bytes.
pub fn answer<R: Threads + Sync>(
    rt: &R,
    alloc: Global,
    line: &str,
    bytes: &[u8],
) -> Result<Said, Trouble> {
    answer_with(rt, alloc, line, bytes, &FreeGate)
}

/// The same, where this gate is called for each transaction.
pub fn answer_with<R: Threads + Sync, G: Gate>(
    rt: &R,
    alloc: Global,
    line: &str,
    bytes: &[u8],
    gate: &G,
) -> Result<Said, Trouble> {
    let words = words_of(alloc, line)?;
    let mut source = MemSource::new(bytes, 65_536, &[]);
    let mut sink = MemSink::new(alloc, 65_536, 1_048_576, &[])?;
    let status = run(rt, alloc, words.as_slice(), &mut source, &mut sink, gate);
    let line = status_line(alloc, &status)?;
    Ok(Said {
        text: text_of(alloc, sink.bytes())?,
        line: text_of(alloc, line.as_slice())?,
    })
}
