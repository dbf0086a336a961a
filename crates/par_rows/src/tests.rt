//! Documents with what a command writes of them, or the line that refuses them.

mod bytes;
mod devices;
mod gates;
mod hostile;
mod lists;
mod rows;
mod soak;
mod taken;
mod words;

use document_rows::{
    BASE, Said, Trouble, answer, answer_with, edited, json, replaced, text_of, wrong_row,
    wrong_texts,
};
use meeting_gate::Meeting;
use par_io::{MemSink, MemSource};
use par_top::{FreeGate, run, status_line};
use std::alloc::{AllocError, Global};
use std::test::Fail;
use std::thread::Threads;

// The transfer document.
const TRANSFER: &str =
    "{\"version\":1,\"kind\":\"full\",\"cut\":{\"txns\":256,\"bytes\":1048576},\n \"records\":[[\"a\",10],[\"b\",0]],\"orderers\":[\"o1\"],\"quorum\":1,\"peers\":[\"p1\"],\n \"apps\":[{\"name\":\"bank\",\"agents\":[\"p1\"],\"tau\":1,\"clients\":[\"c1\"],\n  \"contract\":\"op transfer(from:record,to:record,n:number){from=from-n;to=to+n;}\"}],\n \"stream\":[{\"client\":\"c1\",\"app\":\"bank\",\"op\":\"transfer\",\"args\":[\"a\",\"b\",4],\"reads\":[\"a\",\"b\"],\"writes\":[\"a\",\"b\"]}],\n \"faulty\":[],\"schedule\":[{\"do\":\"all\"}]}";

// The line that `graph` says of these bytes.
fn line_of<R: Threads + Sync>(rt: &R, alloc: Global, bytes: &[u8]) -> Result<String, Fail> {
    Ok(answer(rt, alloc, "graph", bytes)?.line)
}

// The line that `graph` says of JSON in which ' stands for quotation marks.
fn line_of_json<R: Threads + Sync>(rt: &R, alloc: Global, text: &str) -> Result<String, Fail> {
    line_of(rt, alloc, json(alloc, text)?.as_bytes())
}
