//! The program `parblock`: hands the command words, standard input and standard output to the top call.
#![tactic(auto)]

ghost use Rattle.par_top.specs.Sayable.{CanSay};

use par_io::{StdSink, StdSource};
use par_top::{FreeGate, Status, run, status_code, status_line};
use std::env::Env;
use std::io::Write;
use std::process::ExitCode;
use std::thread::Threads;
use std::{env, io};

// Runs the words of the command line. A command line that isn't UTF-8, or can't be had though there is memory, is no command.
fn answer<R: Env + Input + Print + AllocGlobal + Threads + Sync>(rt: &R) -> Status
    ensures { CanSay result }
{
    let alloc = rt.alloc();
    let arguments = match env::args(rt) {
        Ok(arguments) => arguments,
        Err(error) if error.kind() == io::ErrorKind::OutOfMemory => return Status::OutOfMemory,
        Err(_) => return Status::Usage,
    };
    let Ok(words) = arguments.skip(1).collect::<Vec<String>>(alloc) else {
        return Status::OutOfMemory;
    };
    let mut source = StdSource::new(rt.reader());
    let mut sink = StdSink::new(io::writer(rt));
    run(
        rt,
        alloc,
        words.as_slice(),
        &mut source,
        &mut sink,
        &FreeGate,
    )
}

fn main(rt: HostRuntime) -> ExitCode {
    let status = answer(&rt);
    if let Ok(line) = status_line(rt.alloc(), &status) {
        let _ = rt.stderr().write_all(line.as_slice());
    }
    ExitCode::from(status_code(&status))
}
