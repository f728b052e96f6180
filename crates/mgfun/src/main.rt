//! The program `mgfun`: reads a text from standard input as its words ask, and writes the answer to standard
//! output. It ends with the status of the run as its number.
#![tactic(auto)]

use ct_run::{NoGate, Status, StdSink, StdSource, run};
use std::process::ExitCode;
use std::rt::Env;
use std::{env, io};

/// The words behind the program's own name.
fn words_of(rt: &(impl Env + AllocGlobal)) -> Result<Vec<String>, io::Error> {
    let mut words = Vec::new(rt.alloc());
    for word in env::args(rt)?.skip(1) {
        words.push(word)?;
    }
    Ok(words)
}

fn main(rt: HostRuntime) -> ExitCode {
    let words = match words_of(&rt) {
        Ok(words) => words,
        Err(e) if e.kind() == io::ErrorKind::OutOfMemory => {
            return ExitCode::from(Status::NoMemory.number());
        }
        // Words that are no text are refused as an empty list is.
        Err(_) => Vec::new(rt.alloc()),
    };
    let mut source = StdSource::new(rt.stdin());
    let mut sink = StdSink::new(rt.stdout());
    let status = run(
        &rt,
        rt.alloc(),
        words.as_slice(),
        &mut source,
        &mut sink,
        &NoGate,
    );
    ExitCode::from(status.number())
}
