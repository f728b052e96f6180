// Which texts are read, and the first faults of the others. The faults are those of an independent program.

mod faults;
mod faults_of_values;
mod layout;
mod limits;
mod needs;
mod reports;
mod values;

use ct_io::Command;
use ct_problem::{BadInput, BadKind, ReadFault, read_problem};
use std::alloc::{AllocError, Global};
use std::process::Abort;
use std::test::Fail;

/// A problem with a line of each kind.
const FULL: &str =
    "mgfun problem 1\nfree n shift\nsum k\nint u\nparam a\nlet f = gens S[n] - 1; S[k] - 1; D[u] - 1\nlet g = plus f f\nlet h = apply g: S[n]\ngen S[n] - 1\ngen S[k] - a\nden k: k + 1\nden u: u\ntarget S[k]\norder 0..2\ndegree 1..3\nend\n";

/// The first fault of a text, if it has one.
fn fault_of(alloc: Global, text: &[u8], command: Command) -> Result<Option<BadInput>, AllocError> {
    match read_problem(alloc, text, command) {
        Ok(_) => Ok(None),
        Err(ReadFault::Bad(fault)) => Ok(Some(fault)),
        Err(ReadFault::NoMemory) => Err(AllocError),
    }
}

fn fault(kind: BadKind, offset: usize) -> Option<BadInput> {
    Some(BadInput { kind, offset })
}

/// Compares the first fault of `FULL`, with one text in place of another, with the one that is wanted.
fn each_has_its_fault(
    rt: &impl Abort,
    alloc: Global,
    cases: &[(&str, &str, Option<BadInput>)],
) -> Result<(), Fail> {
    for (old, new, wanted) in cases {
        let text = FULL.replace(alloc, old, new)?;
        assert_eq!(rt;
            fault_of(alloc, text.as_bytes(), Command::Telescope)?,
            *wanted,
            "{old} to {new}"
        );
    }
    Ok(())
}
