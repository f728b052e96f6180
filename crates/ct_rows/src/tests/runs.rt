// Whole runs over memory, with the faults that a run can meet.
use ct_run::{MemSink, MemSource, NoGate, NoMemory, Status, run};
use std::alloc::Global;
use std::process::Abort;
use std::test::Fail;
use std::thread::Threads;

mod faults;
mod reductions;
mod rows;
mod sizes;
mod testing;

const TEXT: &[u8] = b"no problem\n";

pub(crate) fn words(alloc: Global, given: &[&str]) -> Result<Vec<String>, NoMemory> {
    let mut words = Vec::new(alloc);
    for word in given {
        words.push(String::from_str(alloc, word)?)?;
    }
    Ok(words)
}

fn source(alloc: Global, fails: &[u64]) -> Result<MemSource, NoMemory> {
    let text = Vec::from_slice(alloc, TEXT)?;
    Ok(MemSource::new(text, 4, Vec::from_slice(alloc, fails)?))
}

pub(crate) fn sink(alloc: Global, space: usize, fails: &[u64]) -> Result<MemSink, NoMemory> {
    MemSink::new(alloc, space, 6, Vec::from_slice(alloc, fails)?)
}

/// Each line, and its end.
fn joined(alloc: Global, text: &mut Vec<u8>, lines: &[&str]) -> Result<(), NoMemory> {
    for line in lines {
        text.extend_from_slice(line.as_bytes())?;
        text.extend_from_slice(b"\n")?;
    }
    Ok(())
}

/// Runs a command on the text of each row behind its first line, and compares status and lines.
pub(crate) fn each_is_answered(
    rt: &(impl Threads + Sync + Abort),
    alloc: Global,
    command: &str,
    rows: &[(&[&str], u8, &[&str])],
) -> Result<(), Fail> {
    let words = words(alloc, &[command])?;
    for (lines, status, answer) in rows {
        let mut text = Vec::from_slice(alloc, b"mgfun problem 1\n")?;
        joined(alloc, &mut text, lines)?;
        let mut expected = Vec::new(alloc);
        joined(alloc, &mut expected, answer)?;
        let mut source = MemSource::new(text, 100, Vec::new(alloc));
        let mut sink = sink(alloc, 2000, &[])?;
        let ended = run(rt, alloc, &words, &mut source, &mut sink, &NoGate);
        assert_eq!(rt; ended.number(), *status, "{lines:?}");
        assert_eq!(rt; sink.written(), expected.as_slice(), "{lines:?}");
    }
    Ok(())
}

#[test]
fn a_text_in_pieces_is_answered_whole(rt: HostRuntime) -> Result<(), Fail> {
    let alloc = rt.alloc();
    let words = words(alloc, &["check"])?;
    let mut source = source(alloc, &[])?;
    let mut sink = sink(alloc, 100, &[])?;
    let status = run(&rt, alloc, &words, &mut source, &mut sink, &NoGate);
    assert_eq!(rt; status.number(), 2);
    assert_eq!(rt; sink.written(), b"bad input Syntax at 0\n".as_slice());
    assert_eq!(rt; source.unread(), b"".as_slice());
    Ok(())
}

#[test]
fn a_failed_read_writes_nothing(rt: HostRuntime) -> Result<(), Fail> {
    let alloc = rt.alloc();
    let words = words(alloc, &["check"])?;
    for (call, left) in [(0, 11), (2, 3), (3, 0)] {
        let mut source = source(alloc, &[call])?;
        let mut sink = sink(alloc, 100, &[])?;
        let status = run(&rt, alloc, &words, &mut source, &mut sink, &NoGate);
        assert_eq!(rt; status, Status::ReadFault, "at {call}");
        assert_eq!(rt; sink.written(), b"".as_slice(), "at {call}");
        assert_eq!(rt; source.unread().len(), left, "at {call}");
    }
    Ok(())
}

#[test]
fn a_failed_write_leaves_a_front_of_the_answer(rt: HostRuntime) -> Result<(), Fail> {
    let alloc = rt.alloc();
    let words = words(alloc, &["check"])?;
    let mut full = sink(alloc, 9, &[])?;
    let status = run(
        &rt,
        alloc,
        &words,
        &mut source(alloc, &[])?,
        &mut full,
        &NoGate,
    );
    assert_eq!(rt; status, Status::WriteFault);
    assert_eq!(rt; full.written(), b"bad input".as_slice());
    let mut failing = sink(alloc, 100, &[1])?;
    let status = run(
        &rt,
        alloc,
        &words,
        &mut source(alloc, &[])?,
        &mut failing,
        &NoGate,
    );
    assert_eq!(rt; status, Status::WriteFault);
    assert_eq!(rt; failing.written(), b"bad in".as_slice());
    Ok(())
}

#[test]
fn refused_words_leave_the_source(rt: HostRuntime) -> Result<(), Fail> {
    let alloc = rt.alloc();
    let lists: [&[&str]; 5] = [
        &[],
        &["--help"],
        &["Check"],
        &["check", "check"],
        &["telescope"],
    ];
    for given in lists {
        let mut source = source(alloc, &[0])?;
        let mut sink = sink(alloc, 100, &[])?;
        let status = run(
            &rt,
            alloc,
            &words(alloc, given)?,
            &mut source,
            &mut sink,
            &NoGate,
        );
        assert_eq!(rt; status, Status::Usage);
        assert_eq!(rt;
            sink.written(),
            b"usage: mgfun COMMAND [--workers N] [--seed N]\n".as_slice()
        );
        assert_eq!(rt; source.unread(), TEXT);
    }
    Ok(())
}
