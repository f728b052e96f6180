// The fakes and the adapters at work, through the bounds that the reading and the writing see.
use crate::{
    Failed, Gate, MemSink, MemSource, NoGate, Sink, Source, SourceFault, StdSink, StdSource,
    read_up_to, write_all,
};
use std::io;
use std::io::Write;
use std::test::Fail;

/// A writer that takes all, and cannot be flushed.
#[derive(Drop)]
struct Unflushed;

impl Write for Unflushed {
    fn write(&mut self, piece: &[u8]) -> io::Result<usize> {
        Ok(piece.len())
    }

    fn flush(&mut self) -> io::Result<()> {
        Err(io::Error::from(io::ErrorKind::Other))
    }
}

fn read_four<S: Source>(source: &mut S) -> Result<(usize, [u8; 4]), Failed> {
    let mut piece = [0; 4];
    let count = source.read(&mut piece)?;
    Ok((count, piece))
}

fn write_to<K: Sink>(sink: &mut K, piece: &[u8]) -> Result<usize, Failed> {
    sink.write(piece)
}

fn tell<G: Gate>(gate: &G) {
    gate.enter(0);
    gate.made(0);
}

#[test]
fn a_source_over_memory_gives_its_bytes_by_steps(rt: HostRuntime) -> Result<(), Fail> {
    let alloc = rt.alloc();
    let text = Vec::from_slice(alloc, b"abcdefg")?;
    let mut source = MemSource::new(text, 3, Vec::from_slice(alloc, &[1])?);
    assert_eq!(rt; read_four(&mut source), Ok((3, *b"abc\0")));
    assert_eq!(rt; read_four(&mut source), Err(Failed));
    assert_eq!(rt; source.unread(), b"defg".as_slice());
    assert_eq!(rt; read_four(&mut source), Ok((3, *b"def\0")));
    assert_eq!(rt; read_four(&mut source), Ok((1, *b"g\0\0\0")));
    assert_eq!(rt; read_four(&mut source), Ok((0, [0; 4])));
    Ok(())
}

#[test]
fn a_sink_over_memory_takes_what_it_has_room_for(rt: HostRuntime) -> Result<(), Fail> {
    let alloc = rt.alloc();
    let mut sink = MemSink::new(alloc, 5, 3, Vec::from_slice(alloc, &[1])?)?;
    assert_eq!(rt; write_to(&mut sink, b"abcd"), Ok(3));
    assert_eq!(rt; write_to(&mut sink, b"d"), Err(Failed));
    assert_eq!(rt; write_to(&mut sink, b"def"), Ok(2));
    assert_eq!(rt; write_to(&mut sink, b"f"), Err(Failed));
    assert_eq!(rt; write_to(&mut sink, b""), Ok(0));
    assert_eq!(rt; sink.written(), b"abcde".as_slice());
    Ok(())
}

#[test]
fn a_source_is_read_up_to_a_limit(rt: HostRuntime) -> Result<(), Fail> {
    let alloc = rt.alloc();
    let cases = [
        (0, "", "abcdefg"),
        (1, "a", "bcdefg"),
        (6, "abcdef", "g"),
        (7, "abcdefg", ""),
        (100, "abcdefg", ""),
    ];
    for (most, front, left) in cases {
        let text = Vec::from_slice(alloc, b"abcdefg")?;
        let mut source = MemSource::new(text, 3, Vec::new(alloc));
        let bytes = read_up_to(alloc, &mut source, most);
        assert!(rt;
            matches!(&bytes, Ok(bytes) if bytes.as_slice() == front.as_bytes()),
            "{most}"
        );
        assert_eq!(rt; source.unread(), left.as_bytes(), "{most}");
    }
    let text = Vec::from_slice(alloc, b"abcdefg")?;
    let mut source = MemSource::new(text, 3, Vec::from_slice(alloc, &[1])?);
    let bytes = read_up_to(alloc, &mut source, 100);
    assert!(rt; matches!(&bytes, Err(SourceFault::Failed)));
    assert_eq!(rt; source.unread(), b"defg".as_slice());
    Ok(())
}

#[test]
fn a_text_is_written_whole_or_fails(rt: HostRuntime) -> Result<(), Fail> {
    let alloc = rt.alloc();
    let mut sink = MemSink::new(alloc, 7, 3, Vec::new(alloc))?;
    assert_eq!(rt; write_all(&mut sink, b"abcde"), Ok(()));
    assert_eq!(rt; sink.written(), b"abcde".as_slice());
    assert_eq!(rt; write_all(&mut sink, b"fgh"), Err(Failed));
    assert_eq!(rt; sink.written(), b"abcdefg".as_slice());
    Ok(())
}

#[test]
fn the_adapters_pass_bytes_on(rt: HostRuntime) -> Result<(), Fail> {
    let alloc = rt.alloc();
    let mut source = StdSource::new(b"abcde".as_slice());
    assert_eq!(rt; read_four(&mut source), Ok((4, *b"abcd")));
    assert_eq!(rt; read_four(&mut source), Ok((1, *b"e\0\0\0")));
    assert_eq!(rt; read_four(&mut source), Ok((0, [0; 4])));
    let mut kept = Vec::new(alloc);
    let mut sink = StdSink::new(&mut kept);
    assert_eq!(rt; write_to(&mut sink, b"abc"), Ok(3));
    assert_eq!(rt; write_to(&mut sink, b"de"), Ok(2));
    assert_eq!(rt; kept.as_slice(), b"abcde".as_slice());
    tell(&NoGate);
    Ok(())
}

#[test]
fn a_failed_flush_fails_the_write(rt: HostRuntime) {
    let mut sink = StdSink::new(Unflushed);
    assert_eq!(rt; write_to(&mut sink, b"abc"), Err(Failed));
}
