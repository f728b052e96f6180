// Texts at the limit and past it, from a source that makes its bytes.
ghost use Rattle.std.specs.Prelude.{None};

use crate::tests::runs::{sink, words};
use ct_run::{Failed, NoGate, Source, run};
use std::test::Fail;

/// So many bytes that are left, all the same, and the greatest length of a piece that was asked for.
#[derive(Drop)]
struct Repeated {
    byte: u8,
    left: usize,
    greatest: usize,
}

impl Source for Repeated {
    ghost left = { λ _. None };

    ghost faults = { λ _. 0 };

    fn read(&mut self, piece: &mut [u8]) -> Result<usize, Failed> {
        self.greatest = self.greatest.max(piece.len());
        let count = self.left.min(piece.len());
        for byte in piece.iter_mut().take(count) {
            *byte = self.byte;
        }
        self.left -= count;
        Ok(count)
    }
}

#[test]
fn a_text_past_the_limit_is_too_long(rt: HostRuntime) -> Result<(), Fail> {
    let alloc = rt.alloc();
    let words = words(alloc, &["check"])?;
    let too_long = "bad input TooLong at 67108864\n";
    let cases = [
        (b'#', 67_108_865, 0, too_long),
        (b'\n', 67_108_866, 1, too_long),
        (b'x', 67_200_000, 91_135, too_long),
        (b'#', 67_108_864, 0, "bad input Unfinished at 67108864\n"),
    ];
    for (byte, left, unread, line) in cases {
        let mut source = Repeated {
            byte,
            left,
            greatest: 0,
        };
        let mut sink = sink(alloc, 100, &[])?;
        let status = run(&rt, alloc, &words, &mut source, &mut sink, &NoGate);
        assert_eq!(rt; status.number(), 2);
        assert_eq!(rt; sink.written(), line.as_bytes());
        assert_eq!(rt; source.left, unread);
        assert_eq!(rt; source.greatest, 65_536);
    }
    Ok(())
}
