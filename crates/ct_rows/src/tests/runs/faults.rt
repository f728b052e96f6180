// Texts with a fault, or of a form that isn't supported yet, under `check`, and the line that tells it.

use crate::tests::runs::{sink, words};
use ct_run::{MemSource, NoGate, run};
use std::test::Fail;

const ROWS: [(&str, &str); 7] = [
    (
        "mgfun problem 1\nfree x diff\ngen 170141183460469231731687303715884105728*D[x]\nend\n",
        "bad input NumberTooLarge at 32\n",
    ),
    (
        "mgfun problem 1\nfree n shift\nsum k\ngen (n + 1 - k)*S[n] - (n + 1)\ngen (k + 1)*S[k] - (n - k)\norder 0..2\ndegree 0..2\n",
        "bad input Unfinished at 116\n",
    ),
    ("", "bad input Unfinished at 0\n"),
    (
        "mgfun problem 1\nfree n shift\nsum k\ngen (n + 1 - k)*S[n] - (n + 1)\ngen (k + 1)*S[k] - (n - k)\norder 2..1\ndegree 0..2\nend\n",
        "bad input EmptyRange at 102\n",
    ),
    (
        "mgfun problem 1\nfree n shift\ngen S[m] - 1\nend\n",
        "bad input UnknownName at 35\n",
    ),
    (
        "mgfun problem 1\nfree n shift\nsum k\ngen S[n] - 2\nend\n",
        "bad input Missing at 48\n",
    ),
    (
        "mgfun problem 1\nfree n shift\nsum k\nlet a = gens S[n] - 2; S[k] - 1\nuse a\norder 1..1\ndegree 0..0\nend\n",
        "bad input NotYet\n",
    ),
];

#[test]
fn each_fault_is_told_by_its_line(rt: HostRuntime) -> Result<(), Fail> {
    let alloc = rt.alloc();
    let words = words(alloc, &["check"])?;
    for (text, line) in ROWS {
        let bytes = Vec::from_slice(alloc, text.as_bytes())?;
        let mut source = MemSource::new(bytes, 7, Vec::new(alloc));
        let mut sink = sink(alloc, 100, &[])?;
        let status = run(&rt, alloc, &words, &mut source, &mut sink, &NoGate);
        assert_eq!(rt; status.number(), 2, "{text}");
        assert_eq!(rt; sink.written(), line.as_bytes(), "{text}");
    }
    Ok(())
}
