// Whole runs on reports: a line of a text is replaced by another, and the answer compared.
ghost use Rattle.std.specs.Prelude.{◌<◌};

use crate::tests::runs::{sink, words};
use ct_run::{MemSource, NoGate, NoMemory, run};
use std::alloc::Global;
use std::process::Abort;
use std::test::Fail;
use std::thread::Threads;

/// A sum whose summand doesn't depend on k.
const THIN: [&str; 18] = [
    "mgfun problem 1",
    "free n shift",
    "sum k",
    "gen S[n] - 2",
    "gen S[k] - 1",
    "order 1..1",
    "degree 0..0",
    "end",
    "mgfun report 1",
    "found 0 order 1 degree 0",
    "telescoper S[n] - 2",
    "numerator k: 0",
    "denominator k: 1",
    "scale 1",
    "part k: 1",
    "cofactor 1: 1",
    "cofactor 2: 0",
    "end",
];

/// The place of a line of `THIN`, what stands there, and the status and the line of the answer.
const THIN_ROWS: [(usize, &str, u8, &str); 41] = [
    (18, "", 0, "yes found 0\n"),
    (2, "sum k\nlet a = gens S[n] - 2", 2, "bad input NotYet\n"),
    (4, "gen S[k] - 1\nden k: 1", 2, "bad input NotYet\n"),
    (4, "gen S[k] - 1\ntarget S[n]", 0, "yes found 0\n"),
    (15, "cofactor 1: 2", 8, "no identity\n"),
    (5, "order 0..1", 2, "bad input NotYet\n"),
    (9, "found 1 order 1 degree 0", 8, "no found\n"),
    (9, "found 0 order 2 degree 0", 8, "no found\n"),
    (9, "found 0 order 1 degree 1", 8, "no found\n"),
    (10, "telescoper 0", 8, "no telescoper\n"),
    (10, "telescoper S[k] - 2", 8, "no telescoper\n"),
    (10, "telescoper k*S[n] - 2", 8, "no telescoper\n"),
    (10, "telescoper 2*S[n] - 4", 8, "no identity\n"),
    (13, "scale 0", 8, "no scale\n"),
    (13, "scale 2", 8, "no part k\n"),
    (12, "denominator k: 0", 8, "no denominator k\n"),
    (12, "denominator k: n", 8, "no part k\n"),
    (14, "part k: 0", 8, "no part k\n"),
    (11, "numerator k: n", 8, "no identity\n"),
    (11, "numerator k: S[k]", 8, "no identity\n"),
    (16, "cofactor 2: 1", 8, "no identity\n"),
    (15, "cofactor 1: S[k]", 8, "no identity\n"),
    (3, "gen S[n] - 3", 8, "no identity\n"),
    (3, "gen S[k]", 2, "bad input NotFinite n\n"),
    (
        4,
        "gen S[k] - n",
        2,
        "bad input NotClosed n k 1 1: 2*n; 2*n + 2\n",
    ),
    (
        10,
        "telescoper 170141183460469231731687303715884105727*S[n] - 1",
        3,
        "overflow check input number\n",
    ),
    (
        3,
        "gen 170141183460469231731687303715884105727*S[n] - 1",
        3,
        "overflow setup input number\n",
    ),
    (
        3,
        "gen 170141183460469231731687303715884105728*S[n]",
        2,
        "bad input NumberTooLarge at 39\n",
    ),
    (
        13,
        "scale 170141183460469231731687303715884105727",
        8,
        "no part k\n",
    ),
    (
        15,
        "cofactor 1: 85070591730234615865843651857942052864",
        3,
        "overflow check identity number\n",
    ),
    (
        14,
        "part k: 2*170141183460469231731687303715884105727",
        3,
        "overflow check input number\n",
    ),
    (1, "free n diff", 2, "bad input WrongKind at 40\n"),
    (0, "mgfun problem 2", 2, "bad input Syntax at 14\n"),
    (2, "sum n", 2, "bad input DuplicateName at 33\n"),
    (7, "", 2, "bad input Syntax at 85\n"),
    (9, "none", 2, "bad input NotYet\n"),
    (17, "end end", 2, "bad input NotYet\n"),
    (16, "cofactor 3: 0", 2, "bad input NotYet\n"),
    (11, "numerator n: 0", 2, "bad input NotYet\n"),
    (10, "telescoper S[n] - 4/2", 2, "bad input NotYet\n"),
    (3, "gen S[m] - 2", 2, "bad input UnknownName at 41\n"),
];

/// A telescoper that overflows, at its place in `THIN`.
const LARGE: (usize, &str) = (
    10,
    "telescoper 170141183460469231731687303715884105727*S[n] - 1",
);

/// The same for `THIN` with this telescoper: what the problem says is evaluated, and its generators are tested, before it.
const LARGE_ROWS: [(usize, &str, u8, &str); 4] = [
    (18, "", 3, "overflow check input number\n"),
    (
        4,
        "gen S[k] - 1\ntarget 170141183460469231731687303715884105727*S[n] - 1",
        3,
        "overflow setup input number\n",
    ),
    (
        3,
        "gen S[n]^2000*S[n]^2096",
        3,
        "overflow setup input degree\n",
    ),
    (4, "gen S[n]*S[k] - 2", 2, "bad input NotFinite k\n"),
];

/// A double sum, with a report that a person wrote.
const DOUBLE: [&str; 24] = [
    "mgfun problem 1",
    "free n shift",
    "sum k",
    "sum j",
    "gen (n - k + 1)*S[n] - (n + 1)",
    "gen (k - j + 1)*S[k] - (n - k)",
    "gen (j + 1)*S[j] - (k - j)",
    "order 1..1",
    "degree 1..1",
    "end",
    "mgfun report 1",
    "found 0 order 1 degree 1",
    "telescoper S[n] - 3",
    "numerator k: 2*j - 2*k",
    "denominator k: n - k + 1",
    "numerator j: -j",
    "denominator j: n - k + 1",
    "scale (n - k + 1)^2*(n - k)",
    "part k: n - k + 1",
    "part j: n - k",
    "cofactor 1: (n - k + 1)*(n - k)",
    "cofactor 2: 2*(n - k + 1)^2",
    "cofactor 3: (n - k + 1)*(n - k)",
    "end",
];

/// The same for `DOUBLE`.
const DOUBLE_ROWS: [(usize, &str, u8, &str); 11] = [
    (99, "", 0, "yes found 0\n"),
    (22, "cofactor 3: -(n - k + 1)*(n - k)", 8, "no identity\n"),
    (17, "scale 0", 8, "no scale\n"),
    (7, "order 0..1", 2, "bad input NotYet\n"),
    (
        12,
        "telescoper 170141183460469231731687303715884105727*S[n] - 1",
        3,
        "overflow check input number\n",
    ),
    (12, "telescoper S[k] - 3", 8, "no telescoper\n"),
    (11, "found 1 order 1 degree 1", 8, "no found\n"),
    (19, "part j: n - k + 1", 8, "no part j\n"),
    (16, "denominator j: (n - n)^3", 8, "no denominator j\n"),
    (2, "int k", 2, "bad input WrongKind at 90\n"),
    (
        17,
        "scale 85070591730234615865843651857942052864*2",
        3,
        "overflow check input number\n",
    ),
];

/// The lines with one of them replaced.
fn text_of(alloc: Global, lines: &[&str], at: usize, new: &str) -> Result<Vec<u8>, NoMemory> {
    let mut text = Vec::new(alloc);
    for (place, line) in lines.iter().enumerate() {
        let line = if place == at { new } else { *line };
        text.extend_from_slice(line.as_bytes())?;
        text.extend_from_slice(b"\n")?;
    }
    Ok(text)
}

/// Runs `check` on the text of each row, read and written by pieces, and compares status and line.
fn each_has_its_answer(
    rt: &(impl Threads + Sync + Abort),
    alloc: Global,
    lines: &[&str],
    rows: &[(usize, &str, u8, &str)],
    piece: usize,
) -> Result<(), Fail>
    requires { 0 < piece }
{
    let words = words(alloc, &["check"])?;
    for (at, new, status, line) in rows {
        let text = text_of(alloc, lines, *at, new)?;
        let mut source = MemSource::new(text, piece, Vec::new(alloc));
        let mut sink = sink(alloc, 100, &[])?;
        let ended = run(rt, alloc, &words, &mut source, &mut sink, &NoGate);
        assert_eq!(rt; ended.number(), *status, "{new}");
        assert_eq!(rt; sink.written(), line.as_bytes(), "{new}");
    }
    Ok(())
}

#[test]
fn each_thin_text_has_its_answer(rt: HostRuntime) -> Result<(), Fail> {
    each_has_its_answer(&rt, rt.alloc(), &THIN, &THIN_ROWS, 100)
}

#[test]
fn a_problem_overflows_before_its_report(rt: HostRuntime) -> Result<(), Fail> {
    let mut lines = THIN;
    lines[LARGE.0] = LARGE.1;
    each_has_its_answer(&rt, rt.alloc(), &lines, &LARGE_ROWS, 100)
}

#[test]
fn each_double_sum_has_its_answer(rt: HostRuntime) -> Result<(), Fail> {
    each_has_its_answer(&rt, rt.alloc(), &DOUBLE, &DOUBLE_ROWS, 7)
}
