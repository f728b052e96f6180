// Faults of bytes, of tokens and of too many lines, at the places where they show.

use crate::tests::problems::{FULL, each_has_its_fault, fault, fault_of};
use ct_io::Command;
use ct_problem::BadKind;
use std::test::Fail;

#[test]
fn bytes_and_ends_are_judged_by_lines(rt: HostRuntime) -> Result<(), Fail> {
    let cases = [
        ("sum k", "sum \u{7f}k", fault(BadKind::BadByte, 33)),
        ("sum k\n", "sum\r k\n", fault(BadKind::BadByte, 32)),
        (
            "gen S[n] - 1\n",
            "gen S[n] - 1 \u{1}\n",
            fault(BadKind::BadByte, 143),
        ),
        ("k + 1", "k + \r1", fault(BadKind::BadByte, 167)),
        (
            "order 0..2\n",
            "order 0..x\u{2}\n",
            fault(BadKind::BadByte, 200),
        ),
        ("end\n", "end\n\u{1}\n", fault(BadKind::BadByte, 217)),
        ("end\n", "end \u{1}\n", fault(BadKind::BadByte, 217)),
        (FULL, "", fault(BadKind::Unfinished, 0)),
        (
            "order 0..2\ndegree 1..3\nend\n",
            "order 0..",
            fault(BadKind::Unfinished, 199),
        ),
        (
            "free n shift\nsum k\nint u\nparam a\nlet f = gens S[n] - 1; S[k] - 1; D[u] - 1\nlet g = plus f f\nlet h = apply g: S[n]\ngen S[n] - 1\ngen S[k] - a\nden k: k + 1\nden u: u\ntarget S[k]\norder 0..2\ndegree 1..3\nend\n",
            "free n",
            fault(BadKind::Unfinished, 22),
        ),
        ("end\n", "", fault(BadKind::Unfinished, 213)),
        (
            "degree 1..3\nend\n",
            "degree 1..3",
            fault(BadKind::Unfinished, 212),
        ),
    ];
    each_has_its_fault(&rt, rt.alloc(), &cases)
}

#[test]
fn tokens_stand_as_they_must(rt: HostRuntime) -> Result<(), Fail> {
    let cases = [
        ("end\n", "target", fault(BadKind::Syntax, 213)),
        (
            "mgfun problem 1",
            "mgfun report 1",
            fault(BadKind::Syntax, 6),
        ),
        (
            "mgfun problem 1",
            "mgfun problem 2",
            fault(BadKind::Syntax, 14),
        ),
        (
            "problem 1",
            "problem 170141183460469231731687303715884105728",
            fault(BadKind::Syntax, 14),
        ),
        ("shift", "still", fault(BadKind::Syntax, 23)),
        ("free n", "free 2", fault(BadKind::Syntax, 21)),
        ("sum k\n", "sum k k\n", fault(BadKind::Syntax, 35)),
        (
            "sum k\n",
            "sum k\nmgfun problem 1\n",
            fault(BadKind::Syntax, 35),
        ),
        (
            "S[n] - 1\ngen",
            "S(n) - 1\ngen",
            fault(BadKind::Syntax, 135),
        ),
        ("gen S[n] - 1", "gen S - 1", fault(BadKind::Syntax, 136)),
        ("plus f f", "plus f", fault(BadKind::Syntax, 105)),
        ("plus f f", "times f f", fault(BadKind::Syntax, 99)),
        ("apply g: S[n]", "apply g S[n]", fault(BadKind::Syntax, 124)),
        ("gen S[n] - 1", "gen n n", fault(BadKind::Syntax, 136)),
        ("gen S[n] - 1", "gen ()", fault(BadKind::Syntax, 135)),
        ("gen S[n] - 1", "gen (n", fault(BadKind::Syntax, 136)),
        ("gen S[n] - 1", "gen +n", fault(BadKind::Syntax, 134)),
        ("gen S[n] - 1", "gen n*-1", fault(BadKind::Syntax, 136)),
        ("gen S[n] - 1", "gen n^2^2", fault(BadKind::Syntax, 137)),
        ("0..2", "0...2", fault(BadKind::Syntax, 199)),
        ("0..2", "0..-2", fault(BadKind::Syntax, 199)),
        ("end\n", "end x\n", fault(BadKind::Syntax, 217)),
        (
            "mgfun problem 1\n",
            "mgfun problem 1\nend\n",
            fault(BadKind::Syntax, 16),
        ),
        ("den k: k", "den k k", fault(BadKind::Syntax, 162)),
        ("let g = ", "let g ", fault(BadKind::Syntax, 97)),
        ("gens S[n]", "gens ; S[n]", fault(BadKind::Syntax, 62)),
    ];
    each_has_its_fault(&rt, rt.alloc(), &cases)
}

#[test]
fn lines_are_counted(rt: HostRuntime) -> Result<(), Fail> {
    let cases = [
        (
            "param a\n",
            "param a\nparam b\nparam c\nparam d\n",
            fault(BadKind::TooMany, 65),
        ),
        (
            "sum k\n",
            "sum k\nfree m shift\nfree o diff\n",
            fault(BadKind::TooMany, 60),
        ),
        (
            "param a\n",
            "param a\nsum l\nint v\n",
            fault(BadKind::TooMany, 55),
        ),
        (
            "free n shift\nsum k\nint u\n",
            "sum n\nsum k\nint u\nsum l\n",
            fault(BadKind::TooMany, 34),
        ),
        (
            "let g = plus f f\n",
            "let g0 = plus f f\nlet g1 = plus f f\nlet g2 = plus f f\nlet g3 = plus f f\nlet g4 = plus f f\nlet g5 = plus f f\nlet g6 = plus f f\nlet g7 = plus f f\n",
            fault(BadKind::TooMany, 217),
        ),
        (
            "gens S[n] - 1; S[k] - 1; D[u] - 1",
            "gens 1; 1; 1; 1; 1; 1; 1; 1; 1; 1; 1; 1; 1; 1; 1; 1; 1",
            fault(BadKind::TooMany, 110),
        ),
        (
            "gens S[n] - 1; S[k] - 1; D[u] - 1",
            "gens 1; 1; 1; 1; 1; 1; 1; 1; 1; 1; 1; 1; 1; 1; 1; 1; -k",
            fault(BadKind::TooMany, 110),
        ),
        (
            "gen S[n] - 1\n",
            "gen S[n] - 1\ngen S[n] - 1\ngen S[n] - 1\ngen S[n] - 1\ngen S[n] - 1\ngen S[n] - 1\ngen S[n] - 1\ngen S[n] - 1\ngen S[n] - 1\ngen S[n] - 1\ngen S[n] - 1\ngen S[n] - 1\ngen S[n] - 1\ngen S[n] - 1\ngen S[n] - 1\ngen S[n] - 1\n",
            fault(BadKind::TooMany, 338),
        ),
        ("den u: u\n", "den k: S[k]\n", fault(BadKind::TooMany, 169)),
        ("den u: u\n", "den k = 1\n", fault(BadKind::TooMany, 169)),
        (
            "den u: u\n",
            "den u: u\nden n: 1\n",
            fault(BadKind::TooMany, 178),
        ),
        (
            "target S[k]\n",
            "target S[k]\ntarget S[k]\ntarget S[k]\ntarget S[k]\ntarget S[k]\ntarget S[k]\ntarget S[k]\ntarget S[k]\ntarget S[k]\ntarget S[k]\ntarget S[k]\ntarget S[k]\ntarget S[k]\ntarget S[k]\ntarget S[k]\ntarget S[k]\ntarget S[k]\n",
            fault(BadKind::TooMany, 370),
        ),
        (
            "order 0..2\n",
            "order 0..2\norder 9..9\n",
            fault(BadKind::TooMany, 201),
        ),
        (
            "degree 1..3\n",
            "degree 1..3\ndegree 1..3\n",
            fault(BadKind::TooMany, 213),
        ),
        (
            "gen S[n] - 1\ngen S[k] - a\n",
            "use h\nuse h\n",
            fault(BadKind::TooMany, 136),
        ),
    ];
    each_has_its_fault(&rt, rt.alloc(), &cases)
}

#[test]
fn a_text_of_too_many_bytes_is_refused(rt: HostRuntime) -> Result<(), Fail> {
    let text = vec![in rt.alloc(); b'#'; (1 << 26) + 1]?;
    assert_eq!(rt;
        fault_of(rt.alloc(), text.as_slice(), Command::Test)?,
        fault(BadKind::TooLong, 1 << 26)
    );
    Ok(())
}
