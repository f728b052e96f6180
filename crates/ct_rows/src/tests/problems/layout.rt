// How the lines of a text stand one after the other, and what may stand between tokens.

use crate::tests::problems::{FULL, each_has_its_fault, fault, fault_of};
use ct_io::Command;
use ct_problem::{BadKind, read_problem};
use std::test::Fail;

#[test]
fn lines_stand_in_their_order(rt: HostRuntime) -> Result<(), Fail> {
    let cases = [
        (
            "mgfun problem 1\nfree n shift\n",
            "free n shift\nmgfun problem 1\n",
            fault(BadKind::Syntax, 0),
        ),
        ("free n shift\nsum k\n", "sum k\nfree n shift\n", None),
        ("sum k\nint u\n", "int u\nsum k\n", None),
        ("int u\nparam a\n", "param a\nint u\n", None),
        (
            "param a\nlet f = gens S[n] - 1; S[k] - 1; D[u] - 1\n",
            "let f = gens S[n] - 1; S[k] - 1; D[u] - 1\nparam a\n",
            fault(BadKind::Syntax, 83),
        ),
        (
            "let f = gens S[n] - 1; S[k] - 1; D[u] - 1\nlet g = plus f f\n",
            "let g = plus f f\nlet f = gens S[n] - 1; S[k] - 1; D[u] - 1\n",
            fault(BadKind::UnknownName, 62),
        ),
        (
            "let g = plus f f\nlet h = apply g: S[n]\n",
            "let h = apply g: S[n]\nlet g = plus f f\n",
            fault(BadKind::UnknownName, 105),
        ),
        (
            "let h = apply g: S[n]\ngen S[n] - 1\n",
            "gen S[n] - 1\nlet h = apply g: S[n]\n",
            fault(BadKind::Syntax, 121),
        ),
        (
            "gen S[n] - 1\ngen S[k] - a\n",
            "gen S[k] - a\ngen S[n] - 1\n",
            None,
        ),
        (
            "gen S[k] - a\nden k: k + 1\n",
            "den k: k + 1\ngen S[k] - a\n",
            fault(BadKind::Syntax, 156),
        ),
        ("den k: k + 1\nden u: u\n", "den u: u\nden k: k + 1\n", None),
        (
            "den u: u\ntarget S[k]\n",
            "target S[k]\nden u: u\n",
            fault(BadKind::Syntax, 181),
        ),
        (
            "target S[k]\norder 0..2\n",
            "order 0..2\ntarget S[k]\n",
            fault(BadKind::Syntax, 189),
        ),
        (
            "order 0..2\ndegree 1..3\n",
            "degree 1..3\norder 0..2\n",
            fault(BadKind::Syntax, 202),
        ),
        (
            "degree 1..3\nend\n",
            "end\ndegree 1..3\n",
            fault(BadKind::Missing, 201),
        ),
    ];
    each_has_its_fault(&rt, rt.alloc(), &cases)
}

#[test]
fn blanks_and_comments_stand_between(rt: HostRuntime) -> Result<(), Fail> {
    let cases = [
        ("\n", "\r\n", None),
        ("\n", " \t\n", None),
        (" ", "\t", None),
        ("\n", "\n# a line of notes\n", None),
        ("\n", "\n\n \t\n", None),
        ("\n", " # no note\n", fault(BadKind::Syntax, 16)),
        ("S[", "S [ ", None),
        ("..", " .. ", None),
        (" ", "", fault(BadKind::Syntax, 0)),
    ];
    each_has_its_fault(&rt, rt.alloc(), &cases)
}

#[test]
fn a_comment_may_hold_any_bytes(rt: HostRuntime) -> Result<(), Fail> {
    let front = b"mgfun problem 1\n";
    let back = b"sum k\nend";
    for comment in [b"  # \xff\x00\x80\rnot read\n".as_slice(), b"#\xfe\n"] {
        let mut text = Vec::from_slice(rt.alloc(), front.as_slice())?;
        text.extend_from_slice(comment)?;
        text.extend_from_slice(back.as_slice())?;
        assert_eq!(rt; fault_of(rt.alloc(), text.as_slice(), Command::Gen)?, None);
    }
    Ok(())
}

#[test]
fn the_last_line_may_lack_its_end(rt: HostRuntime) -> Result<(), Fail> {
    let text = FULL.trim_end();
    let problem = read_problem(rt.alloc(), text.as_bytes(), Command::Telescope)?;
    assert_eq!(rt; problem.end, text.len());
    let problem = read_problem(rt.alloc(), FULL.as_bytes(), Command::Telescope)?;
    assert_eq!(rt; problem.end, FULL.len());
    Ok(())
}

#[test]
fn a_report_may_follow_for_a_check(rt: HostRuntime) -> Result<(), Fail> {
    let text = format!(in rt.alloc(); "{FULL}mgfun report 1\n\u{7f}")?;
    let problem = read_problem(rt.alloc(), text.as_bytes(), Command::Check)?;
    assert_eq!(rt; problem.end, FULL.len());
    assert_eq!(rt;
        fault_of(rt.alloc(), text.as_bytes(), Command::Telescope)?,
        fault(BadKind::TrailingText, FULL.len())
    );
    Ok(())
}
