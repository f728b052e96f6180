// What each command needs.

use crate::tests::problems::{fault, fault_of};
use ct_io::Command;
use ct_problem::BadKind;
use std::test::Fail;

#[test]
fn a_missing_line_is_told_at_the_end(rt: HostRuntime) -> Result<(), Fail> {
    let commands = [
        Command::Telescope,
        Command::Check,
        Command::Reduce,
        Command::Test,
        Command::Close,
        Command::Member,
    ];
    let cases = [
        (
            "mgfun problem 1\nfree n shift\nend\n",
            [false, false, false, false, false, false],
        ),
        (
            "mgfun problem 1\nfree n shift\ngen S[n] - 1\nend\n",
            [false, false, false, true, false, false],
        ),
        (
            "mgfun problem 1\nfree n shift\nlet f = gens S[n] - 1\nuse f\nend\n",
            [false, false, false, true, true, false],
        ),
        (
            "mgfun problem 1\nfree n shift\nsum k\nlet f = gens S[n] - 1\nuse f\ntarget 1\norder 0..0\ndegree 0..0\nend\n",
            [true, true, true, true, true, true],
        ),
        (
            "mgfun problem 1\nfree n shift\ntarget 1\nend\n",
            [false, false, true, false, false, false],
        ),
        (
            "mgfun problem 1\nfree n shift\ngen S[n] - 1\ntarget 1\nend\n",
            [false, false, true, true, false, true],
        ),
        (
            "mgfun problem 1\nfree n shift\ngen S[n] - 1\norder 0..0\ndegree 0..0\nend\n",
            [false, false, false, true, false, false],
        ),
        (
            "mgfun problem 1\nfree n shift\nsum k\ngen S[n] - 1\norder 0..0\ndegree 0..0\nend\n",
            [true, true, false, true, false, false],
        ),
        (
            "mgfun problem 1\nfree n shift\nsum k\ngen S[n] - 1\ndegree 0..0\nend\n",
            [false, false, false, true, false, false],
        ),
        (
            "mgfun problem 1\nfree n shift\nsum k\ngen S[n] - 1\norder 0..0\nend\n",
            [false, false, false, true, false, false],
        ),
        (
            "mgfun problem 1\nfree n shift\nsum k\norder 0..0\ndegree 0..0\nend\n",
            [false, false, false, false, false, false],
        ),
    ];
    for (text, enough) in cases {
        for (command, is_enough) in commands.iter().zip(enough.iter()) {
            let missing = fault(BadKind::Missing, text.len() - 4);
            let wanted = if *is_enough { None } else { missing };
            assert_eq!(rt;
                fault_of(rt.alloc(), text.as_bytes(), *command)?,
                wanted,
                "{text}"
            );
        }
    }
    Ok(())
}
