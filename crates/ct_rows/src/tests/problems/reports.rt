// Which texts are reports that found a telescoper.

use ct_io::Command;
use ct_problem::{read_found_report, read_problem};
use std::alloc::Global;
use std::test::Fail;

const PROBLEM: &str = "mgfun problem 1\nfree n shift\nsum k\ngen 1\norder 0..1\ndegree 0..0\nend\n";

const REPORT: &str =
    "mgfun report 1\nfound 0 order 1 degree 0\ntelescoper S[n] - 2\nnumerator k: 0\ndenominator k: 1\nscale 1\npart k: 1\ncofactor 1: 1\nend\n";

fn is_read(alloc: Global, report: &str) -> Result<bool, Fail> {
    let text = format!(in alloc; "{PROBLEM}{report}")?;
    let problem = read_problem(alloc, text.as_bytes(), Command::Check)?;
    let report = read_found_report(alloc, &problem.algebra, 1, text.as_bytes(), problem.end)?;
    Ok(report.is_some())
}

#[test]
fn lines_stand_as_they_must(rt: HostRuntime) -> Result<(), Fail> {
    let cases = [
        ("", "", true),
        ("1\n", "01\n", true),
        ("found 0", "found 65535", true),
        ("found 0", "found 65536", false),
        ("denominator k: 1", "denominator k: S[k]", false),
        ("numerator k", "numerator n", false),
        ("scale 1", "scale S[n]", false),
        ("cofactor 1: 1", "cofactor 2: 1", false),
        ("cofactor 1: 1\n", "", false),
        ("scale 1", "scale 1/2", false),
        ("scale 1\n", "scale 1\n\n", false),
        ("scale 1\n", "scale 1\n  \n", false),
        ("scale 1\n", "scale 1\n# no\n", false),
        ("scale 1\n", "scale 1\r\n", false),
        ("scale 1", "scale\t1", false),
        ("part k: 1", "refuted 0 order 0 degree 0", false),
        ("end\n", "end", false),
        ("end\n", "end\nend\n", false),
        ("S[n] - 2", "S[n]^2*n - (n + 1)^2", true),
    ];
    for (old, new, wanted) in cases {
        let changed = REPORT.replace(rt.alloc(), old, new)?;
        assert_eq!(rt;
            is_read(rt.alloc(), changed.as_str())?,
            wanted,
            "{old} to {new}"
        );
    }
    Ok(())
}
