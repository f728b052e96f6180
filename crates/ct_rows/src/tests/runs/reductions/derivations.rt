// Reductions by derivations: a text, and the status and the lines of the answer.

use crate::tests::runs::each_is_answered;
use std::test::Fail;

const ROWS: [(&[&str], u8, &[&str]); 9] = [
    (
        &[
            "free x diff",
            "gen D[x] - 1",
            "target D[x]^2 - 1",
            "target x*D[x]^2",
            "end",
        ],
        0,
        &[
            "mgfun reduce 1",
            "target 1",
            "scale 1",
            "cofactor 1: D[x] + 1",
            "rest 0",
            "target 2",
            "scale 1",
            "cofactor 1: x*D[x] + x",
            "rest x",
            "end",
        ],
    ),
    (
        &["free x diff", "gen x*D[x] - 1", "target D[x]^2", "end"],
        0,
        &[
            "mgfun reduce 1",
            "target 1",
            "scale x",
            "cofactor 1: D[x]",
            "rest 0",
            "end",
        ],
    ),
    (
        &["free x diff", "gen x*D[x] - 1", "target D[x]*x", "end"],
        0,
        &[
            "mgfun reduce 1",
            "target 1",
            "scale 1",
            "cofactor 1: 1",
            "rest 2",
            "end",
        ],
    ),
    (
        &[
            "free x diff",
            "gen D[x]^2 + 1",
            "target D[x]^4 + x*D[x]^3",
            "end",
        ],
        0,
        &[
            "mgfun reduce 1",
            "target 1",
            "scale 1",
            "cofactor 1: D[x]^2 + x*D[x] - 1",
            "rest -x*D[x] + 1",
            "end",
        ],
    ),
    (
        &[
            "free x diff",
            "gen (x^2 + 1)*D[x] + x",
            "target (x^2 + 1)^2*D[x]^2",
            "end",
        ],
        0,
        &[
            "mgfun reduce 1",
            "target 1",
            "scale 1",
            "cofactor 1: (x^2 + 1)*D[x] - 3*x",
            "rest 2*x^2 - 1",
            "end",
        ],
    ),
    (
        &[
            "free t diff",
            "int x",
            "gen D[t] + x^2",
            "gen D[x] + 2*x*t",
            "target D[x]*D[t]",
            "target 2*t*D[t] - x*D[x]",
            "end",
        ],
        0,
        &[
            "mgfun reduce 1",
            "target 1",
            "scale 1",
            "cofactor 1: D[x]",
            "cofactor 2: -x^2",
            "rest 2*t*x^3 - 2*x",
            "target 2",
            "scale 1",
            "cofactor 1: 2*t",
            "cofactor 2: -x",
            "rest 0",
            "end",
        ],
    ),
    (
        &[
            "free x diff",
            "free y diff",
            "gen D[x] - y",
            "gen D[y] - x",
            "target D[x]*D[y] - x*y - 1",
            "target D[x]^2*D[y]",
            "end",
        ],
        0,
        &[
            "mgfun reduce 1",
            "target 1",
            "scale 1",
            "cofactor 1: D[y]",
            "cofactor 2: y",
            "rest 0",
            "target 2",
            "scale 1",
            "cofactor 1: D[x]*D[y] + y*D[y] + 1",
            "cofactor 2: y^2",
            "rest x*y^2 + 2*y",
            "end",
        ],
    ),
    (
        &["free x diff", "gen D[x] - x", "target (D[x] + x)^3", "end"],
        0,
        &[
            "mgfun reduce 1",
            "target 1",
            "scale 1",
            "cofactor 1: D[x]^2 + 4*x*D[x] + 7*x^2 + 5",
            "rest 8*x^3 + 12*x",
            "end",
        ],
    ),
    (
        &[
            "int x",
            "param a",
            "gen D[x] - a",
            "target D[x]^3 - a^3",
            "target a*D[x] - x",
            "end",
        ],
        0,
        &[
            "mgfun reduce 1",
            "target 1",
            "scale 1",
            "cofactor 1: D[x]^2 + a*D[x] + a^2",
            "rest 0",
            "target 2",
            "scale 1",
            "cofactor 1: a",
            "rest a^2 - x",
            "end",
        ],
    ),
];

#[test]
fn reductions_by_derivations_are_exact(rt: HostRuntime) -> Result<(), Fail> {
    each_is_answered(&rt, rt.alloc(), "reduce", &ROWS)
}
