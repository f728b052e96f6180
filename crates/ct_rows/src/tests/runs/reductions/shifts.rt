// Reductions by shifts: a text, and the status and the lines of the answer. In the last row the leading coefficient
// divides both, but the first quotient would pass the limit.

use crate::tests::runs::each_is_answered;
use std::test::Fail;

const ROWS: [(&[&str], u8, &[&str]); 11] = [
    (
        &["free n shift", "gen S[n] - 2", "target S[n]^2 - 4", "end"],
        0,
        &[
            "mgfun reduce 1",
            "target 1",
            "scale 1",
            "cofactor 1: S[n] + 2",
            "rest 0",
            "end",
        ],
    ),
    (
        &["free n shift", "gen S[n] - n - 1", "target S[n]^2", "end"],
        0,
        &[
            "mgfun reduce 1",
            "target 1",
            "scale 1",
            "cofactor 1: S[n] + n + 2",
            "rest n^2 + 3*n + 2",
            "end",
        ],
    ),
    (
        &["free n shift", "gen n*S[n] - 1", "target S[n]", "end"],
        0,
        &[
            "mgfun reduce 1",
            "target 1",
            "scale n",
            "cofactor 1: 1",
            "rest 1",
            "end",
        ],
    ),
    (
        &["free n shift", "gen n*S[n] - 1", "target S[n]^3 + n", "end"],
        0,
        &[
            "mgfun reduce 1",
            "target 1",
            "scale n^3 + 3*n^2 + 2*n",
            "cofactor 1: (n^2 + n)*S[n]^2 + n*S[n] + 1",
            "rest n^4 + 3*n^3 + 2*n^2 + 1",
            "end",
        ],
    ),
    (
        &[
            "free n shift",
            "gen 2*S[n] - 1",
            "target 4*S[n] + 3*S[n]^2",
            "end",
        ],
        0,
        &[
            "mgfun reduce 1",
            "target 1",
            "scale 4",
            "cofactor 1: 6*S[n] + 11",
            "rest 11",
            "end",
        ],
    ),
    (
        &[
            "free n shift",
            "gen (n + 1)*S[n] - n",
            "target (n^2 + 3*n + 2)*S[n]",
            "target S[n] - 1",
            "end",
        ],
        0,
        &[
            "mgfun reduce 1",
            "target 1",
            "scale 1",
            "cofactor 1: n + 2",
            "rest n^2 + 2*n",
            "target 2",
            "scale n + 1",
            "cofactor 1: 1",
            "rest -1",
            "end",
        ],
    ),
    (
        &[
            "free n shift",
            "sum k",
            "gen (n + 1 - k)*S[n] - n - 1",
            "gen (k + 1)*S[k] - n + k",
            "target S[n]*S[k] - S[n] - S[k]",
            "end",
        ],
        0,
        &[
            "mgfun reduce 1",
            "target 1",
            "scale n^2 - 2*n*k + k^2 + n - k",
            "cofactor 1: (n - k + 1)*S[k] - n + k",
            "cofactor 2: n - k + 1",
            "rest -n*k + k^2",
            "end",
        ],
    ),
    (
        &[
            "free n shift",
            "sum k",
            "gen (n + 1 - k)*S[n] - n - 1",
            "gen (k + 1)*S[k] - n + k",
            "target S[k]^2",
            "target k*S[k] - S[n]",
            "target 1",
            "end",
        ],
        0,
        &[
            "mgfun reduce 1",
            "target 1",
            "scale k^2 + 3*k + 2",
            "cofactor 1: 0",
            "cofactor 2: (k + 1)*S[k] + n - k - 1",
            "rest n^2 - 2*n*k + k^2 - n + k",
            "target 2",
            "scale n*k - k^2 + n + 1",
            "cofactor 1: -k - 1",
            "cofactor 2: n*k - k^2 + k",
            "rest n^2*k - 2*n*k^2 + k^3 - k^2 - n - k - 1",
            "target 3",
            "scale 1",
            "cofactor 1: 0",
            "cofactor 2: 0",
            "rest 1",
            "end",
        ],
    ),
    (
        &[
            "free n shift",
            "gen S[n]^2 - S[n] - 1",
            "target S[n]^5",
            "end",
        ],
        0,
        &[
            "mgfun reduce 1",
            "target 1",
            "scale 1",
            "cofactor 1: S[n]^3 + S[n]^2 + 2*S[n] + 3",
            "rest 5*S[n] + 3",
            "end",
        ],
    ),
    (
        &[
            "free n shift",
            "gen S[n]^2 - S[n] - 1",
            "target (n + S[n])^3",
            "end",
        ],
        0,
        &[
            "mgfun reduce 1",
            "target 1",
            "scale 1",
            "cofactor 1: S[n] + 3*n + 4",
            "rest (3*n^2 + 6*n + 6)*S[n] + n^3 + 3*n + 4",
            "end",
        ],
    ),
    (
        &[
            "free n shift",
            "gen (n - 1)*S[n]",
            "target 21267647932558653966460912964485513215*(n^9 - 1)*S[n]",
            "target (n^9 - 1)*S[n]",
            "end",
        ],
        0,
        &[
            "mgfun reduce 1",
            "target 1",
            "scale n - 1",
            "cofactor 1: 21267647932558653966460912964485513215*n^9 - 21267647932558653966460912964485513215",
            "rest 0",
            "target 2",
            "scale 1",
            "cofactor 1: n^8 + n^7 + n^6 + n^5 + n^4 + n^3 + n^2 + n + 1",
            "rest 0",
            "end",
        ],
    ),
];

#[test]
fn reductions_by_shifts_are_exact(rt: HostRuntime) -> Result<(), Fail> {
    each_is_answered(&rt, rt.alloc(), "reduce", &ROWS)
}
