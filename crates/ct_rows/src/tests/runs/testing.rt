// Runs of `test`: bases of tested generators; faults of a text and a form that isn't supported yet; what each test refuses, in the
// order of the tests; what comes before the tests; and overflows of expressions and of tests.

use crate::tests::runs::each_is_answered;
use std::test::Fail;

const ROWS: [(&[&str], u8, &[&str]); 22] = [
    (
        &[
            "free x diff",
            "gen 170141183460469231731687303715884105727*D[x]",
            "end",
        ],
        0,
        &["mgfun test 1", "dimension 1", "basis 1", "end"],
    ),
    (
        &["free n shift", "gen 1/2*S[n] - 1/3", "end"],
        0,
        &["mgfun test 1", "dimension 1", "basis 1", "end"],
    ),
    (
        &[
            "free x diff",
            "free t diff",
            "sum n",
            "gen t*D[t] - n",
            "gen (t - t*x^2)*D[x] + (n + 1)*S[n] - (n + 1)*x*t",
            "gen (n + 2)*S[n]^2 - (2*n + 3)*x*t*S[n] + (n + 1)*t^2",
            "end",
        ],
        0,
        &[
            "mgfun test 1",
            "dimension 2",
            "basis 1",
            "basis S[n]",
            "end",
        ],
    ),
    (
        &[
            "free x diff",
            "free t diff",
            "sum n",
            "gen t*D[t] - n",
            "gen (t - t*x^2)*D[x] + (n + 1)*S[n] - (n + 1)*x*t",
            "gen (n + 2)*S[n]^2 - (2*n + 3)*x*t*S[n] + (n + 1)*t^2",
            "order 1..1",
            "degree 1..1",
            "end",
        ],
        0,
        &[
            "mgfun test 1",
            "dimension 2",
            "basis 1",
            "basis S[n]",
            "end",
        ],
    ),
    (
        &[
            "free n shift",
            "int x",
            "gen S[n]^2 - 1",
            "gen D[x]^2 - 1",
            "den x: x + 1",
            "target S[n]",
            "end",
        ],
        0,
        &[
            "mgfun test 1",
            "dimension 4",
            "basis 1",
            "basis D[x]",
            "basis S[n]",
            "basis S[n]*D[x]",
            "end",
        ],
    ),
    (
        &[
            "free x diff",
            "gen 170141183460469231731687303715884105728*D[x]",
            "end",
        ],
        2,
        &["bad input NumberTooLarge at 32"],
    ),
    (
        &["free n shift", "gen S[m] - 1", "end"],
        2,
        &["bad input UnknownName at 35"],
    ),
    (
        &["free n shift", "target S[n]", "end"],
        2,
        &["bad input Missing at 41"],
    ),
    (
        &[
            "free n shift",
            "sum k",
            "let a = gens S[n] - 1",
            "gen S[n] - 1",
            "end",
        ],
        2,
        &["bad input NotYet"],
    ),
    (
        &["free n shift", "gen n - n", "end"],
        2,
        &["bad input ZeroGenerator 1"],
    ),
    (
        &["free n shift", "gen n + 1", "end"],
        2,
        &["bad input Trivial 1"],
    ),
    (
        &["free n shift", "sum k", "gen S[n] - 1", "end"],
        2,
        &["bad input NotFinite k"],
    ),
    (
        &[
            "free n shift",
            "sum k",
            "gen S[n] - k",
            "gen S[k] - n",
            "end",
        ],
        2,
        &["bad input NotClosed n k 1 1: n*k + n; n*k + k"],
    ),
    (
        &[
            "free n shift",
            "free x diff",
            "gen S[n] - x",
            "gen x*D[x] - 1",
            "end",
        ],
        2,
        &["bad input NotClosed n x 1 1: 2; 1"],
    ),
    (
        &["sum k", "gen S[k] - 1", "gen S[k]^2 - 2", "end"],
        2,
        &["bad input NotKilled 2: -1"],
    ),
    (
        &[
            "free n shift",
            "gen S[n]^2 - n",
            "gen S[n]^3 - S[n] - 1",
            "end",
        ],
        2,
        &["bad input NotKilled 2: -1; n"],
    ),
    (
        &[
            "free n shift",
            "sum k",
            "gen S[n] - k",
            "gen S[k] - n",
            "den k: n - n",
            "target 170141183460469231731687303715884105727*2",
            "end",
        ],
        2,
        &["bad input ZeroDen k"],
    ),
    (
        &[
            "free n shift",
            "sum k",
            "gen S[n] - k",
            "gen S[k] - n",
            "den k: k",
            "target 170141183460469231731687303715884105727*2",
            "end",
        ],
        3,
        &["overflow setup input number"],
    ),
    (
        &["free n shift", "gen 0", "gen n^4095*n*S[n]", "end"],
        3,
        &["overflow setup input degree"],
    ),
    (
        &[
            "free n shift",
            "sum k",
            "gen S[n] - 2^100*k",
            "gen S[k] - 2^100*n",
            "end",
        ],
        3,
        &["overflow setup test number"],
    ),
    (
        &[
            "free n shift",
            "sum k",
            "gen n^3000*S[n] - 1",
            "gen n^3000*S[k] - 1",
            "end",
        ],
        3,
        &["overflow setup test degree"],
    ),
    (
        &["free x diff", "gen D[x]^17 - 1", "end"],
        3,
        &["overflow setup test size"],
    ),
];

#[test]
fn generators_are_tested(rt: HostRuntime) -> Result<(), Fail> {
    each_is_answered(&rt, rt.alloc(), "test", &ROWS)
}
