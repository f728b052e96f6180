// Texts that `reduce` refuses, and reductions at the limits of arithmetic: the last six overflow in the moved generator (its
// numbers, its terms), in the scale, in a cofactor, in the difference, and in the sum for a cofactor.

use crate::tests::runs::each_is_answered;
use std::test::Fail;

const ROWS: [(&[&str], u8, &[&str]); 22] = [
    (
        &["free n shift", "gen n - n", "target S[n]", "end"],
        2,
        &["bad input ZeroGenerator 1"],
    ),
    (
        &[
            "free n shift",
            "gen S[n]",
            "gen 0",
            "gen 170141183460469231731687303715884105727*2",
            "target S[n]",
            "end",
        ],
        2,
        &["bad input ZeroGenerator 2"],
    ),
    (
        &[
            "free n shift",
            "gen S[n]",
            "gen 170141183460469231731687303715884105727*2",
            "gen 0",
            "target S[n]",
            "end",
        ],
        3,
        &["overflow setup input number"],
    ),
    (
        &[
            "free n shift",
            "gen S[n] - 1",
            "target 170141183460469231731687303715884105727 + 1",
            "end",
        ],
        3,
        &["overflow setup input number"],
    ),
    (
        &[
            "free n shift",
            "gen S[n] - 170141183460469231731687303715884105727",
            "target S[n]",
            "target S[n]^2",
            "end",
        ],
        3,
        &["overflow setup input number"],
    ),
    (
        &[
            "free n shift",
            "gen S[n] - 1267650600228229401496703205376",
            "target S[n] + 1",
            "target S[n]^3",
            "target 1",
            "end",
        ],
        3,
        &["overflow reduce 2 number"],
    ),
    (
        &[
            "free n shift",
            "gen n*S[n] - 1",
            "target 85070591730234615865843651857942052863*S[n]^2",
            "end",
        ],
        3,
        &["overflow reduce 1 number"],
    ),
    (
        &[
            "free n shift",
            "gen 3*S[n] - 1",
            "target 56713727820156410577229101238628035243*S[n] + 56713727820156410577229101238628035242",
            "end",
        ],
        3,
        &["overflow reduce 1 number"],
    ),
    (
        &[
            "free n shift",
            "gen (n^4000)*S[n] - 1",
            "target S[n] + n^100",
            "target S[n]",
            "end",
        ],
        3,
        &["overflow reduce 1 degree"],
    ),
    (
        &[
            "free n shift",
            "gen S[n]^3000 - 1",
            "target S[n]^3500",
            "target S[n]^4095",
            "end",
        ],
        0,
        &[
            "mgfun reduce 1",
            "target 1",
            "scale 1",
            "cofactor 1: S[n]^500",
            "rest S[n]^500",
            "target 2",
            "scale 1",
            "cofactor 1: S[n]^1095",
            "rest S[n]^1095",
            "end",
        ],
    ),
    (
        &["free n shift", "let a = gens S[n]", "target S[n]", "end"],
        2,
        &["bad input NotYet"],
    ),
    (
        &[
            "free n shift",
            "let a = gens S[n]",
            "use a",
            "target S[n]",
            "end",
        ],
        2,
        &["bad input NotYet"],
    ),
    (
        &["free n shift", "gen S[n]", "end"],
        2,
        &["bad input Missing at 38"],
    ),
    (
        &["free n shift", "gen S[n]", "target S[m]", "end"],
        2,
        &["bad input UnknownName at 47"],
    ),
    (
        &["free n shift", "gen S[n]", "target S[n]", "end", "x"],
        2,
        &["bad input TrailingText at 54"],
    ),
    (
        &[
            "free n shift",
            "gen 2*S[n] - 1",
            "target S[n]",
            "target 85070591730234615865843651857942052863*S[n]^100",
            "end",
        ],
        3,
        &["overflow reduce 2 number"],
    ),
    (
        &["free n shift", "gen n^100*S[n] - 1", "target S[n]^5", "end"],
        3,
        &["overflow reduce 1 number"],
    ),
    (
        &[
            "free n shift",
            "free m shift",
            "gen n^1100*m^1000*S[n] - 1",
            "target S[n]^2*S[m]",
            "end",
        ],
        3,
        &["overflow reduce 1 terms"],
    ),
    (
        &[
            "free n shift",
            "free m shift",
            "gen n^3000*S[n] - S[m]",
            "gen n^2000*S[m] - 1",
            "target S[n]",
            "end",
        ],
        3,
        &["overflow reduce 1 degree"],
    ),
    (
        &[
            "free n shift",
            "free m shift",
            "gen S[n]",
            "gen n^2000*S[m] - 1",
            "target n^3000*S[n] + S[m]",
            "end",
        ],
        3,
        &["overflow reduce 1 degree"],
    ),
    (
        &[
            "free n shift",
            "gen S[n] - 85070591730234615865843651857942052864",
            "target S[n] - 85070591730234615865843651857942052864",
            "end",
        ],
        3,
        &["overflow reduce 1 number"],
    ),
    (
        &[
            "free n shift",
            "free m shift",
            "gen S[n]",
            "gen S[m]^2 - 85070591730234615865843651857942052863*S[n]",
            "target 56713727820156410577229101238628035241*S[n]^2 + 56713727820156410577229101238628035241*S[n]*S[m] + S[m]^2",
            "end",
        ],
        3,
        &["overflow reduce 1 number"],
    ),
];

#[test]
fn refusals_and_overflows_are_told(rt: HostRuntime) -> Result<(), Fail> {
    each_is_answered(&rt, rt.alloc(), "reduce", &ROWS)
}
