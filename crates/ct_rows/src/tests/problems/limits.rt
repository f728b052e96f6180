// Each limit is met.

use crate::tests::problems::each_has_its_fault;
use std::test::Fail;

#[test]
fn limits_may_be_met(rt: HostRuntime) -> Result<(), Fail> {
    let cases = [
        ("param a\n", "param a\nparam b\nparam c\n"),
        ("sum k\n", "sum k\nfree m shift\n"),
        ("param a\n", "param a\nsum l\n"),
        (
            "let g = plus f f\n",
            "let g = plus f f\nlet g0 = plus f g\nlet g1 = plus f g\nlet g2 = plus f g\nlet g3 = plus f g\nlet g4 = plus f g\n",
        ),
        (
            "gens S[n] - 1; S[k] - 1; D[u] - 1",
            "gens S[n] - 1; S[n] - 1; S[n] - 1; S[n] - 1; S[n] - 1; S[n] - 1; S[n] - 1; S[n] - 1; S[n] - 1; S[n] - 1; S[n] - 1; S[n] - 1; S[n] - 1; S[n] - 1; S[n] - 1; S[n] - 1",
        ),
        (
            "gen S[n] - 1\n",
            "gen S[n] - 1\ngen S[n] - 1\ngen S[n] - 1\ngen S[n] - 1\ngen S[n] - 1\ngen S[n] - 1\ngen S[n] - 1\ngen S[n] - 1\ngen S[n] - 1\ngen S[n] - 1\ngen S[n] - 1\ngen S[n] - 1\ngen S[n] - 1\ngen S[n] - 1\ngen S[n] - 1\n",
        ),
        (
            "target S[k]\n",
            "target S[k]\ntarget S[k]\ntarget S[k]\ntarget S[k]\ntarget S[k]\ntarget S[k]\ntarget S[k]\ntarget S[k]\ntarget S[k]\ntarget S[k]\ntarget S[k]\ntarget S[k]\ntarget S[k]\ntarget S[k]\ntarget S[k]\ntarget S[k]\n",
        ),
        ("param a", "param abcdefghijklmnopqrstuvwxyz012345\nparam a"),
        (
            "gen S[n] - 1",
            "gen 170141183460469231731687303715884105727",
        ),
        ("k + 1", "k^4095"),
        (
            "k + 1",
            "((((((((((((((((((((((((((((((((((((((((((((((((((((((((((((((((1))))))))))))))))))))))))))))))))))))))))))))))))))))))))))))))))",
        ),
        ("order 0..2", "order 8..08"),
        ("degree 1..3", "degree 0..12"),
        ("problem 1", "problem 01"),
        (
            "order 0..2",
            "order 0000000000000000000000000000000000000000000..2",
        ),
    ];
    for (old, new) in cases {
        each_has_its_fault(&rt, rt.alloc(), &[(old, new, None)])?;
    }
    Ok(())
}
