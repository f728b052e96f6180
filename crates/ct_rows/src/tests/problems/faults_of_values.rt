// Faults of names, of numbers and of the end, at the places where they show.

use crate::tests::problems::{each_has_its_fault, fault};
use ct_problem::BadKind;
use std::test::Fail;

#[test]
fn names_are_new_and_known(rt: HostRuntime) -> Result<(), Fail> {
    let cases = [
        (
            "param a",
            "param abcdefghijklmnopqrstuvwxyz0123456",
            fault(BadKind::NameTooLong, 47),
        ),
        (
            "let g = plus f f\n",
            "let abcdefghijklmnopqrstuvwxyz0123456 = plus f f\n",
            fault(BadKind::NameTooLong, 95),
        ),
        (
            "sum k\n",
            "sum k\nparam abcdefghijklmnopqrstuvwxyz0123456 k\n",
            fault(BadKind::NameTooLong, 41),
        ),
        ("param a", "param k", fault(BadKind::DuplicateName, 47)),
        ("param a", "param S", fault(BadKind::DuplicateName, 47)),
        ("param a", "param D", fault(BadKind::DuplicateName, 47)),
        (
            "let g = plus",
            "let f = plus",
            fault(BadKind::DuplicateName, 95),
        ),
        (
            "let g = plus",
            "let k = plus",
            fault(BadKind::DuplicateName, 95),
        ),
        (
            "let g = plus",
            "let S = plus",
            fault(BadKind::DuplicateName, 95),
        ),
        ("gen S[n]", "gen S[m]", fault(BadKind::UnknownName, 136)),
        ("gen S[n]", "gen m", fault(BadKind::UnknownName, 134)),
        ("plus f f", "plus f g", fault(BadKind::UnknownName, 106)),
        ("plus f f", "plus f S", fault(BadKind::UnknownName, 106)),
        ("gen S[k]", "gen S[S]", fault(BadKind::UnknownName, 149)),
        ("den k: k", "den q: k", fault(BadKind::UnknownName, 160)),
        (
            "gen S[n] - 1\ngen S[k] - a\n",
            "use q\n",
            fault(BadKind::UnknownName, 134),
        ),
        ("gens S[n]", "gens f", fault(BadKind::UnknownName, 62)),
        ("gen S[n]", "gen D[n]", fault(BadKind::WrongKind, 136)),
        ("gen S[n]", "gen S[a]", fault(BadKind::WrongKind, 136)),
        ("gen S[n]", "gen f", fault(BadKind::WrongKind, 134)),
        ("gen S[n]", "gen S[f]", fault(BadKind::WrongKind, 136)),
        ("plus f f", "plus f k", fault(BadKind::WrongKind, 106)),
        ("den k: k", "den n: k", fault(BadKind::WrongKind, 160)),
        ("den k: k", "den f: k", fault(BadKind::WrongKind, 160)),
        (
            "den k: k + 1",
            "den k: S[k]",
            fault(BadKind::WrongKind, 163),
        ),
        ("den k: k + 1", "den k: D", fault(BadKind::WrongKind, 163)),
        (
            "gen S[n] - 1\ngen S[k] - a\n",
            "use k\n",
            fault(BadKind::WrongKind, 134),
        ),
    ];
    each_has_its_fault(&rt, rt.alloc(), &cases)
}

#[test]
fn numbers_are_within_limits(rt: HostRuntime) -> Result<(), Fail> {
    let cases = [
        (
            "gen S[n] - 1",
            "gen S[n] - 170141183460469231731687303715884105728",
            fault(BadKind::NumberTooLarge, 141),
        ),
        (
            "order 0..2",
            "order 170141183460469231731687303715884105728..2",
            fault(BadKind::NumberTooLarge, 196),
        ),
        (
            "k + 1",
            "k^170141183460469231731687303715884105728",
            fault(BadKind::NumberTooLarge, 165),
        ),
        (
            "gen S[n] - 1",
            "gen 1/170141183460469231731687303715884105728",
            fault(BadKind::NumberTooLarge, 136),
        ),
        (
            "gen S[n] - 1",
            "gen S[n] - 1/0",
            fault(BadKind::ZeroDenominator, 143),
        ),
        ("k + 1", "k + 0/00", fault(BadKind::ZeroDenominator, 169)),
        (
            "target S[k]",
            "target 3/0",
            fault(BadKind::ZeroDenominator, 187),
        ),
        ("k + 1", "k^4096", fault(BadKind::ExponentTooLarge, 165)),
        (
            "gen S[n]",
            "gen S[n]^65536",
            fault(BadKind::ExponentTooLarge, 139),
        ),
        (
            "gen S[n]",
            "gen (n + 1)^4096",
            fault(BadKind::ExponentTooLarge, 142),
        ),
        ("order 0..2", "order 9..9", fault(BadKind::OutOfRange, 196)),
        ("order 0..2", "order 0..9", fault(BadKind::OutOfRange, 199)),
        (
            "degree 1..3",
            "degree 13..3",
            fault(BadKind::OutOfRange, 208),
        ),
        (
            "degree 1..3",
            "degree 1..13",
            fault(BadKind::OutOfRange, 211),
        ),
        (
            "degree 1..3",
            "degree 13..x",
            fault(BadKind::OutOfRange, 208),
        ),
        ("order 0..2", "order 3..2", fault(BadKind::EmptyRange, 199)),
        (
            "degree 1..3",
            "degree 12..0",
            fault(BadKind::EmptyRange, 212),
        ),
        ("order 0..2", "order 8..07", fault(BadKind::EmptyRange, 199)),
        (
            "order 0..2",
            "order 1..0 x",
            fault(BadKind::EmptyRange, 199),
        ),
    ];
    each_has_its_fault(&rt, rt.alloc(), &cases)
}

#[test]
fn parentheses_and_ends_are_judged(rt: HostRuntime) -> Result<(), Fail> {
    let cases = [
        (
            "gen S[n] - 1",
            "gen (((((((((((((((((((((((((((((((((((((((((((((((((((((((((((((((((n)))))))))))))))))))))))))))))))))))))))))))))))))))))))))))))))))",
            fault(BadKind::TooDeep, 198),
        ),
        (
            "k + 1",
            "(((((((((((((((((((((((((((((((((((((((((((((((((((((((((((((((((k",
            fault(BadKind::TooDeep, 227),
        ),
        (
            "target S[k]",
            "target 1 + (((((((((((((((((((((((((((((((((((((((((((((((((((((((((((((((((",
            fault(BadKind::TooDeep, 253),
        ),
        ("order 0..2\n", "", fault(BadKind::Missing, 202)),
        ("degree 1..3\n", "", fault(BadKind::Missing, 201)),
        (
            "gen S[n] - 1\ngen S[k] - a\n",
            "",
            fault(BadKind::Missing, 187),
        ),
        (
            "degree 1..3\nend\n",
            "end x\n",
            fault(BadKind::Missing, 201),
        ),
        ("end\n", "end\nend\n", fault(BadKind::TrailingText, 217)),
        (
            "end\n",
            "end\n\n# c\n  x\n",
            fault(BadKind::TrailingText, 224),
        ),
        (
            "end\n",
            "end\nmgfun problem 1\n",
            fault(BadKind::TrailingText, 217),
        ),
    ];
    each_has_its_fault(&rt, rt.alloc(), &cases)
}
