// The arithmetic of the tests, in its order.
ghost use Rattle.std.specs.Prelude.{◌≡◌, ◌<◌, ◌≤◌, length, map, Ok};
ghost use Rattle.std.specs.List.{All};
ghost use Rattle.ct_algebra.specs.Names.{name_with};
ghost use Rattle.ct_algebra.specs.Operators.{no_operator};
ghost use Rattle.ct_checked.specs.Checked.{Answers};
ghost use Rattle.ct_ore.specs.Naming.{action_of, actions_of};
ghost use Rattle.ct_ore.specs.Answers.{summand_of};
ghost use Rattle.ct_cert.specs.Certificates.{IsNamed};
ghost use Rattle.ct_cert.specs.Arithmetic.{same_polynomial, same_operator, checked_multiple, shift_denominator, checked_denominator, checked_coefficient, checked_numerator, with_difference, checked_differences, checked_part};

use ct_mono::Fault;
use ct_ore::{Action, Algebra, Op, Part};
use ct_poly::Poly;
use std::alloc::Global;

// Whether H·N of a part is the scale, N first.
#[tactic(auto, unfolding(crate::specs::Arithmetic::checked_part))]
pub(crate) fn part_holds(
    alloc: Global,
    algebra: &Algebra,
    scale: &Poly,
    part: &Part,
) -> Result<bool, Fault>
    requires { IsNamed algebra.now part.now }
    ensures { Answers (checked_part (actions_of algebra.now) scale.now (summand_of part.now)) result }
{
    let denominator = denominator(alloc, algebra, part)?;
    let product = part.part.mul(alloc, &denominator)?;
    Ok(same_poly(&product, scale))
}

// The sum of all H·E, from zero.
pub(crate) fn differences(alloc: Global, algebra: &Algebra, parts: &[Part]) -> Result<Op, Fault>
    requires { All (IsNamed algebra.now) parts.now }
    ensures { Answers (checked_differences (actions_of algebra.now) no_operator (map summand_of parts.now)) result }
{
    let mut sum = Op::zero(alloc);
    let mut rest = parts;
    while let Some((part, more)) = rest.split_first() {
        sum = with_difference(alloc, algebra, sum, part)?;
        rest = more;
    }
    Ok(sum)
}

// A polynomial times an operator.
pub(crate) fn multiple(alloc: Global, algebra: &Algebra, c: &Poly, p: &Op) -> Result<Op, Fault>
    ensures { Answers (checked_multiple (actions_of algebra.now) c.now p.now) result }
{
    let factor = Op::of_poly(alloc, c.copy(alloc)?)?;
    factor.mul(alloc, algebra, p)
}

pub(crate) fn same_op(p: &Op, q: &Op) -> bool
    ensures { result ≡ same_operator p.now q.now }
{
    p.same(q)
}

fn same_poly(p: &Poly, q: &Poly) -> bool
    ensures { result ≡ same_polynomial p.now q.now }
{
    p.same(q)
}

fn action_of_name(algebra: &Algebra, name: u8) -> Action
    requires known { name < length algebra.now }
    requires few { length algebra.now ≤ 6 }
    ensures { action_of result ≡ actions_of algebra.now (name_with name) }
{
    algebra.info(name).action
}

// N: σ of the denominator first, then the product.
fn denominator(alloc: Global, algebra: &Algebra, part: &Part) -> Result<Poly, Fault>
    requires { IsNamed algebra.now part.now }
    ensures { Answers (checked_denominator (actions_of algebra.now) (summand_of part.now)) result }
{
    match action_of_name(algebra, part.name) {
        Action::Shift => shift_denominator(alloc, part),
        Action::Derive => part.denominator.mul(alloc, &part.denominator),
        Action::Still => part.denominator.mul(alloc, &part.denominator),
    }
}

fn shift_denominator(alloc: Global, part: &Part) -> Result<Poly, Fault>
    requires { part.now.name < 6 }
    ensures { Answers (shift_denominator (summand_of part.now)) result }
{
    let moved = part.denominator.shift(alloc, part.name, 1)?;
    part.denominator.mul(alloc, &moved)
}

// σ(d) for a shift, δ(d) for a derivation.
fn coefficient(alloc: Global, algebra: &Algebra, part: &Part) -> Result<Poly, Fault>
    requires { IsNamed algebra.now part.now }
    ensures { Answers (checked_coefficient (actions_of algebra.now) (summand_of part.now)) result }
{
    match action_of_name(algebra, part.name) {
        Action::Shift => part.denominator.shift(alloc, part.name, 1),
        Action::Derive => part.denominator.derive(alloc, part.name),
        Action::Still => Ok(Poly::zero(alloc)),
    }
}

// E: its two terms in order, and then their difference.
#[tactic(auto, unfolding(crate::specs::Arithmetic::checked_numerator))]
fn numerator(alloc: Global, algebra: &Algebra, part: &Part) -> Result<Op, Fault>
    requires { IsNamed algebra.now part.now }
    ensures { Answers (checked_numerator (actions_of algebra.now) (summand_of part.now)) result }
{
    let symbol = Op::symbol(alloc, part.name)?;
    let before = symbol.mul(alloc, algebra, &part.numerator)?;
    let first = multiple(alloc, algebra, &part.denominator, &before)?;
    let coefficient = coefficient(alloc, algebra, part)?;
    let second = multiple(alloc, algebra, &coefficient, &part.numerator)?;
    first.into_difference(alloc, &second)
}

#[tactic(auto, unfolding(crate::specs::Arithmetic::with_difference))]
fn with_difference(alloc: Global, algebra: &Algebra, sum: Op, part: &Part) -> Result<Op, Fault>
    requires { IsNamed algebra.now part.now }
    ensures { Answers (with_difference (actions_of algebra.now) sum (summand_of part.now)) result }
{
    let numerator = numerator(alloc, algebra, part)?;
    let product = multiple(alloc, algebra, &part.part, &numerator)?;
    sum.into_sum(alloc, product)
}
