// The tests of a found report, in their order.
ghost use Rattle.std.specs.Prelude.{◌≡◌, ◌<◌, Bool, Ok, map};
ghost use Rattle.std.specs.List.{All};
ghost use Rattle.ct_checked.specs.Checked.{Checked, Answers};
ghost use Rattle.ct_ore.specs.Naming.{actions_of, summed_of};
ghost use Rattle.ct_ore.specs.Answers.{summand_of, certificate_of};
ghost use Rattle.ct_cert.specs.Certificates.{names_of, IsSmall, IsNamed, IsAnswerFor};
ghost use Rattle.ct_cert.specs.Arithmetic.{checked_identity};
ghost use Rattle.ct_cert.specs.Testing.{test_of, AnswersTest};
ghost use Rattle.ct_cert.specs.Tests.{found_test, telescoper_test, scale_test, denominator_test, part_test, for_each, tests};

use crate::arithmetic::{differences, multiple, part_holds, same_op};
use crate::freedom::is_free;
use crate::place::{Place, Stop, Support};
use ct_mono::Fault;
use ct_ore::{Algebra, Answer, Op, Part};
use ct_poly::Poly;
use std::alloc::Global;

#[tactic(auto, unfolding(crate::specs::Tests::tests))]
pub(crate) fn all_tests(
    alloc: Global,
    algebra: &Algebra,
    generators: &[Op],
    due: Support,
    found: Support,
    answer: &Answer,
) -> Result<(), Stop>
    requires { IsAnswerFor algebra.now generators.now answer.now }
    ensures { AnswersTest (tests (actions_of algebra.now) (summed_of algebra.now) generators.now due found (certificate_of answer.now)) result }
{
    let parts = answer.parts.as_slice();
    ending(Place::Found, found == due)?;
    telescoper(parts, &answer.telescoper)?;
    ending(Place::Scale, !answer.scale.is_zero())?;
    denominators(parts)?;
    factors(alloc, algebra, &answer.scale, parts)?;
    checked_ending(
        Place::Identity,
        identity_holds(alloc, algebra, generators, answer),
    )
}

fn telescoper(parts: &[Part], op: &Op) -> Result<(), Stop>
    requires { All IsSmall parts.now }
    ensures { AnswersTest (telescoper_test (names_of parts.now) op.now) result }
{
    if op.is_zero() {
        return ending(Place::Telescoper, false);
    }
    ending(Place::Telescoper, is_free(parts, op))
}

fn denominators(parts: &[Part]) -> Result<(), Stop>
    requires { All IsSmall parts.now }
    ensures { AnswersTest (for_each denominator_test (map summand_of parts.now)) result }
{
    let mut rest = parts;
    while let Some((part, more)) = rest.split_first() {
        ending(Place::Denominator(part.name), !part.denominator.is_zero())?;
        rest = more;
    }
    Ok(())
}

fn factors(alloc: Global, algebra: &Algebra, scale: &Poly, parts: &[Part]) -> Result<(), Stop>
    requires { All (IsNamed algebra.now) parts.now }
    ensures { AnswersTest (for_each (part_test (actions_of algebra.now) scale.now) (map summand_of parts.now)) result }
{
    let mut rest = parts;
    while let Some((part, more)) = rest.split_first() {
        checked_ending(
            Place::Part(part.name),
            part_holds(alloc, algebra, scale, part),
        )?;
        rest = more;
    }
    Ok(())
}

#[tactic(auto, unfolding(crate::specs::Arithmetic::checked_identity))]
fn identity_holds(
    alloc: Global,
    algebra: &Algebra,
    generators: &[Op],
    answer: &Answer,
) -> Result<bool, Fault>
    requires { IsAnswerFor algebra.now generators.now answer.now }
    ensures { Answers (checked_identity (actions_of algebra.now) generators.now (certificate_of answer.now)) result }
{
    let left = multiple(alloc, algebra, &answer.scale, &answer.telescoper)?;
    let differences = differences(alloc, algebra, answer.parts.as_slice())?;
    let cofactors = answer.cofactors.as_slice();
    let right = differences.with_products(alloc, algebra, cofactors, generators)?;
    Ok(same_op(&left, &right))
}

// A test passes where it holds, and else fails at its place.
fn ending(place: Place, holds: bool) -> Result<(), Stop>
    ensures { AnswersTest (test_of place (Ok holds)) result }
{
    if holds { Ok(()) } else { Err(Stop::No(place)) }
}

// The same where the truth value is computed, and may overflow.
fn checked_ending(place: Place, holds: Result<bool, Fault>) -> Result<(), Stop>
    ensures { (c : Checked Bool) → Answers c holds → AnswersTest (test_of place c) result }
{
    match holds {
        Ok(holds) => ending(place, holds),
        Err(Fault::Overflow(kind)) => Err(Stop::Overflow(place, kind)),
        Err(Fault::NoMemory) => Err(Stop::NoMemory),
    }
}
