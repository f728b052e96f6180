// The sum over k of what S[n] - 2 and S[k] - 1 annihilate, with a report written by hand.
ghost use Rattle.std.specs.Prelude.{◌≡◌, ◌≢◌, ◌<◌, IfOk, length, [], ◌∷◌};
ghost use Rattle.ct_algebra.specs.Names.{name_with};
ghost use Rattle.ct_algebra.specs.Actions.{Still};
ghost use Rattle.ct_ore.specs.Naming.{actions_of, summed_of};
ghost use Rattle.ct_cert.specs.Certificates.{IsAnswerFor};

use crate::{Answer, Part, Place, Stop, Support, check_found};
use ct_mono::{Fault, NoMemory};
use ct_ore::{Action, Algebra, NameInfo, Op, Role};
use ct_poly::Poly;
use std::alloc::Global;
use std::test::Fail;

const DUE: Support = Support {
    index: 0,
    order: 1,
    degree: 0,
};

#[tactic(auto, unfolding(ct_ore::specs::Naming::summed_of, ct_ore::specs::Naming::actions_of))]
fn shifts(alloc: Global) -> Result<Algebra, NoMemory>
    ensures count { IfOk result (λ a. length a ≡ 2) }
    ensures summed { IfOk result (λ a. summed_of a ≡ name_with 1 ∷ []) }
    ensures acts { IfOk result (λ a. actions_of a (name_with 1) ≢ Still) }
{
    let n = NameInfo {
        text: String::from_str(alloc, "n")?,
        action: Action::Shift,
        role: Role::Free,
    };
    let k = NameInfo {
        text: String::from_str(alloc, "k")?,
        action: Action::Shift,
        role: Role::Summed,
    };
    let mut names = Vec::new(alloc);
    names.push(n)?;
    names.push(k)?;
    Ok(Algebra::new(names))
}

fn number(alloc: Global, n: u8) -> Result<Op, NoMemory> {
    Op::of_poly(alloc, Poly::constant(alloc, i128::from(n))?)
}

// the symbol of a name, less a number
fn symbol_less(alloc: Global, name: u8, n: u8) -> Result<Op, Fault>
    requires { name < 6 }
{
    let symbol = Op::symbol(alloc, name)?;
    symbol.sub(alloc, &number(alloc, n)?)
}

fn pair(alloc: Global, first: Op, second: Op) -> Result<Vec<Op>, NoMemory>
    ensures { IfOk result (λ v. length v.items ≡ 2) }
{
    let mut ops = Vec::new(alloc);
    ops.push(first)?;
    ops.push(second)?;
    Ok(ops)
}

fn single(alloc: Global, part: Part) -> Result<Vec<Part>, NoMemory>
    ensures { IfOk result (λ v. v.items ≡ part ∷ []) }
{
    let mut parts = Vec::new(alloc);
    parts.push(part)?;
    Ok(parts)
}

// S[n] - 2 = 1 * (S[n] - 2) + 0 * (S[k] - 1), with this scale, part and first cofactor
fn verdict(alloc: Global, scale: u8, part: u8, cofactor: u8) -> Result<(), Stop> {
    let (Ok(algebra), Ok(generators)) = (shifts(alloc), thin_generators(alloc)) else {
        return Err(Stop::NoMemory);
    };
    let Ok(answer) = thin_answer(
        alloc,
        &algebra,
        generators.as_slice(),
        [scale, part, cofactor],
    ) else {
        return Err(Stop::NoMemory);
    };
    check_found(alloc, &algebra, generators.as_slice(), DUE, DUE, &answer)
}

fn thin_generators(alloc: Global) -> Result<Vec<Op>, Fault>
    ensures { IfOk result (λ v. length v.items ≡ 2) }
{
    let gens = pair(alloc, symbol_less(alloc, 0, 2)?, symbol_less(alloc, 1, 1)?)?;
    Ok(gens)
}

fn thin_answer(
    alloc: Global,
    algebra: &Algebra,
    generators: &[Op],
    numbers: [u8; 3],
) -> Result<Answer, Fault>
    requires count { length algebra.now ≡ 2 }
    requires summed { summed_of algebra.now ≡ name_with 1 ∷ [] }
    requires acts { actions_of algebra.now (name_with 1) ≢ Still }
    requires generators { length generators.now ≡ 2 }
    ensures { IfOk result (λ a. IsAnswerFor algebra.now generators.now a) }
{
    let [scale, part, cofactor] = numbers;
    let part = Part {
        name: 1,
        numerator: Op::zero(alloc),
        denominator: Poly::constant(alloc, 1)?,
        part: Poly::constant(alloc, i128::from(part))?,
    };
    let telescoper = symbol_less(alloc, 0, 2)?;
    let scale = Poly::constant(alloc, i128::from(scale))?;
    let parts = single(alloc, part)?;
    let cofactors = pair(alloc, number(alloc, cofactor)?, Op::zero(alloc))?;
    Ok(Answer {
        telescoper,
        parts,
        scale,
        cofactors,
    })
}

#[test]
fn a_certificate_by_hand_is_accepted(rt: HostRuntime) -> Result<(), Fail> {
    let answer = verdict(rt.alloc(), 1, 1, 1);
    assert!(rt; matches!(answer, Ok(())));
    Ok(())
}

#[test]
fn the_first_test_that_fails_is_named(rt: HostRuntime) -> Result<(), Fail> {
    let answer = verdict(rt.alloc(), 0, 0, 0);
    assert!(rt; matches!(answer, Err(Stop::No(Place::Scale))));
    let answer = verdict(rt.alloc(), 1, 2, 2);
    assert!(rt; matches!(answer, Err(Stop::No(Place::Part(1)))));
    let answer = verdict(rt.alloc(), 1, 1, 2);
    assert!(rt; matches!(answer, Err(Stop::No(Place::Identity))));
    Ok(())
}
