// The values of a report's expressions, in text order.
ghost use Rattle.std.specs.Prelude.{◌≡◌, ◌<◌, ℕ, ◌++◌, [], ◌∷◌, IfOk, OnOk, map, length};
ghost use Rattle.std.specs.List.{All};
ghost use Rattle.ct_algebra.specs.Names.{name_with};
ghost use Rattle.ct_checked.specs.Checked.{AnswersBy};
ghost use Rattle.ct_ore.specs.Answers.{certificate_of, summand_of};
ghost use Rattle.ct_ore.specs.Naming.{actions_of};
ghost use Rattle.ct_run.specs.Checking as spec;
ghost use Rattle.ct_run.specs.Fractions.{pair_of};
ghost use Rattle.ct_problem.specs.WellFormed.{Each, IsPolynomial, IsQuotient, IsReportOn};

use ct_mono::Fault;
use ct_ore::{Algebra, Answer, Op, Part};
use ct_poly::Poly;
use ct_problem::{Expr, Quotient, Report, evaluate, evaluate_polynomial, summed_names};
use ct_setup::values;
use std::alloc::{AllocError, Global};

// The values of a quotient's two expressions.
#[derive(Drop)]
pub(crate) struct Fraction {
    numerator: Op,
    denominator: Poly,
}

/// What the expressions of a report stand for.
#[tactic(auto, unfolding(crate::specs::Checking::checked_certificate))]
pub(crate) fn certificate(
    alloc: Global,
    algebra: &Algebra,
    report: &Report,
) -> Result<Answer, Fault>
    requires { (generators : ℕ) × IsReportOn algebra.now generators report.now }
    ensures answers { AnswersBy certificate_of (spec.checked_certificate algebra.now report.now) result }
    ensures known { IfOk result (λ answer. All (λ p. p.name < length algebra.now) answer.parts.items) }
{
    let telescoper = evaluate(alloc, algebra, &report.telescoper)?;
    let quotients = quotients(alloc, algebra, report.quotients.as_slice())?;
    let scale = evaluate_polynomial(alloc, algebra, &report.scale)?;
    let factors = polynomials(alloc, algebra, report.factors.as_slice())?;
    let cofactors = values(alloc, algebra, report.cofactors.as_slice())?;
    let names = summed_names(alloc, algebra)?;
    let parts = parts(alloc, names.as_slice(), quotients, factors)?;
    Ok(Answer {
        telescoper,
        parts,
        scale,
        cofactors,
    })
}

fn polynomials(alloc: Global, algebra: &Algebra, exprs: &[Expr]) -> Result<Vec<Poly>, Fault>
    requires { Each (IsPolynomial algebra.now) exprs.now }
    ensures { AnswersBy (λ v. v.items) (spec.checked_polynomials (actions_of algebra.now) exprs.now) result }
{
    let mut done = Vec::new(alloc);
    let mut rest = exprs;
    'valuing: loop {
        let Some((expr, more)) = rest.split_first() else {
            return Ok(done);
        };
        let value = evaluate_polynomial(alloc, algebra, expr)?;
        append(&mut done, value)?;
        rest = more;
    }
}

fn quotients(
    alloc: Global,
    algebra: &Algebra,
    quotients: &[Quotient],
) -> Result<Vec<Fraction>, Fault>
    requires { Each (IsQuotient algebra.now) quotients.now }
    ensures { AnswersBy (λ v. map pair_of v.items) (spec.checked_quotients (actions_of algebra.now) quotients.now) result }
{
    let mut done = Vec::new(alloc);
    let mut rest = quotients;
    'valuing: loop {
        let Some((quotient, more)) = rest.split_first() else {
            return Ok(done);
        };
        let numerator = evaluate(alloc, algebra, &quotient.numerator)?;
        let denominator = evaluate_polynomial(alloc, algebra, &quotient.denominator)?;
        append(
            &mut done,
            Fraction {
                numerator,
                denominator,
            },
        )?;
        rest = more;
    }
}

// A part for each name, as far as there are quotients and factors.
fn parts(
    alloc: Global,
    names: &[u8],
    quotients: Vec<Fraction>,
    factors: Vec<Poly>,
) -> Result<Vec<Part>, AllocError>
    ensures value { IfOk result (λ v. map summand_of v.items ≡ spec.summands_of (map name_with names.now) (map pair_of quotients.items) factors.items) }
    ensures known { IfOk result (λ v. (n : ℕ) → All (λ i. i < n) names.now → All (λ p. p.name < n) v.items) }
{
    let mut done = Vec::new(alloc);
    let mut quotients = quotients.into_iter();
    let mut factors = factors.into_iter();
    let mut rest = names;
    'pairing: loop {
        let Some((name, more)) = rest.split_first() else {
            return Ok(done);
        };
        let Some(quotient) = quotients.next() else {
            return Ok(done);
        };
        let Some(factor) = factors.next() else {
            return Ok(done);
        };
        append(&mut done, part(*name, quotient, factor))?;
        rest = more;
    }
}

fn part(name: u8, quotient: Fraction, factor: Poly) -> Part
    ensures { result ≡ record { name = name; numerator = quotient.numerator; denominator = quotient.denominator; part = factor } }
{
    Part {
        name,
        numerator: quotient.numerator,
        denominator: quotient.denominator,
        part: factor,
    }
}

pub(crate) fn append<T: Drop>(values: &mut Vec<T>, value: T) -> Result<(), AllocError>
    ensures { OnOk result (values.new.items ≡ values.old.items ++ value ∷ []) }
{
    values.push(value)?;
    Ok(())
}
