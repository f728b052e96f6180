// Operators and whole numbers: common divisors, quotients and multiples.
ghost use Rattle.std.specs.Prelude.{◌≡◌, ◌<◌, ◌≤◌, IfOk, map};
ghost use Rattle.ct_checked.specs.Checked.{Answers};
ghost use Rattle.ct_checked.specs.Limits.{largest_norm};
ghost use Rattle.ct_ore.specs.Naming.{actions_of};
ghost use Rattle.ct_ore.specs.Terms.{op_entries};
ghost use Rattle.ct_ore.specs.Wholes.{DividesTerms, DividesOperator, IsCommonDivisor, common_divisor, entry_over, over_whole, checked_multiple};

use crate::algebra::Algebra;
use crate::degrees::{degree_of, order_of};
use crate::op::{Op, OpTerm};
use ct_int::gcd;
use ct_mono::{Fault, LARGEST_DEGREE, NoMemory};
use ct_poly::Poly;
use std::alloc::Global;

impl Op {
    /// The greatest number that divides a positive number and every coefficient.
    pub fn common_divisor(&self, n: u128) -> u128
        requires { 0 < n }
        ensures { result ≡ common_divisor self.now n }
    {
        common_divisor_of_terms(self.terms(), n)
    }

    /// The quotient by a whole number that divides every coefficient.
    pub fn over_whole(self, alloc: Global, divisor: u128) -> Result<Op, NoMemory>
        requires within { divisor ≤ largest_norm }
        requires divides { DividesOperator divisor self }
        ensures value { IfOk result (λ p. p ≡ over_whole divisor self) }
    {
        if divisor == 1 {
            return Ok(self);
        }
        self.within_limits();
        let terms = terms_over_whole(alloc, self.terms(), divisor)?;
        Ok(Op::of_terms(terms))
    }

    /// The multiple by a whole number, from the left.
    pub fn times_whole(self, alloc: Global, algebra: &Algebra, n: u128) -> Result<Op, Fault>
        requires some { 0 < n }
        requires within { n ≤ largest_norm }
        ensures { Answers (checked_multiple (actions_of algebra.now) n self) result }
    {
        self.within_limits();
        if n == 1 {
            return Ok(self);
        }
        prove!(degree_of(self.terms()) <= LARGEST_DEGREE);
        prove!(order_of(self.terms()) <= LARGEST_DEGREE);
        let whole = Op::of_poly(alloc, Poly::constant(alloc, n as i128)?)?;
        whole.mul(alloc, algebra, &self)
    }
}

// The number whose divisors are those of n that divide every coefficient.
fn common_divisor_of_terms(ops: &[OpTerm], n: u128) -> u128
    ensures { IsCommonDivisor (op_entries ops.now) n result }
{
    let mut divisor = n;
    let mut rest = ops;
    'gathering: while let Some((op, more)) = rest.split_first() {
        divisor = gcd(op.coef.content(), divisor);
        if divisor == 1 {
            return 1;
        }
        rest = more;
    }
    divisor
}

// The terms with the quotients of their coefficients.
fn terms_over_whole(alloc: Global, ops: &[OpTerm], divisor: u128) -> Result<Vec<OpTerm>, NoMemory>
    requires within { divisor ≤ largest_norm }
    requires divides { DividesTerms divisor (op_entries ops.now) }
    ensures { IfOk result (λ v. op_entries v.items ≡ map (entry_over divisor) (op_entries ops.now)) }
{
    let mut out = Vec::with_capacity(alloc, ops.len())?;
    let mut rest = ops;
    'dividing: while let Some((op, more)) = rest.split_first() {
        let coef = op.coef.over_whole(alloc, divisor)?;
        out.push(OpTerm {
            mono: op.mono,
            coef,
        })?;
        rest = more;
    }
    Ok(out)
}
