// Values of expressions: operators over whole numbers, and their arithmetic.
ghost use Rattle.std.specs.Prelude.{◌<◌, ◌≤◌, ◌≡◌, IfOk};
ghost use Rattle.ct_checked.specs.Checked.{Answers};
ghost use Rattle.ct_checked.specs.Limits.{largest_norm};
ghost use Rattle.ct_ore.specs.Naming.{actions_of};
ghost use Rattle.ct_expr.specs.ValueArithmetic.{over_one, lowest, negated, cleared, checked_plus, checked_minus, checked_times};

use ct_mono::{Fault, NoMemory};
use ct_ore::{Algebra, Op};
use ct_poly::{least_common_multiple, whole_product};
use std::alloc::Global;
use std::marker::Model;

/// An operator over a positive whole number.
#[derive(Drop)]
pub struct Value {
    pub operator: Op,
    pub whole: u128,
}

/// Two operators over one whole number.
#[derive(Drop)]
pub struct Cleared {
    pub whole: u128,
    pub mine: Op,
    pub its: Op,
}

impl Model for Value {
    ghost use Rattle.ct_expr.specs.ValueArithmetic as spec;
    ghost use Rattle.ct_expr.specs.ValueArithmetic.{value_code, IsValue};

    ghost Value = { spec.Value };

    ghost coded = { value_code };

    ghost view = { λ v. record { operator = v.operator; whole = v.whole } };

    ghost invariant = { λ v. IsValue (record { operator = v.operator; whole = v.whole }) };
}

impl Value {
    /// An operator by itself.
    pub fn over_one(operator: Op) -> Value
        ensures { result ≡ over_one operator }
    {
        Value { operator, whole: 1 }
    }

    /// An operator over a whole number, in lowest terms.
    pub fn lowest(alloc: Global, operator: Op, whole: u128) -> Result<Value, NoMemory>
        requires some { 0 < whole }
        requires within { whole ≤ largest_norm }
        ensures value { IfOk result (λ v. v ≡ lowest operator whole) }
    {
        if whole == 1 {
            return Ok(Value::over_one(operator));
        }
        let divisor = operator.common_divisor(whole);
        let operator = operator.over_whole(alloc, divisor)?;
        Ok(Value {
            operator,
            whole: whole / divisor,
        })
    }

    #[tactic(auto, unfolding(crate::specs::ValueArithmetic::negated))]
    pub fn negated(self, alloc: Global) -> Result<Value, Fault>
        ensures { Answers (negated self) result }
    {
        let operator = Op::zero(alloc).into_difference(alloc, &self.operator)?;
        Ok(Value {
            operator,
            whole: self.whole,
        })
    }

    #[tactic(auto, unfolding(crate::specs::ValueArithmetic::checked_plus))]
    pub fn plus(self, alloc: Global, algebra: &Algebra, other: Value) -> Result<Value, Fault>
        ensures { Answers (checked_plus (actions_of algebra.now) self other) result }
    {
        let both = self.cleared(alloc, algebra, other)?;
        let sum = both.mine.into_sum(alloc, both.its)?;
        let value = Value::lowest(alloc, sum, both.whole)?;
        Ok(value)
    }

    #[tactic(auto, unfolding(crate::specs::ValueArithmetic::checked_minus))]
    pub fn minus(self, alloc: Global, algebra: &Algebra, other: Value) -> Result<Value, Fault>
        ensures { Answers (checked_minus (actions_of algebra.now) self other) result }
    {
        let both = self.cleared(alloc, algebra, other)?;
        let difference = both.mine.into_difference(alloc, &both.its)?;
        let value = Value::lowest(alloc, difference, both.whole)?;
        Ok(value)
    }

    #[tactic(auto, unfolding(crate::specs::ValueArithmetic::cleared))]
    fn cleared(self, alloc: Global, algebra: &Algebra, other: Value) -> Result<Cleared, Fault>
        ensures answers { Answers (cleared (actions_of algebra.now) self other) result }
        ensures fits { IfOk result (λ both. (0 < both.whole) × (both.whole ≤ largest_norm)) }
    {
        let whole = least_common_multiple(self.whole, other.whole)?;
        let mine = self
            .operator
            .times_whole(alloc, algebra, whole / self.whole)?;
        let its = other
            .operator
            .times_whole(alloc, algebra, whole / other.whole)?;
        Ok(Cleared { whole, mine, its })
    }

    /// The left product.
    #[tactic(auto, unfolding(crate::specs::ValueArithmetic::checked_times))]
    pub fn times(&self, alloc: Global, algebra: &Algebra, other: &Value) -> Result<Value, Fault>
        ensures { Answers (checked_times (actions_of algebra.now) self.now other.now) result }
    {
        let product = self.operator.mul(alloc, algebra, &other.operator)?;
        let whole = whole_product(self.whole, other.whole)?;
        let value = Value::lowest(alloc, product, whole)?;
        Ok(value)
    }
}
