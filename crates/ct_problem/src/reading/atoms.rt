// The rules of numbers, names and symbols in expressions.
ghost use Rattle.std.specs.Prelude.{◌≡◌, ◌≤◌, IfOk, Some};
ghost use Rattle.ct_checked.specs.Limits.{largest_norm};
ghost use Rattle.ct_ore.specs.Naming.{action_of};
ghost use Rattle.ct_problem.specs.Cursor.{letter_of};
ghost use Rattle.ct_problem.specs.Expressions as spec;
ghost use Rattle.ct_problem.specs.Input.{Reads};
ghost use Rattle.ct_token.specs.declared.token.Symbol.TheVariants.{Word};

use crate::fault::{BadKind, ReadFault};
use crate::reading::names::{Known, Names};
use crate::reading::numbers::coming_number;
use crate::reading::tokens::Tokens;
use ct_expr::Expr;
use ct_ore::Action;
use ct_token::Symbol;

/// A whole number, or a quotient of two.
#[tactic(auto, unfolding(crate::specs::Expressions::constant))]
pub fn constant(tokens: &mut Tokens<'_>) -> Result<Expr, ReadFault>
    ensures { Reads (spec.constant tokens.old) result tokens.new }
{
    let n = whole(tokens)? as i128;
    if tokens.eat(b'/') {
        Ok(Expr::Ratio(n, divisor(tokens)? as i128))
    } else {
        Ok(Expr::Whole(n))
    }
}

#[tactic(auto, unfolding(crate::specs::Expressions::whole))]
fn whole(tokens: &mut Tokens<'_>) -> Result<u128, ReadFault>
    ensures reads { Reads (spec.whole tokens.old) result tokens.new }
    ensures within { IfOk result (λ n. n ≤ largest_norm) }
{
    let n = coming_number(tokens)?;
    tokens.skip();
    Ok(n)
}

/// The number after `/`.
#[tactic(auto, unfolding(crate::specs::Expressions::divisor))]
fn divisor(tokens: &mut Tokens<'_>) -> Result<u128, ReadFault>
    ensures reads { Reads (spec.divisor tokens.old) result tokens.new }
    ensures within { IfOk result (λ n. n ≤ largest_norm) }
{
    let n = coming_number(tokens)?;
    if n == 0 {
        return Err(tokens.fault(BadKind::ZeroDenominator));
    }
    tokens.skip();
    Ok(n)
}

/// A declared name, or a symbol where operators may stand.
#[tactic(auto, unfolding(crate::specs::Expressions::word))]
pub fn word(tokens: &mut Tokens<'_>, names: &Names, operators: bool) -> Result<Expr, ReadFault>
    ensures { Reads (spec.word names.now operators tokens.old) result tokens.new }
{
    match letter(tokens) {
        None => name(tokens, names),
        Some(action) if operators => symbol(tokens, names, action),
        Some(_) => Err(tokens.fault(BadKind::WrongKind)),
    }
}

/// Which symbols the letter that comes next stands for.
#[tactic(auto, unfolding(crate::specs::Expressions::letter))]
fn letter(tokens: &Tokens<'_>) -> Option<Action>
    ensures { letter_of result ≡ spec.letter tokens.now }
{
    if tokens.sees_word(b"S") {
        Some(Action::Shift)
    } else if tokens.sees_word(b"D") {
        Some(Action::Derive)
    } else {
        None
    }
}

#[tactic(auto, unfolding(crate::specs::Expressions::name))]
fn name(tokens: &mut Tokens<'_>, names: &Names) -> Result<Expr, ReadFault>
    ensures { Reads (spec.name names.now tokens.old) result tokens.new }
{
    match names.known(tokens.spelling()) {
        Known::Variable(at) => {
            tokens.skip();
            Ok(Expr::Name(at as u8))
        }
        Known::Let(_) => Err(tokens.fault(BadKind::WrongKind)),
        Known::Unknown => Err(tokens.fault(BadKind::UnknownName)),
    }
}

#[tactic(auto, unfolding(crate::specs::Expressions::symbol_by))]
fn symbol(tokens: &mut Tokens<'_>, names: &Names, action: Action) -> Result<Expr, ReadFault>
    ensures { Reads (spec.symbol_by names.now (action_of action) tokens.old) result tokens.new }
{
    tokens.skip();
    tokens.expect(b'[')?;
    let found = acting(tokens, names, action)?;
    tokens.expect(b']')?;
    Ok(found)
}

#[tactic(auto, unfolding(crate::specs::Expressions::acting))]
fn acting(tokens: &mut Tokens<'_>, names: &Names, action: Action) -> Result<Expr, ReadFault>
    ensures { Reads (spec.acting names.now (action_of action) tokens.old) result tokens.new }
{
    match tokens.peek() {
        Some(Symbol::Word) => acting_name(tokens, names, action),
        _ => Err(tokens.fault(BadKind::Syntax)),
    }
}

/// The letters of a declared name of this action.
fn acting_name(tokens: &mut Tokens<'_>, names: &Names, action: Action) -> Result<Expr, ReadFault>
    ensures { Reads (spec.acting_word names.now (action_of action) (Some Word) tokens.old) result tokens.new }
{
    match names.known(tokens.spelling()) {
        Known::Variable(at) if names.acts_as(at, action) => {
            tokens.skip();
            Ok(Expr::Symbol(at as u8))
        }
        Known::Unknown => Err(tokens.fault(BadKind::UnknownName)),
        _ => Err(tokens.fault(BadKind::WrongKind)),
    }
}
