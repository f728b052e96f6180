// The steps that the lines of problems and reports are made of.
ghost use Rattle.ct_problem.specs.Input.{Reads};
ghost use Rattle.ct_problem.specs.Lines as spec;

use crate::fault::{BadKind, ReadFault};
use crate::reading::expressions::expression;
use crate::reading::names::Names;
use crate::reading::numbers::exactly;
use crate::reading::tokens::Tokens;
use ct_expr::Expr;
use sqlite_items::Items;
use std::alloc::Global;

/// How many lines of expressions of one kind there may be.
const MOST_VALUES: usize = 16;

/// The first line of a problem or report.
#[tactic(auto, unfolding(crate::specs::Lines::header))]
pub fn header(tokens: &mut Tokens<'_>, kind: &[u8]) -> Result<(), ReadFault>
    ensures { Reads (spec.header kind.now tokens.old) result tokens.new }
{
    tokens.expect_word(b"mgfun")?;
    tokens.expect_word(kind)?;
    exactly(tokens, 1)?;
    tokens.line_end()
}

/// No line that begins with this word comes.
#[tactic(auto, unfolding(crate::specs::Lines::no_more))]
pub fn no_more(tokens: &Tokens<'_>, key: &[u8]) -> Result<(), ReadFault>
    ensures { Reads (spec.no_more key.now tokens.now) result tokens.now }
{
    if tokens.sees_word(key) {
        Err(tokens.fault(BadKind::TooMany))
    } else {
        Ok(())
    }
}

/// An expression and the end of its line.
#[tactic(auto, unfolding(crate::specs::Lines::value))]
pub fn value(
    alloc: Global,
    names: &Names,
    tokens: &mut Tokens<'_>,
    operators: bool,
) -> Result<Expr, ReadFault>
    ensures { Reads (spec.value names.now operators tokens.old) result tokens.new }
{
    let expr = expression(alloc, names, tokens, operators)?;
    tokens.line_end()?;
    Ok(expr)
}

/// A line that gives something of a name.
#[tactic(auto, unfolding(crate::specs::Lines::part))]
pub fn part(
    alloc: Global,
    names: &Names,
    tokens: &mut Tokens<'_>,
    key: &[u8],
    text: &[u8],
    operators: bool,
) -> Result<Expr, ReadFault>
    ensures { Reads (spec.part names.now key.now text.now operators tokens.old) result tokens.new }
{
    tokens.expect_word(key)?;
    tokens.expect_word(text)?;
    tokens.expect(b':')?;
    value(alloc, names, tokens, operators)
}

/// The lines that begin with this word.
pub fn value_lines(
    alloc: Global,
    names: &Names,
    tokens: &mut Tokens<'_>,
    key: &[u8],
) -> Result<Items<Expr>, ReadFault>
    ensures { Reads (spec.value_lines names.now key.now tokens.old) result tokens.new }
{
    let mut found = Items::new(alloc);
    for _turn in 0..MOST_VALUES {
        if !tokens.eat_word(key) {
            return Ok(found);
        }
        found.push(value(alloc, names, tokens, true)?)?;
    }
    no_more(tokens, key)?;
    Ok(found)
}
