// The lines of a problem behind its names and `let` lines.
ghost use Rattle.ct_problem.specs.Input.{Reads};
ghost use Rattle.ct_problem.specs.ProblemLines as spec;

use crate::fault::{BadKind, ReadFault};
use crate::problem::{Gens, Range};
use crate::reading::let_lines::list_name;
use crate::reading::lines::{no_more, value_lines};
use crate::reading::names::Names;
use crate::reading::numbers::{coming_number, number};
use crate::reading::tokens::Tokens;
use std::alloc::Global;

/// The `gen` lines, or the `use` line in their place.
#[tactic(auto, unfolding(crate::specs::ProblemLines::generators))]
pub fn generators(alloc: Global, names: &Names, tokens: &mut Tokens<'_>) -> Result<Gens, ReadFault>
    ensures { Reads (spec.generators names.now tokens.old) result tokens.new }
{
    let listed = value_lines(alloc, names, tokens, b"gen")?;
    if listed.is_empty() && tokens.eat_word(b"use") {
        used(names, tokens)
    } else {
        Ok(Gens::Listed(listed))
    }
}

/// A `use` line behind its first word.
#[tactic(auto, unfolding(crate::specs::ProblemLines::used))]
fn used(names: &Names, tokens: &mut Tokens<'_>) -> Result<Gens, ReadFault>
    ensures { Reads (spec.used names.now tokens.old) result tokens.new }
{
    let at = list_name(names, tokens)?;
    tokens.line_end()?;
    no_more(tokens, b"use")?;
    Ok(Gens::Named(at))
}

/// The line of a range, if it is there.
#[tactic(auto, unfolding(crate::specs::ProblemLines::range_line))]
pub fn range_line(
    tokens: &mut Tokens<'_>,
    key: &[u8],
    limit: u16,
) -> Result<Option<Range>, ReadFault>
    ensures { Reads (spec.range_line key.now limit tokens.old) result tokens.new }
{
    if !tokens.eat_word(key) {
        return Ok(None);
    }
    let range = range(tokens, limit)?;
    tokens.line_end()?;
    no_more(tokens, key)?;
    Ok(Some(range))
}

#[tactic(auto, unfolding(crate::specs::ProblemLines::range))]
fn range(tokens: &mut Tokens<'_>, limit: u16) -> Result<Range, ReadFault>
    ensures { Reads (spec.range limit tokens.old) result tokens.new }
{
    let low = number(tokens, u128::from(limit), BadKind::OutOfRange)? as u16;
    tokens.dots()?;
    let high = high_number(tokens, limit, low)?;
    Ok(Range { low, high })
}

/// The second number of a range.
#[tactic(auto, unfolding(crate::specs::ProblemLines::high_number))]
fn high_number(tokens: &mut Tokens<'_>, limit: u16, low: u16) -> Result<u16, ReadFault>
    ensures { Reads (spec.high_number limit low tokens.old) result tokens.new }
{
    let n = coming_number(tokens)?;
    if n > u128::from(limit) {
        return Err(tokens.fault(BadKind::OutOfRange));
    }
    if n < u128::from(low) {
        return Err(tokens.fault(BadKind::EmptyRange));
    }
    tokens.skip();
    Ok(n as u16)
}
