// The lines of a report.
ghost use Rattle.std.specs.Prelude.{◌≡◌, ◌+◌, ◌<◌, []};
ghost use Rattle.ct_problem.specs.Input.{Reads};
ghost use Rattle.ct_problem.specs.ReportLines as spec;

use crate::fault::{BadKind, ReadFault};
use crate::reading::lines::{header, part, value};
use crate::reading::names::{Names, summed_texts};
use crate::reading::numbers::{exactly, number};
use crate::reading::tokens::Tokens;
use crate::report::{Quotient, Report};
use ct_expr::Expr;
use sqlite_items::Items;
use std::alloc::Global;

/// The greatest number in a `found` line.
const LARGEST_INDEX: u128 = 65535;

/// A report, under these names and a number of generators.
#[tactic(auto, unfolding(crate::specs::ReportLines::report))]
pub fn report(
    alloc: Global,
    names: &Names,
    tokens: &mut Tokens<'_>,
    generators: usize,
) -> Result<Report, ReadFault>
    requires { names.now.lets ≡ [] }
    ensures { Reads (spec.report names.now.variables generators tokens.old) result tokens.new }
{
    let found = report_lines(alloc, names, tokens, generators)?;
    finish(tokens)?;
    Ok(found)
}

/// The lines before the last one.
#[tactic(auto, unfolding(crate::specs::ReportLines::report_lines))]
fn report_lines(
    alloc: Global,
    names: &Names,
    tokens: &mut Tokens<'_>,
    generators: usize,
) -> Result<Report, ReadFault>
    requires { names.now.lets ≡ [] }
    ensures { Reads (spec.report_lines names.now.variables generators tokens.old) result tokens.new }
{
    let summed = summed_texts(alloc, names.variables())?;
    header(tokens, b"report")?;
    let (index, order, degree) = found_line(tokens)?;
    let telescoper = keyed(alloc, names, tokens, b"telescoper", true)?;
    let quotients = quotients(alloc, names, tokens, summed.as_slice())?;
    let scale = keyed(alloc, names, tokens, b"scale", false)?;
    let factors = factors(alloc, names, tokens, summed.as_slice())?;
    let cofactors = cofactors(alloc, names, tokens, generators)?;
    Ok(Report {
        index,
        order,
        degree,
        telescoper,
        quotients,
        scale,
        factors,
        cofactors,
    })
}

#[tactic(auto, unfolding(crate::specs::ReportLines::found_line))]
fn found_line(tokens: &mut Tokens<'_>) -> Result<(u16, u16, u16), ReadFault>
    ensures { Reads (spec.found_line tokens.old) result tokens.new }
{
    let index = numbered(tokens, b"found")?;
    let order = numbered(tokens, b"order")?;
    let degree = numbered(tokens, b"degree")?;
    tokens.line_end()?;
    Ok((index, order, degree))
}

fn numbered(tokens: &mut Tokens<'_>, key: &[u8]) -> Result<u16, ReadFault>
    ensures { Reads (spec.numbered key.now tokens.old) result tokens.new }
{
    tokens.expect_word(key)?;
    Ok(number(tokens, LARGEST_INDEX, BadKind::OutOfRange)? as u16)
}

#[tactic(auto, unfolding(crate::specs::ReportLines::keyed))]
fn keyed(
    alloc: Global,
    names: &Names,
    tokens: &mut Tokens<'_>,
    key: &[u8],
    operators: bool,
) -> Result<Expr, ReadFault>
    ensures { Reads (spec.keyed names.now key.now operators tokens.old) result tokens.new }
{
    tokens.expect_word(key)?;
    value(alloc, names, tokens, operators)
}

fn quotients(
    alloc: Global,
    names: &Names,
    tokens: &mut Tokens<'_>,
    summed: &[Items<u8>],
) -> Result<Items<Quotient>, ReadFault>
    ensures { Reads (spec.each_of (spec.quotient names.now) summed.now [] tokens.old) result tokens.new }
{
    let mut found = Items::new(alloc);
    for text in summed {
        found.push(quotient(alloc, names, tokens, text.as_slice())?)?;
    }
    Ok(found)
}

#[tactic(auto, unfolding(crate::specs::ReportLines::quotient))]
fn quotient(
    alloc: Global,
    names: &Names,
    tokens: &mut Tokens<'_>,
    text: &[u8],
) -> Result<Quotient, ReadFault>
    ensures { Reads (spec.quotient names.now text.now tokens.old) result tokens.new }
{
    let numerator = part(alloc, names, tokens, b"numerator", text, true)?;
    let denominator = part(alloc, names, tokens, b"denominator", text, false)?;
    Ok(Quotient {
        numerator,
        denominator,
    })
}

fn factors(
    alloc: Global,
    names: &Names,
    tokens: &mut Tokens<'_>,
    summed: &[Items<u8>],
) -> Result<Items<Expr>, ReadFault>
    ensures { Reads (spec.each_of (spec.factor names.now) summed.now [] tokens.old) result tokens.new }
{
    let mut found = Items::new(alloc);
    for text in summed {
        found.push(part(alloc, names, tokens, b"part", text.as_slice(), false)?)?;
    }
    Ok(found)
}

fn cofactors(
    alloc: Global,
    names: &Names,
    tokens: &mut Tokens<'_>,
    generators: usize,
) -> Result<Items<Expr>, ReadFault>
    ensures { Reads (spec.cofactors_from names.now 1 generators [] tokens.old) result tokens.new }
{
    let mut found = Items::new(alloc);
    for turn in 0..generators {
        found.push(cofactor(alloc, names, tokens, turn as u128 + 1)?)?;
    }
    Ok(found)
}

#[tactic(auto, unfolding(crate::specs::ReportLines::cofactor))]
fn cofactor(
    alloc: Global,
    names: &Names,
    tokens: &mut Tokens<'_>,
    place: u128,
) -> Result<Expr, ReadFault>
    ensures { Reads (spec.cofactor names.now place tokens.old) result tokens.new }
{
    tokens.expect_word(b"cofactor")?;
    exactly(tokens, place)?;
    tokens.expect(b':')?;
    value(alloc, names, tokens, true)
}

#[tactic(auto, unfolding(crate::specs::ReportLines::finish, crate::specs::ReportLines::at_end))]
fn finish(tokens: &mut Tokens<'_>) -> Result<(), ReadFault>
    ensures { Reads (spec.finish tokens.old) result tokens.new }
{
    tokens.expect_word(b"end")?;
    full_line_end(tokens)?;
    if tokens.count() == 0 {
        Ok(())
    } else {
        Err(tokens.fault(BadKind::TrailingText))
    }
}

/// The end of a line, which the end of the text doesn't stand for.
#[tactic(auto, unfolding(crate::specs::ReportLines::full_line_end))]
fn full_line_end(tokens: &mut Tokens<'_>) -> Result<(), ReadFault>
    ensures { Reads (spec.full_line_end tokens.old) result tokens.new }
{
    if tokens.count() == 0 {
        return Err(tokens.fault(BadKind::Syntax));
    }
    tokens.line_end()
}
