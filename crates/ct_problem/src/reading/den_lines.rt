// The `den` lines.
ghost use Rattle.std.specs.Prelude.{◌≡◌, ◌<◌, length, max, IfOk};
ghost use Rattle.ct_ore.specs.Naming.{is_summed, namings_of};
ghost use Rattle.ct_problem.specs.DenLines as spec;
ghost use Rattle.ct_problem.specs.Input.{Reads, ReadsBy};
ghost use Rattle.ct_problem.specs.Names.{summed_texts};

use crate::fault::{BadInput, BadKind, ReadFault};
use crate::reading::lines::{no_more, value};
use crate::reading::names::{Known, Names, summed_count};
use crate::reading::tokens::Tokens;
use ct_expr::Expr;
use ct_mono::NoMemory;
use ct_ore::{NameInfo, Role};
use ct_token::Symbol;
use sqlite_items::Items;
use std::alloc::Global;

/// The `den` lines: what stands for each declared name.
#[tactic(auto, unfolding(crate::specs::DenLines::den_lines))]
pub fn den_lines(
    alloc: Global,
    names: &Names,
    tokens: &mut Tokens<'_>,
) -> Result<Items<Option<Expr>>, ReadFault>
    ensures { Reads (spec.den_lines names.now tokens.old) result tokens.new }
{
    let mut found = no_dens(alloc, names.variables())?;
    for _turn in 0..most_dens(names) {
        if !tokens.sees_word(b"den") {
            return Ok(found);
        }
        den_line(alloc, names, tokens, &mut found)?;
    }
    no_more(tokens, b"den")?;
    Ok(found)
}

/// How many `den` lines there may be; without a summed name the first one meets a fault at its name.
fn most_dens(names: &Names) -> usize
    ensures { result ≡ max 1 (length (summed_texts names.now.variables)) }
{
    summed_count(names.variables()).max(1)
}

/// Nothing, for each of these names.
fn no_dens(alloc: Global, names: &[NameInfo]) -> Result<Items<Option<Expr>>, NoMemory>
    ensures { IfOk result (λ ds. ds ≡ spec.no_dens (namings_of names.now)) }
{
    let mut found = Items::new(alloc);
    for _info in names {
        found.push(None)?;
    }
    Ok(found)
}

/// A `den` line.
#[tactic(auto, unfolding(crate::specs::DenLines::den_line))]
fn den_line(
    alloc: Global,
    names: &Names,
    tokens: &mut Tokens<'_>,
    found: &mut Items<Option<Expr>>,
) -> Result<(), ReadFault>
    requires { length found.old ≡ length names.now.variables }
    ensures reads { ReadsBy (λ _. found.new) (spec.den_line names.now found.old tokens.old) result tokens.new }
    ensures each { length found.new ≡ length names.now.variables }
{
    let start = tokens.place();
    tokens.skip();
    let at = summed_name(names, tokens)?;
    if is_given(found, at) {
        return Err(ReadFault::Bad(BadInput {
            kind: BadKind::TooMany,
            offset: start,
        }));
    }
    tokens.expect(b':')?;
    let x = value(alloc, names, tokens, false)?;
    found.set(at, Some(x));
    Ok(())
}

/// The number of the summed name that comes next.
#[tactic(auto, unfolding(crate::specs::DenLines::summed_name))]
fn summed_name(names: &Names, tokens: &mut Tokens<'_>) -> Result<usize, ReadFault>
    ensures reads { Reads (spec.summed_name names.now tokens.old) result tokens.new }
    ensures within { IfOk result (λ at. at < length names.now.variables) }
{
    let Some(Symbol::Word) = tokens.peek() else {
        return Err(tokens.fault(BadKind::Syntax));
    };
    match names.known(tokens.spelling()) {
        Known::Variable(at) if is_summed(names.variable(at)) => {
            tokens.skip();
            Ok(at)
        }
        Known::Variable(_) | Known::Let(_) => Err(tokens.fault(BadKind::WrongKind)),
        Known::Unknown => Err(tokens.fault(BadKind::UnknownName)),
    }
}

fn is_summed(info: &NameInfo) -> bool
    ensures { result ≡ is_summed info.now.role }
{
    matches!(info.role, Role::Summed)
}

/// Whether something stands for the name with this number.
fn is_given(found: &Items<Option<Expr>>, at: usize) -> bool
    ensures { result ≡ spec.is_given at found.now }
{
    matches!(found.get(at), Some(Some(_)))
}
