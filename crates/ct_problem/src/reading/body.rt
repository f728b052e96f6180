// The lines between the first and the last.
ghost use Rattle.std.specs.Prelude.{◌≡◌, length, IfOk};
ghost use Rattle.ct_problem.specs.Draft.{reading_of_draft};
ghost use Rattle.ct_problem.specs.Input.{ReadsBy};
ghost use Rattle.ct_problem.specs.ReadProblem as spec;

use crate::fault::ReadFault;
use crate::problem::{Gens, LetForm, Range};
use crate::reading::declarations::declarations;
use crate::reading::den_lines::den_lines;
use crate::reading::let_lines::let_lines;
use crate::reading::lines::{header, value_lines};
use crate::reading::names::Names;
use crate::reading::problem_lines::{generators, range_line};
use crate::reading::tokens::Tokens;
use ct_expr::Expr;
use sqlite_items::Items;
use std::alloc::Global;

/// What an `order` line may say.
const HIGHEST_ORDER: u16 = 8;

/// What a `degree` line may say.
const HIGHEST_DEGREE: u16 = 12;

/// A problem but for its end.
#[derive(Drop)]
pub struct Draft {
    pub names: Names,
    pub lets: Items<LetForm>,
    pub gens: Gens,
    pub dens: Items<Option<Expr>>,
    pub targets: Items<Expr>,
    pub orders: Option<Range>,
    pub degrees: Option<Range>,
}

/// The first line, the names and the `let` lines.
#[tactic(auto, unfolding(crate::specs::ReadProblem::head))]
pub fn head(alloc: Global, tokens: &mut Tokens<'_>) -> Result<(Names, Items<LetForm>), ReadFault>
    ensures reads { ReadsBy (λ h. (h.0.variables, spec.definitions_of h.0.lets h.1)) (spec.head tokens.old) result tokens.new }
    ensures a_name_each { IfOk result (λ h. length h.0.lets ≡ length h.1) }
{
    tokens.fresh_line()?;
    header(tokens, b"problem")?;
    let mut names = declarations(alloc, tokens)?;
    let lets = let_lines(alloc, &mut names, tokens)?;
    Ok((names, lets))
}

/// The lines behind the names and the `let` lines.
#[tactic(auto, unfolding(crate::specs::ReadProblem::body, crate::specs::Draft::reading_of_draft))]
pub fn body(
    alloc: Global,
    names: Names,
    lets: Items<LetForm>,
    tokens: &mut Tokens<'_>,
) -> Result<Draft, ReadFault>
    requires { length names.lets ≡ length lets }
    ensures reads { ReadsBy reading_of_draft (spec.body names.variables (spec.definitions_of names.lets lets) tokens.old) result tokens.new }
    ensures names { IfOk result (λ d. d.names ≡ names) }
    ensures lets { IfOk result (λ d. d.lets ≡ lets) }
{
    let gens = generators(alloc, &names, tokens)?;
    let dens = den_lines(alloc, &names, tokens)?;
    let targets = value_lines(alloc, &names, tokens, b"target")?;
    let orders = range_line(tokens, b"order", HIGHEST_ORDER)?;
    let degrees = range_line(tokens, b"degree", HIGHEST_DEGREE)?;
    Ok(Draft {
        names,
        lets,
        gens,
        dens,
        targets,
        orders,
        degrees,
    })
}
