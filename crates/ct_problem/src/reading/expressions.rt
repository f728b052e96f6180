// The rules of expressions. They take the reader of one in parentheses as a parameter, so that each is
// proved by itself.
ghost use Rattle.std.specs.Prelude.{◌≡◌, Ok};
ghost use Rattle.ct_problem.specs.Expressions as spec;
ghost use Rattle.ct_problem.specs.Input.{Reads};
ghost use Rattle.ct_problem.specs.Nests.{Nests};

use crate::fault::{BadKind, ReadFault};
use crate::reading::atoms::{constant, word};
use crate::reading::names::Names;
use crate::reading::numbers::number;
use crate::reading::tokens::Tokens;
use ct_expr::{Expr, Summand};
use ct_mono::LARGEST_DEGREE;
use ct_token::Symbol;
use sqlite_items::{Boxed, Items};
use std::alloc::Global;

/// How many parentheses may be open at once.
const MOST_OPEN: usize = 64;

/// An expression under these names, with or without operators.
pub fn expression(
    alloc: Global,
    names: &Names,
    tokens: &mut Tokens<'_>,
    operators: bool,
) -> Result<Expr, ReadFault>
    ensures { Reads (spec.expression names.now operators tokens.old) result tokens.new }
{
    Grammar {
        alloc,
        names,
        operators,
        depth: MOST_OPEN,
        nested,
    }
    .sum(tokens)
}

/// An expression in parentheses, `depth` of which may still be opened.
fn nested(
    alloc: Global,
    names: &Names,
    tokens: &mut Tokens<'_>,
    operators: bool,
    depth: usize,
) -> Result<Expr, ReadFault>
    ensures { Reads (spec.nested names.now operators depth tokens.old) result tokens.new }
{
    if depth == 0 {
        return Err(tokens.fault(BadKind::TooDeep));
    }
    tokens.skip();
    let grammar = Grammar {
        alloc,
        names,
        operators,
        depth: depth - 1,
        nested,
    };
    let inner = grammar.sum(tokens)?;
    tokens.expect(b')')?;
    Ok(inner)
}

#[derive(Clone, Copy)]
pub struct Grammar<'a, F> {
    alloc: Global,
    names: &'a Names,
    operators: bool,
    /// How many parentheses may still be opened.
    depth: usize,
    nested: F,
}

impl<'a, F: Fn(Global, &Names, &mut Tokens<'_>, bool, usize) -> Result<Expr, ReadFault>> Grammar<
    'a,
    F,
> {
    #[tactic(auto, unfolding(crate::specs::Expressions::sum))]
    fn sum(&self, tokens: &mut Tokens<'_>) -> Result<Expr, ReadFault>
        requires { Nests self.now.operators self.now.depth (F.pre self.now.nested) (F.post self.now.nested) }
        ensures { Reads (spec.sum self.now.names.now self.now.operators (spec.nested self.now.names.now self.now.operators self.now.depth) tokens.old) result tokens.new }
    {
        let negative = tokens.eat(b'-');
        let first = self.term(tokens)?;
        if negative || tokens.sees(b'+') || tokens.sees(b'-') {
            Ok(Expr::Sum(self.summands(tokens, first, negative)?))
        } else {
            Ok(first)
        }
    }

    fn summands(
        &self,
        tokens: &mut Tokens<'_>,
        first: Expr,
        negative: bool,
    ) -> Result<Items<Summand>, ReadFault>
        requires { Nests self.now.operators self.now.depth (F.pre self.now.nested) (F.post self.now.nested) }
        ensures { Reads (spec.summands self.now.names.now self.now.operators (spec.nested self.now.names.now self.now.operators self.now.depth) first negative tokens.old) result tokens.new }
    {
        let mut found = Items::new(self.alloc);
        found.push(Summand {
            negative,
            expr: first,
        })?;
        for _turn in 0..tokens.count() {
            let Some(negative) = joint(tokens) else {
                return Ok(found);
            };
            let expr = self.term(tokens)?;
            found.push(Summand { negative, expr })?;
        }
        Ok(found)
    }

    fn term(&self, tokens: &mut Tokens<'_>) -> Result<Expr, ReadFault>
        requires { Nests self.now.operators self.now.depth (F.pre self.now.nested) (F.post self.now.nested) }
        ensures { Reads (spec.term self.now.names.now self.now.operators (spec.nested self.now.names.now self.now.operators self.now.depth) tokens.old) result tokens.new }
    {
        let mut found = Items::new(self.alloc);
        for _turn in 0..tokens.count() as u128 + 1 {
            found.push(self.factor(tokens)?)?;
            if !tokens.eat(b'*') {
                return Ok(product_of(found));
            }
        }
        Err(tokens.fault(BadKind::Syntax))
    }

    #[tactic(auto, unfolding(crate::specs::Expressions::factor))]
    fn factor(&self, tokens: &mut Tokens<'_>) -> Result<Expr, ReadFault>
        requires { Nests self.now.operators self.now.depth (F.pre self.now.nested) (F.post self.now.nested) }
        ensures { Reads (spec.factor self.now.names.now self.now.operators (spec.nested self.now.names.now self.now.operators self.now.depth) tokens.old) result tokens.new }
    {
        let base = self.atom(tokens)?;
        if tokens.eat(b'^') {
            let exponent = number(
                tokens,
                u128::from(LARGEST_DEGREE),
                BadKind::ExponentTooLarge,
            )?;
            Ok(Expr::Power(Boxed::new(self.alloc, base)?, exponent as u16))
        } else {
            Ok(base)
        }
    }

    #[tactic(auto, unfolding(crate::specs::Expressions::atom))]
    fn atom(&self, tokens: &mut Tokens<'_>) -> Result<Expr, ReadFault>
        requires { Nests self.now.operators self.now.depth (F.pre self.now.nested) (F.post self.now.nested) }
        ensures { Reads (spec.atom self.now.names.now self.now.operators (spec.nested self.now.names.now self.now.operators self.now.depth) tokens.old) result tokens.new }
    {
        match tokens.peek() {
            Some(Symbol::Number) => constant(tokens),
            Some(Symbol::Word) => word(tokens, self.names, self.operators),
            Some(Symbol::Sign(b'(')) => {
                (self.nested)(self.alloc, self.names, tokens, self.operators, self.depth)
            }
            _ => Err(tokens.fault(BadKind::Syntax)),
        }
    }
}

#[tactic(auto, unfolding(crate::specs::Expressions::joint))]
fn joint(tokens: &mut Tokens<'_>) -> Option<bool>
    ensures { spec.joint tokens.old ≡ Ok (result, tokens.new) }
{
    if tokens.eat(b'+') {
        Some(false)
    } else if tokens.eat(b'-') {
        Some(true)
    } else {
        None
    }
}

#[tactic(auto, unfolding(crate::specs::Grammar::product_of))]
fn product_of(mut found: Items<Expr>) -> Expr
    ensures { result ≡ spec.product_of found }
{
    if found.len() == 1 {
        found.remove(0)
    } else {
        Expr::Product(found)
    }
}
