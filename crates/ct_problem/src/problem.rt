// What the text of a problem stands for.
ghost use Rattle.ct_problem.specs.WellFormed.{IsWellFormed};
ghost use Rattle.ct_problem.specs.WellFormedProps.{IsWellFormed-prop};

use ct_expr::Expr;
use ct_ore::Algebra;
use sqlite_items::Items;

/// The right side of a `let` line. Lists are given by the number of an earlier `let` line.
#[derive(Drop)]
pub enum LetForm {
    /// The generators of a function.
    Gens(Items<Expr>),
    /// The sum of two functions.
    Plus(u8, u8),
    /// The product of two functions.
    Product(u8, u8),
    /// An operator applied to a function.
    Apply(u8, Expr),
}

/// The generators: those of `gen` lines, perhaps none, or the list of a `let` line by its number.
#[derive(Drop)]
pub enum Gens {
    Listed(Items<Expr>),
    Named(u8),
}

/// The numbers from one to another, both included.
#[derive(Clone, Copy, Debug, PartialEq, Eq)]
pub struct Range {
    pub low: u16,
    pub high: u16,
}

/// A problem. Names, and lists of `let` lines, are given by their numbers, from 0. `dens` has an entry for each
/// name, and `let_names` one for each entry of `lets`. `end` is the place behind the `end` line.
#[derive(Drop)]
pub struct Problem {
    pub algebra: Algebra,
    pub lets: Items<LetForm>,
    pub let_names: Vec<String>,
    pub gens: Gens,
    pub dens: Items<Option<Expr>>,
    pub targets: Items<Expr>,
    pub orders: Option<Range>,
    pub degrees: Option<Range>,
    pub end: usize,
    pub ghost formed: { IsWellFormed algebra lets let_names.items gens dens targets orders degrees } by { IsWellFormed-prop },
}
