// Expressions as they are written.

use sqlite_items::{Boxed, Items};

/// An expression. Names and symbols are given by the number of the declared name. A `Ratio` is a quotient of
/// whole numbers, as it is written. Parentheses leave no mark of their own.
#[cycle(expr)]
#[derive(Drop)]
pub enum Expr {
    Whole(i128),
    Ratio(i128, i128),
    Name(u8),
    Symbol(u8),
    Sum(Items<Summand>),
    Product(Items<Expr>),
    Power(Boxed<Expr>, u16),
}

/// A term of a sum, with its sign.
#[cycle(expr)]
#[derive(Drop)]
pub struct Summand {
    pub negative: bool,
    pub expr: Expr,
}
