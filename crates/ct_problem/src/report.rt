// What the text of a report stands for.

use ct_expr::Expr;
use sqlite_items::Items;

/// The certificate of a summed name: a numerator over a denominator.
#[derive(Drop)]
pub struct Quotient {
    pub numerator: Expr,
    pub denominator: Expr,
}

/// A report that found a telescoper. `quotients` and `factors` have an entry for each summed name, in
/// order, and `cofactors` one for each generator.
#[derive(Drop)]
pub struct Report {
    pub index: u16,
    pub order: u16,
    pub degree: u16,
    pub telescoper: Expr,
    pub quotients: Items<Quotient>,
    pub scale: Expr,
    pub factors: Items<Expr>,
    pub cofactors: Items<Expr>,
}
