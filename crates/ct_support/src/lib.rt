//! Supports, and how many columns the attempt at one has.
//!
//! A support is an order and a degree of two ranges. `specs/Supports.antt` has the list of them, orders
//! rising and then degrees rising; the number of a support is its place in this list. `laws.rt` says that
//! each order and degree of the ranges has one number, and that the columns that are counted are those of
//! ct_telescoping.
//!
//! No call takes memory. `support` stands in `calls`, as a function can't stand beside the type `Support`.
#![tactic(auto)]

pub mod calls;
mod laws;
mod shape;
#[cfg(test)]
mod tests;

pub use calls::{columns, count};
pub use laws::{columns_are_counted, monomials_are_counted, supports_are_numbered};
pub use shape::{Range, Support};
