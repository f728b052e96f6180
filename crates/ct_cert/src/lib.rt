//! The check of a report that found a telescoper: its tests, in their order, with exact overflow.
//!
//! The answer of a report is seen as a `Certificate` of ct_algebra. The tests are those of `specs/Tests.antt`:
//! each passes, fails at its place, or overflows there. `check_found` passes a report, or tells the first place that
//! fails, or the first overflow with its place and kind. Where it passes the certificate meets `Certifies`, so by the laws of
//! ct_algebra its telescoper is a sum of differences; where one fails, what is tested at its place is false.
//!
//! The tests multiply everything out, and use nothing of how the answer was found.
#![tactic(auto)]

mod arithmetic;
mod calls;
mod freedom;
mod place;
#[cfg(test)]
mod tests;
mod tests_in_order;

pub use calls::check_found;
pub use ct_ore::{Answer, Part};
pub use place::{Place, Stop, Support};
