//! Workers that try the indices below a count, and the first index that is decided.
//!
//! `first_decided` answers what one worker answers who tries the indices in order: the least hit with all
//! misses before it, or all misses. Read `specs/FirstDecided.antt` first. It rests on no order of the workers' steps.
//!
//! The workers share two words, and each of their steps is one exchange with one of them: a claim adds 1 to
//! `next`, a look loads `least`, a hit takes `least`'s minimum with its index. Nothing waits. A caller may make
//! these steps from threads of its own: `open` makes the words, a root and the passes; contracts see a `Pass`
//! as its number and what it knows, the `Sight` of `ct_core` (`specs/Passes.antt`). The rule that every step
//! keeps, whatever the others do, is `specs/ClaimRule.antt`: it is what each run of the claim machine keeps.
//!
//! No clause says that a thread starts, that two were at work together, or that anything is gained by them.
#![tactic(auto)]

mod claims;
mod decision;
mod first;
#[cfg(test)]
mod hand;
mod job;
mod misses;
mod note;
mod passes;
mod rule;
#[cfg(test)]
mod schedules;
#[cfg(test)]
mod tests;
mod workers;

pub use claims::{Claims, Closed, Pass, Root};
pub use decision::Decision;
pub use first::first_decided;
pub use job::{Job, Outcome};
pub use passes::open;
pub use std::alloc::AllocError as NoMemory;
