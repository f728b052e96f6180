//! The outside of a run: where its bytes come from, where they go, and who hears of the work.
//!
//! A `Source` may tell the bytes that are left in it, a `Sink` those that it took. Each counts its faults,
//! and a call fails only where this count rises, so whoever reads or writes through them can promise which
//! bytes went through and that no failure is made up. `specs/Faults.antt` is the page to read first.
//!
//! `MemSource` and `MemSink` are over memory: seen as what is left or taken, with the calls that are to fail.
//! `StdSource` and `StdSink` adapt a reader and a writer of the library: they tell no bytes, and pass on what
//! the reader gives and the writer takes.
//!
//! `read_up_to` reads a source to its end or to a limit, and `write_all` writes a text whole or fails.
//!
//! A `Gate` hears of each attempt and of each column that is made. It answers nothing and has no meaning that
//! a contract could cite, so no answer of the system depends on it: a gate can only count, or hold a worker
//! back for a bounded time. The program hands in `NoGate`.
#![tactic(auto)]

mod command;
mod gate;
mod memory;
mod reading;
mod sink;
mod source;
mod standard;
mod writing;

pub use command::Command;
pub use gate::{Gate, NoGate};
pub use memory::{MemSink, MemSource};
pub use reading::{SourceFault, read_up_to};
pub use sink::Sink;
pub use source::{Failed, Source};
pub use standard::{StdSink, StdSource};
pub use std::alloc::AllocError as NoMemory;
pub use writing::write_all;

#[cfg(test)]
mod tests;
