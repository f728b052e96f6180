//! The claim machine: workers claim indices in order, look at the least hit so far, and refuse or hit.
//!
//! The machine is a count of indices, two words and a view for each worker: `next`, how many indices were
//! claimed, and `least`, the least hit. Contracts see a `State` as a `Machine` and a `View` as a `Sight`,
//! records of plain lists and numbers (`specs/Machine.antt`, then `specs/Steps.antt` with the events).
//!
//! A layer above rests on `replay`: whatever the order of the workers' events, a complete list has refuted
//! each index below the least hit exactly once, and the least hit is the first one (`specs/CompleteList.antt`).
//! The laws say that this is what one worker decides who tries the indices in order. What every list keeps,
//! complete or not, is in `specs/Kept.antt`; a pool of threads keeps the same.
//!
//! Nothing here runs a thread, and nothing says that a list of events is ever complete.
#![tactic(auto)]

mod event;
mod laws;
mod runs;
mod state;
#[cfg(test)]
mod tests;
mod view;

pub use event::Event;
pub use laws::{every_schedule_decides_alike, one_worker_decides};
pub use runs::{replay, start};
pub use state::{CoreFault, State};
pub use std::alloc::AllocError as NoMemory;
pub use view::View;
