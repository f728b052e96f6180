//! Finite modules whose fractions are written: what symbols make of vectors, and the columns of an attempt.
//!
//! A `Module` has a list of elements, a row for each name with an operator and each element, and a start; a `Setting` has an
//! algebra, a module over it, and polynomials that denominators are made of. Both are seen as the lists that they hold, with
//! fractions as they are written, and a `Setting` keeps that its parts fit its algebra (`specs/Fitting.antt`).
//!
//! `Module::act` and the columns of `calls` answer the checked computations of `specs/Action.antt` and `specs/Columns.antt`, step
//! by step. What they mean over the field of fractions is `specs/Values.antt`, in the words of ct_telescoping; read
//! `specs/Tested.antt` for what is known where the module is that of tested generators. Whoever answers columns is an
//! `NfSource`: one that computes each, as `Plain`, or one that keeps them.
#![tactic(auto)]

mod action;
pub mod calls;
mod certificates;
mod column;
mod copies;
mod denominators;
mod free;
mod image;
mod key;
mod kinds;
mod laws;
mod module;
mod names;
mod phase;
mod same;
mod setting;
mod source;
mod system;

pub use column::Column;
pub use copies::{copied, copy_of};
pub use ct_frac::{Den, Factor, Fault, Frac, Kind, NoMemory, Poly};
pub use image::{added, zeros};
pub use key::Key;
pub use laws::{columns_go_by_symbols, tested_columns_are_vectors};
pub use module::Module;
pub use phase::{Phase, SysFault};
pub use setting::Setting;
pub use source::{NfSource, Plain};
pub use system::System;
