//! Problems and reports as texts.
//!
//! `read_problem` reads a problem for a command, or tells its first fault; `read_found_report` reads a report
//! on it that found a telescoper. The expressions in them are those of `ct_expr`, which says what they stand for.
//!
//! Which bytes stand for which problem and report is a relation by the grammar: read `specs/Lexemes.antt`
//! first, then `specs/Grammar.antt` for expressions, `specs/GrammarLets.antt` and `specs/GrammarProblem.antt`
//! for the lines of a problem, and `specs/GrammarReport.antt` for those of a report. Which fault of a text is
//! the first is said by the rules that read it token after token, as the code does: `specs/ReadProblem.antt`
//! and the files of rules that it names. The laws `problems_are_read` and `reports_are_read` say that the rules
//! read exactly what the grammar says. `specs/WellFormed.antt` says what every `Problem` keeps to by its ghost
//! field, and what is known of a report that was read.
#![tactic(auto)]

mod fault;
mod laws;
mod names;
mod problem;
mod reading;
mod report;

pub use ct_expr::{Expr, Summand, evaluate, evaluate_polynomial};
pub use ct_io::Command;
pub use fault::{BadInput, BadKind, ReadFault};
pub use laws::{
    problems_are_read, reports_are_read, texts_stand_for_one_problem, texts_stand_for_one_report,
};
pub use names::summed_names;
pub use problem::{Gens, LetForm, Problem, Range};
pub use reading::{MOST_BYTES, read_found_report, read_problem};
pub use report::{Quotient, Report};
