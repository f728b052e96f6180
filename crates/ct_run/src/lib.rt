//! The top call: `run` reads the words and the text, and writes the answer's bytes and ends with a status.
//!
//! Its output is `out`, a definition over the command and the bytes of the text: `specs/Out.antt` is
//! the page to read first, and `specs/Run.antt` says how a run ends and what it leaves of its source and its
//! sink. A caller knows the status and each byte that the sink took, where the source and the sink tell theirs
//! and none of them failed; where one did, it knows which. Of a source that tells no bytes it knows the same for
//! some text.
//!
//! Nothing is written before the whole answer stands, so a run that is out of memory writes nothing.
#![tactic(auto)]

mod answer;
mod bad_input;
mod checking;
mod lines;
mod output;
mod reducing;
mod reductions;
mod refusals;
mod status;
mod testing;
mod top;
mod values;
mod words;
mod writing;

pub use ct_io::{
    Command, Failed, Gate, MemSink, MemSource, NoGate, NoMemory, Sink, Source, StdSink, StdSource,
};
pub use status::Status;
pub use top::run;
