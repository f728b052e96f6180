// Writing the output, and the status of the run.
ghost use Rattle.std.specs.Prelude.{◌≢◌};
ghost use Rattle.ct_run.specs.Run.{Reports, TellsFault};

use crate::status::{Outcome, Status};
use ct_io::{Sink, write_all};

/// Writes the output, and answers its status, or that the sink failed.
pub fn give_out<K: Sink>(sink: &mut K, outcome: Outcome, text: &[u8]) -> Status
    ensures report { Reports (record { outcome = outcome; text = text.now }) result (K.taken sink.old) (K.taken sink.new) }
    ensures faults { TellsFault result Status.WriteFault (K.faults sink.old) (K.faults sink.new) }
    ensures read { result ≢ Status.ReadFault }
    ensures memory { result ≢ Status.NoMemory }
{
    match write_all(sink, text) {
        Ok(()) => outcome.status(),
        Err(_) => Status::WriteFault,
    }
}
