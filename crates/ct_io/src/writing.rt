// Writing a text to a sink.
ghost use Rattle.std.specs.Prelude.{List, ℕ, MatchResult};
ghost use Rattle.std.specs.Io.{StartsWith};
ghost use Rattle.std.specs.Io.KnownBytes.{Appends};
ghost use Rattle.ct_io.specs.Faults.{IsCounted};

use crate::sink::Sink;
use crate::source::Failed;

/// Writes all of the text, or a prefix of it where the sink fails. It takes no memory.
pub fn write_all<K: Sink>(sink: &mut K, text: &[u8]) -> Result<(), Failed>
    ensures taken { MatchResult result (λ _. Appends (K.taken sink.old) (K.taken sink.new) text.now) (λ _. (written : List ℕ) × StartsWith text.now written × Appends (K.taken sink.old) (K.taken sink.new) written) }
    ensures faults { IsCounted (K.faults sink.old) (K.faults sink.new) result }
{
    let mut at = 0;
    while at < text.len() {
        match sink.write(text.split_at(at).1) {
            Ok(count) => at += count,
            Err(failed) => return Err(failed),
        }
    }
    Ok(())
}
