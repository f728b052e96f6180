// The top call.
ghost use Rattle.std.specs.Prelude.{◌≡◌, ◌≢◌, IfSome, IfNone, None, map, string_bytes};
ghost use Rattle.ct_run.specs.Lines.{usage};
ghost use Rattle.ct_run.specs.Run.{Answered, LeavesAfter, Reports, TellsFault};
ghost use Rattle.ct_run.specs.Words.{words_of};

use crate::answer::answer;
use crate::status::{Outcome, Status};
use crate::words::read_words;
use crate::writing::give_out;
use ct_io::{Command, Gate, Sink, Source, SourceFault, read_up_to};
use ct_problem::MOST_BYTES;
use std::alloc::Global;
use std::thread::Threads;

/// The line that is written where the words are refused.
const USAGE: &[u8] = b"usage: mgfun COMMAND [--workers N] [--seed N]\n";

/// Reads the words and all of the source, and writes the answer and nothing else. The words do not hold the
/// program's own name. Refused words are answered before anything is read, and a failed read before anything is
/// written.
pub fn run<R: Threads + Sync, S: Source, K: Sink, G: Gate>(
    _rt: &R,
    alloc: Global,
    words: &[String],
    source: &mut S,
    sink: &mut K,
    _gate: &G,
) -> Status
    ensures answered { IfSome (words_of (map string_bytes words.now)) (λ command. Answered command (S.left source.old) result (K.taken sink.old) (K.taken sink.new)) }
    ensures left { IfSome (words_of (map string_bytes words.now)) (λ _. IfSome (S.left source.old) (λ bytes. LeavesAfter bytes result (S.left source.new))) }
    ensures refused { IfNone (words_of (map string_bytes words.now)) (Reports usage result (K.taken sink.old) (K.taken sink.new) × (source.new ≡ source.old) × (result ≢ Status.ReadFault)) }
    ensures usage { result ≡ Status.Usage → words_of (map string_bytes words.now) ≡ None }
    ensures unwritten { (result ≡ Status.ReadFault → sink.new ≡ sink.old) × (result ≡ Status.NoMemory → sink.new ≡ sink.old) }
    ensures read_fault { TellsFault result Status.ReadFault (S.faults source.old) (S.faults source.new) }
    ensures write_fault { TellsFault result Status.WriteFault (K.faults sink.old) (K.faults sink.new) }
{
    match read_words(words) {
        Some(command) => answer_text(alloc, command, source, sink),
        None => give_out(sink, Outcome::Usage, USAGE),
    }
}

/// Reads the text, and writes the answer to it.
fn answer_text<S: Source, K: Sink>(
    alloc: Global,
    command: Command,
    source: &mut S,
    sink: &mut K,
) -> Status
    ensures answered { Answered command (S.left source.old) result (K.taken sink.old) (K.taken sink.new) }
    ensures unwritten { (result ≡ Status.ReadFault → sink.new ≡ sink.old) × (result ≡ Status.NoMemory → sink.new ≡ sink.old) }
    ensures left { IfSome (S.left source.old) (λ bytes. LeavesAfter bytes result (S.left source.new)) }
    ensures read_fault { TellsFault result Status.ReadFault (S.faults source.old) (S.faults source.new) }
    ensures write_fault { TellsFault result Status.WriteFault (K.faults sink.old) (K.faults sink.new) }
{
    let bytes = match read_up_to(alloc, source, MOST_BYTES + 1) {
        Ok(bytes) => bytes,
        Err(SourceFault::Failed) => return Status::ReadFault,
        Err(SourceFault::NoMemory) => return Status::NoMemory,
    };
    match answer(alloc, command, bytes.as_slice()) {
        Ok(output) => give_out(sink, output.outcome, output.text.as_slice()),
        Err(_) => Status::NoMemory,
    }
}
