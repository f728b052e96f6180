// The words of a run.
ghost use Rattle.std.specs.Prelude.{◌≡◌, map, string_bytes};
ghost use Rattle.ct_run.specs.Words.{words_of};

use ct_io::Command;

/// What the words ask for, or `None` where they are refused.
pub fn read_words(words: &[String]) -> Option<Command>
    ensures value { result ≡ words_of (map string_bytes words.now) }
{
    match words {
        [word] if word.as_str() == "check" => Some(Command::Check),
        [word] if word.as_str() == "reduce" => Some(Command::Reduce),
        [word] if word.as_str() == "test" => Some(Command::Test),
        _ => None,
    }
}
