// The bytes of a report in the first form.
ghost use Rattle.std.specs.Prelude.{◌≡◌, Some};
ghost use Rattle.ct_problem.specs.Plain as spec;
ghost use Rattle.ct_problem.specs.declared.reading.plain.Line.TheVariants.{Ended};

use crate::reading::MOST_BYTES;

/// What stands in a line so far: nothing, spaces, or more.
#[derive(Clone, Copy)]
enum Line {
    Ended,
    Blank,
    Written,
}

/// Whether the bytes may stand in a report of the first form.
#[tactic(auto, unfolding(crate::specs::Plain::is_plain))]
pub fn is_plain(text: &[u8]) -> bool
    ensures { result ≡ spec.is_plain text.now }
{
    text.len() <= MOST_BYTES && matches!(last_line(text), Some(Line::Ended))
}

fn last_line(text: &[u8]) -> Option<Line>
    ensures { result ≡ spec.after_all (Some Ended) text.now }
{
    let mut line = Line::Ended;
    for b in text {
        match line_after(line, *b) {
            Some(next) => line = next,
            None => return None,
        }
    }
    Some(line)
}

#[tactic(auto, unfolding(crate::specs::Plain::line_after))]
fn line_after(line: Line, byte: u8) -> Option<Line>
    ensures { result ≡ spec.line_after line byte }
{
    match (byte, line) {
        (b'\n', Line::Written) => Some(Line::Ended),
        (b'\n', _) => None,
        (b' ', Line::Written) => Some(Line::Written),
        (b' ', _) => Some(Line::Blank),
        _ if is_written(byte) => Some(Line::Written),
        _ => None,
    }
}

/// A byte that may stand in a line, other than a space.
fn is_written(byte: u8) -> bool
    ensures { result ≡ spec.is_written byte }
{
    33 <= byte && byte <= 126 && !(byte == b'#' || byte == b'/')
}
