// Where bytes come from.
ghost use Rattle.std.specs.Prelude.{List, ℕ, Option};
ghost use Rattle.std.specs.Io.{ReadsAtMost};
ghost use Rattle.std.specs.Io.KnownBytes.{ReadConsumes};
ghost use Rattle.ct_io.specs.Faults.{IsCounted};

use thiserror::Error;

/// The answer of a read or a write that failed.
#[derive(Clone, Copy, Debug, PartialEq, Eq, Error)]
#[error("a read or a write failed")]
pub struct Failed;

/// Bytes to be read.
pub trait Source {
    /// The bytes not yet read, where the source tells them.
    ghost left: { Self → Option (List ℕ) };

    /// How many reads failed.
    ghost faults: { Self → ℕ };

    /// Reads into the piece from its beginning, and answers how many bytes these are: none, for a piece that is not
    /// empty, is the end.
    fn read(&mut self, piece: &mut [u8]) -> Result<usize, Failed>
        ensures bound { ReadsAtMost result piece.new }
        ensures left { ReadConsumes (left self.old) (left self.new) result piece.new }
        ensures faults { IsCounted (faults self.old) (faults self.new) result };
}
