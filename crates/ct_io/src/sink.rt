// Where bytes go.
ghost use Rattle.std.specs.Prelude.{◌<◌, List, ℕ, Option, IfOk, length};
ghost use Rattle.std.specs.Io.{WritesAtMost};
ghost use Rattle.std.specs.Io.KnownBytes.{WriteAppends};
ghost use Rattle.ct_io.specs.Faults.{IsCounted};

use crate::source::Failed;

/// A place for bytes.
pub trait Sink {
    /// The bytes taken so far, where the sink tells them.
    ghost taken: { Self → Option (List ℕ) };

    /// How many writes failed.
    ghost faults: { Self → ℕ };

    /// Takes a prefix of the piece, and answers how many bytes this is: at least one of a piece that is not
    /// empty.
    fn write(&mut self, piece: &[u8]) -> Result<usize, Failed>
        ensures bound { WritesAtMost result piece.now }
        ensures some { IfOk result (λ n. 0 < length piece.now → 0 < n) }
        ensures taken { WriteAppends (taken self.old) (taken self.new) result piece.now }
        ensures faults { IsCounted (faults self.old) (faults self.new) result };
}
