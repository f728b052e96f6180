// Reading a source, to its end or to a limit.
ghost use Rattle.std.specs.Prelude.{◌≡◌, ◌<◌, ◌≤◌, ◌+◌, ◌++◌, List, ℕ, Some, Err, take, drop, length, vec_len, IfOk, IfSome, OnOk};
ghost use Rattle.std.specs.Io.KnownBytes.{Consumes, IsAtEnd, Keeps};
ghost use Rattle.ct_io.specs.Faults.{Tells};
ghost use Rattle.ct_io.specs.Taking.{TakesAtMost};

use crate::NoMemory;
use crate::source::Source;
use std::alloc::Global;
use thiserror::Error;

/// The most bytes that are read at once.
const LARGEST_PIECE: usize = 65_536;

/// Why a source was not read.
#[derive(Debug, Drop, Error)]
pub enum SourceFault {
    #[error("a read failed")]
    Failed,
    #[error("out of memory")]
    NoMemory,
}

/// All bytes of the source, but at most `most`.
pub fn read_up_to<S: Source>(
    alloc: Global,
    source: &mut S,
    most: usize,
) -> Result<Vec<u8>, SourceFault>
    ensures value { IfOk result (λ front. IfSome (S.left source.old) (λ bytes. front.items ≡ take most bytes)) }
    ensures left { OnOk result (IfSome (S.left source.old) (λ bytes. Keeps (Some (drop most bytes)) (S.left source.new))) }
    ensures limit { IfOk result (λ front. length front.items ≤ most) }
    ensures takes { TakesAtMost most (S.left source.old) (S.left source.new) }
    ensures faults { Tells (result ≡ Err SourceFault.Failed) (S.faults source.old) (S.faults source.new) }
{
    let mut bytes = Vec::new(alloc);
    let mut piece = match blank_piece(alloc, LARGEST_PIECE) {
        Ok(piece) => piece,
        Err(_) => return Err(SourceFault::NoMemory),
    };
    while bytes.len() < most {
        let room = (most - bytes.len()).min(LARGEST_PIECE);
        if read_piece(source, &mut piece[..room], &mut bytes)? == 0 {
            break;
        }
    }
    Ok(bytes)
}

/// Reads once, and adds what was read: how much this is, none at the end.
fn read_piece<S: Source>(
    source: &mut S,
    piece: &mut [u8],
    bytes: &mut Vec<u8>,
) -> Result<usize, SourceFault>
    requires { 0 < length piece.old }
    ensures value { IfOk result (λ n. (more : List ℕ) × (length more ≡ n) × (bytes.new.items ≡ bytes.old.items ++ more) × Consumes (S.left source.old) (S.left source.new) more) }
    ensures grown { IfOk result (λ n. vec_len bytes.new ≡ vec_len bytes.old + n) }
    ensures bound { IfOk result (λ n. n ≤ length piece.old) }
    ensures end { IfOk result (λ n. n ≡ 0 → IsAtEnd (S.left source.new)) }
    ensures takes { TakesAtMost (length piece.old) (S.left source.old) (S.left source.new) }
    ensures faults { Tells (result ≡ Err SourceFault.Failed) (S.faults source.old) (S.faults source.new) }
{
    let count = match source.read(piece) {
        Ok(count) => count,
        Err(_) => return Err(SourceFault::Failed),
    };
    if bytes.extend_from_slice(&piece[..count]).is_err() {
        return Err(SourceFault::NoMemory);
    }
    Ok(count)
}

/// A piece of `len` bytes. Its length is an argument, so that no proof sees a list as long as the largest.
fn blank_piece(alloc: Global, len: usize) -> Result<Vec<u8>, NoMemory>
    ensures value { IfOk result (λ piece. vec_len piece ≡ len) }
{
    vec![in alloc; 0u8; len]
}
