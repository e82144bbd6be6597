//! Reading a source to its end.

ghost use Rattle.std.specs.Prelude.{◌≡◌, ◌+◌, ◌≤◌, ◌<◌, ◌^◌, ◌⊎◌, length, IfOk, OnOk, OnErr, IsErrOf};
ghost use Rattle.std.specs.Io.KnownBytes.{Consumes, IsAtEnd};
ghost use Rattle.dwg_base.specs.Bytes.{AreBytes};
ghost use Rattle.dwg_base.specs.Devices.{Came, LAST_COUNT, Rose};

use crate::bytes::ByteRun;
use crate::device::{Failed, Source};
use crate::slices::bytes_with_range;
use std::alloc::Global;
use thiserror::Error;

/// Why a source was not read to its end.
#[derive(Clone, Copy, Debug, PartialEq, Eq, Error)]
pub enum Intake {
    /// Out of memory.
    #[error("out of memory")]
    NoMemory,
    /// A call of the source failed.
    #[error("read fault")]
    ReadFault,
    /// More bytes came than the limit allows.
    #[error("input too long")]
    TooLong,
}

/// The most bytes that an input may have, and the most that a written file may have.
pub const LIMIT: u64 = 33_554_432;

/// How many bytes one call of a source is asked for.
const PIECE: usize = 65_536;

/// Reads all that is left, in whatever pieces it comes, where that is at most `limit` bytes. After a refusal the bytes
/// that came are gone from the source, at most `limit` and one.
pub fn read_all<R: Source>(alloc: Global, source: &mut R, limit: u64) -> Result<ByteRun, Intake>
    requires { limit < 2 ^ 62 }
    // All bytes that were left, and no more than the limit.
    ensures whole { IfOk result (λ run. Consumes (R.left source.old) (R.left source.new) run) }
    ensures end { OnOk result (IsAtEnd (R.left source.new)) }
    ensures bytes { IfOk result (λ run. AreBytes run) }
    ensures within { IfOk result (λ run. length run ≤ limit) }

    // One byte more than the limit came, and no fault; fewer came before a fault. What came before a refusal is gone.
    ensures too_long { IsErrOf result Intake.TooLong → Came (R.left source.old) (R.left source.new) (λ gone. length gone ≡ limit + 1) }
    ensures read_fault { IsErrOf result Intake.ReadFault → Came (R.left source.old) (R.left source.new) (λ gone. length gone ≤ limit) }
    ensures gone { OnErr result (Came (R.left source.old) (R.left source.new) (λ gone. length gone ≤ limit + 1)) }

    // A read fault comes only where the count of faults rose, which else stays as it was.
    ensures rose { IsErrOf result Intake.ReadFault → Rose (R.faults source.old) (R.faults source.new) }
    ensures quiet { IsErrOf result Intake.ReadFault ⊎ (R.faults source.new ≡ R.faults source.old) }
    ensures never_falls { R.faults source.old ≤ R.faults source.new }
    ensures stands { R.faults source.old ≡ LAST_COUNT → R.faults source.new ≡ LAST_COUNT }
{
    let limit = limit as usize;
    let mut bytes = Vec::new(alloc);
    let mut piece = [0; PIECE];
    'pieces: while bytes.len() <= limit {
        let room = PIECE.min(limit + 1 - bytes.len());
        match source.read(&mut piece[..room]) {
            Err(Failed) => return Err(Intake::ReadFault),
            Ok(0) => return Ok(ByteRun::from_vec(bytes)),
            Ok(n) => match bytes.extend_from_slice(bytes_with_range(&piece[..n])) {
                Ok(()) => {}
                Err(_) => return Err(Intake::NoMemory),
            },
        }
    }
    Err(Intake::TooLong)
}
