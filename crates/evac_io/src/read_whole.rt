//! Reading a source to its end.

ghost use Rattle.std.specs.Prelude.{◌≡◌, ℕ, ◌+◌, ◌≤◌, ◌<◌, List, ◌-◌, ◌++◌, length, take, min, IfOk, OnOk, IsErrOf};
ghost use Rattle.evac_model.specs.Counts.{Rose};
ghost use Rattle.evac_io.specs.Told.{Gives, IsAtEnd, IsLongerThan};
ghost use Rattle.evac_io.specs.declared.read_whole.ReadAllFault.TheVariants as fault;

use crate::{ByteList, Failed, Source};
use std::alloc::{AllocError, AllocFailed, Global};

/// Why `read_all` gave no list.
#[derive(Clone, Copy, Debug, PartialEq, Eq)]
pub enum ReadAllFault {
    /// A read failed.
    Failed,
    /// More bytes came than the limit.
    TooLong,
    /// There was not enough memory.
    OutOfMemory,
}

impl From<Failed> for ReadAllFault {
    ghost from_gives = { λ _ e. e ≡ fault.Failed };

    fn from(_: Failed) -> Self {
        ReadAllFault::Failed
    }
}

impl From<AllocError> for ReadAllFault {
    ghost from_gives = { λ _ e. e ≡ fault.OutOfMemory };

    fn from(_: AllocError) -> Self {
        ReadAllFault::OutOfMemory
    }
}

impl<T: Drop> From<AllocFailed<T>> for ReadAllFault {
    ghost from_gives = { λ _ e. e ≡ fault.OutOfMemory };

    fn from(_: AllocFailed<T>) -> Self {
        ReadAllFault::OutOfMemory
    }
}

/// How many bytes are read at once, at most.
const PIECE: u64 = 65536;

/// All bytes that a source has left, if they are at most `limit`. It reads until a read gives
/// none, or until more than `limit` bytes came: `TooLong`. It takes memory in proportion to the
/// bytes that came, whatever the limit is.
pub fn read_all<S: Source>(alloc: Global, s: &mut S, limit: u64) -> Result<ByteList, ReadAllFault>
    ensures bytes { IfOk result (λ bytes. Gives (S.left s.old) (S.left s.new) bytes) }
    ensures end { OnOk result (IsAtEnd (S.left s.new)) }
    ensures within { IfOk result (λ bytes. length bytes ≤ limit) }

    // No read failed.
    ensures sure { OnOk result (S.faults s.new ≡ S.faults s.old) }

    ensures failed { IsErrOf result ReadAllFault.Failed → Rose (S.faults s.old) (S.faults s.new) }
    ensures too_long { IsErrOf result ReadAllFault.TooLong → IsLongerThan (S.left s.old) limit }

    // Whatever it answers, it took a prefix of the bytes left, at most one more than the limit.
    ensures prefix { (bytes : List ℕ) × (length bytes ≤ limit + 1) × Gives (S.left s.old) (S.left s.new) bytes }
    ensures counts { S.faults s.old ≤ S.faults s.new }
{
    let mut piece = vec![in alloc; 0u8; piece_len(limit)]?;
    let mut bytes = Vec::new(alloc);
    loop {
        let room = limit - bytes.len() as u64;
        let count = read_piece(s, &mut piece[..piece_len(room)], room, &mut bytes)?;
        if count == 0 {
            return Ok(ByteList::from_vec(bytes));
        }
    }
}

/// How many bytes to ask for where so many more are allowed: one more than these tells more of them.
fn piece_len(room: u64) -> usize
    ensures { result ≡ min room (PIECE - 1) + 1 }
{
    (room.min(PIECE - 1) + 1) as usize
}

/// Reads once into `piece`, and appends what came to `bytes` if it is at most `room` bytes.
fn read_piece<S: Source>(
    s: &mut S,
    piece: &mut [u8],
    room: u64,
    bytes: &mut Vec<u8>,
) -> Result<usize, ReadAllFault>
    requires { 0 < length piece.old }

    ensures bytes { IfOk result (λ count. bytes.new.items ≡ bytes.old.items ++ take count piece.new) }
    ensures gives { IfOk result (λ count. Gives (S.left s.old) (S.left s.new) (take count piece.new)) }
    ensures bound { IfOk result (λ count. count ≤ length piece.new) }
    ensures within { IfOk result (λ count. count ≤ room) }
    ensures end { IfOk result (λ count. count ≡ 0 → IsAtEnd (S.left s.new)) }
    ensures sure { OnOk result (S.faults s.new ≡ S.faults s.old) }

    ensures failed { IsErrOf result ReadAllFault.Failed → Rose (S.faults s.old) (S.faults s.new) }
    ensures too_long { IsErrOf result ReadAllFault.TooLong → (count : ℕ) × (room < count)
        × (count ≤ length piece.new) × Gives (S.left s.old) (S.left s.new) (take count piece.new) }
    ensures prefix { (count : ℕ) × (count ≤ length piece.new)
        × Gives (S.left s.old) (S.left s.new) (take count piece.new) }
    ensures counts { S.faults s.old ≤ S.faults s.new }
{
    let count = s.read(piece)?;
    if count as u64 > room {
        return Err(ReadAllFault::TooLong);
    }
    bytes.extend_from_slice(&piece[..count])?;
    Ok(count)
}
