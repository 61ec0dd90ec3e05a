//! The reading of an input, piece by piece.
ghost use Rattle.std.specs.Prelude.{◌≡◌, ◌+◌, ◌<◌, ◌≤◌, ◌^◌, [], length, take, IfOk, IsErrOf};
ghost use Rattle.std.specs.Io.KnownBytes.{Consumes, IsAtEnd, Keeps};
ghost use Rattle.sq_base.specs.Causes.{Rose};
ghost use Rattle.sq_ticks.specs.Seen.{GivesExactly};

use crate::run::Stop;
use sq_base::{Failed, Source};

/// The most bytes that are read at once.
pub const PIECE: usize = 8192;

/// Moves the next bytes of the input into the front of the buffer, and answers how many: none only at its end. So many were taken
/// before, at most `limit`. If those are `limit` bytes and there is one more, that one is taken, and the answer is `TooLong`.
pub fn read_piece<S: Source>(
    input: &mut S,
    taken: u64,
    limit: u64,
    buffer: &mut [u8],
) -> Result<usize, Stop>
    requires room { 0 < length buffer.old }
    requires limit { (taken ≤ limit) × (limit ≤ 2 ^ 40) }
    ensures piece { IfOk result (λ count. Consumes (S.left input.old) (S.left input.new) (take count buffer.new)) }
    ensures bound { IfOk result (λ count. (count ≤ length buffer.new) × (taken + count ≤ limit)) }
    ensures to_end { IfOk result (λ count. count ≡ 0 → IsAtEnd (S.left input.new)) }
    ensures too_long { IsErrOf result Stop.TooLong → (taken ≡ limit) × GivesExactly 1 (S.left input.old) (S.left input.new) }
    ensures failed { IsErrOf result Stop.Read → Rose (S.faults input.old) (S.faults input.new) × Keeps (S.left input.old) (S.left input.new) }
    ensures no_memory { IsErrOf result Stop.Memory → ⊥ }
    ensures no_write { IsErrOf result Stop.Write → ⊥ }
    ensures later { S.faults input.old ≤ S.faults input.new }
{
    let room = limit - taken;
    if room == 0 {
        return read_beyond(input);
    }
    let most = buffer.len().min(room as usize);
    match input.read(&mut buffer[..most]) {
        Ok(count) => Ok(count),
        Err(Failed) => Err(Stop::Read),
    }
}

// Asks for one byte beyond the limit.
fn read_beyond<S: Source>(input: &mut S) -> Result<usize, Stop>
    ensures piece { IfOk result (λ count. (count ≡ 0) × Consumes (S.left input.old) (S.left input.new) []) }
    ensures to_end { IfOk result (λ count. IsAtEnd (S.left input.new)) }
    ensures too_long { IsErrOf result Stop.TooLong → GivesExactly 1 (S.left input.old) (S.left input.new) }
    ensures failed { IsErrOf result Stop.Read → Rose (S.faults input.old) (S.faults input.new) × Keeps (S.left input.old) (S.left input.new) }
    ensures no_memory { IsErrOf result Stop.Memory → ⊥ }
    ensures no_write { IsErrOf result Stop.Write → ⊥ }
    ensures later { S.faults input.old ≤ S.faults input.new }
{
    let mut byte = [0; 1];
    match input.read(&mut byte) {
        Ok(0) => Ok(0),
        Ok(_) => Err(Stop::TooLong),
        Err(Failed) => Err(Stop::Read),
    }
}
