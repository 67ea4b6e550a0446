ghost use Rattle.gate_jobs.specs.Serving.{IsDropped};

use std::io::{Read, Result};

// How many bytes are read at once.
const PIECE: usize = 8_192;

/// Reads once, and drops what it reads, at most `left` bytes. It answers how many of these are left then: as many as before at the end
/// of the input. After an error nothing is dropped.
pub fn drop_part<R: Read>(reader: &mut R, left: u64) -> Result<u64>
    ensures dropped { IsDropped result left (R.remaining reader.old) (R.remaining reader.new) }
{
    let mut piece = [0; PIECE];
    let room = left.min(PIECE as u64) as usize;
    let n = reader.read(&mut piece[..room])?;
    Ok(left - n as u64)
}
