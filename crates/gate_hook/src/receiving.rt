ghost use Rattle.std.specs.Prelude.{◌≡◌, ◌<◌, ◌≤◌, [], length};
ghost use Rattle.gate_hook.specs.Receiving.{IsEnough, IsRead, IsMore, HasReadHead, HasReadBody, HasReadToken};

use crate::fault::HookFault;
use gate_http::{Found, Head, MAX_HEAD, MAX_TOKEN, Routes, Token, head_in};
use std::alloc::Global;
use std::io::Read;

// So many bytes are no token, whatever comes behind them: those of the longest, and of the end of a line, and one more.
const NO_TOKEN: usize = MAX_TOKEN + 3;

// How many bytes are read at once: the `piece` of the definitions.
const PIECE: usize = 1_024;

/// Reads at most `room` bytes to the front of the buffer. It doesn't try again after a failure.
pub fn read_part<R: Read>(
    reader: &mut R,
    buffer: &mut [u8],
    room: usize,
) -> Result<usize, HookFault>
    requires some { 0 < room }
    requires within { room ≤ length buffer.old }
    ensures { IsRead result (R.remaining reader.old) (R.remaining reader.new) buffer.new room }
{
    match reader.read(&mut buffer[..room]) {
        Ok(n) => Ok(n),
        Err(_) => Err(HookFault::Read),
    }
}

// Reads some bytes more, at most `room`, and tells how many: none at the end of the input alone.
fn read_more<R: Read>(reader: &mut R, bytes: &mut Vec<u8>, room: usize) -> Result<usize, HookFault>
    requires { 0 < room }
    ensures { IsMore result (R.remaining reader.old) (R.remaining reader.new) bytes.old.items bytes.new.items room }
{
    let mut piece = [0; PIECE];
    let n = read_part(reader, &mut piece, room.min(PIECE))?;
    bytes.extend_from_slice(&piece[..n])?;
    Ok(n)
}

/// Reads until the head of a request is whole, or shows that there is none within the limits. It asks for no byte more once it
/// knows.
pub fn read_head<R: Read>(
    routes: &Routes,
    reader: &mut R,
    bytes: &mut Vec<u8>,
) -> Result<Option<Head>, HookFault>
    requires { bytes.old.items ≡ [] }
    ensures { HasReadHead routes.now result (R.remaining reader.old) (R.remaining reader.new) bytes.new.items }
{
    loop {
        match head_in(routes, bytes) {
            Found::Whole(head) => return Ok(Some(head)),
            Found::Never => return Ok(None),
            Found::Unfinished => {}
        }
        let room = MAX_HEAD - bytes.len();
        if room == 0 {
            return Ok(None);
        }
        match read_more(reader, bytes, room) {
            Ok(0) => return Ok(None),
            Ok(_) => {}
            Err(fault) => return Err(fault),
        }
    }
}

/// Reads until so many bytes stand behind the first `front`, or the input ends.
pub fn read_body<R: Read>(
    reader: &mut R,
    bytes: &mut Vec<u8>,
    front: usize,
    size: usize,
) -> Result<(), HookFault>
    requires { front ≤ length bytes.old.items }
    ensures { HasReadBody result (R.remaining reader.old)
        (R.remaining reader.new) bytes.old.items bytes.new.items front size }
{
    while bytes.len() - front < size {
        let room = size - (bytes.len() - front);
        match read_more(reader, bytes, room) {
            Ok(0) => return Ok(()),
            Ok(_) => {}
            Err(fault) => return Err(fault),
        }
    }
    Ok(())
}

/// Whether these bytes of a request are as many as its answer needs, by these routes, so that no byte more is waited for.
pub fn is_enough(routes: &Routes, bytes: &[u8]) -> bool
    ensures value { IsEnough routes.now result bytes.now }
{
    match head_in(routes, bytes) {
        Found::Whole(head) => head.needed() <= bytes.len().saturating_sub(head.len),
        Found::Unfinished => bytes.len() >= MAX_HEAD,
        Found::Never => true,
    }
}

/// Reads a file with a token, as `Token::read` takes it: `None` if it holds none. It reads no more than shows that. The errors are `Read`,
/// and `Gate(Memory)` if there is no memory for the token.
pub fn read_token<R: Read>(alloc: Global, reader: &mut R) -> Result<Option<Token>, HookFault>
    ensures read { HasReadToken result (R.remaining reader.old) (R.remaining reader.new) }
{
    let mut bytes = Vec::new(alloc);
    match read_body(reader, &mut bytes, 0, NO_TOKEN) {
        Ok(()) => {}
        Err(fault) => return Err(fault),
    }
    Ok(Token::read(alloc, &bytes)?)
}
