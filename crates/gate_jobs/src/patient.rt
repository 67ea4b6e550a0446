ghost use Rattle.std.specs.Prelude.{◌≡◌, ◌⊎◌, ◌+◌, ◌-◌, ◌↔◌, drop, length, min, take};

use crate::limits::Limits;
use gate_waiting::Reason;
use std::io::{self, Error, ErrorKind, Read, Write};
use std::net::TcpStream;
use std::time::Clock;

// What comes behind the bytes that have come.
#[derive(Clone, Copy, PartialEq, Eq)]
pub(crate) enum Rest {
    // More may come.
    Open,
    // They end.
    Ended,
    // Reading fails.
    Failed,
}

// What comes behind the bytes of a connection that is waited for no longer.
pub(crate) fn rest_of(reason: Reason) -> Rest
    ensures open { (result ≡ Rest.Open) ↔ ((reason ≡ Reason.Whole) ⊎ (reason ≡ Reason.NoMemory)) }
    ensures ended { (result ≡ Rest.Ended) ↔ (reason ≡ Reason.Ended) }
{
    match reason {
        Reason::Whole | Reason::NoMemory => Rest::Open,
        Reason::Ended => Rest::Ended,
        Reason::Failed | Reason::Lost | Reason::Late => Rest::Failed,
    }
}

// Hands over bytes from a place on, as many as there is room for, and moves the place behind them. It tells how many.
fn hand_over(bytes: &[u8], at: &mut usize, buf: &mut [u8]) -> usize
    ensures count { result ≡ min (length bytes.now - at.old) (length buf.old) }
    ensures bytes { take result buf.new ≡ take result (drop at.old bytes.now) }
    ensures place { at.new ≡ at.old + result }
{
    let from = *at;
    match bytes.get(from..) {
        Some(rest) => {
            let n = rest.len().min(buf.len());
            buf[..n].copy_from_slice(&rest[..n]);
            *at = from + n;
            n
        }
        None => 0,
    }
}

/// Reads a connection with patience: first the bytes that had come before, then what comes.
#[derive(Drop)]
pub struct PatientReader<'a, C: Clock> {
    pub(crate) connection: u64,
    pub(crate) bytes: Vec<u8>,
    pub(crate) at: usize,
    pub(crate) rest: Rest,
    pub(crate) stream: TcpStream,
    pub(crate) clock: &'a C,
    pub(crate) limits: Limits,
}

impl<C: Clock> Read for PatientReader<'_, C> {
    fn read(&mut self, buf: &mut [u8]) -> io::Result<usize> {
        let n = hand_over(&self.bytes, &mut self.at, buf);
        if n > 0 {
            return Ok(n);
        }
        match self.rest {
            Rest::Open => {}
            Rest::Ended => return Ok(0),
            Rest::Failed => return Err(Error::from(ErrorKind::ConnectionReset)),
        }
        let wait = self.limits.next(self.clock)?;
        self.stream.set_read_timeout(Some(wait))?;
        self.stream.read(buf)
    }
}

/// Writes on a connection with patience.
#[derive(Drop)]
pub struct PatientWriter<'a, C: Clock> {
    pub(crate) stream: TcpStream,
    pub(crate) clock: &'a C,
    pub(crate) limits: Limits,
}

impl<C: Clock> Write for PatientWriter<'_, C> {
    fn write(&mut self, buf: &[u8]) -> io::Result<usize> {
        let wait = self.limits.next(self.clock)?;
        // What there is room for goes at once. So a write that waits begins without room, and isn't followed by another wait.
        self.stream.set_nonblocking(true)?;
        match self.stream.write(buf) {
            Err(error) if error.kind() == ErrorKind::WouldBlock => {}
            written => return written,
        }
        self.stream.set_nonblocking(false)?;
        self.stream.set_write_timeout(Some(wait))?;
        self.stream.write(buf)
    }

    fn flush(&mut self) -> io::Result<()> {
        self.stream.flush()
    }
}
