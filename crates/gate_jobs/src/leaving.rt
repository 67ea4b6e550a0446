ghost use Rattle.std.specs.Prelude.{◌≡◌, ◌≤◌, IfOk, OnOk};

use crate::closing::drop_part;
use crate::limits::Limits;
use std::io::{self, ErrorKind};
use std::net::{Shutdown, TcpStream};
use std::time::{Clock, Duration, Instant};

// For how many seconds a client may be silent behind its response.
const SILENCE: u32 = 1;

// The most that is read of a connection behind its response: a megabyte, and as much as a head may have.
const MAX_LEFT: u64 = 1_064_960;

// A connection that has its response. What still comes on it is dropped, so many bytes at the most.
#[derive(Drop)]
pub(crate) struct Leaver {
    pub(crate) stream: TcpStream,
    limits: Limits,
    left: u64,
    since: Instant,
}

impl Leaver {
    // Nothing more is sent on the connection.
    pub(crate) fn new(clock: &impl Clock, stream: TcpStream) -> io::Result<Leaver>
        ensures patience { IfOk result (λ leaver. leaver.limits.patience ≡ SILENCE) }
        ensures left { IfOk result (λ leaver. leaver.left ≡ MAX_LEFT) }
    {
        stream.shutdown(Shutdown::Write)?;
        stream.set_nonblocking(true)?;
        let limits = Limits::from_now(clock, SILENCE)?;
        Ok(Leaver {
            stream,
            limits,
            left: MAX_LEFT,
            since: limits.start,
        })
    }

    // Drops what has come, up to the limit, and tells whether more may come.
    fn drop_all(&mut self, time: Instant) -> bool
        ensures left { self.new.left ≤ self.old.left }
        ensures limits { self.new.limits ≡ self.old.limits }
    {
        for _ in 0..u64::MAX {
            match drop_part(&mut self.stream, self.left) {
                Ok(left) if 0 < left && left < self.left => {
                    self.left = left;
                    self.since = time;
                }
                Ok(_) => return false,
                Err(error) => return error.kind() == ErrorKind::WouldBlock,
            }
        }
        false
    }

    // Drops what has come, and tells how long it is still waited for more, if at all.
    pub(crate) fn wait(&mut self, time: Instant) -> Option<Duration>
        ensures left { self.new.left ≤ self.old.left }
        ensures limits { self.new.limits ≡ self.old.limits }
    {
        if !self.drop_all(time) {
            return None;
        }
        let left = self.limits.left(time, self.since);
        if left.is_zero() { None } else { Some(left) }
    }
}
