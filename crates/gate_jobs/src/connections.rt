ghost use Rattle.std.specs.Prelude.{◌≡◌, ◌*◌, IfOk};
ghost use Rattle.gate_waiting.specs.Room.{empty_room};

use crate::accepting::Acceptor;
use crate::leaving::Leaver;
use crate::limits::Limits;
use crate::patient::{PatientReader, PatientWriter, rest_of};
use crate::watching::{News, Watch, news_of};
use gate_hook::{Routes, is_enough};
use gate_waiting::{MOST, Ready, Waiting, Whole};
use mio::Poll;
use std::alloc::Global;
use std::io::{self, Error, ErrorKind, Read};
use std::net::{TcpListener, TcpStream};
use std::time::{Clock, Duration, Instant};

// How many bytes are read at once.
const PIECE: usize = 8_192;

// After a connection couldn't be accepted, so many milliseconds go by before the next is tried.
const RETRY: u64 = 100;

// A time in microseconds, and no more than a number can be.
fn micros(time: Duration) -> u64 {
    time.as_secs()
        .saturating_mul(1_000_000)
        .saturating_add(u64::from(time.subsec_micros()))
}

// The shorter of two waits, of which one that isn't there is without end.
fn shorter(wait: Option<Duration>, other: Option<Duration>) -> Option<Duration> {
    match (wait, other) {
        (Some(wait), Some(other)) => Some(wait.min(other)),
        (None, wait) | (wait, None) => wait,
    }
}

// What makes a request whole: if a token is needed, one that doesn't bear it is whole with its head.
#[derive(Drop)]
struct Needs<'a> {
    routes: &'a Routes,
}

impl Whole for Needs<'_> {
    ghost use Rattle.gate_hook.specs.Receiving.{IsEnough};

    ghost tells = { λ needs enough bytes. IsEnough needs.routes.now enough bytes };

    fn is_whole(&self, bytes: &[u8]) -> bool {
        is_enough(self.routes, bytes)
    }
}

// A connection that is here, under its number.
#[derive(Drop)]
struct Guest {
    connection: u64,
    stream: TcpStream,
    limits: Limits,
}

impl Guest {
    // Tells what has come, as long as there is something, and more is waited for.
    fn hear(&mut self, waiting: &mut Waiting<Needs<'_>>, time: u64) {
        let mut piece = [0; PIECE];
        for _ in 0..u64::MAX {
            waiting.make_room(self.connection, PIECE);
            if !waiting.is_waiting(self.connection) {
                return;
            }
            match self.stream.read(&mut piece) {
                Ok(n) if n > 0 => waiting.hear(time, self.connection, &piece[..n]),
                Ok(_) => waiting.end(self.connection),
                Err(error) if error.kind() == ErrorKind::WouldBlock => return,
                Err(_) => waiting.fail(self.connection),
            }
        }
    }
}

// Whether connections may have come that aren't accepted.
#[derive(Clone, Copy, PartialEq, Eq)]
enum Backlog {
    Empty,
    Open,
    // The last one couldn't be accepted.
    Failing,
}

/// The connections of a listener. Many are waited for at once, and the one whose request has been whole the longest is the next; so a
/// client that is silent, or slow, holds up no other one. `Waiting` decides this; here are the sockets and the clock. What has come is
/// heard before each; of those that are whole then, the one that was heard first goes first. None is waited for longer than its patience:
/// a connection on which nothing comes for so many seconds, or that is ten times as old, has its turn as well, and its reads fail. A write
/// fails after as long. A failed read or write changes nothing by itself; `serve_guarded` says what comes of it. While nothing comes,
/// nobody looks.
///
/// To close a connection while bytes of its request are on their way would have the system reset it, and the client might lose the
/// response. So when one is ended, nothing more is sent on it. Beside the others what still comes is dropped, until the client closes, is
/// silent for a second, or has sent a megabyte, or until ten seconds are over, or if 256 that were ended later haven't left either.
#[derive(Drop)]
pub struct Connections<'a, C: Clock> {
    listener: &'a TcpListener,
    clock: &'a C,
    alloc: Global,
    patience: u32,
    // The moment from which times are told.
    start: Instant,
    watch: Watch,
    backlog: Backlog,
    // Whether standard input has ended, and whether nobody is taken in any more after that.
    has_ended: bool,
    is_closed: bool,
    waiting: Waiting<Needs<'a>>,
    guests: Vec<Guest>,
    leavers: Vec<Leaver>,
}

impl<'a, C: Clock> Connections<'a, C> {
    /// Those of this listener, with a patience in seconds, from 1 on. A request that doesn't bear the token of the routes, if there is
    /// one, is whole with its head. An error if the listener can't be waited for, the clock can't be read, or there is no memory for a
    /// list of them. Later none is needed to go on: a connection for whose bytes there is no memory is served at once.
    pub fn new(
        alloc: Global,
        clock: &'a C,
        poll: Poll,
        listener: &'a TcpListener,
        routes: &'a Routes,
        patience: u32,
    ) -> io::Result<Connections<'a, C>>
        ensures patience { IfOk result (λ connections. connections.patience ≡ patience) }
        ensures waiting { IfOk result (λ connections. connections.waiting
            ≡ empty_room (record { routes = routes.entry }) (patience * 1000000)) }
    {
        Ok(Connections {
            listener,
            clock,
            alloc,
            patience,
            start: Instant::now(clock)?,
            watch: Watch::new(alloc, poll, listener)?,
            backlog: Backlog::Open,
            has_ended: false,
            is_closed: false,
            waiting: Waiting::new(alloc, Needs { routes }, patience)?,
            guests: Vec::with_capacity(alloc, MOST)?,
            leavers: Vec::with_capacity(alloc, MOST)?,
        })
    }

    /// From now on they end when standard input is closed. Then those are taken in that have come, and nobody after them. The ones that are
    /// here are still heard, and served, as long as one is ready; once none is, `accept` fails. What can't be waited for, a file or
    /// `/dev/null`, counts as closed.
    pub fn end_with_input(&mut self)
        ensures waiting { self.new.waiting ≡ self.old.waiting }
    {
        if self.watch.watch_input().is_err() {
            self.has_ended = true;
        }
    }

    /// Whether they have ended since standard input is closed.
    pub fn have_ended(&self) -> bool
        ensures { result ≡ self.now.has_ended }
    {
        self.has_ended
    }

    // The time, in microseconds since the first one.
    fn time(&self) -> io::Result<u64> {
        let now = Instant::now(self.clock)?;
        Ok(micros(now.duration_since(self.start)))
    }

    // Takes a connection in, to be waited for, and hears what has come on it. One that can't be waited for is let go.
    fn take_in(&mut self, stream: TcpStream, time: u64) -> io::Result<()> {
        stream.set_nonblocking(true)?;
        let limits = Limits::from_now(self.clock, self.patience)?;
        // So no connection is waited for whose stream is gone.
        self.guests.reserve(1)?;
        let Some(connection) = self.waiting.come(self.alloc, time) else {
            return Ok(());
        };
        let mut guest = Guest {
            connection,
            stream,
            limits,
        };
        match self.watch.watch(&guest.stream, connection) {
            Ok(()) => guest.hear(&mut self.waiting, time),
            Err(_) => self.waiting.fail(connection),
        }
        self.guests.push_reserved(guest);
        Ok(())
    }

    // Takes in those that have come, as many as there are places for. The error is that of a connection that can't be accepted while nobody
    // is here.
    fn accept_all(&mut self, time: u64) -> io::Result<()> {
        for _ in 0..MOST {
            if self.backlog == Backlog::Empty || !self.waiting.has_place() {
                break;
            }
            match self.listener.accept() {
                Ok((stream, _)) => {
                    self.backlog = Backlog::Open;
                    let _ = self.take_in(stream, time);
                }
                Err(error) if error.kind() == ErrorKind::WouldBlock => {
                    self.backlog = Backlog::Empty;
                }
                Err(error) => return self.put_off(error),
            }
        }
        Ok(())
    }

    // Those that are here are served before a connection that can't be accepted is tried again.
    fn put_off(&mut self, error: Error) -> io::Result<()> {
        if self.waiting.is_empty() && self.leavers.is_empty() {
            return Err(error);
        }
        self.backlog = Backlog::Failing;
        Ok(())
    }

    // Hears the news that the last wait has ended with.
    fn hear(&mut self, time: u64) {
        for event in self.watch.events() {
            match news_of(event) {
                News::Arrival => self.backlog = Backlog::Open,
                News::EndOfInput => self.has_ended = true,
                News::Bytes(connection) => {
                    hear_one(&mut self.guests, &mut self.waiting, time, connection);
                }
                News::Nothing => {}
            }
        }
    }

    // Lets those connections go that have left, or that are waited for no longer, and tells how long nobody need look after the others.
    fn see_off(&mut self) -> io::Result<Option<Duration>> {
        let time = Instant::now(self.clock)?;
        let mut pause = None;
        self.leavers.retain_mut(|leaver| {
            let wait = leaver.wait(time);
            pause = shorter(pause, wait);
            wait.is_some()
        });
        Ok(pause)
    }

    // How long nobody need look again if nothing comes.
    fn pause(&self) -> io::Result<Option<Duration>> {
        if self.has_ended {
            return Ok(Some(Duration::ZERO));
        }
        let retry = match self.backlog {
            Backlog::Open if self.waiting.has_place() => Some(Duration::ZERO),
            Backlog::Failing => Some(Duration::from_millis(RETRY)),
            Backlog::Open | Backlog::Empty => None,
        };
        let waiting = self.waiting.pause(self.time()?).map(Duration::from_micros);
        Ok(shorter(retry, waiting))
    }

    // The next connection that is ready, if one is. It is watched no longer.
    fn first(&mut self, time: u64) -> io::Result<Option<(Guest, Ready)>> {
        let Some(ready) = self.waiting.next(time) else {
            return Ok(None);
        };
        let Some(guest) = taken(&mut self.guests, ready.guest.connection) else {
            return Ok(None);
        };
        let _ = self.watch.forget(&guest.stream);
        guest.stream.set_nonblocking(false)?;
        Ok(Some((guest, ready)))
    }

    // Once the input has ended, those that have come are taken in, and nobody after them. Those that are here are still heard, until none
    // is ready.
    fn next(&mut self) -> io::Result<(Guest, Ready)> {
        for _ in 0..u64::MAX {
            let pause = shorter(self.see_off()?, self.pause()?);
            self.watch.wait(pause)?;
            let time = self.time()?;
            self.hear(time);
            if !self.is_closed {
                self.is_closed = self.has_ended;
                self.accept_all(time)?;
            }
            // So all is heard that came by this time, before somebody is late at it.
            self.watch.wait(Some(Duration::ZERO))?;
            let heard = self.time()?;
            self.hear(heard);
            match self.first(time)? {
                Some(next) => return Ok(next),
                None if self.is_closed => break,
                None => {}
            }
        }
        Err(Error::from(ErrorKind::TimedOut))
    }

    /// Lets those go that are waited for, and waits until no connection is left that was ended, at the most ten seconds.
    pub fn finish(mut self) {
        self.guests.clear();
        for _ in 0..u64::MAX {
            match self.see_off() {
                Ok(Some(pause)) if self.watch.wait(Some(pause)).is_ok() => {}
                Ok(_) | Err(_) => break,
            }
        }
        drop(self);
    }
}

// Hears what has come on the connection of a number, if it is waited for.
fn hear_one(guests: &mut [Guest], waiting: &mut Waiting<Needs<'_>>, time: u64, connection: u64) {
    for guest in guests {
        if guest.connection == connection {
            guest.hear(waiting, time);
            return;
        }
    }
}

// Takes out the connection of a number.
fn taken(guests: &mut Vec<Guest>, connection: u64) -> Option<Guest> {
    for place in 0..guests.len() {
        if guests[place].connection == connection {
            return Some(guests.remove(place));
        }
    }
    None
}

impl<'a, C: Clock> Acceptor<PatientReader<'a, C>, PatientWriter<'a, C>> for Connections<'a, C> {
    fn accept(&mut self) -> io::Result<(PatientReader<'a, C>, PatientWriter<'a, C>)> {
        for _ in 0..u64::MAX {
            let (guest, ready) = self.next()?;
            let Guest { stream, limits, .. } = guest;
            let rest = rest_of(ready.reason);
            let connection = ready.guest.connection;
            let bytes = ready.guest.bytes.into_vec();
            // A connection that can't be read and written is given up, and makes room.
            if let Ok(reading) = stream.try_clone() {
                let clock = self.clock;
                let reader = PatientReader {
                    connection,
                    bytes,
                    at: 0,
                    rest,
                    stream: reading,
                    clock,
                    limits,
                };
                let writer = PatientWriter {
                    stream,
                    clock,
                    limits,
                };
                return Ok((reader, writer));
            }
        }
        Err(Error::from(ErrorKind::TimedOut))
    }

    fn end(&mut self, reader: PatientReader<'a, C>, writer: PatientWriter<'a, C>) {
        drop(writer);
        let PatientReader {
            connection,
            stream,
            bytes,
            ..
        } = reader;
        drop(bytes);
        // For each there is a descriptor. So if many don't leave, the one that was ended first is closed.
        if self.leavers.len() >= MOST {
            drop(self.leavers.remove(0));
        }
        // One that fails here is closed at once, and so is one for which there is no memory.
        if let Ok(leaver) = Leaver::new(self.clock, stream) {
            let _ = self.watch.watch(&leaver.stream, connection);
            let _ = self.leavers.push(leaver);
        }
    }
}
