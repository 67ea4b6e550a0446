use mio::event::{Event, Iter};
use mio::unix::SourceFd;
use mio::{Events, Interest, Poll, Token};
use std::alloc::Global;
use std::io;
use std::net::{TcpListener, TcpStream};
use std::os::fd::{AsRawFd, RawFd};
use std::time::Duration;

// So much news is told at once. There is never more, so one look has it all: at the most 256 connections are waited for, 256 others are
// leaving, and there are the listener and standard input.
const MOST_NEWS: usize = 1_024;

// What the listener and standard input are known by. Connections are known by their numbers, which are below.
const LISTENER: Token = Token(usize::MAX);

const INPUT: Token = Token(usize::MAX - 1);

const STANDARD_INPUT: RawFd = 0;

// Of what there is news.
#[derive(Clone, Copy)]
pub(crate) enum News {
    // A connection may have come.
    Arrival,
    // Standard input is closed.
    EndOfInput,
    // Something may have come on the connection of this number.
    Bytes(u64),
    // Of nothing that matters.
    Nothing,
}

// Waits until there is news. It tells of something new once, so who is told of a connection reads until nothing is left.
#[derive(Drop)]
pub(crate) struct Watch {
    poll: Poll,
    events: Events<Global>,
}

impl Watch {
    // Watches this listener.
    pub(crate) fn new(alloc: Global, poll: Poll, listener: &TcpListener) -> io::Result<Watch> {
        let events = Events::with_capacity(alloc, MOST_NEWS)?;
        listener.set_nonblocking(true)?;
        poll.registry().register(
            &mut SourceFd(&listener.as_raw_fd()),
            LISTENER,
            Interest::READABLE,
        )?;
        Ok(Watch { poll, events })
    }

    // Watches standard input too. An error if it is none that can be waited for: a file, or nothing.
    pub(crate) fn watch_input(&self) -> io::Result<()> {
        self.poll
            .registry()
            .register(&mut SourceFd(&STANDARD_INPUT), INPUT, Interest::READABLE)
    }

    // Watches a connection too, from what has come already on.
    pub(crate) fn watch(&self, stream: &TcpStream, connection: u64) -> io::Result<()> {
        let token = Token(connection as usize);
        self.poll.registry().register(
            &mut SourceFd(&stream.as_raw_fd()),
            token,
            Interest::READABLE,
        )
    }

    // Watches a connection no longer.
    pub(crate) fn forget(&self, stream: &TcpStream) -> io::Result<()> {
        self.poll
            .registry()
            .deregister(&mut SourceFd(&stream.as_raw_fd()))
    }

    // Waits for news, at most so long.
    pub(crate) fn wait(&mut self, longest: Option<Duration>) -> io::Result<()> {
        self.poll.poll(&mut self.events, longest)
    }

    // What the wait has ended with.
    pub(crate) fn events(&self) -> Iter<'_> {
        self.events.iter()
    }
}

// The news that an event is.
pub(crate) fn news_of(event: &Event) -> News {
    match event.token() {
        LISTENER => News::Arrival,
        INPUT if event.is_read_closed() => News::EndOfInput,
        INPUT => News::Nothing,
        Token(connection) => News::Bytes(connection as u64),
    }
}
