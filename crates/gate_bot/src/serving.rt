ghost use Rattle.std.specs.Prelude.{◌≡◌, ◌↔◌, IfErr, IfOk, IsSome};
ghost use Rattle.gate_bot.specs.Program.{IsOfTokens};
ghost use Rattle.gate_jobs.specs.Serving.{AllServed};

use crate::records::{book_in_file, close};
use gate_hook::{HookFault, Routes, Token, book_in_memory};
use gate_jobs::{Acceptor, Connections, JobFault, LineLog, Log, Silence, announce, token_of};
use gate_queue::Fault;
use gate_store::{Book, Keeper};
use mio::Poll;
use sqlite::Start;
use std::alloc::Global;
use std::fs::File;
use std::io::{self, ErrorKind, Read, Write};
use std::net::TcpListener;

/// On which port connections are served, how many, how long each is waited for in seconds, by which routes, whether there is a log, and
/// whether they end when standard input is closed.
#[derive(Clone, Copy)]
pub struct Service<'a> {
    pub port: u16,
    pub count: u32,
    pub patience: u32,
    pub routes: &'a Routes,
    pub has_log: bool,
    pub until_input_ends: bool,
}

/// The token that a file holds, if one is named. It is read before all else. The fault is `Token` if the file can't be read or holds none,
/// and `Gate(Memory)` if there is no memory for it.
pub fn token_in(rt: &HostRuntime, file: Option<&String>) -> Result<Option<Token>, JobFault>
    // If a file is named, there is a token, or a fault.
    ensures needed { IfOk result (λ token. IsSome token ↔ IsSome file.entry) }
    ensures fault { IfErr result (λ fault. IsSome file.entry × IsOfTokens fault) }
{
    let Some(file) = file else {
        return Ok(None);
    };
    match File::open(rt, file.as_str()) {
        Ok(mut file) => Ok(Some(token_of(rt.alloc(), &mut file)?)),
        Err(_) => Err(JobFault::Token),
    }
}

/// The routes of requests, which have to bear this token, if there is one. The fault is `Gate(Memory)` if there is no memory for them.
pub fn routes_of(rt: &HostRuntime, token: Option<Token>) -> Result<Routes, JobFault>
    ensures token { IfOk result (λ routes. routes ≡ token) }
    ensures fault { IfErr result (λ fault. fault ≡ JobFault.Hook (HookFault.Gate Fault.Memory)) }
{
    Routes::new(rt.alloc(), token).map_err(|_| JobFault::from(Fault::Memory))
}

/// Serves connections over records in memory, which are made before the address is bound.
pub fn serve<'a>(rt: &'a HostRuntime, service: Service<'a>) -> Result<(), JobFault> {
    let (served, book) = serve_over(rt, book_in_memory(rt.alloc()), service);
    drop(book);
    served
}

/// The same over the records in a database file, which is opened before the address is bound.
pub fn serve_in_file<'a, S: Start>(
    rt: &'a HostRuntime,
    file: &str,
    start: S,
    service: Service<'a>,
) -> Result<(), JobFault> {
    let (served, book) = serve_over(rt, book_in_file(rt, file, start)?, service);
    close(book);
    served
}

// Over any book, which it gives back. A keeper whose book is known is dear to prove.
fn serve_over<'a, B: Book>(
    rt: &'a HostRuntime,
    book: B,
    service: Service<'a>,
) -> (Result<(), JobFault>, B) {
    let mut keeper = Keeper::new(book);
    let served = serve_on(rt, &mut keeper, service);
    (served, keeper.into_book())
}

fn serve_on<'a, B: Book>(
    rt: &'a HostRuntime,
    keeper: &mut Keeper<B>,
    service: Service<'a>,
) -> Result<(), JobFault> {
    match TcpListener::bind(rt, ("127.0.0.1", service.port)) {
        Ok(listener) => {
            let mut connections = connections_of(rt, &listener, service)?;
            announce(rt.alloc(), service.port, &mut io::writer(rt))?;
            let mut log = LineLog::new(rt.alloc(), rt, rt.stderr());
            let served = serve_with(rt.alloc(), keeper, &mut connections, &mut log, service);
            let have_ended = connections.have_ended();
            connections.finish();
            match served {
                Err(JobFault::Accept) if have_ended => Ok(()),
                served => served,
            }
        }
        Err(_) => Err(JobFault::Bind),
    }
}

// The connections of a listener. The fault is `Gate(Memory)` if there is no memory for them, and `Bind` if the listener can't be waited
// for.
fn connections_of<'a>(
    rt: &'a HostRuntime,
    listener: &'a TcpListener,
    service: Service<'a>,
) -> Result<Connections<'a, HostRuntime>, JobFault> {
    let made = match Poll::new(rt) {
        Ok(poll) => Connections::new(
            rt.alloc(),
            rt,
            poll,
            listener,
            service.routes,
            service.patience,
        ),
        Err(error) => Err(error),
    };
    match made {
        Ok(mut connections) => {
            if service.until_input_ends {
                connections.end_with_input();
            }
            Ok(connections)
        }
        Err(error) if error.kind() == ErrorKind::OutOfMemory => Err(JobFault::from(Fault::Memory)),
        Err(_) => Err(JobFault::Bind),
    }
}

// Serves the connections of any acceptor, and has the log told of them if there is to be one. Whether it is or not, a request has to bear
// the token.
fn serve_with<B: Book, R: Read, W: Write, A: Acceptor<R, W>, L: Log>(
    alloc: Global,
    keeper: &mut Keeper<B>,
    acceptor: &mut A,
    log: &mut L,
    service: Service<'_>,
) -> Result<(), JobFault>
    ensures served { AllServed B.Book service.entry.routes.now A.waiting A.ended A.unread acceptor.old acceptor.new keeper.old keeper.new
        result service.entry.count }
    ensures cause { IfErr result (λ fault. fault ≡ JobFault.Accept) }
{
    let Service { routes, count, .. } = service;
    if service.has_log {
        gate_jobs::serve(alloc, keeper, routes, log, acceptor, count)
    } else {
        gate_jobs::serve(alloc, keeper, routes, &mut Silence, acceptor, count)
    }
}
