ghost use Rattle.std.specs.Prelude.{◌≡◌, ◌⊎◌, IfErr, IfOk, OnErr, OnOk};
ghost use Rattle.std.specs.Io.KnownBytes.{Appends};
ghost use Rattle.gate_jobs.specs.Serving as serving;
ghost use Rattle.gate_jobs.specs.Serving.{AllServed, EndsServing, OneServed, IsTokenOf, NoneServed, greeting};
ghost use Rattle.gate_hook.specs.Responding.{IsTranscript};
ghost use Rattle.gate_hook.specs.Sending.{IsCutOff};
ghost use Rattle.gate_hook.specs.Served.{ServesOne};

use crate::accepting::Acceptor;
use crate::fault::JobFault;
use crate::logging::Log;
use gate_hook::{HookFault, Routes, Served, Token, Transcript, read_token, send, serve_guarded};
use gate_queue::Fault;
use gate_store::{Book, Keeper};
use std::alloc::Global;
use std::io::{Read, Write};

/// The token that a file holds. The fault is `Token` if it can't be read, or holds no token, and `Gate(Memory)` if there is no memory for
/// it.
pub fn token_of<R: Read>(alloc: Global, file: &mut R) -> Result<Token, JobFault>
    ensures token { IsTokenOf result (R.remaining file.old) (R.remaining file.new) }
{
    token_told(read_token(alloc, file))
}

// What reading a file for a token tells.
fn token_told(read: Result<Option<Token>, HookFault>) -> Result<Token, JobFault>
    ensures { result ≡ serving.token_told read }
{
    match read {
        Ok(Some(token)) => Ok(token),
        Err(HookFault::Gate(fault)) => Err(JobFault::from(fault)),
        Ok(None) | Err(_) => Err(JobFault::Token),
    }
}

/// Prints on which port the program listens. The fault is `Write`, after which a part of the line is printed, or `Gate(Memory)`, after
/// which nothing is.
pub fn announce<W: Write>(alloc: Global, port: u16, writer: &mut W) -> Result<(), HookFault>
    ensures ok { OnOk result (Appends (W.contents writer.old) (W.contents writer.new) (greeting port)) }
    ensures err { IfErr result (λ fault.
        ((fault ≡ HookFault.Write) × IsCutOff (greeting port) (W.contents writer.old) (W.contents writer.new))
        ⊎ ((fault ≡ HookFault.Gate Fault.Memory) × (W.contents writer.new ≡ W.contents writer.old))) }
{
    let line = format!(in alloc; "listening on 127.0.0.1:{port}\n")?;
    send(writer, line.as_bytes())
}

/// Serves the request of one connection, which has to bear the token of the routes if there is one. What it answers, and the transcript,
/// are for a log: if the connection fails, nobody else is left to be told.
pub fn serve_request<B: Book, R: Read, W: Write>(
    alloc: Global,
    keeper: &mut Keeper<B>,
    routes: &Routes,
    transcript: &mut Transcript,
    reader: &mut R,
    writer: &mut W,
) -> Result<Served, HookFault>
    // Whatever comes of it, the transcript has what was taken of the input, and the response, and nothing else.
    ensures transcript { IsTranscript result transcript.new.request transcript.new.response
        (R.remaining reader.old) (R.remaining reader.new) (W.contents writer.old) (W.contents writer.new) }

    // All that is told of one request, as at `serve_guarded`.
    ensures serves { ServesOne B.Book routes.now result keeper.old keeper.new
        (R.remaining reader.old) (R.remaining reader.new) (W.contents writer.old) (W.contents writer.new) }
{
    serve_guarded(alloc, keeper, routes, transcript, reader, writer)
}

// Accepts a connection, serves it and ends it, and has it told.
fn serve_next<B: Book, R: Read, W: Write, A: Acceptor<R, W>, L: Log>(
    alloc: Global,
    keeper: &mut Keeper<B>,
    routes: &Routes,
    log: &mut L,
    acceptor: &mut A,
) -> Result<(), JobFault>
    ensures served { OnOk result (OneServed B.Book routes.now A.waiting A.ended A.unread acceptor.old acceptor.new keeper.old keeper.new) }
    ensures none { OnErr result (NoneServed B.Book routes.now A.waiting A.ended A.unread acceptor.old acceptor.new keeper.old keeper.new) }
    ensures ends { EndsServing B.Book keeper.old keeper.new result }
{
    match acceptor.accept() {
        Ok((mut reader, mut writer)) => {
            let mut transcript = Transcript::new(alloc);
            let served = serve_request(
                alloc,
                keeper,
                routes,
                &mut transcript,
                &mut reader,
                &mut writer,
            );
            acceptor.end(reader, writer);
            log.tell(&transcript, &served);
            drop(transcript);
            Ok(())
        }
        Err(_) => Err(JobFault::Accept),
    }
}

/// Serves so many connections, one after the other, with one request each, which has to bear the token of the routes if there is one. The
/// records are the keeper's, and go from one connection to the next. Of each request the log is told when its connection is ended. The
/// fault is `Accept`, at the first connection that can't be accepted.
pub fn serve<B: Book, R: Read, W: Write, A: Acceptor<R, W>, L: Log>(
    alloc: Global,
    keeper: &mut Keeper<B>,
    routes: &Routes,
    log: &mut L,
    acceptor: &mut A,
    count: u32,
) -> Result<(), JobFault>
    // `count` connections were accepted and ended, or fewer after `Accept`, in the order in which they came. Of each no more was taken than
    // its answer needs, and each was answered as is due over a book that is sound, or over one that a fault may have shut.
    ensures served { AllServed B.Book routes.now A.waiting A.ended A.unread acceptor.old acceptor.new keeper.old keeper.new result count }

    // The fault is `Accept`, and the premise of the book outlasts it.
    ensures ends { EndsServing B.Book keeper.old keeper.new result }
{
    for _ in 0..count {
        match serve_next(alloc, keeper, routes, log, acceptor) {
            Ok(()) => {}
            Err(fault) => return Err(fault),
        }
    }
    Ok(())
}
