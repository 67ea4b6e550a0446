ghost use Rattle.std.specs.Prelude.{◌≡◌, ◌≤◌, [], Ok, Some, None, length, drop, IfOk, IfErr, OnErr, OnOk};
ghost use Rattle.std.specs.Option.{option_map};
ghost use Rattle.std.specs.String.{string_bytes};
ghost use Rattle.gate_deliveries.specs.Deliveries.{delivery_of};
ghost use Rattle.gate_hook.specs.Receiving.{HasAsked};
ghost use Rattle.gate_hook.specs.Requests.{asked_by, delivery_or_refusal};
ghost use Rattle.gate_hook.specs.Responding.{AnswersDelivery, AnswersRequest, HasConsumed, HasSent, IsTranscript, MakesReport, MakesResponse};
ghost use Rattle.gate_http.specs.Heads.{IsHeadRead, IsLineOf};
ghost use Rattle.gate_http.specs.Responses.{IsResponse, fault_response, response_text};
ghost use Rattle.gate_hook.specs.declared.requests.Request.TheVariants.{Delivery as DeliveryOf};
ghost use Rattle.gate_hook.specs.Served.{ServesOne, report_in, response_to, response_to_report};

use crate::answering::delivery_answer;
use crate::fault::HookFault;
use crate::receiving::{read_body, read_head};
use crate::sending::send;
use gate_deliveries::{DeliveryFault, read_delivery};
use gate_http::{
    Ask, Head, Refusal, Report, RequestLine, Response, Routes, json_response, refusal_response,
    report_response,
};
use gate_queue::{Fault, Gate};
use gate_report::{change_text, queue_text};
use gate_store::{Book, Delivery, Keeper};
use http::StatusCode;
use std::alloc::{AllocError, Global};
use std::io::{Read, Write};
use std::marker::Model;

// The response after a fault. It takes no memory.
const UNAVAILABLE: &str =
    "HTTP/1.1 503 Service Unavailable\r\nContent-Length: 0\r\nConnection: close\r\n\r\n";

/// How a request was served.
#[derive(Clone, Copy, Debug, PartialEq, Eq)]
pub struct Served {
    /// The status of the response.
    pub status: StatusCode,
    /// The fault that was met, if the status is 503.
    pub fault: Option<Fault>,
}

/// What came in and what went out of one request. It isn't to be printed, since a head may bear a token. A contract sees an `Exchange`,
/// which is the bytes of both.
#[derive(Drop)]
pub struct Transcript {
    request: Vec<u8>,
    // The head of the request, as it was read.
    head: Option<Head>,
    response: String,
}

impl Model for Transcript {
    ghost use Rattle.std.specs.String.{string_bytes};
    ghost use Rattle.gate_http.specs.Heads.{IsHeadRead};
    ghost use Rattle.gate_hook.specs.Exchanges.{Exchange};

    ghost Value = { Exchange };

    ghost view = { λ inside. record { request = inside.request.items; response = string_bytes inside.response } };

    ghost invariant = { λ inside. IsHeadRead inside.head inside.request.items };
}

impl Transcript {
    /// One in which nothing stands yet. It takes no memory.
    pub fn new(alloc: Global) -> Transcript
        ensures request { result.request ≡ [] }
        ensures response { result.response ≡ [] }
    {
        Transcript {
            request: Vec::new(alloc),
            head: None,
            response: String::new(alloc),
        }
    }

    /// The bytes that were taken of the input. If there was no memory for the last ones, these are missing.
    pub fn request(&self) -> &[u8]
        ensures request { result.now ≡ self.now.request }
    {
        self.request.as_slice()
    }

    /// The method and the path of the request, if it has a head of at most 64 fields.
    pub fn line(&self) -> Option<RequestLine<'_>>
        ensures line { IsLineOf result self.now.request }
    {
        match self.head {
            Some(head) => Some(head.line(self.request.as_slice())),
            None => None,
        }
    }

    /// The response, if it was written whole, and isn't the one after a fault.
    pub fn response(&self) -> &str
        ensures response { result.now ≡ self.now.response }
    {
        self.response.as_str()
    }
}

/// What a request asks for.
#[derive(Drop)]
pub enum Request {
    /// A delivery, which is to be answered.
    Delivery(Delivery),
    /// A report.
    Report(Report),
}

// What is asked for, or why the request is refused.
type Wish = Result<Request, Refusal>;

// What a body asks for.
fn wish_of(alloc: Global, body: &[u8]) -> Result<Wish, AllocError>
    ensures { IfOk result (λ wish. wish ≡ delivery_or_refusal (delivery_of body.now)) }
{
    match read_delivery(alloc, body) {
        Ok(delivery) => Ok(Ok(Request::Delivery(delivery))),
        Err(DeliveryFault::Memory) => Err(AllocError),
        Err(fault) => Ok(Err(Refusal::NoDelivery(fault))),
    }
}

// What bytes ask for that begin with this head, and that have all of the body that there is.
fn wish_in(alloc: Global, bytes: &[u8], head: &Head) -> Result<Wish, AllocError>
    requires { head.now.len ≤ length bytes.now }
    ensures { IfOk result (λ wish. wish ≡ asked_by head.now.ask (drop head.now.len bytes.now)) }
{
    let rest = &bytes[head.len..];
    match head.ask {
        Ok(Ask::Delivery(size)) => match rest.get(..size) {
            Some(body) => wish_of(alloc, body),
            None => Ok(Err(Refusal::BadRequest)),
        },
        Ok(Ask::Report(report)) => Ok(Ok(Request::Report(report))),
        Err(refusal) => Ok(Err(refusal)),
    }
}

// Reads a request, as far as its answer needs, and has its head told if there is one.
fn read_wish<R: Read>(
    alloc: Global,
    routes: &Routes,
    reader: &mut R,
    bytes: &mut Vec<u8>,
    head: &mut Option<Head>,
) -> Result<Wish, HookFault>
    requires { bytes.old.items ≡ [] }
    ensures asked { HasAsked routes.now result (R.remaining reader.old) (R.remaining reader.new) }
    ensures consumed { HasConsumed result (R.remaining reader.old) (R.remaining reader.new) bytes.new.items }
    ensures head { IsHeadRead head.new bytes.new.items }
{
    *head = None;
    let found = match read_head(routes, reader, bytes) {
        Ok(Some(found)) => found,
        Ok(None) => return Ok(Err(Refusal::BadRequest)),
        Err(fault) => return Err(fault),
    };
    *head = Some(found);
    match read_body(reader, bytes, found.len, found.needed()) {
        Ok(()) => {}
        Err(fault) => return Err(fault),
    }
    Ok(wish_in(alloc, bytes, &found)?)
}

// The response to a delivery.
fn answered<B: Book>(
    alloc: Global,
    keeper: &mut Keeper<B>,
    delivery: &Delivery,
) -> Result<Response, Fault>
    ensures answers { AnswersDelivery B.Book keeper.old keeper.new delivery.now result
        (λ response. IsResponse response (response_to (B.shows keeper.old) (Ok (DeliveryOf delivery.now)))) }
{
    let text = delivery_answer(alloc, keeper, delivery)?;
    Ok(json_response(alloc, StatusCode::OK, text.as_str())?)
}

// The text of a report, if there is one.
fn report_text(alloc: Global, gate: &Gate, report: Report) -> Result<Option<String>, AllocError>
    ensures { IfOk result (λ text. option_map string_bytes text ≡ report_in gate.now report) }
{
    match report {
        Report::Queue => Ok(Some(queue_text(alloc, gate)?)),
        Report::Change(number) => change_text(alloc, gate, number),
    }
}

// The response that has a report of this gate, or says that there is none.
fn reported_by(alloc: Global, gate: &Gate, report: Report) -> Result<Response, Fault>
    ensures response { IfOk result (λ response. IsResponse response (response_to_report (report_in gate.now report))) }
    ensures fault { IfErr result (λ fault. fault ≡ Fault.Memory) }
{
    let response = match report_text(alloc, gate, report)? {
        Some(text) => report_response(alloc, text.as_str()),
        None => refusal_response(alloc, Refusal::NotFound),
    };
    Ok(response?)
}

// The response that has a report, or says that there is none.
fn reported<B: Book>(
    alloc: Global,
    keeper: &mut Keeper<B>,
    report: Report,
) -> Result<Response, Fault>
    ensures makes { MakesReport B.Book keeper.old keeper.new report result }
{
    match keeper.look(alloc) {
        Ok(gate) => reported_by(alloc, gate, report),
        Err(fault) => Err(fault),
    }
}

// The response to what is asked.
fn respond<B: Book>(
    alloc: Global,
    keeper: &mut Keeper<B>,
    wish: &Wish,
) -> Result<Response, HookFault>
    ensures makes { MakesResponse B.Book keeper.old keeper.new wish.now result }
{
    match wish {
        Ok(Request::Delivery(delivery)) => Ok(answered(alloc, keeper, delivery)?),
        Ok(Request::Report(report)) => Ok(reported(alloc, keeper, *report)?),
        Err(refusal) => Ok(refusal_response(alloc, *refusal)?),
    }
}

// Reads a request, has its head told if there is one, and makes its response.
fn answer<B: Book, R: Read>(
    alloc: Global,
    keeper: &mut Keeper<B>,
    routes: &Routes,
    reader: &mut R,
    bytes: &mut Vec<u8>,
    head: &mut Option<Head>,
) -> Result<Response, HookFault>
    requires { bytes.old.items ≡ [] }
    ensures consumed { HasConsumed result (R.remaining reader.old) (R.remaining reader.new) bytes.new.items }
    ensures head { IsHeadRead head.new bytes.new.items }
    ensures answers { AnswersRequest B.Book routes.now result keeper.old keeper.new
        (R.remaining reader.old) (R.remaining reader.new) }
{
    let wish = match read_wish(alloc, routes, reader, bytes, head) {
        Ok(wish) => wish,
        Err(fault) => return Err(fault),
    };
    respond(alloc, keeper, &wish)
}

// Sends a text, and tells how the request was served by it.
fn send_as<W: Write>(writer: &mut W, text: &str, served: Served) -> Result<Served, HookFault>
    ensures { HasSent result served text.now (W.contents writer.old) (W.contents writer.new) }
{
    send(writer, text.as_bytes())?;
    Ok(served)
}

// Sends the response after this fault.
fn send_unavailable<W: Write>(writer: &mut W, fault: Fault) -> Result<Served, HookFault>
    ensures { HasSent result (record { status = 503; fault = Some fault }) (response_text fault_response)
        (W.contents writer.old) (W.contents writer.new) }
{
    let served = Served {
        status: StatusCode::SERVICE_UNAVAILABLE,
        fault: Some(fault),
    };
    send_as(writer, UNAVAILABLE, served)
}

// Sends a response, and has it told if all of it was written.
fn send_response<W: Write>(
    writer: &mut W,
    response: Response,
    told: &mut String,
) -> Result<Served, HookFault>
    ensures sent { HasSent result (record { status = response.status; fault = None }) (string_bytes response.text)
        (W.contents writer.old) (W.contents writer.new) }
    ensures told { OnOk result (string_bytes told.new ≡ string_bytes response.text) }
    ensures untold { OnErr result (string_bytes told.new ≡ string_bytes told.old) }
{
    let served = Served {
        status: response.status,
        fault: None,
    };
    let sent = send_as(writer, response.text.as_str(), served);
    if sent.is_ok() {
        *told = response.text;
    }
    sent
}

/// Serves one request as `serve_one` does, but if the routes ask for a token, a request that doesn't bear it is refused first,
/// whatever else it is: a head without exactly one field `Authorization`, of the scheme `Bearer` and with this token (RFC 6750,
/// section 2.1), gets the status 401. Its body isn't waited for; up to 1,023 bytes of it may be taken with the head. Input
/// without a head is refused as ever.
///
/// Into the transcript it puts what came in and what went out, in place of what stood there. All else is said at `serve_one`.
pub fn serve_guarded<B: Book, R: Read, W: Write>(
    alloc: Global,
    keeper: &mut Keeper<B>,
    routes: &Routes,
    transcript: &mut Transcript,
    reader: &mut R,
    writer: &mut W,
) -> Result<Served, HookFault>
    // Whatever comes of it, the transcript has what was taken of the input, and the response, and nothing else.
    ensures transcript { IsTranscript result transcript.new.request transcript.new.response
        (R.remaining reader.old) (R.remaining reader.new) (W.contents writer.old) (W.contents writer.new) }

    // What is written, and the records after it, are those that the input asks for, of which no more is taken than the answer needs.
    // What else is told of one request stands at `ServesOne`, and so does what holds of a book that a fault may have shut.
    ensures serves { ServesOne B.Book routes.now result keeper.old keeper.new
        (R.remaining reader.old) (R.remaining reader.new) (W.contents writer.old) (W.contents writer.new) }
{
    transcript.request.clear();
    transcript.response.clear();
    let request = &mut transcript.request;
    match answer(alloc, keeper, routes, reader, request, &mut transcript.head) {
        Ok(response) => send_response(writer, response, &mut transcript.response),
        Err(HookFault::Gate(fault)) => send_unavailable(writer, fault),
        Err(fault) => Err(fault),
    }
}

/// Serves one request of HTTP/1.0 or HTTP/1.1 (RFC 9112): reads it, lets a keeper answer the delivery that it has or makes the
/// report that it asks for, and writes one response. It asks for no more bytes once the answer is known. Up to 1,023 bytes behind the
/// head may have been taken with it.
///
/// Deliveries go to `POST /deliveries`; reports are `GET /queue` and `GET /changes/{n}`. A report changes nothing, and neither
/// does a request that is refused; the checks stand in `specs/Heads.antt` of gate_http and in `specs/Requests.antt`, in their
/// order, and in `specs/Served.antt` the last one of a report, that its change was opened. After a fault of the keeper, or if
/// there is no memory for the routes, a request or a response, the status is 503, and the response takes no memory. Nothing has
/// changed then; but after `Memory` the delivery may have acted, with its answer kept. Whatever the fault, an answer that is kept
/// is sent if the delivery is handed in again.
///
/// The two errors are `Read`, after which nothing is written and nothing has changed, and `Write`, after which a part of the
/// response, but not all, is written, and a delivery that acted stays. The writer isn't flushed.
///
/// All that is told of it is `ServesOne` in `specs/Served.antt`. What is said of responses and of the book holds if the book's premise
/// does, and `stays` says what holds once a fault has shut it; which errors and which faults may come, holds without it.
pub fn serve_one<B: Book, R: Read, W: Write>(
    alloc: Global,
    keeper: &mut Keeper<B>,
    reader: &mut R,
    writer: &mut W,
) -> Result<Served, HookFault>
    // The same without a token.
    ensures serves { ServesOne B.Book None result keeper.old keeper.new
        (R.remaining reader.old) (R.remaining reader.new) (W.contents writer.old) (W.contents writer.new) }
{
    let Ok(routes) = Routes::new(alloc, None) else {
        return send_unavailable(writer, Fault::Memory);
    };
    let mut transcript = Transcript::new(alloc);
    let served = serve_guarded(alloc, keeper, &routes, &mut transcript, reader, writer);
    // By name, since what ends with its function is dear to prove.
    drop(transcript);
    drop(routes);
    served
}
