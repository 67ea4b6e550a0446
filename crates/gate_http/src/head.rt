ghost use Rattle.std.specs.Prelude.{◌≡◌, All, Some, length, map, codes, IsTrue, option_copied, ◌==◌};
ghost use Rattle.std.specs.List.{list_all};
ghost use Rattle.std.specs.Char.{is_ascii_digit};
ghost use Rattle.httparse.specs.Grammar.{RequestHead};
ghost use Rattle.httparse.specs.Spans.{IsHeaderWithin, IsRequestAt, IsRequestWithin, header_bytes, name_and_value};
ghost use Rattle.gate_http.specs.Heads as heads;
ghost use Rattle.gate_http.specs.Heads.{HasLineAt, IsFound, IsLineOf, first_value, needed_by};
ghost use Rattle.gate_http.specs.Tokens as tokens;

use crate::front::front_before;
use crate::refusal::Refusal;
use crate::routes::Routes;
use crate::target::{Report, Target};
use httparse::Status;
use httparse::spans::{EMPTY_HEADER_SPAN, HeaderSpan, RequestSpans, Span, parse_request};
use std::str;

/// The most bytes that a head may have.
pub const MAX_HEAD: usize = 16_384;

// The most fields that it may have.
const MAX_FIELDS: usize = 64;

// The most bytes that a body may have.
const MAX_BODY: u64 = 65_536;

/// What the head of a request asks for.
#[derive(Clone, Copy)]
pub enum Ask {
    /// The delivery that a body of so many bytes is.
    Delivery(usize),
    /// A report.
    Report(Report),
}

/// The method of a request and its path, which is its target up to the first question mark.
#[derive(Clone, Copy)]
pub struct RequestLine<'a> {
    /// The method.
    pub method: &'a [u8],
    /// The path.
    pub path: &'a [u8],
}

/// A head that was read: how many bytes it has, where its method and its target stand, and what it asks for, or why the request is
/// refused.
#[derive(Clone, Copy)]
pub struct Head {
    /// How many bytes it has.
    pub len: usize,
    /// Where its method stands.
    pub method: Span,
    /// Where its target stands.
    pub target: Span,
    /// What it asks for, or why the request is refused.
    pub ask: Result<Ask, Refusal>,
}

impl Head {
    /// How many bytes of a body the answer needs.
    pub fn needed(&self) -> usize
        ensures { result ≡ needed_by self.now.ask }
    {
        match self.ask {
            Ok(Ask::Delivery(size)) => size,
            Ok(Ask::Report(_)) | Err(_) => 0,
        }
    }

    /// The method and the path, of bytes that begin with this head.
    pub fn line<'a>(&self, bytes: &'a [u8]) -> RequestLine<'a>
        requires begins { HasLineAt self.now bytes.now }
        ensures line { IsLineOf (Some result) bytes.now }
    {
        RequestLine {
            method: self.method.of(bytes),
            path: path_of(self.target.of(bytes)),
        }
    }
}

/// What stands at the front of some bytes.
#[derive(Clone, Copy)]
pub enum Found {
    /// A whole head.
    Whole(Head),
    /// No whole head yet. More bytes may make one.
    Unfinished,
    /// No head of up to 64 fields, whatever follows.
    Never,
}

// Whether a field has this name, in either case. Fields are told as places in the bytes.
fn is_named(bytes: &[u8], field: HeaderSpan, name: &str) -> bool
    requires { IsHeaderWithin (length bytes.now) field }
    ensures { result ≡ heads.is_named name.now (header_bytes bytes.now field) }
{
    field.name.of(bytes).eq_ignore_ascii_case(name.as_bytes())
}

// How many fields have this name.
fn count_of(bytes: &[u8], fields: &[HeaderSpan], name: &str) -> usize
    requires { All (IsHeaderWithin (length bytes.now)) fields.now }
    ensures { result ≡ length (heads.values_in name.now (map (header_bytes bytes.now) fields.now)) }
{
    let mut count = 0;
    for field in fields {
        if is_named(bytes, *field, name) {
            count += 1;
        }
    }
    count
}

// The value of the first field of this name, if there is one.
fn first_of<'a>(bytes: &'a [u8], fields: &[HeaderSpan], name: &str) -> Option<&'a [u8]>
    requires { All (IsHeaderWithin (length bytes.now)) fields.now }
    ensures { option_copied result ≡ first_value (heads.values_in name.now (map (header_bytes bytes.now) fields.now)) }
{
    for field in fields {
        if is_named(bytes, *field, name) {
            return Some(field.value.of(bytes));
        }
    }
    None
}

// The path of a target.
fn path_of(target: &[u8]) -> &[u8]
    ensures { result.now ≡ heads.path_of target.now }
{
    front_before(target, b'?')
}

// Goes on if a test passes, and else refuses.
fn checked(passes: bool, refusal: Refusal) -> Result<(), Refusal>
    ensures { result ≡ heads.checked passes refusal }
{
    if passes { Ok(()) } else { Err(refusal) }
}

// Whether these bytes are decimal digits alone.
fn are_digits(value: &[u8]) -> bool
    ensures { result ≡ list_all is_ascii_digit value.now }
{
    value.iter().all(|byte| byte.is_ascii_digit())
}

// Whether there are one or more decimal digits, and nothing else.
fn is_numeral(value: &[u8]) -> bool
    ensures { result ≡ heads.is_numeral value.now }
{
    !value.is_empty() && are_digits(value)
}

// The length that decimal digits write, if a body may have it. One that no `u64` holds is too great, too.
fn size_from(digits: &str) -> Result<usize, Refusal>
    requires { IsTrue (heads.is_numeral digits.now) }
    ensures { result ≡ heads.size_of digits.now }
{
    let Ok(size) = digits.parse::<u64>() else {
        return Err(Refusal::ContentTooLarge);
    };
    checked(size <= MAX_BODY, Refusal::ContentTooLarge)?;
    Ok(size as usize)
}

// The length that the value of a `Content-Length` gives.
fn size_of(value: &[u8]) -> Result<usize, Refusal>
    ensures { result ≡ heads.size_of value.now }
{
    if !is_numeral(value) {
        return Err(Refusal::BadRequest);
    }
    match str::from_utf8(value) {
        Ok(digits) => size_from(digits),
        Err(_) => Err(Refusal::BadRequest),
    }
}

// The length by all fields: exactly one has to give it.
fn size_by(bytes: &[u8], fields: &[HeaderSpan]) -> Result<usize, Refusal>
    requires { All (IsHeaderWithin (length bytes.now)) fields.now }
    ensures { result ≡ heads.size_by (heads.values_in (codes "content-length") (map (header_bytes bytes.now) fields.now)) }
{
    let value = first_of(bytes, fields, "content-length").ok_or(Refusal::LengthRequired)?;
    checked(
        count_of(bytes, fields, "content-length") == 1,
        Refusal::BadRequest,
    )?;
    size_of(value)
}

// What a request to this target asks for, or why it is refused.
fn ask_of(bytes: &[u8], fields: &[HeaderSpan], target: Target) -> Result<Ask, Refusal>
    requires { All (IsHeaderWithin (length bytes.now)) fields.now }
    ensures { (head : RequestHead) → map name_and_value head.fields ≡ map (header_bytes bytes.now) fields.now
        → result ≡ heads.ask_of target head }
{
    match target {
        Target::Deliveries => {
            checked(
                count_of(bytes, fields, "transfer-encoding") == 0,
                Refusal::NotImplemented,
            )?;
            Ok(Ask::Delivery(size_by(bytes, fields)?))
        }
        Target::Report(report) => Ok(Ask::Report(report)),
    }
}

// What a request with this target and this method asks for, or why it is refused.
fn ask_by(
    bytes: &[u8],
    fields: &[HeaderSpan],
    target: &Target,
    method: &[u8],
) -> Result<Ask, Refusal>
    requires { All (IsHeaderWithin (length bytes.now)) fields.now }
    ensures { (head : RequestHead) → map name_and_value head.fields ≡ map (header_bytes bytes.now) fields.now
        → result ≡ heads.ask_by target.now method.now head }
{
    checked(target.takes(method), Refusal::MethodNotAllowed(*target))?;
    ask_of(bytes, fields, *target)
}

// Whether the fields bear the token, if one is needed.
fn is_let_in(routes: &Routes, bytes: &[u8], fields: &[HeaderSpan]) -> bool
    requires { All (IsHeaderWithin (length bytes.now)) fields.now }
    ensures { result ≡ tokens.is_let_in routes.now
        (heads.values_in (codes "authorization") (map (header_bytes bytes.now) fields.now)) }
{
    let Some(token) = routes.token() else {
        return true;
    };
    match first_of(bytes, fields, "authorization") {
        Some(value) => count_of(bytes, fields, "authorization") == 1 && token.is_borne_by(value),
        None => false,
    }
}

// What a request asks for that is let in, or why it is refused.
fn ask_let_in(
    routes: &Routes,
    bytes: &[u8],
    fields: &[HeaderSpan],
    request: &RequestSpans,
) -> Result<Ask, Refusal>
    requires within { IsRequestWithin bytes.now fields.now request.now }
    ensures { (head : RequestHead) → IsRequestAt bytes.now fields.now request.now head → result ≡ heads.ask_let_in head }
{
    let fields = &fields[..request.headers];
    if request.version != 0 && count_of(bytes, fields, "host") != 1 {
        return Err(Refusal::BadRequest);
    }
    match routes.target_of(path_of(request.path.of(bytes))) {
        Some(target) => ask_by(bytes, fields, &target, request.method.of(bytes)),
        None => Err(Refusal::NotFound),
    }
}

// What a request asks for, or why it is refused.
fn ask_in(
    routes: &Routes,
    bytes: &[u8],
    fields: &[HeaderSpan],
    request: &RequestSpans,
) -> Result<Ask, Refusal>
    requires within { IsRequestWithin bytes.now fields.now request.now }
    ensures { (head : RequestHead) → IsRequestAt bytes.now fields.now request.now head → result ≡ heads.ask_in routes.now head }
{
    if !is_let_in(routes, bytes, &fields[..request.headers]) {
        return Err(Refusal::Unauthorized);
    }
    ask_let_in(routes, bytes, fields, request)
}

/// What stands at the front of these bytes, by these routes, and by the token that they ask for, if there is one.
pub fn head_in(routes: &Routes, bytes: &[u8]) -> Found
    ensures { IsFound routes.now result bytes.now }
{
    let mut fields = [EMPTY_HEADER_SPAN; MAX_FIELDS];
    match parse_request(bytes, &mut fields) {
        Ok(Status::Complete(request)) => Found::Whole(Head {
            len: request.len,
            method: request.method,
            target: request.path,
            ask: ask_in(routes, bytes, &fields, &request),
        }),
        Ok(Status::Partial) => Found::Unfinished,
        Err(_) => Found::Never,
    }
}
