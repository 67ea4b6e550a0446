ghost use Rattle.std.specs.Prelude.{◌≡◌, IfOk, length};
ghost use Rattle.std.specs.List.{list_all, position};
ghost use Rattle.std.specs.Str.{bytes_eq};
ghost use Rattle.gate_http.specs.Tokens as tokens;

use crate::front::front_before;
use std::alloc::{AllocError, Global};
use std::marker::Model;

/// The most bytes that a token may have.
pub const MAX_TOKEN: usize = 1_024;

/// A token, which requests may have to bear: a `b64token` of RFC 6750, of at most 1,024 bytes. It is never printed. A contract sees its
/// bytes.
#[derive(Drop)]
pub struct Token {
    bytes: Vec<u8>,
}

impl Model for Token {
    ghost use Rattle.std.specs.Prelude.{ℕ, List};

    ghost Value = { List ℕ };

    ghost view = { λ token. token.bytes.items };
}

// Whether a byte may stand before the equals signs.
fn is_token_byte(byte: u8) -> bool
    ensures { result ≡ tokens.is_token_byte byte }
{
    byte.is_ascii_alphanumeric() || b"-._~+/".contains(&byte)
}

// Whether all bytes are such ones.
fn are_token_bytes(text: &[u8]) -> bool
    ensures { result ≡ list_all tokens.is_token_byte text.now }
{
    text.iter().all(|byte| is_token_byte(*byte))
}

// Whether all bytes are equals signs.
fn are_equals_signs(text: &[u8]) -> bool
    ensures { result ≡ list_all tokens.is_equals_sign text.now }
{
    text.iter().all(|byte| *byte == b'=')
}

// Whether a text is a token.
fn is_token(text: &[u8]) -> bool
    ensures { result ≡ tokens.is_token text.now }
{
    let front = front_before(text, b'=');
    !front.is_empty()
        && are_token_bytes(front)
        && are_equals_signs(&text[front.len()..])
        && text.len() <= MAX_TOKEN
}

// A text without the end of its last line.
fn without_line_end(text: &[u8]) -> &[u8]
    ensures { result.now ≡ tokens.without_line_end text.now }
{
    if text.ends_with(b"\r\n") {
        &text[..text.len() - 2]
    } else if text.ends_with(b"\n") {
        &text[..text.len() - 1]
    } else {
        text
    }
}

// The place of the first byte that is no space, if there is one.
fn no_space(text: &[u8]) -> Option<usize>
    ensures { result ≡ position tokens.is_no_space text.now }
{
    text.iter().position(|byte| *byte != b' ')
}

// What stands behind some spaces.
fn without_spaces(text: &[u8]) -> &[u8]
    ensures { result.now ≡ tokens.without_spaces text.now }
{
    match no_space(text) {
        Some(start) => &text[start..],
        None => &text[text.len()..],
    }
}

// Whether a scheme is this one, in either case.
fn is_bearer(scheme: &[u8]) -> bool
    ensures { result ≡ tokens.is_bearer scheme.now }
{
    scheme.eq_ignore_ascii_case(b"Bearer")
}

// Whether two texts of the same length are the same. All bytes are looked at, wherever the first is that differs.
fn is_same(text: &[u8], other: &[u8]) -> bool
    requires { length text.now ≡ length other.now }
    ensures { result ≡ bytes_eq text.now other.now }
{
    let mut difference = 0;
    for place in 0..text.len() {
        difference |= text[place] ^ other[place];
    }
    difference == 0
}

impl Token {
    /// The token that a file with these bytes holds: a `b64token` of RFC 6750, section 2.1, which is one or more letters, digits and
    /// signs of `-._~+/`, and then equals signs, if any; at most 1,024 bytes, and behind them the end of a line, or nothing. `None` if it
    /// holds something else, and `AllocError` if there is no memory for the token.
    pub fn read(alloc: Global, file: &[u8]) -> Result<Option<Token>, AllocError>
        ensures value { IfOk result (λ token. token ≡ tokens.token_in file.now) }
    {
        let text = without_line_end(file);
        if !is_token(text) {
            return Ok(None);
        }
        Ok(Some(Token {
            bytes: Vec::from_slice(alloc, text)?,
        }))
    }

    /// Whether this text is the token. How long that takes depends on its length, and not on where it differs from the token.
    pub fn is(&self, text: &[u8]) -> bool
        ensures same { result ≡ bytes_eq text.now self.now }
    {
        text.len() == self.bytes.len() && is_same(text, &self.bytes)
    }

    /// Whether the value of a field `Authorization` bears the token: the scheme `Bearer`, in either case, one or more spaces, and the
    /// token (RFC 6750, section 2.1).
    pub fn is_borne_by(&self, value: &[u8]) -> bool
        ensures bears { result ≡ tokens.bears self.now value.now }
    {
        let scheme = front_before(value, b' ');
        is_bearer(scheme) && self.is(without_spaces(&value[scheme.len()..]))
    }
}
