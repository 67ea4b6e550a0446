ghost use Rattle.std.specs.Prelude.{◌≡◌, ◌<◌, length, IfSome};
ghost use Rattle.gate_text.specs.Spaces as spaces;

// The text without the spaces in front. No other byte counts as a space.
fn trim_start(text: &[u8]) -> &[u8]
    ensures { result.now ≡ spaces.trim_start text.now }
{
    let mut rest = text;
    while let Some(others) = rest.strip_prefix(b" ".as_slice()) {
        rest = others;
    }
    rest
}

// The text without the spaces at its end.
pub(crate) fn trim_end(text: &[u8]) -> &[u8]
    ensures { result.now ≡ spaces.trim_end text.now }
{
    let mut rest = text;
    while let Some(others) = rest.strip_suffix(b" ".as_slice()) {
        rest = others;
    }
    rest
}

// The text without the spaces at either end.
pub(crate) fn trim(text: &[u8]) -> &[u8]
    ensures { result.now ≡ spaces.trim text.now }
{
    trim_end(trim_start(text))
}

// The place of the last space.
pub(crate) fn last_space(text: &[u8]) -> Option<usize>
    ensures value { result ≡ spaces.last_space text.now }
    ensures within { IfSome result (λ place. place < length text.now) }
{
    text.iter().rposition(|byte| *byte == b' ')
}
