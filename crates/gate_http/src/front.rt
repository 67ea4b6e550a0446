ghost use Rattle.std.specs.Prelude.{◌≡◌, ◌==◌};
ghost use Rattle.std.specs.List.{before_first, position};

/// The bytes before the first that is this one, or all if none is.
pub fn front_before(text: &[u8], end: u8) -> &[u8]
    ensures { result.now ≡ before_first (λ byte. byte == end) text.now }
{
    match place_of(text, end) {
        Some(place) => &text[..place],
        None => text,
    }
}

// The place of the first byte that is this one, if one is.
fn place_of(text: &[u8], sought: u8) -> Option<usize>
    ensures { result ≡ position (λ byte. byte == sought) text.now }
{
    text.iter().position(|byte| *byte == sought)
}
