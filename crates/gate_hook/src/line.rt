ghost use Rattle.std.specs.Prelude.{◌≡◌, ◌↔◌, ◌++◌, ◌∷◌, [], IsTrue, length, take};
ghost use Rattle.gate_hook.specs.Lines as lines;

use std::marker::Model;

// The most bytes that a line may have, without its line feed.
const MAX_LINE: usize = 65_536;

// Of a longer line one more byte is kept, which shows that it is too long.
const MAX_KEPT: usize = MAX_LINE + 1;

/// The bytes of a line so far, in a fixed buffer: of a line that is too long, as many as show it. A contract sees the
/// list of the bytes that are kept.
#[derive(Drop)]
pub struct Line {
    bytes: [u8; MAX_KEPT],
    len: usize,
}

impl Model for Line {
    ghost use Rattle.std.specs.Prelude.{ℕ, List, take, ◌≤◌};
    ghost use Rattle.gate_hook.specs.Lines.{max_kept};

    ghost Value = { List ℕ };

    ghost view = { λ line. take line.len line.bytes };

    ghost invariant = { λ line. line.len ≤ max_kept };
}

impl Line {
    /// An empty line.
    pub fn new() -> Line
        ensures { result ≡ [] }
    {
        Line {
            bytes: [0; MAX_KEPT],
            len: 0,
        }
    }

    /// Adds a byte, unless the line is known to be too long.
    pub fn add(&mut self, byte: u8)
        ensures { self.new ≡ take lines.max_kept (self.old ++ byte ∷ []) }
    {
        if self.len < MAX_KEPT {
            self.bytes[self.len] = byte;
            self.len += 1;
        }
    }

    /// Drops all bytes.
    pub fn clear(&mut self)
        ensures { self.new ≡ [] }
    {
        self.len = 0;
    }

    /// Whether no byte was added.
    pub fn is_empty(&self) -> bool
        ensures { IsTrue result ↔ (length self.now ≡ 0) }
    {
        self.len == 0
    }

    /// Whether the line has more bytes than a line may have.
    pub fn is_too_long(&self) -> bool
        ensures { result ≡ lines.is_too_long self.now }
    {
        self.len > MAX_LINE
    }

    /// The bytes that are kept.
    pub fn as_bytes(&self) -> &[u8]
        ensures { result.now ≡ self.now }
    {
        &self.bytes[..self.len]
    }
}
