ghost use Rattle.std.specs.Prelude.{◌≡◌, IfOk, Some, refl, nat_eq};
ghost use Rattle.std.specs.Ordering.{nat_cmp};
ghost use Rattle.std.specs.Cmp.Lexicographic.{pointwise, slice_cmp, nat_list_eq_equiv, nat_list_cmp_total, texts_ties, texts_po};
ghost use Rattle.std.specs.Cmp.{partial_equiv_from_equiv};

use std::alloc::{AllocError, Global};
use std::cmp::Ordering;
use std::marker::Model;

/// Any text, as that of a comment. Texts are compared and ordered by their bytes. A contract sees one as the list of
/// its bytes.
#[derive(Debug, Drop)]
pub struct Text {
    text: String,
}

impl Model for Text {
    ghost use Rattle.std.specs.Prelude.{ℕ, List};
    ghost use Rattle.std.specs.String.{string_bytes};

    ghost Value = { List ℕ };

    ghost view = { λ text. string_bytes text.text };
}

impl Text {
    /// Keeps a copy of the text, or answers `AllocError` if there is no memory for it.
    pub fn from_str(alloc: Global, text: &str) -> Result<Text, AllocError>
        ensures value { IfOk result (λ kept. kept ≡ text.now) }
    {
        Ok(Text {
            text: String::from_str(alloc, text)?,
        })
    }

    /// The text.
    pub fn as_str(&self) -> &str
        ensures value { result.now ≡ self.now }
    {
        self.text.as_str()
    }

    /// A copy, or `AllocError` if there is no memory for it.
    pub fn copy(&self, alloc: Global) -> Result<Text, AllocError>
        ensures value { IfOk result (λ copy. copy ≡ self.now) }
    {
        Text::from_str(alloc, self.as_str())
    }
}

impl From<String> for Text {
    ghost use Rattle.std.specs.Prelude.{◌≡◌};
    ghost use Rattle.std.specs.String.{string_bytes};

    ghost from_gives = { λ text kept. kept ≡ string_bytes text };

    fn from(text: String) -> Text {
        Text { text }
    }
}

impl PartialEq for Text {
    ghost eq = { pointwise nat_eq };

    ghost laws = { partial_equiv_from_equiv nat_list_eq_equiv };

    fn eq(&self, other: &Text) -> bool {
        self.as_str() == other.as_str()
    }
}

impl Eq for Text {
    ghost laws = { nat_list_eq_equiv };
}

impl PartialOrd for Text {
    ghost partial_cmp = { λ x y. Some (slice_cmp nat_cmp x y) };

    ghost laws = { texts_po };

    fn partial_cmp(&self, other: &Text) -> Option<Ordering> {
        Some(self.cmp(other))
    }
}

impl Ord for Text {
    ghost cmp = { slice_cmp nat_cmp };

    ghost total = { nat_list_cmp_total };

    ghost matches_partial_cmp = { λ x y. refl };

    ghost matches_eq = { texts_ties };

    fn cmp(&self, other: &Text) -> Ordering {
        self.as_str().cmp(other.as_str())
    }
}

/// A text of some rule, as a name, a label or the name of a status.
pub trait Word: Sized {
    ghost use Rattle.std.specs.Prelude.{ℕ, List};

    /// Its bytes.
    ghost bytes: { Self → List ℕ };

    /// The text of the word.
    fn as_text(&self) -> &Text
        ensures value { result.now ≡ bytes self.now };

    /// The text of the word. It takes no memory.
    fn into_text(self) -> Text
        ensures value { result ≡ bytes self };
}
