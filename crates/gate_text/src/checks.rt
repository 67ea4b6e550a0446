ghost use Rattle.std.specs.Prelude.{◌≡◌, ◌≢◌, ◌<◌, ◌≤◌, IfSome, IfNone, None};
ghost use Rattle.gate_text.specs.SmallTexts as small;

use crate::fault::TextFault;

// The first check that a text of `size` bytes fails, if `bad` is the place of its first byte that isn't allowed.
pub(crate) fn first_fault(size: usize, most: usize, bad: Option<usize>) -> Option<TextFault>
    ensures value { result ≡ small.first_fault size most bad }
    ensures passed { IfNone result ((bad ≡ None) × (0 < size) × (size ≤ most)) }
    ensures no_memory { IfSome result (λ fault. fault ≢ TextFault.Memory) }
{
    if size == 0 {
        return Some(TextFault::Empty);
    }
    if size > most {
        return Some(TextFault::TooLong);
    }
    match bad {
        Some(place) => Some(TextFault::BadByte(place)),
        None => None,
    }
}
