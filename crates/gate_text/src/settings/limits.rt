ghost use Rattle.std.specs.Prelude.{◌≡◌};
ghost use Rattle.std.specs.Str.{bytes_eq};
ghost use Rattle.gate_text.specs.Settings as settings;

use crate::context::Context;
use crate::label::Label;

// The most items of a list.
pub(super) const MAX_ITEMS: usize = 64;

// The greatest number of seconds that can be asked for.
pub(super) const MAX_TIMEOUT_SEC: u32 = 2_147_483_647;

// The most reviews that can be asked for.
pub(super) const MAX_APPROVALS: u32 = 100;

// The greatest batch that can be asked for.
pub(super) const MAX_BATCH_SIZE: u32 = 1000;

// Whether no two items are the same. There are few.
fn are_distinct<T: PartialEq>(items: &[T]) -> bool
    ensures { result ≡ settings.are_distinct T.eq items.now }
{
    match items.split_first() {
        Some((first, others)) => !others.contains(first) && are_distinct(others),
        None => true,
    }
}

// Whether no two names of statuses are the same.
pub(super) fn are_different(status: &[Context]) -> bool
    ensures { result ≡ settings.are_distinct bytes_eq status.now }
{
    are_distinct(status)
}

// Whether these can be the required statuses.
pub(super) fn are_statuses(status: &[Context]) -> bool
    ensures { result ≡ settings.are_items 1 64 status.now }
{
    (1..=MAX_ITEMS).contains(&status.len()) && are_different(status)
}

// Whether these can be the blocking labels.
pub(super) fn are_labels(labels: &[Label]) -> bool
    ensures { result ≡ settings.are_items 0 64 labels.now }
{
    labels.len() <= MAX_ITEMS && are_distinct(labels)
}

// Whether these can be the statuses that a change needs of its own.
pub(super) fn are_pr_statuses(status: &[Context]) -> bool
    ensures { result ≡ settings.are_items 0 64 status.now }
{
    status.len() <= MAX_ITEMS && are_different(status)
}

// Whether this can be the greatest batch.
pub(super) fn is_size(size: Option<u32>) -> bool
    ensures { result ≡ settings.is_size size }
{
    match size {
        Some(size) => (1..=MAX_BATCH_SIZE).contains(&size),
        None => true,
    }
}
