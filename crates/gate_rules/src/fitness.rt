ghost use Rattle.std.specs.Prelude.{◌≡◌};
ghost use Rattle.std.specs.Option.{option_copied};
ghost use Rattle.gate_rules.specs.Rules as rules;

use crate::change::Change;
use gate_text::{Context, Label, Settings};

/// The first of the blocking labels, in the order of the settings, that the change has.
pub fn blocking_label<'a>(settings: &'a Settings, change: &Change) -> Option<&'a Label>
    ensures value { option_copied result ≡ rules.blocking_label settings.now change.now.labels }
{
    settings
        .block_labels()
        .iter()
        .find(|label| change.labels.contains(label))
}

/// Whether the change has a blocking label.
pub fn is_blocked(settings: &Settings, change: &Change) -> bool
    ensures value { result ≡ rules.is_blocked settings.now change.now.labels }
{
    blocking_label(settings, change).is_some()
}

/// The first of the statuses that the settings want on the head of a change, in their order, that hasn't succeeded there.
pub(crate) fn missing_status<'a>(settings: &'a Settings, change: &Change) -> Option<&'a Context>
    ensures value { option_copied result ≡ rules.missing_status settings.now change.now.passed }
{
    settings
        .pr_status()
        .iter()
        .find(|name| !change.passed.contains(name))
}

/// Whether the change has fewer reviews than the settings ask for.
pub fn has_too_few_reviews(settings: &Settings, change: &Change) -> bool
    ensures value { result ≡ rules.has_too_few_reviews settings.now change.now.reviews }
{
    (change.reviews.len() as u64) < u64::from(settings.required_approvals())
}
