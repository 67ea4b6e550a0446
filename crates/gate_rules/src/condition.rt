ghost use Rattle.std.specs.Prelude.{◌≡◌, Bool};
ghost use Rattle.gate_rules.specs.declared.change.Change.{Change};

use crate::change::Change;

/// A condition that a change meets or doesn't.
pub trait Condition {
    // Whether a change meets it.
    ghost meets: { Change → Self → Bool };

    /// Whether a change meets it.
    fn is_met(&self, change: &Change) -> bool
        ensures value { result ≡ meets change.now self.now };
}
