ghost use Rattle.std.specs.Prelude.{◌≡◌};
ghost use Rattle.gate_state.specs.State.{IsMoment};

use std::marker::Model;

/// A reading of the clock, in seconds, from 0 to 9,000,000,000,000,000. A contract sees it as that number.
#[derive(Clone, Copy, PartialEq, Eq)]
pub struct Moment {
    seconds: u64,
}

impl Model for Moment {
    ghost use Rattle.std.specs.Prelude.{ℕ};
    ghost use Rattle.gate_state.specs.State.{IsMoment};

    ghost Value = { ℕ };

    ghost view = { λ moment. moment.seconds };

    ghost inverse = { λ n. record { seconds = n } };

    ghost invariant = { λ moment. IsMoment moment.seconds };
}

impl Moment {
    /// The moment of a number within the limit.
    pub fn at(seconds: u64) -> Moment
        requires { IsMoment seconds }
        ensures value { result ≡ seconds }
    {
        Moment { seconds }
    }

    /// The number.
    pub fn seconds(self) -> u64
        ensures value { result ≡ self }
        ensures limit { IsMoment result }
    {
        self.seconds
    }
}
