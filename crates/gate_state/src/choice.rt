ghost use Rattle.std.specs.Prelude.{◌≡◌, ℕ, Bool};

use gate_rules::Desk;
use gate_text::ChangeNo;

/// A choice of changes.
pub trait Choice {
    // Whether a change is chosen.
    ghost chooses: { ℕ → Self → Bool };

    /// Whether a change is chosen.
    fn has(&self, change: ChangeNo) -> bool
        ensures value { result ≡ chooses change self.now };
}

/// All changes but one.
#[derive(Clone, Copy)]
pub struct AllBut {
    /// The one that isn't chosen.
    pub change: ChangeNo,
}

impl Choice for AllBut {
    ghost use Rattle.std.specs.Prelude.{not, ◌==◌};

    ghost chooses = { λ change but. not (change == but.change) };

    fn has(&self, change: ChangeNo) -> bool {
        change != self.change
    }
}

/// The changes that are approved on a desk.
#[derive(Clone, Copy)]
pub struct Approved<'a> {
    /// The desk.
    pub desk: &'a Desk,
}

impl Choice for Approved<'_> {
    ghost use Rattle.gate_state.specs.State.{approved_on};

    ghost chooses = { λ change approved. approved_on approved.desk.now change };

    fn has(&self, change: ChangeNo) -> bool {
        self.desk.is_approved(change)
    }
}

/// The changes that are tried on a desk.
#[derive(Clone, Copy)]
pub struct Tried<'a> {
    /// The desk.
    pub desk: &'a Desk,
}

impl Choice for Tried<'_> {
    ghost use Rattle.gate_state.specs.State.{trying_on};

    ghost chooses = { λ change tried. trying_on tried.desk.now change };

    fn has(&self, change: ChangeNo) -> bool {
        self.desk.is_trying(change)
    }
}
