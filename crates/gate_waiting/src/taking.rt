ghost use Rattle.std.specs.Prelude.{◌≡◌, ◌+◌, ◌*◌, ◌^◌, ◌<◌, nat_le, length, None, IfSome};
ghost use Rattle.std.specs.List.{find, position};
ghost use Rattle.gate_waiting.specs.Calls.{without_first};
ghost use Rattle.gate_waiting.specs.Pauses.{due_of, first_due_of, last_time};

use crate::guest::Guest;
use crate::places::Places;

// Which connections are chosen.
pub(crate) trait Choice {
    ghost use Rattle.std.specs.Prelude.{◌≡◌, Bool};
    ghost use Rattle.gate_waiting.specs.declared.guest.Guest.{Guest as GuestOf};

    ghost chooses: { Self → GuestOf → Bool };

    fn chooses(&self, guest: &Guest) -> bool
        ensures value { result ≡ chooses self.now guest.now };
}

// The one of a number.
#[derive(Drop)]
pub(crate) struct Numbered(pub(crate) u64);

impl Choice for Numbered {
    ghost use Rattle.gate_waiting.specs.Calls.{is_of};

    ghost chooses = { λ choice guest. is_of choice.0 guest };

    fn chooses(&self, guest: &Guest) -> bool {
        guest.connection == self.0
    }
}

// Those that are late at a time: with the patience, and with what is waited in all.
#[derive(Drop)]
pub(crate) struct LateAt {
    pub(crate) time: u64,
    pub(crate) patience: u64,
    pub(crate) in_all: u64,
}

impl Choice for LateAt {
    ghost use Rattle.gate_waiting.specs.Room.{is_later};

    ghost chooses = { λ choice guest. is_later choice.patience choice.in_all choice.time guest };

    fn chooses(&self, guest: &Guest) -> bool {
        has_passed(self.time, guest.heard, self.patience)
            || has_passed(self.time, guest.came, self.in_all)
    }
}

impl LateAt {
    // Those that are late at this time, with this patience and ten times that in all.
    pub(crate) fn new(time: u64, patience: u64) -> LateAt
        requires { patience < 2 ^ 60 }
        ensures { result ≡ record { time = time; patience = patience; in_all = 10 * patience } }
    {
        LateAt {
            time,
            patience,
            in_all: 10 * patience,
        }
    }

    // When it is late to wait for this one if nothing comes, and no later than a number can say.
    fn due(&self, guest: &Guest) -> u64
        ensures { result ≡ due_of self.now.patience self.now.in_all guest.now }
    {
        let silent = guest.heard.saturating_add(self.patience);
        silent.min(guest.came.saturating_add(self.in_all))
    }

    // When it is late to wait for the first of these, and no later than a number can say.
    pub(crate) fn first_due(&self, guests: &[Guest]) -> u64
        ensures { result ≡ first_due_of self.now.patience self.now.in_all guests.now }
    {
        let mut due = u64::MAX;
        for guest in guests {
            due = due.min(self.due(guest));
        }
        due
    }
}

// Whether so long has passed since then.
fn has_passed(now: u64, since: u64, wait: u64) -> bool
    ensures { result ≡ nat_le (since + wait) now }
{
    now >= since && now - since >= wait
}

// The place of the first that is chosen.
pub(crate) fn first_place<C: Choice>(guests: &[Guest], choice: &C) -> Option<usize>
    ensures value { result ≡ position (C.chooses choice.now) guests.now }
    ensures within { IfSome result (λ place. place < length guests.now) }
{
    guests.iter().position(|guest| choice.chooses(guest))
}

// Takes out the first that is chosen, if there is one.
pub(crate) fn take_out<C: Choice>(guests: &mut Places<Guest>, choice: &C) -> Option<Guest>
    ensures found { result ≡ find (C.chooses choice.now) guests.old }
    ensures rest { guests.new ≡ without_first (C.chooses choice.now) guests.old }
    ensures none { result ≡ None → guests.new ≡ guests.old }
{
    match first_place(guests.as_slice(), choice) {
        Some(place) => Some(guests.remove(place)),
        None => None,
    }
}
