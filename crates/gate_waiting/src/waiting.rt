ghost use Rattle.std.specs.Prelude.{◌≡◌, ◌≢◌, ◌⊎◌, ◌+◌, ◌*◌, ◌-◌, ◌^◌, ◌≤◌, ◌<◌, ◌↔◌, ◌∷◌, [], List, IsTrue, length, None, Some, IfOk, IfSome};
ghost use Rattle.std.specs.List.{find, list_any};
ghost use Rattle.gate_waiting.specs.Calls as calls;
ghost use Rattle.gate_waiting.specs.Calls.{Hears, IsHanded, IsJudged, is_of, stops, with_guest};
ghost use Rattle.gate_waiting.specs.Events.{Event, came, heard};
ghost use Rattle.gate_waiting.specs.Pauses.{IsPause};
ghost use Rattle.gate_waiting.specs.Room.{IsReadyAsTold, Tells, empty_room, most};
ghost use Rattle.gate_waiting.specs.declared.guest.Guest.{Guest as GuestOf};

use crate::bytes::Bytes;
use crate::guest::{Guest, Ready, Reason};
use crate::places::{MOST, Places};
use crate::taking::{LateAt, Numbered, first_place, take_out};
use std::alloc::{AllocError, Global};
use std::marker::Model;

/// What makes a request whole. Nothing here asks that bytes can't be told both to be whole and not to be.
pub trait Whole {
    ghost use Rattle.std.specs.Prelude.{ℕ, List, Bool};

    // What is so of bytes that are a whole request, and of bytes that are none.
    ghost tells: { Self → Bool → List ℕ → Type 0 };

    /// Whether these bytes of a request are all that its answer needs.
    fn is_whole(&self, bytes: &[u8]) -> bool
        ensures value { tells self.now result bytes.now };
}

/// The connections that are waited for, and those that are ready, at most 256 together. Times are microseconds of one clock, as its owner
/// tells them. Of those that are ready the one that has been so the longest is handed on first. One that is late is given up: it is ready
/// as well, behind the others.
#[derive(Drop)]
pub struct Waiting<W: Whole> {
    whole: W,
    patience: u64,
    next: u64,
    guests: Places<Guest>,
    ready: Places<Ready>,
}

impl<W: Whole> Model for Waiting<W> {
    ghost use Rattle.gate_waiting.specs.Room.{Room, IsRoom};

    ghost Value = { Room W };

    ghost view = { λ w. record { whole = w.whole; patience = w.patience; next = w.next; guests = w.guests; ready = w.ready } };

    ghost invariant = { λ w. IsRoom W.tells
        (record { whole = w.whole; patience = w.patience; next = w.next; guests = w.guests; ready = w.ready }) };
}

impl<W: Whole + Drop> Waiting<W> {
    /// Nobody waits. The patience is in seconds; with 0 everybody is late at once. `AllocError` if there is no memory for the lists, and
    /// then `whole` is let go. Later no call needs memory for them.
    pub fn new(alloc: Global, whole: W, patience: u32) -> Result<Waiting<W>, AllocError>
        ensures value { IfOk result (λ waiting. waiting ≡ empty_room whole (patience * 1000000)) }
        ensures told { IfOk result (Tells []) }
    {
        Ok(Waiting {
            whole,
            patience: u64::from(patience) * 1_000_000,
            next: 0,
            guests: Places::new(alloc)?,
            ready: Places::new(alloc)?,
        })
    }

    /// Takes in a connection that comes at this time, and gives its number, which is never given again. `None` if it is turned away,
    /// since 256 are here, or no number is left; then nothing changes. It takes no memory.
    pub fn come(&mut self, alloc: Global, now: u64) -> Option<u64>
        ensures room { IfSome result (λ connection. (connection ≡ self.old.next) × (self.new ≡ with_guest now self.old)) }
        ensures away { result ≡ None → (self.new ≡ self.old)
            × ((most ≤ length self.old.guests + length self.old.ready) ⊎ (self.old.next ≡ 2 ^ 64 - 1)) }
        ensures told { IfSome result (λ connection. (events : List Event) → Tells events self.old
            → Tells (came now connection ∷ events) self.new) }
    {
        if self.guests.len() + self.ready.len() >= MOST || self.next == u64::MAX {
            return None;
        }
        let connection = self.next;
        self.next += 1;
        self.guests.add(Guest {
            connection,
            came: now,
            heard: now,
            bytes: Bytes::new(alloc),
        });
        Some(connection)
    }

    /// Whether this connection is waited for. Only of such a one are bytes taken.
    pub fn is_waiting(&self, connection: u64) -> bool
        ensures value { result ≡ list_any (is_of connection) self.now.guests }
    {
        has_any(self.guests.as_slice(), connection)
    }

    /// Whether nobody is here.
    pub fn is_empty(&self) -> bool
        ensures value { IsTrue result ↔ ((self.now.guests ≡ []) × (self.now.ready ≡ [])) }
    {
        self.guests.len() == 0 && self.ready.len() == 0
    }

    /// Whether there is a place for one more. `come` refuses it all the same if no number is left.
    pub fn has_place(&self) -> bool
        ensures value { IsTrue result ↔ (length self.now.guests + length self.now.ready < most) }
    {
        self.guests.len() + self.ready.len() < MOST
    }

    /// For how many microseconds from this time on `next` hands on nobody if nothing comes: 0 if it hands on one at once. `None` if nobody
    /// is here. It reaches no further than the last time that a `u64` can say.
    pub fn pause(&self, now: u64) -> Option<u64>
        ensures pause { IsPause now result self.now }
    {
        if self.ready.len() > 0 {
            return Some(0);
        }
        if self.guests.len() == 0 {
            return None;
        }
        let due = LateAt::new(now, self.patience).first_due(self.guests.as_slice());
        Some(due.saturating_sub(now))
    }

    /// Makes room for so many bytes more of a connection. If there is no memory for them, it is ready, with `NoMemory` and the bytes that
    /// it has. Nothing happens if it isn't waited for.
    pub fn make_room(&mut self, connection: u64, more: usize)
        ensures room { (self.new ≡ self.old) ⊎ (self.new ≡ stops connection Reason.NoMemory self.old) }
        ensures told { (events : List Event) → Tells events self.old → Tells events self.new }
    {
        if !has_room(&mut self.guests, connection, more) {
            self.stop(connection, Reason::NoMemory);
        }
    }

    /// Takes bytes that come on a connection at this time. If they make its request whole, it is ready, with `Whole`. If there is no
    /// memory for them, they are lost, and it is ready with `Lost`. On one that isn't waited for nothing is taken.
    pub fn hear(&mut self, now: u64, connection: u64, bytes: &[u8])
        ensures heard { Hears W.tells now connection bytes.now self.old self.new }
        ensures told { (guest : GuestOf) → find (is_of connection) self.old.guests ≡ Some guest → (events : List Event)
            → Tells events self.old → Tells (heard now connection bytes.now ∷ events) self.new }
    {
        match take_out(&mut self.guests, &Numbered(connection)) {
            Some(mut guest) => match judge(&self.whole, &mut guest, now, bytes) {
                Some(reason) => self.ready.add(Ready { guest, reason }),
                None => self.guests.add(guest),
            },
            None => {}
        }
    }

    /// Notes that no more comes on a connection. If it is waited for, it is ready, with `Ended`. Else nothing happens.
    pub fn end(&mut self, connection: u64)
        ensures room { self.new ≡ stops connection Reason.Ended self.old }
        ensures told { (events : List Event) → Tells events self.old → Tells events self.new }
    {
        self.stop(connection, Reason::Ended);
    }

    /// Notes that a connection can't be read. If it is waited for, it is ready, with `Failed`. Else nothing happens.
    pub fn fail(&mut self, connection: u64)
        ensures room { self.new ≡ stops connection Reason.Failed self.old }
        ensures told { (events : List Event) → Tells events self.old → Tells events self.new }
    {
        self.stop(connection, Reason::Failed);
    }

    fn stop(&mut self, connection: u64, reason: Reason)
        requires some { reason ≢ Reason.Whole }
        ensures room { self.new ≡ stops connection reason self.old }
        ensures told { (events : List Event) → Tells events self.old → Tells events self.new }
    {
        match take_out(&mut self.guests, &Numbered(connection)) {
            Some(guest) => self.ready.add(Ready { guest, reason }),
            None => {}
        }
    }

    // Has the first of those that are late at this time be ready, behind the others.
    fn give_up(&mut self, now: u64)
        ensures room { self.new ≡ calls.gives_up now self.old }
        ensures told { (events : List Event) → Tells events self.old → Tells events self.new }
    {
        let late = LateAt::new(now, self.patience);
        match take_out(&mut self.guests, &late) {
            Some(guest) => self.ready.add(Ready {
                guest,
                reason: Reason::Late,
            }),
            None => {}
        }
    }

    /// Hands on the connection that has been ready the longest, with the reason. Before that, if some are late at this time, one of them is
    /// given up: the one of which something was heard last the longest ago. It is behind those that are ready, so if nobody else is, it is
    /// handed on. `None` if nobody is ready and nobody late; then nothing changes.
    pub fn next(&mut self, now: u64) -> Option<Ready>
        ensures next { (result, self.new) ≡ calls.next now self.old }

        // A request that isn't whole is never handed on as one that is, and nothing is kept of who has gone.
        ensures handed { IfSome result (IsHanded W.tells self.old self.new) }

        // The bytes are those that came on the connection, in their order.
        ensures told { (events : List Event) → Tells events self.old → Tells events self.new × IfSome result (IsReadyAsTold events) }
    {
        self.give_up(now);
        if self.ready.len() > 0 {
            Some(self.ready.remove(0))
        } else {
            None
        }
    }
}

fn has_any(guests: &[Guest], connection: u64) -> bool
    ensures { result ≡ list_any (is_of connection) guests.now }
{
    guests.iter().any(|guest| guest.connection == connection)
}

// Makes room for so many bytes more of a connection, if it is there, and tells whether there is memory for them.
fn has_room(guests: &mut Places<Guest>, connection: u64, more: usize) -> bool
    ensures same { guests.new ≡ guests.old }
{
    match first_place(guests.as_slice(), &Numbered(connection)) {
        Some(place) => guests.make_room(place, more),
        None => true,
    }
}

// Adds bytes to those of a connection, and says why it is ready, if it is.
fn judge<W: Whole>(whole: &W, guest: &mut Guest, now: u64, bytes: &[u8]) -> Option<Reason>
    ensures { IsJudged (W.tells whole.now) now bytes.now guest.old result guest.new }
{
    guest.heard = now;
    if guest.bytes.add(bytes).is_err() {
        return Some(Reason::Lost);
    }
    if whole.is_whole(guest.bytes.as_slice()) {
        Some(Reason::Whole)
    } else {
        None
    }
}
