ghost use Rattle.std.specs.Prelude.{◌≡◌};
ghost use Rattle.std.specs.FinMap.{from_entries};
ghost use Rattle.std.specs.Option.{option_copied};
ghost use Rattle.gate_queue.specs.Before.{IsBefore, nothing_of};

mod noting;

use crate::gate::Gate;
use gate_rules::{Change, Role};
use gate_state::Batch;
use gate_text::{ChangeNo, Commit, Name, Settings};
use std::alloc::Global;
use std::collections::BTreeMap;
use std::marker::Model;

/// Parts of a state as they were before acts changed it, so that who keeps the state elsewhere can tell what differs without a
/// look at all of it. Under a name or a number stands what there was, or `None` if there was nothing.
#[derive(Drop)]
pub struct Before {
    people: BTreeMap<Name, Option<Role>>,
    changes: BTreeMap<ChangeNo, Option<Change>>,
    batches: BTreeMap<u64, Option<Batch>>,
    settings: Option<Option<Settings>>,
    base: Option<Commit>,
    clock: u64,
    next: u64,
}

impl Model for Before {
    ghost use Rattle.std.specs.Coded.{codes};
    ghost use Rattle.std.specs.FinMap as map;
    ghost use Rattle.gate_text.specs.Finite.{finite_codes};
    ghost use Rattle.gate_queue.specs.Before.{Noted};

    ghost Value = { Noted };

    ghost coded = { Prim.hlevel (codes, finite_codes) };

    ghost view = { λ before. record {
      people = map.from_entries before.people.entries;
      changes = map.from_entries before.changes.entries;
      batches = map.from_entries before.batches.entries;
      settings = before.settings;
      base = before.base;
      clock = before.clock;
      next = before.next;
    } };
}

impl Before {
    /// What is known of the state of a gate before any act: its base, its clock and its next number. It takes no memory; its maps
    /// keep the allocator.
    pub fn of(alloc: Global, gate: &Gate) -> Before
        ensures value { result ≡ nothing_of gate.now }
        ensures before { IsBefore result gate.now gate.now }
    {
        let desk = gate.desk();
        Before {
            people: BTreeMap::new(alloc),
            changes: BTreeMap::new(alloc),
            batches: BTreeMap::new(alloc),
            settings: None,
            base: desk.base(),
            clock: desk.clock(),
            next: gate.next(),
        }
    }

    /// The roles that were noted, by name upwards.
    pub fn people(&self) -> &BTreeMap<Name, Option<Role>>
        ensures value { from_entries result.now.entries ≡ self.now.people }
    {
        &self.people
    }

    /// The changes that were noted, by number upwards.
    pub fn changes(&self) -> &BTreeMap<ChangeNo, Option<Change>>
        ensures value { from_entries result.now.entries ≡ self.now.changes }
    {
        &self.changes
    }

    /// The batches that were noted, by number upwards.
    pub fn batches(&self) -> &BTreeMap<u64, Option<Batch>>
        ensures value { from_entries result.now.entries ≡ self.now.batches }
    {
        &self.batches
    }

    /// The settings, if they were noted.
    pub fn settings(&self) -> Option<&Option<Settings>>
        ensures value { option_copied result ≡ self.now.settings }
    {
        self.settings.as_ref()
    }

    /// The base.
    pub fn base(&self) -> Option<Commit>
        ensures value { result ≡ self.now.base }
    {
        self.base
    }

    /// The clock, in seconds.
    pub fn clock(&self) -> u64
        ensures value { result ≡ self.now.clock }
    {
        self.clock
    }

    /// The number that the next batch was to have. Batches from it on are new.
    pub fn next(&self) -> u64
        ensures value { result ≡ self.now.next }
    {
        self.next
    }
}
