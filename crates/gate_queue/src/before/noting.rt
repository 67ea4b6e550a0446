ghost use Rattle.std.specs.Prelude.{◌≡◌, ◌<◌, ℕ, Some, Ok, true, false, is_some, IfOk, IsNone, OnOk};
ghost use Rattle.std.specs.BTreeMap.{Updates};
ghost use Rattle.std.specs.FinMap.{get};
ghost use Rattle.std.specs.Option.{option_copied, option_map_or};
ghost use Rattle.gate_queue.specs.Before.{HasNoted, IsBefore, NotesMore, with_batch, with_change, with_person, with_settings};
ghost use Rattle.gate_queue.specs.Judging.{IsJudgement, brought};
ghost use Rattle.gate_queue.specs.Machine.{after, all_but};
ghost use Rattle.gate_queue.specs.MayChange.{fact_may_do, in_front as front_of, may_change, may_do, next_priority, of_base, of_change, of_settings, of_status, of_text};
ghost use Rattle.gate_queue.specs.Touching.{lists};
ghost use Rattle.gate_state.specs.Lanes.{loses};
ghost use Rattle.gate_state.specs.State.{priority_on};
ghost use Rattle.gate_state.specs.declared.act.Act.TheVariants.{Other};
ghost use Rattle.gate_state.specs.declared.state.State.{State as StateOf};

use crate::before::Before;
use crate::gate::Gate;
use crate::judging::any_staged;
use crate::laws::law_of_untouched;
use crate::settings::{LosesApproval, are_present};
use crate::touching::{StaysTried, in_front, that_lose, that_may_join, that_may_settle};
use crate::verdict::{Judged, Verdict};
use gate_rules::Role;
use gate_state::{Act, Batch, Deed, Fact, State};
use gate_text::{ChangeNo, Command, Commit, Name, Settings, Spoken, TryCopy};
use std::alloc::{AllocError, Global};
use std::collections::BTreeMap;

impl Before {
    /// Notes what an act may change of the state of a gate, by what that gate has judged of it, so it is called before the act
    /// steps. What is noted already stays as it is. Of an act that a rule denies nothing is noted. `AllocError` if there is no
    /// memory for it; then some of it may be noted.
    pub fn note(&mut self, alloc: Global, gate: &Gate, judged: &Judged) -> Result<(), AllocError>
        requires { IsJudgement gate.now judged.now.act.now judged.now.verdict }
        ensures before { OnOk result ((old : StateOf) → IsBefore self.old old gate.now
            → IsBefore self.new old (after gate.now judged.now.act.now)) }
    {
        law_of_untouched();
        self.note_judged(alloc, gate.state(), judged)?;
        Ok(())
    }

    // Notes what an act may change, by what is judged of it.
    fn note_judged(
        &mut self,
        alloc: Global,
        state: &State,
        judged: &Judged,
    ) -> Result<(), AllocError>
        requires { IsJudgement state.now judged.now.act.now judged.now.verdict }
        ensures more { OnOk result (NotesMore state.now self.old self.new) }
        ensures has { OnOk result (HasNoted (may_change state.now judged.now.act.now) self.new) }
    {
        match &judged.verdict {
            Verdict::Denied(_) => Ok(()),
            Verdict::Sets(settings) => self.note_brought(alloc, state, settings),
            Verdict::Repeats(_) | Verdict::Stands => self.note_act(alloc, state, judged.act),
        }
    }

    // Notes what an act may change that no rule denies and that brings no settings.
    fn note_act(&mut self, alloc: Global, state: &State, act: &Act) -> Result<(), AllocError>
        requires { IsNone (brought act.now) }
        ensures more { OnOk result (NotesMore state.now self.old self.new) }
        ensures has { OnOk result (HasNoted (may_do state.now act.now) self.new) }
    {
        match act {
            Act::On { change, deed } => {
                self.note_about(alloc, state, *change, priority_after(state, *change, deed))
            }
            Act::Other(fact) => self.note_fact(alloc, state, fact),
        }
    }

    // The same of a fact that is about no change.
    fn note_fact(&mut self, alloc: Global, state: &State, fact: &Fact) -> Result<(), AllocError>
        requires { IsNone (brought (Other fact.now)) }
        ensures more { OnOk result (NotesMore state.now self.old self.new) }
        ensures has { OnOk result (HasNoted (fact_may_do state.now fact.now) self.new) }
    {
        match fact {
            Fact::Role { person, .. } => self.note_person(alloc, state, person),
            Fact::Settings { .. } => unreachable!(),
            Fact::Base { .. } => self.note_base(alloc, state),
            Fact::Status { commit, .. } => self.note_status(alloc, state, *commit),
            Fact::Staged { .. }
            | Fact::Conflict { .. }
            | Fact::Refused { .. }
            | Fact::Tick { .. } => self.note_front(alloc, state),
        }
    }

    // Notes what a deed may change on a change that has this priority after it.
    fn note_about(
        &mut self,
        alloc: Global,
        state: &State,
        change: ChangeNo,
        priority: i32,
    ) -> Result<(), AllocError>
        ensures more { OnOk result (NotesMore state.now self.old self.new) }
        ensures has { OnOk result (HasNoted (of_change state.now priority change) self.new) }
    {
        let numbers = that_may_join(alloc, &state.queue, priority, change)?;
        self.note_change(alloc, state, change)?;
        self.note_batches(alloc, state, numbers.as_slice())?;
        Ok(())
    }

    // Notes what news of a batch may change.
    fn note_front(&mut self, alloc: Global, state: &State) -> Result<(), AllocError>
        ensures more { OnOk result (NotesMore state.now self.old self.new) }
        ensures has { OnOk result (HasNoted (front_of state.now) self.new) }
    {
        let numbers = in_front(alloc, &state.queue)?;
        self.note_running(alloc, state, &state.queue.staging.running)?;
        self.note_running(alloc, state, &state.queue.trying.running)?;
        self.note_batches(alloc, state, numbers.as_slice())?;
        Ok(())
    }

    // Notes what a status of a commit may change.
    fn note_status(
        &mut self,
        alloc: Global,
        state: &State,
        commit: Commit,
    ) -> Result<(), AllocError>
        ensures more { OnOk result (NotesMore state.now self.old self.new) }
        ensures has { OnOk result (HasNoted (of_status state.now commit) self.new) }
    {
        let told = state.desk.open_at(alloc, commit)?;
        self.note_changes(alloc, state, told.as_slice())?;
        if !any_staged(&state.queue, commit) {
            return Ok(());
        }
        self.note_front(alloc, state)?;
        Ok(())
    }

    // Notes what a new base may change.
    fn note_base(&mut self, alloc: Global, state: &State) -> Result<(), AllocError>
        ensures more { OnOk result (NotesMore state.now self.old self.new) }
        ensures has { OnOk result (HasNoted (of_base state.now) self.new) }
    {
        let tries = that_lose(alloc, &state.queue.trying, &StaysTried { state })?;
        self.note_front(alloc, state)?;
        self.note_batches(alloc, state, tries.as_slice())?;
        Ok(())
    }

    // Notes what settings that an act brings may change.
    fn note_brought(
        &mut self,
        alloc: Global,
        state: &State,
        settings: &Settings,
    ) -> Result<(), AllocError>
        ensures more { OnOk result (NotesMore state.now self.old self.new) }
        ensures has { OnOk result (HasNoted (of_text state.now (Ok settings.now)) self.new) }
    {
        if are_present(&state.desk, settings) {
            return Ok(());
        }
        self.note_settings(alloc, state, settings)?;
        Ok(())
    }

    // Notes what new settings may change.
    fn note_settings(
        &mut self,
        alloc: Global,
        state: &State,
        settings: &Settings,
    ) -> Result<(), AllocError>
        ensures more { OnOk result (NotesMore state.now self.old self.new) }
        ensures has { OnOk result (HasNoted (of_settings state.now settings.now) self.new) }
    {
        let changes = state
            .desk
            .numbers_where(alloc, &LosesApproval { settings })?;
        let batches = that_may_settle(alloc, state, settings)?;
        self.note_present_settings(alloc, state)?;
        self.note_changes(alloc, state, changes.as_slice())?;
        self.note_batches(alloc, state, batches.as_slice())?;
        Ok(())
    }

    // Notes the changes of a running batch.
    fn note_running(
        &mut self,
        alloc: Global,
        state: &State,
        running: &Option<Batch>,
    ) -> Result<(), AllocError>
        ensures more { OnOk result (NotesMore state.now self.old self.new) }
        ensures has { OnOk result ((number : ℕ) → option_map_or (loses (all_but number)) running.now false ≡ true
            → is_some (get self.new.changes number) ≡ true) }
    {
        if let Some(batch) = running {
            self.note_changes(alloc, state, batch.changes.as_slice())?;
        }
        Ok(())
    }

    // Notes these changes.
    fn note_changes(
        &mut self,
        alloc: Global,
        state: &State,
        numbers: &[ChangeNo],
    ) -> Result<(), AllocError>
        ensures more { OnOk result (NotesMore state.now self.old self.new) }
        ensures has { OnOk result ((number : ℕ) → lists number numbers.now ≡ true
            → is_some (get self.new.changes number) ≡ true) }
    {
        for number in numbers {
            self.note_change(alloc, state, *number)?;
        }
        Ok(())
    }

    // Notes the batches of these numbers, but for new ones.
    fn note_batches(
        &mut self,
        alloc: Global,
        state: &State,
        numbers: &[u64],
    ) -> Result<(), AllocError>
        ensures more { OnOk result (NotesMore state.now self.old self.new) }
        ensures has { OnOk result ((number : ℕ) → number < self.old.next → lists number numbers.now ≡ true
            → is_some (get self.new.batches number) ≡ true) }
    {
        for number in numbers {
            self.note_batch(alloc, state, *number)?;
        }
        Ok(())
    }

    // Notes the role of a person.
    fn note_person(&mut self, alloc: Global, state: &State, person: &Name) -> Result<(), AllocError>
        ensures { OnOk result (self.new ≡ with_person person.now state.now self.old) }
    {
        if self.people.contains_key(person) {
            return Ok(());
        }
        let role = role_on(state, person);
        put(&mut self.people, person.copy(alloc)?, role)?;
        Ok(())
    }

    // Notes a change.
    fn note_change(
        &mut self,
        alloc: Global,
        state: &State,
        number: ChangeNo,
    ) -> Result<(), AllocError>
        ensures { OnOk result (self.new ≡ with_change number state.now self.old) }
    {
        if self.changes.contains_key(&number) {
            return Ok(());
        }
        let change = copied(alloc, state.desk.change(number))?;
        put(&mut self.changes, number, change)?;
        Ok(())
    }

    // Notes the batch of a number, unless that is new.
    fn note_batch(&mut self, alloc: Global, state: &State, number: u64) -> Result<(), AllocError>
        ensures { OnOk result (self.new ≡ with_batch number state.now self.old) }
    {
        if number >= self.next {
            return Ok(());
        }
        if self.batches.contains_key(&number) {
            return Ok(());
        }
        let batch = copied(alloc, state.queue.batch(number))?;
        put(&mut self.batches, number, batch)?;
        Ok(())
    }

    // Notes the settings.
    fn note_present_settings(&mut self, alloc: Global, state: &State) -> Result<(), AllocError>
        ensures { OnOk result (self.new ≡ with_settings state.now self.old) }
    {
        if self.settings.is_some() {
            return Ok(());
        }
        self.settings = Some(settings_on(alloc, state)?);
        Ok(())
    }
}

// Keeps a value under a key.
fn put<K: Ord + Drop, V: Drop>(map: &mut BTreeMap<K, V>, key: K, value: V) -> Result<(), AllocError>
    ensures { OnOk result (Updates K.cmp map.old map.new key (Some value)) }
{
    map.insert(key, value)?;
    Ok(())
}

// The role of a person, if one was set.
fn role_on(state: &State, person: &Name) -> Option<Role>
    ensures { result ≡ get state.now.desk.roles person.now }
{
    state.desk.roles().get(person).copied()
}

// A copy of the settings.
fn settings_on(alloc: Global, state: &State) -> Result<Option<Settings>, AllocError>
    ensures { IfOk result (λ settings. settings ≡ state.now.desk.settings) }
{
    match state.desk.settings() {
        Some(settings) => Ok(Some(settings.copy(alloc)?)),
        None => Ok(None),
    }
}

// The priority that a change has after a deed on it.
fn priority_after(state: &State, change: ChangeNo, deed: &Deed) -> i32
    ensures { result ≡ next_priority state.now.desk change deed.now }
{
    match deed {
        Deed::Said {
            spoken: Spoken::Known(Command::Priority(priority)),
            ..
        } => *priority,
        _ => priority_on(state, change),
    }
}

// The priority of a change; 0 if it was never opened.
fn priority_on(state: &State, change: ChangeNo) -> i32
    ensures { result ≡ priority_on state.now.desk change }
{
    match state.desk.change(change) {
        Some(change) => change.priority,
        None => 0,
    }
}

// A copy of a value, if there is one.
fn copied<T: TryCopy + Drop>(alloc: Global, value: Option<&T>) -> Result<Option<T>, AllocError>
    ensures { IfOk result (λ copy. copy ≡ option_copied value.entry) }
{
    match value {
        Some(value) => Ok(Some(value.try_copy(alloc)?)),
        None => Ok(None),
    }
}
