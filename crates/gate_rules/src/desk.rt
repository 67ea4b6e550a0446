ghost use Rattle.std.specs.Prelude.{◌≡◌, ◌≤◌, None, IfOk, IsOk, OnOk, OnErr};
ghost use Rattle.std.specs.Option.{option_copied};
ghost use Rattle.std.specs.FinMap as map;
ghost use Rattle.std.specs.Fn.{FnOnceReturnsAtMut};
ghost use Rattle.std.specs.List.Sorted.{IsStrictlySortedBy};
ghost use Rattle.std.specs.Map.{keys_of};
ghost use Rattle.std.specs.Ordering.{nat_cmp};
ghost use Rattle.gate_rules.specs.Heads.{open_head_at};
ghost use Rattle.gate_rules.specs.Rules as rules;
ghost use Rattle.gate_rules.specs.View as view;
ghost use Rattle.gate_rules.specs.View.{Alters, AreMembers, AreOpenAt, is_open_head, KeepsHead, Shuts, empty_desk, with_role, with_change, with_settings, with_base, with_clock, with_ended, numbers_where, is_required, role_on, look};
ghost use Rattle.gate_rules.specs.declared.role.Role.TheVariants.{Nobody};

mod rows;

use crate::change::{Change, Repeat};
use crate::condition::Condition;
use crate::heads::Heads;
use crate::role::{Level, Role};
use gate_text::{ChangeNo, Command, Commit, Context, Name, Settings, copy_map};
use std::alloc::{AllocError, Global};
use std::collections::{BTreeMap, BTreeSet};
use std::marker::Model;

/// What the rules look at: the roles of people, the changes, the settings, the base and the clock. A contract sees it
/// as a record of two finite maps and these three.
#[derive(Drop)]
pub struct Desk {
    roles: BTreeMap<Name, Role>,
    changes: BTreeMap<ChangeNo, Change>,
    settings: Option<Settings>,
    base: Option<Commit>,
    clock: u64,
    // The open changes by their heads, so that a status finds them without a walk over all.
    heads: Heads,
}

impl Model for Desk {
    ghost use Rattle.std.specs.FinMap as map;
    ghost use Rattle.std.specs.Coded.{codes};
    ghost use Rattle.gate_text.specs.Finite.{finite_codes};
    ghost use Rattle.gate_rules.specs.Heads.{IsIndexOf};
    ghost use Rattle.gate_rules.specs.View.{AreMembers, DeskView};

    ghost Value = { DeskView };

    ghost coded = { Prim.hlevel (codes, finite_codes) };

    ghost view = { λ desk. record { roles = map.from_entries desk.roles.entries; changes = map.from_entries desk.changes.entries; settings = desk.settings; base = desk.base; clock = desk.clock } };

    // A role `Nobody` is no entry.
    ghost invariant = { λ desk. AreMembers (map.from_entries desk.roles.entries) × IsIndexOf (map.from_entries desk.changes.entries) desk.heads };
}

impl Desk {
    /// A desk with no roles, no changes, no settings and no base, its clock at 0. It takes no memory; its maps keep the allocator.
    pub fn new(alloc: Global) -> Desk
        ensures value { result ≡ empty_desk }
    {
        Desk {
            roles: BTreeMap::new(alloc),
            changes: BTreeMap::new(alloc),
            settings: None,
            base: None,
            clock: 0,
            heads: Heads::new(alloc),
        }
    }

    /// A copy, or `AllocError` if there is no memory for it.
    pub fn copy(&self, alloc: Global) -> Result<Desk, AllocError>
        ensures value { IfOk result (λ copy. copy ≡ self.now) }
    {
        let settings = match &self.settings {
            Some(settings) => Some(settings.copy(alloc)?),
            None => None,
        };
        Ok(Desk {
            roles: copy_map(alloc, &self.roles)?,
            changes: copy_map(alloc, &self.changes)?,
            settings,
            base: self.base,
            clock: self.clock,
            heads: self.heads.copy()?,
        })
    }

    /// The role of a person, `Nobody` if none was set.
    pub fn role(&self, person: &Name) -> Role
        ensures value { result ≡ role_on self.now person.now }
    {
        self.roles.get(person).copied().unwrap_or(Role::Nobody)
    }

    /// The roles that are set, by name upwards. `Nobody` is none of them.
    pub fn roles(&self) -> &BTreeMap<Name, Role>
        ensures value { map.from_entries result.now.entries ≡ self.now.roles }
        ensures members { AreMembers self.now.roles }
    {
        &self.roles
    }

    /// The change of this number, if it is on the desk.
    pub fn change(&self, number: ChangeNo) -> Option<&Change>
        ensures value { option_copied result ≡ map.get self.now.changes number }
    {
        self.changes.get(&number)
    }

    /// The changes, by number upwards.
    pub fn changes(&self) -> &BTreeMap<ChangeNo, Change>
        ensures value { map.from_entries result.now.entries ≡ self.now.changes }
    {
        &self.changes
    }

    /// The settings that were set last, if any were.
    pub fn settings(&self) -> Option<&Settings>
        ensures value { option_copied result ≡ self.now.settings }
    {
        self.settings.as_ref()
    }

    /// Whether the settings require a status of this name. Without settings none is.
    pub fn is_required(&self, name: &Context) -> bool
        ensures value { result ≡ is_required self.now.settings name.now }
    {
        match &self.settings {
            Some(settings) => settings.status().contains(name),
            None => false,
        }
    }

    /// The base that was set last, if one was: the commit that the main branch stands at.
    pub fn base(&self) -> Option<Commit>
        ensures value { result ≡ self.now.base }
    {
        self.base
    }

    /// The clock: the last reading, in seconds.
    pub fn clock(&self) -> u64
        ensures value { result ≡ self.now.clock }
    {
        self.clock
    }

    /// Whether an open change has this head.
    pub fn is_open_head(&self, head: Commit) -> bool
        ensures value { result ≡ is_open_head head self.now }
    {
        match self.heads.at(head) {
            Some(numbers) => !numbers.is_empty(),
            None => false,
        }
    }

    /// The numbers of the open changes that have this head, or `AllocError` if there is no memory for the list.
    pub fn open_at(&self, alloc: Global, head: Commit) -> Result<Vec<ChangeNo>, AllocError>
        ensures value { IfOk result (λ numbers. AreOpenAt head self.now numbers.items) }
    {
        match self.heads.at(head) {
            Some(numbers) => listed(alloc, numbers),
            None => Ok(Vec::new(alloc)),
        }
    }

    /// Sets the role of a person. If there is no memory for it, the desk stays as it was; to set `Nobody` takes none.
    pub fn set_role(&mut self, alloc: Global, person: &Name, role: Role) -> Result<(), AllocError>
        ensures ok { OnOk result (self.new ≡ with_role self.old person.now role) }
        ensures err { OnErr result (self.new ≡ self.old) }
        ensures no_memory { role ≡ Nobody → IsOk result }
    {
        if !role.is_member() {
            self.roles.remove(person);
            return Ok(());
        }
        self.roles.insert(person.copy(alloc)?, role)?;
        Ok(())
    }

    /// Puts a copy of the change on the desk, in place of the one that has the number, if there is one. If there is
    /// no memory for it, the desk stays as it was.
    pub fn put_change(
        &mut self,
        alloc: Global,
        number: ChangeNo,
        change: &Change,
    ) -> Result<(), AllocError>
        ensures ok { OnOk result (self.new ≡ with_change self.old number change.now) }
        ensures err { OnErr result (self.new ≡ self.old) }
    {
        self.keep_change(alloc, number, change.copy(alloc)?)
    }

    /// Sets the settings, in place of those that there were. It takes no memory.
    pub fn set_settings(&mut self, settings: Settings)
        ensures value { self.new ≡ with_settings self.old settings }
    {
        self.settings = Some(settings);
    }

    /// Sets the base. It takes no memory.
    pub fn set_base(&mut self, base: Commit)
        ensures value { self.new ≡ with_base self.old base }
    {
        self.base = Some(base);
    }

    /// Sets the clock, in seconds. It doesn't go back. It takes no memory.
    pub fn set_clock(&mut self, now: u64)
        requires { self.old.clock ≤ now }
        ensures value { self.new ≡ with_clock self.old now }
    {
        self.clock = now;
    }

    /// Puts the change on the desk, in place of the one that has the number, if there is one. If there is no memory for
    /// it, the desk stays as it was.
    pub fn keep_change(
        &mut self,
        alloc: Global,
        number: ChangeNo,
        change: Change,
    ) -> Result<(), AllocError>
        ensures ok { OnOk result (self.new ≡ with_change self.old number change) }
        ensures err { OnErr result (self.new ≡ self.old) }
    {
        let before = self.open_head(number);
        let after = change.open_head();
        self.heads.enter(alloc, after, number)?;
        if let Err(refused) = put(&mut self.changes, number, change) {
            self.heads.leave(after, number);
            return Err(refused);
        }
        if before != after {
            self.heads.leave(before, number);
        }
        Ok(())
    }

    // The head of the change of this number, if it is open.
    fn open_head(&self, number: ChangeNo) -> Option<Commit>
        ensures { result ≡ open_head_at self.now.changes number }
    {
        match self.change(number) {
            Some(change) => change.open_head(),
            None => None,
        }
    }

    /// Alters a change in place, and answers what the alteration answers, or nothing if the change isn't on the desk. It takes
    /// no memory but what the alteration takes, which leaves the head of the change, and leaves it open if it was.
    pub fn alter<T, F: FnOnce(&mut Change) -> T>(&mut self, number: ChangeNo, alter: F) -> Option<T>
        requires callable { F.IsAlwaysCallable alter }
        requires kept { KeepsHead (FnOnceReturnsAtMut F.FnOnce alter) }
        ensures value { Alters (FnOnceReturnsAtMut F.FnOnce alter) number self.old result self.new }
    {
        let Some(change) = self.changes.get_mut(&number) else {
            return None;
        };
        Some(alter(change))
    }

    /// The same of an alteration after which the change isn't open.
    pub fn shut<T, F: FnOnce(&mut Change) -> T>(&mut self, number: ChangeNo, alter: F) -> Option<T>
        requires callable { F.IsAlwaysCallable alter }
        requires shuts { Shuts (FnOnceReturnsAtMut F.FnOnce alter) }
        ensures value { Alters (FnOnceReturnsAtMut F.FnOnce alter) number self.old result self.new }
    {
        let Some(open) = self.changes.get_mut(&number) else {
            return None;
        };
        self.heads.leave(open.open_head(), number);
        let answer = alter(open);
        Some(answer)
    }

    /// The changes that meet a condition, by number upwards, or `AllocError` if there is no memory for the list.
    pub fn numbers_where<C: Condition>(
        &self,
        alloc: Global,
        condition: &C,
    ) -> Result<Vec<ChangeNo>, AllocError>
        ensures value { IfOk result (λ numbers. numbers.items ≡ numbers_where (λ change. C.meets change condition.now) self.now) }
    {
        let numbers = numbers_in(alloc, &self.changes, condition)?;
        Ok(numbers)
    }

    /// Ends the approval of each change that meets a condition. Nothing else changes. It takes no memory.
    pub fn end_approvals_where<C: Condition>(&mut self, condition: &C)
        ensures value { self.new ≡ with_ended (λ change. C.meets change condition.now) self.old }
    {
        self.changes.retain(|_, change| {
            end_if(change, condition);
            true
        });
    }

    /// The level that a command on this change needs: for `retry` that of the command which it would repeat, and `Member`
    /// if there is none to repeat, as on a change that isn't on the desk.
    pub fn need(&self, change: ChangeNo, command: &Command) -> Level
        ensures value { result ≡ rules.need (look self.now) change command.now }
    {
        match command {
            Command::Ping => Level::Anyone,
            Command::Approve | Command::ApproveFor(_) => Level::ReviewerOrDelegate,
            Command::Withdraw | Command::Priority(_) => Level::ReviewerOrDelegate,
            Command::Try | Command::TryCancel => Level::MemberOrDelegate,
            Command::DelegateAuthor | Command::DelegateTo(_) | Command::DelegateNone => {
                Level::Reviewer
            }
            Command::Retry => self.need_of_retry(change),
        }
    }

    /// What `retry` repeats on this change: the last command that it may repeat, if there was one.
    pub fn last_command(&self, change: ChangeNo) -> Option<&Repeat>
        ensures value { option_copied result ≡ rules.last_command (look self.now) change }
    {
        match self.change(change) {
            Some(change) => change.last.as_ref(),
            None => None,
        }
    }

    fn need_of_retry(&self, change: ChangeNo) -> Level
        ensures { result ≡ rules.need (look self.now) change Command.Retry }
    {
        match self.last_command(change) {
            Some(Repeat::Approve | Repeat::ApproveFor(_)) => Level::ReviewerOrDelegate,
            Some(Repeat::Try) => Level::MemberOrDelegate,
            None => Level::Member,
        }
    }

    fn is_delegate(&self, person: &Name, change: ChangeNo) -> bool
        ensures { result ≡ rules.is_delegate (look self.now) change person.now }
    {
        match self.change(change) {
            Some(change) => change.delegates.contains(person),
            None => false,
        }
    }

    /// Whether the person has the level that the command on this change needs. Nobody is a delegate of a change that
    /// isn't on the desk.
    pub fn permits(&self, person: &Name, change: ChangeNo, command: &Command) -> bool
        ensures value { result ≡ rules.permits (look self.now) person.now change command.now }
    {
        let level = self.need(change, command);
        level.admits(self.role(person), self.is_delegate(person, change))
    }
}

// The numbers of a set, upwards.
fn listed(alloc: Global, numbers: &BTreeSet<ChangeNo>) -> Result<Vec<ChangeNo>, AllocError>
    ensures { IfOk result (λ listed. listed.items ≡ numbers.now.keys) }
{
    let mut listed = Vec::new(alloc);
    for number in numbers {
        listed.push(*number)?;
    }
    Ok(listed)
}

// Puts a change under its number. Only one that has none before can be refused.
fn put(
    changes: &mut BTreeMap<ChangeNo, Change>,
    number: ChangeNo,
    change: Change,
) -> Result<(), AllocError>
    ensures ok { OnOk result (map.from_entries {R = nat_cmp} changes.new.entries
        ≡ map.insert (map.from_entries changes.old.entries) number change) }
    ensures same { OnErr result (changes.new.entries ≡ changes.old.entries) }
    ensures absent { OnErr result (map.get (map.from_entries {R = nat_cmp} changes.old.entries) number ≡ None) }
{
    changes.insert(number, change)?;
    Ok(())
}

// Ends the approval of a change that meets a condition.
fn end_if<C: Condition>(change: &mut Change, condition: &C)
    ensures { change.new ≡ view.ended_if (λ change. C.meets change condition.now) change.old }
{
    if condition.is_met(change) {
        change.approved = None;
    }
}

// The numbers of the changes that meet a condition.
fn numbers_in<C: Condition>(
    alloc: Global,
    changes: &BTreeMap<ChangeNo, Change>,
    condition: &C,
) -> Result<Vec<ChangeNo>, AllocError>
    ensures value { IfOk result (λ numbers. numbers.items ≡ view.numbers_in (λ change. C.meets change condition.now) changes.now.entries) }
    ensures ordered { OnOk result (IsStrictlySortedBy nat_cmp (keys_of changes.now.entries)) }
{
    let mut numbers = Vec::new(alloc);
    for (number, change) in changes {
        if condition.is_met(change) {
            numbers.push(*number)?;
        }
    }
    Ok(numbers)
}
