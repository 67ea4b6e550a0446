ghost use Rattle.std.specs.Prelude.{◌≡◌, IfOk, IfErr, IfSome, IfNone, List, [], ◌∷◌, Option, Some, IsTrue};
ghost use Rattle.gate_rules.specs.Rules as rules;
ghost use Rattle.gate_rules.specs.View.{look};

use super::Desk;
use crate::change::{Change, Phase, Repeat};
use crate::fitness::{blocking_label, missing_status};
use crate::rule::Rule;
use gate_text::{ChangeNo, Command, Name, Settings, Spoken};
use std::alloc::{AllocError, Global};

impl Desk {
    /// Whether the change of this number is on the desk and open.
    pub fn is_open(&self, change: ChangeNo) -> bool
        ensures value { result ≡ rules.is_open (look self.now) change }
    {
        match self.change(change) {
            Some(change) => change.phase == Phase::Opened,
            None => false,
        }
    }

    /// Whether the change of this number is on the desk and approved.
    pub fn is_approved(&self, change: ChangeNo) -> bool
        ensures value { result ≡ rules.is_approved (look self.now) change }
    {
        match self.change(change) {
            Some(change) => change.approved.is_some(),
            None => false,
        }
    }

    /// Whether the change of this number is on the desk and being tried.
    pub fn is_trying(&self, change: ChangeNo) -> bool
        ensures value { result ≡ rules.is_trying (look self.now) change }
    {
        match self.change(change) {
            Some(change) => change.trying,
            None => false,
        }
    }

    /// Whether the change of this number is on the desk and landing.
    pub fn is_landing(&self, change: ChangeNo) -> bool
        ensures value { result ≡ rules.is_landing (look self.now) change }
    {
        match self.change(change) {
            Some(change) => change.landing,
            None => false,
        }
    }

    /// Whether the change of this number is on the desk and has landed.
    pub fn is_landed(&self, change: ChangeNo) -> bool
        ensures value { result ≡ rules.is_landed (look self.now) change }
    {
        match self.change(change) {
            Some(change) => change.phase == Phase::Landed,
            None => false,
        }
    }

    /// Whether the change of this number is on the desk.
    pub fn is_known(&self, change: ChangeNo) -> bool
        ensures value { result ≡ rules.is_known (look self.now) change }
    {
        self.change(change).is_some()
    }

    /// The rule that denies what a person's line about a change says: the first of its rules that fails, and nothing
    /// if all hold. `AllocError` comes only if the rule names a label or a status, which is a copy.
    pub fn rule(
        &self,
        alloc: Global,
        person: &Name,
        change: ChangeNo,
        spoken: &Spoken,
    ) -> Result<Option<Rule>, AllocError>
        ensures value { IfOk result (λ rule. rule ≡ rules.line_rule (look self.now) person.now change spoken.now) }
        ensures cause { IfErr result (λ _. rules.MayWantMemory (rules.line_rule (look self.now) person.now change spoken.now)) }
    {
        if !self.is_known(change) {
            return Ok(Some(Rule::UnknownChange));
        }
        match spoken {
            Spoken::Known(command) => self.command_rule(alloc, person, change, command),
            Spoken::Unknown => Ok(Some(Rule::NotACommand)),
        }
    }

    // The first rule that fails of a command on a known change.
    fn command_rule(
        &self,
        alloc: Global,
        person: &Name,
        change: ChangeNo,
        command: &Command,
    ) -> Result<Option<Rule>, AllocError>
        requires { IsTrue (rules.is_known (look self.now) change) }
        ensures value { IfOk result (λ rule. rule ≡ rules.first_failing (rules.command_row (look self.now) person.now change command.now)) }
        ensures cause { IfErr result (λ _. rules.MayWantMemory
            (rules.first_failing (rules.command_row (look self.now) person.now change command.now))) }
    {
        match command {
            Command::Ping => Ok(None),
            Command::Approve | Command::ApproveFor(_) => {
                self.approve_rule(alloc, person, change, command)
            }
            Command::Withdraw => Ok(self.withdraw_rule(person, change)),
            Command::Priority(_) => Ok(self.rules_unless_landing(person, change, command)),
            Command::Try => Ok(self.try_rule(person, change)),
            Command::TryCancel => Ok(self.try_cancel_rule(person, change)),
            Command::DelegateAuthor | Command::DelegateTo(_) | Command::DelegateNone => {
                Ok(self.first_rules(person, change, command))
            }
            Command::Retry => self.retry_rule(alloc, person, change),
        }
    }

    // The first that fails of the rules that all commands but `ping` begin with, of a known change.
    fn first_rules(&self, person: &Name, change: ChangeNo, command: &Command) -> Option<Rule>
        requires { IsTrue (rules.is_known (look self.now) change) }
        ensures value { result ≡ rules.first_failing (rules.begins_with_rules (look self.now) person.now change command.now []) }
        ensures found { IfSome result (λ rule. (others : List (Option Rule))
            → rules.first_failing (rules.begins_with_rules (look self.now) person.now change command.now others)
            ≡ Some rule) }
        ensures passed { IfNone result ((others : List (Option Rule))
            → rules.first_failing (rules.begins_with_rules (look self.now) person.now change command.now others)
            ≡ rules.first_failing others) }
    {
        if !self.permits(person, change, command) {
            return Some(Rule::NotPermitted(self.need(change, command)));
        }
        if !self.is_open(change) {
            return Some(Rule::NotOpen);
        }
        None
    }

    // The same of a command that ends an approval or alters a priority: the change mustn't be landing.
    fn rules_unless_landing(
        &self,
        person: &Name,
        change: ChangeNo,
        command: &Command,
    ) -> Option<Rule>
        requires { IsTrue (rules.is_known (look self.now) change) }
        ensures value { result ≡ rules.first_failing (rules.unless_landing (look self.now) person.now change command.now []) }
        ensures found { IfSome result (λ rule. (others : List (Option Rule))
            → rules.first_failing (rules.unless_landing (look self.now) person.now change command.now others)
            ≡ Some rule) }
        ensures passed { IfNone result ((others : List (Option Rule))
            → rules.first_failing (rules.unless_landing (look self.now) person.now change command.now others)
            ≡ rules.first_failing others) }
    {
        match self.first_rules(person, change, command) {
            Some(rule) => Some(rule),
            None if self.is_landing(change) => Some(Rule::Landing),
            None => None,
        }
    }

    // The first rule that fails of an approval of a known change.
    fn approve_rule(
        &self,
        alloc: Global,
        person: &Name,
        change: ChangeNo,
        command: &Command,
    ) -> Result<Option<Rule>, AllocError>
        requires { IsTrue (rules.is_known (look self.now) change) }
        ensures value { IfOk result (λ rule. rule
            ≡ rules.first_failing (rules.begins_with_rules (look self.now) person.now change command.now
            (rules.approval_rules (look self.now) change))) }
        ensures cause { IfErr result (λ _. rules.MayWantMemory
            (rules.first_failing (rules.begins_with_rules (look self.now) person.now change command.now
            (rules.approval_rules (look self.now) change)))) }
    {
        match self.first_rules(person, change, command) {
            Some(rule) => Ok(Some(rule)),
            None => self.approval_rule(alloc, change),
        }
    }

    // The first rule that fails of the withdrawal of an approval of a known change.
    fn withdraw_rule(&self, person: &Name, change: ChangeNo) -> Option<Rule>
        requires { IsTrue (rules.is_known (look self.now) change) }
        ensures { result ≡ rules.first_failing (rules.command_row (look self.now) person.now change Command.Withdraw) }
    {
        match self.rules_unless_landing(person, change, &Command::Withdraw) {
            Some(rule) => Some(rule),
            None if self.is_approved(change) => None,
            None => Some(Rule::NotApproved),
        }
    }

    // The first rule that fails of a try of a known change.
    fn try_rule(&self, person: &Name, change: ChangeNo) -> Option<Rule>
        requires { IsTrue (rules.is_known (look self.now) change) }
        ensures { result ≡ rules.first_failing (rules.command_row (look self.now) person.now change Command.Try) }
    {
        match self.first_rules(person, change, &Command::Try) {
            Some(rule) => Some(rule),
            None => self.new_try_rule(change),
        }
    }

    // The first rule that fails of the end of a try of a known change.
    fn try_cancel_rule(&self, person: &Name, change: ChangeNo) -> Option<Rule>
        requires { IsTrue (rules.is_known (look self.now) change) }
        ensures { result ≡ rules.first_failing (rules.command_row (look self.now) person.now change Command.TryCancel) }
    {
        match self.first_rules(person, change, &Command::TryCancel) {
            Some(rule) => Some(rule),
            None if self.is_trying(change) => None,
            None => Some(Rule::NotTrying),
        }
    }

    // The first rule that fails of a `retry` on a known change. Its level is asked of who writes it, and not of who wrote
    // the command that it repeats.
    fn retry_rule(
        &self,
        alloc: Global,
        person: &Name,
        change: ChangeNo,
    ) -> Result<Option<Rule>, AllocError>
        requires { IsTrue (rules.is_known (look self.now) change) }
        ensures value { IfOk result (λ rule. rule
            ≡ rules.first_failing (rules.command_row (look self.now) person.now change Command.Retry)) }
        ensures cause { IfErr result (λ _. rules.MayWantMemory
            (rules.first_failing (rules.command_row (look self.now) person.now change Command.Retry))) }
    {
        match self.first_rules(person, change, &Command::Retry) {
            Some(rule) => Ok(Some(rule)),
            None => self.repeated_rule(alloc, change),
        }
    }

    // The first that fails of the rules of what `retry` repeats, behind those that `retry` begins with.
    fn repeated_rule(&self, alloc: Global, change: ChangeNo) -> Result<Option<Rule>, AllocError>
        ensures value { IfOk result (λ rule. rule
            ≡ rules.first_failing (rules.repeated_rules (look self.now) change
            (rules.last_command (look self.now) change))) }
        ensures cause { IfErr result (λ _. rules.MayWantMemory
            (rules.first_failing (rules.repeated_rules (look self.now) change
            (rules.last_command (look self.now) change)))) }
    {
        match self.last_command(change) {
            Some(Repeat::Approve | Repeat::ApproveFor(_)) => self.approval_rule(alloc, change),
            Some(Repeat::Try) => Ok(self.new_try_rule(change)),
            None => Ok(Some(Rule::NothingToRetry)),
        }
    }

    // The first that fails of the rules of a try, behind those that it begins with.
    fn new_try_rule(&self, change: ChangeNo) -> Option<Rule>
        ensures { result ≡ rules.first_failing (rules.try_rules (look self.now) change) }
    {
        if self.settings.is_none() {
            return Some(Rule::NoSettings);
        }
        if self.base.is_none() {
            return Some(Rule::NoBase);
        }
        if self.is_trying(change) {
            return Some(Rule::AlreadyTrying);
        }
        None
    }

    // The first that fails of the rules of an approval, behind those that it begins with.
    fn approval_rule(&self, alloc: Global, change: ChangeNo) -> Result<Option<Rule>, AllocError>
        ensures value { IfOk result (λ rule. rule ≡ rules.first_failing (rules.approval_rules (look self.now) change)) }
        ensures cause { IfErr result (λ _. rules.MayWantMemory (rules.first_failing (rules.approval_rules (look self.now) change))) }
    {
        if self.is_landing(change) {
            return Ok(Some(Rule::Landing));
        }
        let Some(settings) = self.settings() else {
            return Ok(Some(Rule::NoSettings));
        };
        if self.base.is_none() {
            return Ok(Some(Rule::NoBase));
        }
        if self.is_approved(change) {
            return Ok(Some(Rule::AlreadyApproved));
        }
        match self.change(change) {
            Some(change) => fitness_rule(alloc, settings, change),
            None => Ok(None),
        }
    }
}

// The first that fails of the rules on a change's labels, on the statuses of its head, and on its reviews.
fn fitness_rule(
    alloc: Global,
    settings: &Settings,
    change: &Change,
) -> Result<Option<Rule>, AllocError>
    ensures value { IfOk result (λ rule. rule
        ≡ rules.first_failing (rules.blocked_rule settings.now change.now
        ∷ rules.head_status_rule settings.now change.now ∷ rules.too_few_rule settings.now change.now ∷ [])) }
    ensures cause { IfErr result (λ _. rules.MayWantMemory
        (rules.first_failing (rules.blocked_rule settings.now change.now
        ∷ rules.head_status_rule settings.now change.now ∷ rules.too_few_rule settings.now change.now ∷ []))) }
{
    if let Some(label) = blocking_label(settings, change) {
        return Ok(Some(Rule::Blocked(label.copy(alloc)?)));
    }
    if let Some(name) = missing_status(settings, change) {
        return Ok(Some(Rule::HeadStatus(name.copy(alloc)?)));
    }
    let have = change.reviews.len();
    let need = settings.required_approvals();
    if have < need as usize {
        return Ok(Some(Rule::TooFewReviews(have as u32, need)));
    }
    Ok(None)
}
