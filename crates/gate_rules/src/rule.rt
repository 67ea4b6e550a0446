ghost use Rattle.std.specs.Prelude.{◌≡◌, IfOk};
ghost use Rattle.gate_rules.specs.Words.{number_of, rule_called, word_of};

use crate::role::Level;
use gate_text::{Context, Label};
use std::alloc::{AllocError, Global};

/// A rule that an act has broken. Each act has a row of rules, and is answered the first of its row that fails.
#[derive(Debug, Drop, PartialEq, Eq)]
pub enum Rule {
    /// The change was never opened.
    UnknownChange,
    /// The line is no command.
    NotACommand,
    /// The person hasn't the level that the command needs.
    NotPermitted(Level),
    /// The change is closed or landed.
    NotOpen,
    /// No `r+`, `r=` or `try` has acted on the change yet, so there is nothing to repeat.
    NothingToRetry,
    /// The change is landing: its approval and its priority are final.
    Landing,
    /// No settings are accepted yet.
    NoSettings,
    /// No base is known yet, the commit that the main branch stands at.
    NoBase,
    /// The change is approved already.
    AlreadyApproved,
    /// The change isn't approved.
    NotApproved,
    /// The change is being tried already.
    AlreadyTrying,
    /// The change isn't being tried.
    NotTrying,
    /// The change has this label, the first of those that the settings block.
    Blocked(Label),
    /// The change has fewer reviews, the first number, than the settings ask for, the second, which is 1 to 100.
    TooFewReviews(u32, u32),
    /// The change is open already.
    AlreadyOpen,
    /// The change has landed, and is never opened again.
    ChangeLanded,
    /// The review is of another commit than the change's head.
    StaleHead,
    /// The person who reviews has no role.
    NotMember,
    /// The person who reviews is the author of the change.
    OwnChange,
    /// The text is refused as settings, under this number of `SettingsFault`: 1 to 3.
    BadSettings(u8),
    /// The reading is less than the clock.
    ClockBack,
    /// No batch of this number is where the act needs it. For a status: no batch is tested as its commit, and no open change has
    /// that as its head.
    NoSuchBatch,
    /// The commit is the present base.
    SameAsBase,
    /// The status of this name hasn't succeeded on the change's head, the first of those that the settings want there.
    HeadStatus(Context),
}

impl Rule {
    /// The number of the rule, 1 to 21, which hosts and tools compare.
    pub fn number(&self) -> u8
        ensures value { result ≡ number_of self.now }
    {
        match self {
            Rule::UnknownChange => 1,
            Rule::NotACommand => 2,
            Rule::NotPermitted(_) => 3,
            Rule::NotOpen => 4,
            Rule::NothingToRetry => 5,
            Rule::Landing => 6,
            Rule::NoSettings => 7,
            Rule::NoBase => 8,
            Rule::AlreadyApproved | Rule::NotApproved => 9,
            Rule::AlreadyTrying | Rule::NotTrying => 9,
            Rule::Blocked(_) => 10,
            Rule::TooFewReviews(..) => 11,
            Rule::AlreadyOpen => 12,
            Rule::ChangeLanded => 13,
            Rule::StaleHead => 14,
            Rule::NotMember => 15,
            Rule::OwnChange => 16,
            Rule::BadSettings(_) => 17,
            Rule::ClockBack => 18,
            Rule::NoSuchBatch => 19,
            Rule::SameAsBase => 20,
            Rule::HeadStatus(_) => 21,
        }
    }

    /// The name of the rule, as answers write it.
    pub fn word(&self) -> &'static str
        ensures value { result.now ≡ word_of self.now }
    {
        match self {
            Rule::UnknownChange => "UnknownChange",
            Rule::NotACommand => "NotACommand",
            Rule::NotPermitted(_) => "NotPermitted",
            Rule::NotOpen => "NotOpen",
            Rule::NothingToRetry => "NothingToRetry",
            Rule::Landing => "Landing",
            Rule::NoSettings => "NoSettings",
            Rule::NoBase => "NoBase",
            Rule::AlreadyApproved => "AlreadyApproved",
            Rule::NotApproved => "NotApproved",
            Rule::AlreadyTrying => "AlreadyTrying",
            Rule::NotTrying => "NotTrying",
            Rule::Blocked(_) => "Blocked",
            Rule::TooFewReviews(..) => "TooFewReviews",
            Rule::AlreadyOpen => "AlreadyOpen",
            Rule::ChangeLanded => "ChangeLanded",
            Rule::StaleHead => "StaleHead",
            Rule::NotMember => "NotMember",
            Rule::OwnChange => "OwnChange",
            Rule::BadSettings(_) => "BadSettings",
            Rule::ClockBack => "ClockBack",
            Rule::NoSuchBatch => "NoSuchBatch",
            Rule::SameAsBase => "SameAsBase",
            Rule::HeadStatus(_) => "HeadStatus",
        }
    }

    /// The rule of this name, if there is one that tells no more than its number and name.
    pub fn called(word: &str) -> Option<Rule>
        ensures value { result ≡ rule_called word.now }
    {
        match word {
            "UnknownChange" => Some(Rule::UnknownChange),
            "NotACommand" => Some(Rule::NotACommand),
            "NotOpen" => Some(Rule::NotOpen),
            "NothingToRetry" => Some(Rule::NothingToRetry),
            "Landing" => Some(Rule::Landing),
            "NoSettings" => Some(Rule::NoSettings),
            "NoBase" => Some(Rule::NoBase),
            "AlreadyApproved" => Some(Rule::AlreadyApproved),
            "NotApproved" => Some(Rule::NotApproved),
            "AlreadyTrying" => Some(Rule::AlreadyTrying),
            "NotTrying" => Some(Rule::NotTrying),
            "AlreadyOpen" => Some(Rule::AlreadyOpen),
            "ChangeLanded" => Some(Rule::ChangeLanded),
            "StaleHead" => Some(Rule::StaleHead),
            "NotMember" => Some(Rule::NotMember),
            "OwnChange" => Some(Rule::OwnChange),
            "ClockBack" => Some(Rule::ClockBack),
            "NoSuchBatch" => Some(Rule::NoSuchBatch),
            "SameAsBase" => Some(Rule::SameAsBase),
            _ => None,
        }
    }

    /// A copy, or `AllocError` if there is no memory for it.
    pub fn copy(&self, alloc: Global) -> Result<Rule, AllocError>
        ensures value { IfOk result (λ copy. copy ≡ self.now) }
    {
        Ok(match self {
            Rule::UnknownChange => Rule::UnknownChange,
            Rule::NotACommand => Rule::NotACommand,
            Rule::NotPermitted(level) => Rule::NotPermitted(*level),
            Rule::NotOpen => Rule::NotOpen,
            Rule::NothingToRetry => Rule::NothingToRetry,
            Rule::Landing => Rule::Landing,
            Rule::NoSettings => Rule::NoSettings,
            Rule::NoBase => Rule::NoBase,
            Rule::AlreadyApproved => Rule::AlreadyApproved,
            Rule::NotApproved => Rule::NotApproved,
            Rule::AlreadyTrying => Rule::AlreadyTrying,
            Rule::NotTrying => Rule::NotTrying,
            Rule::Blocked(label) => Rule::Blocked(label.copy(alloc)?),
            Rule::TooFewReviews(have, need) => Rule::TooFewReviews(*have, *need),
            Rule::AlreadyOpen => Rule::AlreadyOpen,
            Rule::ChangeLanded => Rule::ChangeLanded,
            Rule::StaleHead => Rule::StaleHead,
            Rule::NotMember => Rule::NotMember,
            Rule::OwnChange => Rule::OwnChange,
            Rule::BadSettings(number) => Rule::BadSettings(*number),
            Rule::ClockBack => Rule::ClockBack,
            Rule::NoSuchBatch => Rule::NoSuchBatch,
            Rule::SameAsBase => Rule::SameAsBase,
            Rule::HeadStatus(name) => Rule::HeadStatus(name.copy(alloc)?),
        })
    }
}
