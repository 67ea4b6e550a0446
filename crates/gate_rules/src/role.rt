ghost use Rattle.std.specs.Prelude.{◌≡◌};
ghost use Rattle.gate_rules.specs.Rules as rules;
ghost use Rattle.gate_rules.specs.Words.{level_called, level_word_of, role_called};

use gate_text::TryCopy;
use std::alloc::{AllocError, Global};

/// What a person may do in general. bors-ng calls these lists reviewers and members.
#[derive(Clone, Copy, Debug, PartialEq, Eq)]
pub enum Role {
    /// No role was set, or it was taken away.
    Nobody,
    /// May try changes and review them.
    Member,
    /// May do all that a member may, and approve changes.
    Reviewer,
}

/// What a command needs of the person who writes it.
#[derive(Clone, Copy, Debug, PartialEq, Eq)]
pub enum Level {
    /// Anyone at all.
    Anyone,
    /// A member or a reviewer.
    Member,
    /// A member, a reviewer, or a delegate of this change.
    MemberOrDelegate,
    /// A reviewer, or a delegate of this change.
    ReviewerOrDelegate,
    /// A reviewer, by role alone.
    Reviewer,
}

impl Role {
    /// Whether the person is a member or a reviewer.
    pub fn is_member(self) -> bool
        ensures value { result ≡ rules.is_member self }
    {
        match self {
            Role::Nobody => false,
            Role::Member | Role::Reviewer => true,
        }
    }

    /// Whether the person is a reviewer.
    pub fn is_reviewer(self) -> bool
        ensures value { result ≡ rules.is_reviewer self }
    {
        match self {
            Role::Nobody | Role::Member => false,
            Role::Reviewer => true,
        }
    }

    /// The role of this name, if there is one: `nobody`, `member` or `reviewer`.
    pub fn called(word: &str) -> Option<Role>
        ensures value { result ≡ role_called word.now }
    {
        match word {
            "nobody" => Some(Role::Nobody),
            "member" => Some(Role::Member),
            "reviewer" => Some(Role::Reviewer),
            _ => None,
        }
    }
}

impl TryCopy for Role {
    fn try_copy(&self, _alloc: Global) -> Result<Role, AllocError> {
        Ok(*self)
    }
}

impl Level {
    /// Whether someone of this role, who is a delegate of the change or isn't, has the level.
    pub fn admits(self, role: Role, is_delegate: bool) -> bool
        ensures value { result ≡ rules.admits self role is_delegate }
    {
        match self {
            Level::Anyone => true,
            Level::Member => role.is_member(),
            Level::MemberOrDelegate => role.is_member() || is_delegate,
            Level::ReviewerOrDelegate => role.is_reviewer() || is_delegate,
            Level::Reviewer => role.is_reviewer(),
        }
    }

    /// The name of the level, as answers write it.
    pub fn word(self) -> &'static str
        ensures value { result.now ≡ level_word_of self }
    {
        match self {
            Level::Anyone => "Anyone",
            Level::Member => "Member",
            Level::MemberOrDelegate => "MemberOrDelegate",
            Level::ReviewerOrDelegate => "ReviewerOrDelegate",
            Level::Reviewer => "Reviewer",
        }
    }

    /// The level of this name, if there is one.
    pub fn called(word: &str) -> Option<Level>
        ensures value { result ≡ level_called word.now }
    {
        match word {
            "Anyone" => Some(Level::Anyone),
            "Member" => Some(Level::Member),
            "MemberOrDelegate" => Some(Level::MemberOrDelegate),
            "ReviewerOrDelegate" => Some(Level::ReviewerOrDelegate),
            "Reviewer" => Some(Level::Reviewer),
            _ => None,
        }
    }
}
