ghost use Rattle.std.specs.Prelude.{◌≡◌, ◌↔◌, IsTrue, IfOk};

use gate_queue::{Head, StatusState, Why};
use gate_rules::{Level, Phase, Role, Rule};
use gate_text::{ChangeNo, Commit};
use std::alloc::AllocError;

// `==` on each of these is equality, and a clone is its source: the prover refuses any other.
fn is_same_change(one: &ChangeNo, other: &ChangeNo) -> bool
    ensures value { IsTrue result ↔ (one.now ≡ other.now) }
{
    one == other
}

fn is_same_commit(one: &Commit, other: &Commit) -> bool
    ensures value { IsTrue result ↔ (one.now ≡ other.now) }
{
    one == other
}

fn is_same_phase(one: &Phase, other: &Phase) -> bool
    ensures value { IsTrue result ↔ (one.now ≡ other.now) }
{
    one == other
}

fn is_same_role(one: &Role, other: &Role) -> bool
    ensures value { IsTrue result ↔ (one.now ≡ other.now) }
{
    one == other
}

fn is_same_level(one: &Level, other: &Level) -> bool
    ensures value { IsTrue result ↔ (one.now ≡ other.now) }
{
    one == other
}

fn is_same_rule(one: &Rule, other: &Rule) -> bool
    ensures value { IsTrue result ↔ (one.now ≡ other.now) }
{
    one == other
}

fn is_same_why(one: &Why, other: &Why) -> bool
    ensures value { IsTrue result ↔ (one.now ≡ other.now) }
{
    one == other
}

fn is_same_head(one: &Head, other: &Head) -> bool
    ensures value { IsTrue result ↔ (one.now ≡ other.now) }
{
    one == other
}

fn is_same_state(one: &StatusState, other: &StatusState) -> bool
    ensures value { IsTrue result ↔ (one.now ≡ other.now) }
{
    one == other
}

fn clone_of_change(change: &ChangeNo) -> Result<ChangeNo, AllocError>
    ensures value { IfOk result (λ clone. clone ≡ change.now) }
{
    change.clone()
}

fn clone_of_commit(commit: &Commit) -> Result<Commit, AllocError>
    ensures value { IfOk result (λ clone. clone ≡ commit.now) }
{
    commit.clone()
}

fn clone_of_phase(phase: &Phase) -> Result<Phase, AllocError>
    ensures value { IfOk result (λ clone. clone ≡ phase.now) }
{
    phase.clone()
}

fn clone_of_role(role: &Role) -> Result<Role, AllocError>
    ensures value { IfOk result (λ clone. clone ≡ role.now) }
{
    role.clone()
}

fn clone_of_level(level: &Level) -> Result<Level, AllocError>
    ensures value { IfOk result (λ clone. clone ≡ level.now) }
{
    level.clone()
}

fn clone_of_state(state: &StatusState) -> Result<StatusState, AllocError>
    ensures value { IfOk result (λ clone. clone ≡ state.now) }
{
    state.clone()
}

fn clone_of_head(head: &Head) -> Result<Head, AllocError>
    ensures value { IfOk result (λ clone. clone ≡ head.now) }
{
    head.clone()
}
