ghost use Rattle.std.specs.Prelude.{◌≡◌, ◌||◌, ◌⊎◌, [], Ok, Some, IfOk, IfErr, IsOk};
ghost use Rattle.gate_text.specs.Settings.{settings_of};
ghost use Rattle.gate_rules.specs.Rules.{first_failing};
ghost use Rattle.gate_rules.specs.View.{is_open_head, look};
ghost use Rattle.gate_rules.specs.Rules.{MayWantMemory};
ghost use Rattle.gate_rules.specs.declared.rule.Rule.{Rule};
ghost use Rattle.gate_state.specs.declared.act.Act.TheVariants.{Other};
ghost use Rattle.gate_state.specs.declared.act.Deed.TheVariants.{Happened};
ghost use Rattle.gate_state.specs.declared.act.Fact.TheVariants as facts;
ghost use Rattle.gate_state.specs.declared.state.State.{State as StateOf};
ghost use Rattle.gate_queue.specs.Judging.{IsJudgement, IsMeant, IsRetry};
ghost use Rattle.gate_queue.specs.Machine as machine;
ghost use Rattle.gate_queue.specs.Machine.{RefusalMayWantMemory, DeedTakesNoMemory, DeskTakesNoMemory, FactTakesNoMemory, denial, bad_settings, deed_row, fact_row, is_ordered, is_staged_with, of_open_change, opening_row, review_row};

use crate::repeating::repeated_act;
use crate::verdict::Verdict;
use gate_rules::{Desk, Rule};
use gate_state::{Act, ChangeFact, Deed, Fact, Lane, Queue, Stage, State};
use gate_text::{ChangeNo, Commit, Name, Settings, SettingsFault, Text, read_settings};
use std::alloc::{AllocError, Global};

/// What is judged of an act: the rule that denies it, or what it means if none does. `AllocError` if there is no memory for it.
pub fn judge(state: &State, alloc: Global, act: &Act) -> Result<Verdict, AllocError>
    ensures value { IfOk result (λ verdict. IsJudgement state.now act.now verdict) }
    ensures refused { IfErr result (λ _. (rule : Rule) → denial state.now act.now ≡ Some rule
        → RefusalMayWantMemory act.now (Some rule)) }
    ensures cause { IfErr result (λ _. RefusalMayWantMemory act.now (denial state.now act.now) ⊎ IsRetry act.now) }
    ensures no_memory { DeskTakesNoMemory state.now.desk act.now → IsOk result }
{
    match act {
        Act::Other(Fact::Settings { text }) => judge_settings(alloc, text),
        _ => match rule_of(&state.desk, &state.queue, alloc, act)? {
            Some(rule) => Ok(Verdict::Denied(rule)),
            None => judge_meaning(&state.desk, alloc, act),
        },
    }
}

// What is judged of an act that no rule denies and that brings no settings.
fn judge_meaning(desk: &Desk, alloc: Global, act: &Act) -> Result<Verdict, AllocError>
    ensures value { IfOk result (IsMeant (look desk.now) act.now) }
    ensures cause { IfErr result (λ _. IsRetry act.now) }
    ensures no_memory { DeskTakesNoMemory desk.now act.now → IsOk result }
{
    Ok(match repeated_act(desk, alloc, act)? {
        Some(repeated) => Verdict::Repeats(repeated),
        None => Verdict::Stands,
    })
}

// What is judged of a text of settings.
fn judge_settings(alloc: Global, text: &Text) -> Result<Verdict, AllocError>
    ensures { IfOk result (λ verdict. (state : StateOf) → IsJudgement state (Other (facts.Settings text.now)) verdict) }
{
    match settings_in(alloc, text)? {
        Ok(settings) => Ok(Verdict::Sets(settings)),
        Err(rule) => Ok(Verdict::Denied(rule)),
    }
}

// The settings of a text, or the rule that denies it.
fn settings_in(alloc: Global, text: &Text) -> Result<Result<Settings, Rule>, AllocError>
    ensures settings { IfOk result (λ read. IfOk read (λ settings. settings_of text.now ≡ Ok settings)) }
    ensures rule { IfOk result (λ read. IfErr read (λ rule. bad_settings (settings_of text.now) ≡ Some rule)) }
{
    match read_settings(alloc, text.as_str()) {
        Ok(settings) => Ok(Ok(settings)),
        Err(SettingsFault::Memory) => Err(AllocError),
        Err(fault) => Ok(Err(Rule::BadSettings(fault.number()))),
    }
}

/// The rule that denies an act: the first of its row that fails, and nothing if all hold. `AllocError` if there is
/// no memory to read settings, or to copy a label or a status that the rule names.
pub fn rule_of(
    desk: &Desk,
    queue: &Queue,
    alloc: Global,
    act: &Act,
) -> Result<Option<Rule>, AllocError>
    ensures value { IfOk result (λ rule. rule ≡ denial (record { desk = desk.now; queue = queue.now }) act.now) }
    ensures cause { IfErr result
        (λ _. RefusalMayWantMemory act.now (denial (record { desk = desk.now; queue = queue.now }) act.now)) }
    ensures no_memory { DeskTakesNoMemory desk.now act.now → IsOk result }
{
    match act {
        Act::On { change, deed } => deed_rule(desk, alloc, *change, deed),
        Act::Other(fact) => fact_rule(desk, queue, alloc, fact),
    }
}

// The first rule that fails of a deed on a change.
fn deed_rule(
    desk: &Desk,
    alloc: Global,
    change: ChangeNo,
    deed: &Deed,
) -> Result<Option<Rule>, AllocError>
    ensures value { IfOk result (λ rule. rule ≡ first_failing (deed_row (look desk.now) change deed.now)) }
    ensures cause { IfErr result (λ _. MayWantMemory (first_failing (deed_row (look desk.now) change deed.now))) }
    ensures no_memory { DeedTakesNoMemory desk.now change deed.now → IsOk result }
{
    match deed {
        Deed::Said { person, spoken } => desk.rule(alloc, person, change, spoken),
        Deed::Happened(fact) => Ok(change_rule(desk, change, fact)),
    }
}

// The first rule that fails of a fact about a change.
fn change_rule(desk: &Desk, change: ChangeNo, fact: &ChangeFact) -> Option<Rule>
    ensures { result ≡ first_failing (deed_row (look desk.now) change (Happened fact.now)) }
{
    match fact {
        ChangeFact::Opened { .. } => opening_rule(desk, change),
        ChangeFact::Pushed { .. }
        | ChangeFact::Closed
        | ChangeFact::Labeled { .. }
        | ChangeFact::Unlabeled { .. } => open_rule(desk, change),
        ChangeFact::Review { person, head, .. } => review_rule(desk, change, person, *head),
    }
}

// The first rule that fails of any other fact.
fn fact_rule(
    desk: &Desk,
    queue: &Queue,
    alloc: Global,
    fact: &Fact,
) -> Result<Option<Rule>, AllocError>
    ensures value { IfOk result
        (λ rule. rule ≡ denial (record { desk = desk.now; queue = queue.now }) (Other fact.now)) }
    ensures cause { IfErr result
        (λ _. RefusalMayWantMemory (Other fact.now)
        (denial (record { desk = desk.now; queue = queue.now }) (Other fact.now))) }
    ensures no_memory { FactTakesNoMemory desk.now fact.now → IsOk result }
{
    match fact {
        Fact::Role { .. } => Ok(None),
        Fact::Settings { text } => settings_rule(alloc, text),
        Fact::Base { commit } => Ok(base_rule(desk, *commit)),
        Fact::Staged { batch, .. } | Fact::Conflict { batch } if !any_ordered(queue, *batch) => {
            Ok(Some(Rule::NoSuchBatch))
        }
        Fact::Staged { commit, .. } => Ok(base_rule(desk, *commit)),
        Fact::Conflict { .. } => Ok(None),
        Fact::Status { commit, .. } if !is_awaited(desk, queue, *commit) => {
            Ok(Some(Rule::NoSuchBatch))
        }
        // Tries don't land.
        Fact::Refused { batch } if !has_landing(&queue.staging, *batch) => {
            Ok(Some(Rule::NoSuchBatch))
        }
        Fact::Status { .. } | Fact::Refused { .. } => Ok(None),
        Fact::Tick { now } if now.seconds() < desk.clock() => Ok(Some(Rule::ClockBack)),
        Fact::Tick { .. } => Ok(None),
    }
}

// Whether the host was ordered to stage the batch of this number, on either branch, and hasn't answered yet.
fn any_ordered(queue: &Queue, number: u64) -> bool
    ensures { result ≡ machine.on_either (machine.has_ordered number) queue.now }
{
    has_ordered(&queue.staging, number) || has_ordered(&queue.trying, number)
}

/// Whether the host was ordered to stage the batch of this number on a branch, and hasn't answered yet.
pub fn has_ordered(lane: &Lane, number: u64) -> bool
    ensures { result ≡ machine.has_ordered number lane.now }
{
    match &lane.running {
        Some(batch) => number == batch.number && is_ordered(&batch.stage),
        None => false,
    }
}

fn is_ordered(stage: &Stage) -> bool
    ensures { result ≡ is_ordered stage.now }
{
    match stage {
        Stage::Ordered { .. } => true,
        Stage::Waiting | Stage::Staged { .. } | Stage::Landing { .. } => false,
    }
}

// Whether a status of this commit is of use: a batch that is tested was staged with it, or it is the head of an open change.
fn is_awaited(desk: &Desk, queue: &Queue, commit: Commit) -> bool
    ensures { result ≡ (machine.on_either (machine.has_staged commit) queue.now || is_open_head commit desk.now) }
{
    any_staged(queue, commit) || desk.is_open_head(commit)
}

/// Whether a batch that is tested, on either branch, was staged with this commit.
pub fn any_staged(queue: &Queue, commit: Commit) -> bool
    ensures { result ≡ machine.on_either (machine.has_staged commit) queue.now }
{
    has_staged(&queue.staging, commit) || has_staged(&queue.trying, commit)
}

/// Whether the batch that is tested on a branch was staged with this commit.
pub fn has_staged(lane: &Lane, commit: Commit) -> bool
    ensures { result ≡ machine.has_staged commit lane.now }
{
    match &lane.running {
        Some(batch) => is_staged_with(&batch.stage, commit),
        None => false,
    }
}

fn is_staged_with(stage: &Stage, commit: Commit) -> bool
    ensures { result ≡ is_staged_with commit stage.now }
{
    match stage {
        Stage::Staged { commit: staged, .. } => commit == *staged,
        Stage::Waiting | Stage::Ordered { .. } | Stage::Landing { .. } => false,
    }
}

// Whether the host was ordered to land the batch of this number, and hasn't answered yet.
fn has_landing(lane: &Lane, number: u64) -> bool
    ensures { result ≡ machine.has_landing number lane.now }
{
    match &lane.running {
        Some(batch) => number == batch.number && batch.is_landing(),
        None => false,
    }
}

// The first rule that fails of a change that is to be opened.
fn opening_rule(desk: &Desk, change: ChangeNo) -> Option<Rule>
    ensures { result ≡ first_failing (opening_row (look desk.now) change) }
{
    if desk.is_open(change) {
        return Some(Rule::AlreadyOpen);
    }
    if desk.is_landed(change) {
        return Some(Rule::ChangeLanded);
    }
    None
}

// The rule on a text of settings, if it fails.
fn settings_rule(alloc: Global, text: &Text) -> Result<Option<Rule>, AllocError>
    ensures { IfOk result (λ rule. rule ≡ bad_settings (settings_of text.now)) }
{
    match settings_in(alloc, text)? {
        Ok(_) => Ok(None),
        Err(rule) => Ok(Some(rule)),
    }
}

// The rule on a new base, if it fails.
fn base_rule(desk: &Desk, commit: Commit) -> Option<Rule>
    ensures { result ≡ first_failing (fact_row (look desk.now) (facts.Base commit)) }
{
    match desk.base() {
        Some(base) if base == commit => Some(Rule::SameAsBase),
        _ => None,
    }
}

// The first that fails of the rules that facts on a change begin with.
fn open_rule(desk: &Desk, change: ChangeNo) -> Option<Rule>
    ensures { result ≡ first_failing (of_open_change (look desk.now) change []) }
{
    if !desk.is_known(change) {
        return Some(Rule::UnknownChange);
    }
    if !desk.is_open(change) {
        return Some(Rule::NotOpen);
    }
    None
}

// The first rule that fails of a review.
fn review_rule(desk: &Desk, number: ChangeNo, person: &Name, head: Commit) -> Option<Rule>
    ensures { result ≡ first_failing (review_row (look desk.now) number person.now head) }
{
    let Some(change) = desk.change(number) else {
        return Some(Rule::UnknownChange);
    };
    if !desk.is_open(number) {
        return Some(Rule::NotOpen);
    }
    if change.head != head {
        return Some(Rule::StaleHead);
    }
    if !desk.role(person).is_member() {
        return Some(Rule::NotMember);
    }
    if change.author == *person {
        return Some(Rule::OwnChange);
    }
    None
}
