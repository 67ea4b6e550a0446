ghost use Rattle.std.specs.Prelude.{◌≡◌, [], ◌∷◌, not, ◌&&◌, ◌||◌, Some, None, is_some, true, false, IfOk, IsOk, IsTrue, OnOk, if◌then◌else◌};
ghost use Rattle.std.specs.FinMap as finite;
ghost use Rattle.std.specs.FinSet as set;
ghost use Rattle.std.specs.List.{fold};
ghost use Rattle.gate_rules.specs.View.{is_open_head, look, with_change, with_status, with_told, without_approval};
ghost use Rattle.gate_state.specs.declared.reply.Order.TheVariants.{Notice};
ghost use Rattle.gate_state.specs.declared.reply.Why.TheVariants as why;
ghost use Rattle.gate_queue.specs.Machine as machine;
ghost use Rattle.gate_queue.specs.Machine.{altered, ends_approval, ends_either, is_head, notice_if, notice_of};

use gate_rules::{Change, Desk, Phase, Repeat, has_too_few_reviews, is_blocked};
use gate_state::{Order, Orders, Why};
use gate_text::{ChangeNo, Commit, Context, ContextSet, Label, LabelSet, Name, NameSet, Names};
use std::alloc::{AllocError, Global};

/// No orders.
pub fn no_orders(alloc: Global) -> Orders
    ensures { result ≡ [] }
{
    Orders::from(Vec::new(alloc))
}

/// One order. `AllocError` if there is no memory for it.
pub fn one_order(alloc: Global, order: Order) -> Result<Orders, AllocError>
    ensures { IfOk result (λ orders. orders ≡ order ∷ []) }
{
    let mut orders = no_orders(alloc);
    orders.push(order)?;
    Ok(orders)
}

/// One notice. `AllocError` if there is no memory for it.
pub fn one_notice(alloc: Global, change: ChangeNo, why: Why) -> Result<Orders, AllocError>
    ensures { IfOk result (λ orders. orders ≡ Notice change why ∷ []) }
{
    one_order(alloc, Order::Notice { change, why })
}

// A notice, if an approval or a try has ended.
fn ending_notice(
    alloc: Global,
    has_ended: bool,
    number: ChangeNo,
    why: Why,
) -> Result<Orders, AllocError>
    ensures value { IfOk result (λ orders. orders ≡ machine.notice_if has_ended number why) }
    ensures no_memory { has_ended ≡ false → IsOk result }
{
    if has_ended {
        one_notice(alloc, number, why)
    } else {
        Ok(no_orders(alloc))
    }
}

// Keeps a change that was altered, and gives a notice if its approval has ended.
fn keep(
    desk: &mut Desk,
    alloc: Global,
    number: ChangeNo,
    was_approved: bool,
    change: Change,
    why: Why,
) -> Result<Orders, AllocError>
    ensures desk { OnOk result (desk.new ≡ with_change desk.old number change) }
    ensures orders { IfOk result
        (λ orders. orders ≡ notice_if (was_approved && not (is_some change.approved)) number why) }
{
    let has_ended = was_approved && change.approved.is_none();
    keep_ended(desk, alloc, number, has_ended, change, why)
}

// The same, if it is known whether something has ended.
fn keep_ended(
    desk: &mut Desk,
    alloc: Global,
    number: ChangeNo,
    has_ended: bool,
    change: Change,
    why: Why,
) -> Result<Orders, AllocError>
    ensures desk { OnOk result (desk.new ≡ with_change desk.old number change) }
    ensures orders { IfOk result (λ orders. orders ≡ notice_if has_ended number why) }
{
    let orders = ending_notice(alloc, has_ended, number, why)?;
    desk.keep_change(alloc, number, change)?;
    Ok(orders)
}

/// Approves a change in the name of these people.
pub fn approve(desk: &mut Desk, number: ChangeNo, approvers: Names, last: Repeat)
    ensures { desk.new ≡ altered desk.old number (machine.approved_by approvers last) }
{
    desk.alter(number, |change| {
        change.approved = Some(approvers);
        change.last = Some(last);
    });
}

/// Ends the approval of a change.
pub fn withdraw(desk: &mut Desk, number: ChangeNo)
    ensures { desk.new ≡ altered desk.old number without_approval }
{
    desk.alter(number, |change| change.approved = None);
}

/// Lets a change be tried.
pub fn start_trying(desk: &mut Desk, number: ChangeNo)
    ensures { desk.new ≡ altered desk.old number machine.with_try }
{
    desk.alter(number, |change| {
        change.trying = true;
        change.last = Some(Repeat::Try);
    });
}

/// Ends that a change is tried.
pub fn stop_trying(desk: &mut Desk, number: ChangeNo)
    ensures { desk.new ≡ altered desk.old number machine.without_try }
{
    desk.alter(number, |change| change.trying = false);
}

/// Marks changes as landing.
pub fn mark_landing(desk: &mut Desk, changes: &[ChangeNo])
    ensures { desk.new ≡ machine.all_altered (machine.with_landing true) desk.old changes.now }
{
    for number in changes {
        desk.alter(*number, |change| change.landing = true);
    }
}

/// Ends that changes are landing that were to land with a commit. If it is the new base, they have landed, and aren't tried any
/// longer. What has succeeded on their heads is forgotten then.
pub fn release(
    desk: &mut Desk,
    alloc: Global,
    changes: &[ChangeNo],
    commit: Commit,
    base: Option<Commit>,
)
    ensures { desk.new ≡ machine.all_altered (machine.released base commit) desk.old changes.now }
{
    release_all(desk, alloc, changes, base == Some(commit));
}

fn release_all(desk: &mut Desk, alloc: Global, changes: &[ChangeNo], have_landed: bool)
    ensures { desk.new ≡ machine.all_altered
        (if have_landed then machine.landed else machine.with_landing false) desk.old changes.now }
{
    for number in changes {
        release_one(desk, alloc, *number, have_landed);
    }
}

fn release_one(desk: &mut Desk, alloc: Global, number: ChangeNo, has_landed: bool)
    ensures { desk.new ≡ altered desk.old number (if has_landed then machine.landed else machine.with_landing false) }
{
    if has_landed {
        desk.shut(number, |change| land(change, alloc));
    } else {
        desk.alter(number, |change| change.landing = false);
    }
}

fn land(change: &mut Change, alloc: Global)
    ensures { change.new ≡ machine.landed change.old }
{
    change.phase = Phase::Landed;
    change.passed = ContextSet::new(alloc);
    change.approved = None;
    change.landing = false;
    change.trying = false;
}

/// Sets the priority of a change.
pub fn set_priority(desk: &mut Desk, number: ChangeNo, priority: i32)
    ensures { desk.new ≡ altered desk.old number (machine.with_priority priority) }
{
    desk.alter(number, |change| change.priority = priority);
}

/// Makes the author of a change its delegate.
pub fn delegate_author(desk: &mut Desk, alloc: Global, number: ChangeNo) -> Result<(), AllocError>
    ensures { OnOk result (desk.new ≡ altered desk.old number machine.with_author_as_delegate) }
{
    match desk.alter(number, |change| add_author(change, alloc)) {
        Some(added) => added,
        None => Ok(()),
    }
}

fn add_author(change: &mut Change, alloc: Global) -> Result<(), AllocError>
    ensures ok { OnOk result (change.new ≡ machine.with_author_as_delegate change.old) }
    ensures head { change.new.head ≡ change.old.head }
    ensures phase { change.new.phase ≡ change.old.phase }
{
    let author = change.author.copy(alloc)?;
    change.delegates.insert(author)
}

/// Makes these people delegates of a change.
pub fn delegate_to(
    desk: &mut Desk,
    alloc: Global,
    number: ChangeNo,
    names: &Names,
) -> Result<(), AllocError>
    ensures { OnOk result (desk.new ≡ altered desk.old number (machine.with_delegates names.now)) }
{
    match desk.alter(number, |change| {
        add_all(&mut change.delegates, alloc, names.as_slice())
    }) {
        Some(added) => added,
        None => Ok(()),
    }
}

// Adds copies of the names.
fn add_all(delegates: &mut NameSet, alloc: Global, names: &[Name]) -> Result<(), AllocError>
    ensures { OnOk result (delegates.new ≡ fold set.insert delegates.old names.now) }
{
    for name in names {
        delegates.insert(name.copy(alloc)?)?;
    }
    Ok(())
}

/// Takes all delegations of a change back.
pub fn delegate_none(desk: &mut Desk, alloc: Global, number: ChangeNo)
    ensures { desk.new ≡ altered desk.old number machine.without_delegates }
{
    desk.alter(number, |change| change.delegates = NameSet::new(alloc));
}

/// Opens a change, for the first time or again.
pub fn open(
    desk: &mut Desk,
    alloc: Global,
    number: ChangeNo,
    author: &Name,
    head: Commit,
) -> Result<(), AllocError>
    ensures { OnOk result (desk.new ≡ with_change desk.old number
        (machine.opened author.now head (finite.get desk.old.changes number))) }
{
    let author = author.copy(alloc)?;
    let opened = match desk.change(number) {
        Some(change) => reopened(change.copy(alloc)?, alloc, author, head),
        None => just_opened(alloc, author, head),
    };
    desk.keep_change(alloc, number, opened)
}

fn reopened(mut change: Change, alloc: Global, author: Name, head: Commit) -> Change
    ensures { result ≡ machine.opened author head (Some change) }
{
    change.author = author;
    change.head = head;
    change.phase = Phase::Opened;
    change.reviews = NameSet::new(alloc);
    change.passed = ContextSet::new(alloc);
    change.trying = false;
    change
}

fn just_opened(alloc: Global, author: Name, head: Commit) -> Change
    ensures { result ≡ machine.just_opened author head }
{
    Change {
        author,
        head,
        phase: Phase::Opened,
        priority: 0,
        labels: LabelSet::new(alloc),
        reviews: NameSet::new(alloc),
        passed: ContextSet::new(alloc),
        delegates: NameSet::new(alloc),
        approved: None,
        trying: false,
        landing: false,
        last: None,
    }
}

/// Gives a change a head. Another one ends its reviews, its approval and its try, and what has succeeded on the head before is
/// forgotten.
pub fn push(
    desk: &mut Desk,
    alloc: Global,
    number: ChangeNo,
    head: Commit,
) -> Result<Orders, AllocError>
    ensures desk { OnOk result (desk.new ≡ altered desk.old number (machine.pushed head)) }
    ensures orders { IfOk result
        (λ orders. orders ≡ notice_of desk.old number why.Pushed (ends_either (machine.pushed head))) }
    ensures no_memory { IsTrue (is_head (look desk.old) number head) → IsOk result }
{
    let Some(change) = desk.change(number) else {
        return Ok(no_orders(alloc));
    };
    if change.head == head {
        return Ok(no_orders(alloc));
    }
    let mut change = change.copy(alloc)?;
    let has_ended = move_to(&mut change, alloc, head);
    keep_ended(desk, alloc, number, has_ended, change, Why::Pushed)
}

// Whether the approval of the change or its try has ended by its new head.
fn move_to(change: &mut Change, alloc: Global, head: Commit) -> bool
    ensures change { change.new ≡ machine.moved_to head change.old }
    ensures ended { result ≡ ends_either (machine.moved_to head) change.old }
{
    let has_ended = end_both(change);
    change.head = head;
    change.reviews = NameSet::new(alloc);
    change.passed = ContextSet::new(alloc);
    has_ended
}

// Ends the approval of a change and its try. Whether it had one of the two.
fn end_both(change: &mut Change) -> bool
    ensures change { change.new ≡ record change.old { approved = None; trying = false } }
    ensures ended { result ≡ (is_some change.old.approved || change.old.trying) }
{
    let has_ended = change.approved.is_some() || change.trying;
    change.approved = None;
    change.trying = false;
    has_ended
}

/// Closes a change, which ends its approval and its try. What has succeeded on its head is forgotten.
pub fn close(desk: &mut Desk, alloc: Global, number: ChangeNo) -> Result<Orders, AllocError>
    ensures desk { OnOk result (desk.new ≡ altered desk.old number machine.closed) }
    ensures orders { IfOk result
        (λ orders. orders ≡ notice_of desk.old number why.Closed (ends_either machine.closed)) }
    ensures no_memory { notice_of desk.old number why.Closed (ends_either machine.closed) ≡ [] → IsOk result }
{
    let has_ended = desk.shut(number, |change| shut(change, alloc));
    ending_notice(alloc, has_ended.unwrap_or(false), number, Why::Closed)
}

// Whether the approval of the change or its try has ended by its closing.
fn shut(change: &mut Change, alloc: Global) -> bool
    ensures change { change.new ≡ machine.closed change.old }
    ensures ended { result ≡ ends_either machine.closed change.old }
{
    change.phase = Phase::Closed;
    change.passed = ContextSet::new(alloc);
    end_both(change)
}

/// Gives a change a label. A blocking one ends its approval.
pub fn add_label(
    desk: &mut Desk,
    alloc: Global,
    number: ChangeNo,
    label: &Label,
) -> Result<Orders, AllocError>
    ensures desk { OnOk result (desk.new ≡ altered desk.old number (machine.labeled desk.old.settings label.now)) }
    ensures orders { IfOk result
        (λ orders. orders ≡ notice_of desk.old number why.Labeled
        (ends_approval (machine.labeled desk.old.settings label.now))) }
{
    let Some(change) = desk.change(number) else {
        return Ok(no_orders(alloc));
    };
    let was_approved = change.approved.is_some();
    let mut change = change.copy(alloc)?;
    change.labels.insert(label.copy(alloc)?)?;
    if let Some(settings) = desk.settings() {
        if is_blocked(settings, &change) {
            change.approved = None;
        }
    }
    keep(desk, alloc, number, was_approved, change, Why::Labeled)
}

/// Takes a label from a change.
pub fn remove_label(desk: &mut Desk, number: ChangeNo, label: &Label)
    ensures { desk.new ≡ altered desk.old number (machine.without_label label.now) }
{
    desk.alter(number, |change| change.labels.remove(label));
}

// Adds a person to the reviews of a change, or takes the person from them.
fn set_review(
    change: &mut Change,
    alloc: Global,
    person: &Name,
    approves: bool,
) -> Result<(), AllocError>
    ensures { OnOk result (change.new ≡ machine.with_review person.now approves change.old) }
{
    if approves {
        change.reviews.insert(person.copy(alloc)?)?;
    } else {
        change.reviews.remove(person);
    }
    Ok(())
}

/// Adds a person to the reviews of a change, or takes the person from them. Too few reviews end its approval.
pub fn review(
    desk: &mut Desk,
    alloc: Global,
    number: ChangeNo,
    person: &Name,
    approves: bool,
) -> Result<Orders, AllocError>
    ensures desk { OnOk result (desk.new ≡ altered desk.old number
        (machine.reviewed desk.old.settings person.now approves)) }
    ensures orders { IfOk result
        (λ orders. orders ≡ notice_of desk.old number why.Reviews
        (ends_approval (machine.reviewed desk.old.settings person.now approves))) }
{
    let Some(change) = desk.change(number) else {
        return Ok(no_orders(alloc));
    };
    let was_approved = change.approved.is_some();
    let mut change = change.copy(alloc)?;
    set_review(&mut change, alloc, person, approves)?;
    if let Some(settings) = desk.settings() {
        if has_too_few_reviews(settings, &change) {
            change.approved = None;
        }
    }
    keep(desk, alloc, number, was_approved, change, Why::Reviews)
}

/// Tells the open changes whose head this commit is of a status of it: a success puts the name among those that have succeeded
/// there, and all else takes it away. If there is no memory for it, some of them may be told.
pub fn tell_heads(
    desk: &mut Desk,
    alloc: Global,
    commit: Commit,
    name: &Context,
    is_success: bool,
) -> Result<(), AllocError>
    ensures ok { OnOk result (desk.new ≡ with_told commit name.now is_success desk.old) }
    ensures no_memory { is_open_head commit desk.old ≡ false → IsOk result }
{
    if !desk.is_open_head(commit) {
        return Ok(());
    }
    let numbers = desk.open_at(alloc, commit)?;
    tell_all(desk, alloc, numbers.as_slice(), name, is_success)
}

fn tell_all(
    desk: &mut Desk,
    alloc: Global,
    numbers: &[ChangeNo],
    name: &Context,
    is_success: bool,
) -> Result<(), AllocError>
    ensures { OnOk result (desk.new ≡ machine.all_altered (with_status name.now is_success) desk.old numbers.now) }
{
    for number in numbers {
        tell_one(desk, alloc, *number, name, is_success)?;
    }
    Ok(())
}

fn tell_one(
    desk: &mut Desk,
    alloc: Global,
    number: ChangeNo,
    name: &Context,
    is_success: bool,
) -> Result<(), AllocError>
    ensures { OnOk result (desk.new ≡ altered desk.old number (with_status name.now is_success)) }
{
    match desk.alter(number, |change| tell(change, alloc, name, is_success)) {
        Some(told) => told,
        None => Ok(()),
    }
}

fn tell(
    change: &mut Change,
    alloc: Global,
    name: &Context,
    is_success: bool,
) -> Result<(), AllocError>
    ensures ok { OnOk result (change.new ≡ with_status name.now is_success change.old) }
    ensures head { change.new.head ≡ change.old.head }
    ensures phase { change.new.phase ≡ change.old.phase }
{
    if is_success {
        change.passed.insert(name.copy(alloc)?)?;
    } else {
        change.passed.remove(name);
    }
    Ok(())
}
