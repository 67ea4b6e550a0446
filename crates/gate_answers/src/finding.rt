ghost use Rattle.std.specs.Prelude.{◌≡◌, ◌<◌, ◌^◌, ℕ, IfOk, List, Some, map};
ghost use Rattle.std.specs.List.{All};
ghost use Rattle.serde_json.specs.Data.{Data as DataOf, array, number, string, unsigned};
ghost use Rattle.serde_json.specs.View.{items_of, view};
ghost use Rattle.gate_rules.specs.Words.{level_word_of, word_of};
ghost use Rattle.gate_rules.specs.declared.role.Level.{Level as LevelOf};
ghost use Rattle.gate_rules.specs.declared.rule.Rule.{Rule as RuleOf};
ghost use Rattle.gate_state.specs.Words.{branch_word_of, why_word_of};
ghost use Rattle.gate_state.specs.declared.batch.Branch.{Branch as BranchOf};
ghost use Rattle.gate_state.specs.declared.reply.Head.{Head as HeadOf};
ghost use Rattle.gate_state.specs.declared.reply.Order.{Order as OrderOf};
ghost use Rattle.gate_state.specs.declared.reply.Reply.{Reply as ReplyOf};
ghost use Rattle.gate_state.specs.declared.reply.Why.{Why as WhyOf};
ghost use Rattle.gate_answers.specs.Answers.{answer_data, detail_of, head_data, name_of, order_data, reply_data};
ghost use Rattle.gate_answers.specs.Found as found;
ghost use Rattle.gate_answers.specs.Found.{Finds, FindsItems, FindsText, seen};
ghost use Rattle.gate_answers.specs.Limits.{IsChange, IsCommit, IsPlain, IsBatch, IsRule, IsWhy, IsHead, IsOrder, IsReply, IsAnswer};

use crate::answers::Answer;
use crate::reading::AnswerFault;
use gate_rules::{Level, Rule};
use gate_state::{Branch, Head, Heads, Order, Orders, Reply, Why};
use gate_text::{ChangeNo, Commit, Context, Label, TextFault, unless_bad};
use serde_json::Value;
use std::alloc::Global;

// Each of these says: if the value is written for something that keeps its limits, that is found, unless memory is wanting.

// What a small text gives.
fn small<T>(read: Result<T, TextFault>) -> Result<T, AnswerFault>
    ensures { result ≡ found.small read }
{
    unless_bad(read)?.ok_or(AnswerFault::NotAnswer)
}

fn text_in(value: Option<&Value>) -> Result<&str, AnswerFault>
    ensures again { (text : List ℕ) → seen value.entry ≡ Some (string text) → FindsText result text }
{
    value.and_then(Value::as_str).ok_or(AnswerFault::NotAnswer)
}

fn number_in(value: Option<&Value>) -> Result<u64, AnswerFault>
    ensures again { (whole : ℕ) → seen value.entry ≡ Some (number (unsigned whole)) → Finds result whole }
    ensures good { IfOk result IsBatch }
{
    value.and_then(Value::as_u64).ok_or(AnswerFault::NotAnswer)
}

#[tactic(auto, using(crate::proofs::Items::items_same))]
fn items_in(value: Option<&Value>) -> Result<&[Value], AnswerFault>
    ensures again { (items : List DataOf) → seen value.entry ≡ Some (array (items_of items)) → FindsItems result items }
{
    let values = value
        .and_then(Value::as_array)
        .ok_or(AnswerFault::NotAnswer)?;
    Ok(values.as_slice())
}

fn count_in(value: Option<&Value>) -> Result<u32, AnswerFault>
    ensures again { (whole : ℕ) → whole < 2 ^ 32 → seen value.entry ≡ Some (number (unsigned whole)) → Finds result whole }
{
    u32::try_from(number_in(value)?).map_err(|_| AnswerFault::NotAnswer)
}

fn refusal_in(value: Option<&Value>) -> Result<u8, AnswerFault>
    ensures again { (whole : ℕ) → whole < 2 ^ 8 → seen value.entry ≡ Some (number (unsigned whole)) → Finds result whole }
{
    u8::try_from(number_in(value)?).map_err(|_| AnswerFault::NotAnswer)
}

fn change_in(value: Option<&Value>) -> Result<ChangeNo, AnswerFault>
    ensures again { (whole : ℕ) → IsChange whole → seen value.entry ≡ Some (number (unsigned whole)) → Finds result whole }
    ensures good { IfOk result IsChange }
{
    ChangeNo::from_number(number_in(value)?).ok_or(AnswerFault::NotAnswer)
}

fn commit_in(value: Option<&Value>) -> Result<Commit, AnswerFault>
    ensures again { (text : List ℕ) → IsCommit text → seen value.entry ≡ Some (string text) → Finds result text }
    ensures good { IfOk result IsCommit }
{
    small(Commit::read(text_in(value)?))
}

fn label_in(alloc: Global, value: Option<&Value>) -> Result<Label, AnswerFault>
    ensures again { (text : List ℕ) → IsPlain text → seen value.entry ≡ Some (string text) → Finds result text }
    ensures good { IfOk result IsPlain }
{
    small(Label::read(alloc, text_in(value)?))
}

fn context_in(alloc: Global, value: Option<&Value>) -> Result<Context, AnswerFault>
    ensures again { (text : List ℕ) → IsPlain text → seen value.entry ≡ Some (string text) → Finds result text }
    ensures good { IfOk result IsPlain }
{
    small(Context::read(alloc, text_in(value)?))
}

fn not_permitted_in(detail: Option<&Value>) -> Result<Rule, AnswerFault>
    ensures again { (level : LevelOf) → seen detail.entry ≡ Some (string (level_word_of level)) → Finds result (Rule.NotPermitted level) }
    ensures good { IfOk result IsRule }
{
    let level = Level::called(text_in(detail)?).ok_or(AnswerFault::NotAnswer)?;
    Ok(Rule::NotPermitted(level))
}

fn blocked_in(alloc: Global, detail: Option<&Value>) -> Result<Rule, AnswerFault>
    ensures again { (label : List ℕ) → IsPlain label → seen detail.entry ≡ Some (string label) → Finds result (Rule.Blocked label) }
    ensures good { IfOk result IsRule }
{
    let label = label_in(alloc, detail)?;
    Ok(Rule::Blocked(label))
}

fn counts_in(pair: &Value) -> Result<Rule, AnswerFault>
    ensures again { (have need : ℕ) → IsRule (Rule.TooFewReviews have need)
        → Some (view pair.now) ≡ detail_of (Rule.TooFewReviews have need) → Finds result (Rule.TooFewReviews have need) }
    ensures good { IfOk result IsRule }
{
    let have = count_in(pair.get(0usize))?;
    let need = count_in(pair.get(1usize))?;
    Ok(Rule::TooFewReviews(have, need))
}

fn too_few_in(detail: Option<&Value>) -> Result<Rule, AnswerFault>
    ensures again { (have need : ℕ) → IsRule (Rule.TooFewReviews have need)
        → seen detail.entry ≡ detail_of (Rule.TooFewReviews have need) → Finds result (Rule.TooFewReviews have need) }
    ensures good { IfOk result IsRule }
{
    counts_in(detail.ok_or(AnswerFault::NotAnswer)?)
}

fn bad_settings_in(detail: Option<&Value>) -> Result<Rule, AnswerFault>
    ensures again { (refusal : ℕ) → refusal < 2 ^ 8 → seen detail.entry ≡ Some (number (unsigned refusal))
        → Finds result (Rule.BadSettings refusal) }
    ensures good { IfOk result IsRule }
{
    let refusal = refusal_in(detail)?;
    Ok(Rule::BadSettings(refusal))
}

fn head_status_in(alloc: Global, detail: Option<&Value>) -> Result<Rule, AnswerFault>
    ensures again { (name : List ℕ) → IsPlain name → seen detail.entry ≡ Some (string name) → Finds result (Rule.HeadStatus name) }
    ensures good { IfOk result IsRule }
{
    let name = context_in(alloc, detail)?;
    Ok(Rule::HeadStatus(name))
}

fn rule_with(alloc: Global, word: &str, detail: Option<&Value>) -> Result<Rule, AnswerFault>
    ensures again { (rule : RuleOf) → IsRule rule → word.now ≡ word_of rule → seen detail.entry ≡ detail_of rule → Finds result rule }
    ensures good { IfOk result IsRule }
{
    match word {
        "NotPermitted" => not_permitted_in(detail),
        "Blocked" => blocked_in(alloc, detail),
        "TooFewReviews" => too_few_in(detail),
        "BadSettings" => bad_settings_in(detail),
        "HeadStatus" => head_status_in(alloc, detail),
        _ => Rule::called(word).ok_or(AnswerFault::NotAnswer),
    }
}

fn denied_in(alloc: Global, value: &Value) -> Result<Reply, AnswerFault>
    ensures again { (rule : RuleOf) → IsRule rule → view value.now ≡ reply_data (Reply.Denied rule) → Finds result (Reply.Denied rule) }
    ensures good { IfOk result IsReply }
{
    let word = text_in(value.get("rule"))?;
    let rule = rule_with(alloc, word, value.get("detail"))?;
    Ok(Reply::Denied(rule))
}

fn head_in(pair: &Value) -> Result<Head, AnswerFault>
    ensures again { (staged : HeadOf) → IsHead staged → view pair.now ≡ head_data staged → Finds result staged }
    ensures good { IfOk result IsHead }
{
    let change = change_in(pair.get(0usize))?;
    let head = commit_in(pair.get(1usize))?;
    Ok(Head { change, head })
}

fn heads_in(alloc: Global, values: &[Value]) -> Result<Heads, AnswerFault>
    ensures again { (heads : List HeadOf) → All IsHead heads → map view values.now ≡ map head_data heads → Finds result heads }
    ensures good { IfOk result (All IsHead) }
{
    let mut heads = Heads::from(Vec::new(alloc));
    for value in values {
        heads.push(head_in(value)?)?;
    }
    Ok(heads)
}

fn branch_in(value: Option<&Value>) -> Result<Branch, AnswerFault>
    ensures again { (branch : BranchOf) → seen value.entry ≡ Some (string (branch_word_of branch)) → Finds result branch }
{
    Branch::called(text_in(value)?).ok_or(AnswerFault::NotAnswer)
}

fn stage_in(alloc: Global, value: &Value) -> Result<Order, AnswerFault>
    ensures again { (batch : ℕ) (branch : BranchOf) (base : List ℕ) (heads : List HeadOf) → IsOrder (Order.Stage batch branch base heads)
        → view value.now ≡ order_data (Order.Stage batch branch base heads) → Finds result (Order.Stage batch branch base heads) }
    ensures good { IfOk result IsOrder }
{
    let batch = number_in(value.get("batch"))?;
    let branch = branch_in(value.get("branch"))?;
    let base = commit_in(value.get("base"))?;
    let heads = heads_in(alloc, items_in(value.get("heads"))?)?;
    Ok(Order::Stage {
        batch,
        branch,
        base,
        heads,
    })
}

fn land_in(value: &Value) -> Result<Order, AnswerFault>
    ensures again { (batch : ℕ) (base commit : List ℕ) → IsOrder (Order.Land batch base commit)
        → view value.now ≡ order_data (Order.Land batch base commit) → Finds result (Order.Land batch base commit) }
    ensures good { IfOk result IsOrder }
{
    let batch = number_in(value.get("batch"))?;
    let base = commit_in(value.get("base"))?;
    let commit = commit_in(value.get("commit"))?;
    Ok(Order::Land {
        batch,
        base,
        commit,
    })
}

fn failed_in(alloc: Global, name: Option<&Value>) -> Result<Why, AnswerFault>
    ensures again { (status : List ℕ) → IsPlain status → seen name.entry ≡ Some (string status) → Finds result (Why.Failed status) }
    ensures good { IfOk result IsWhy }
{
    let name = context_in(alloc, name)?;
    Ok(Why::Failed(name))
}

fn why_with(alloc: Global, word: &str, name: Option<&Value>) -> Result<Why, AnswerFault>
    ensures again { (why : WhyOf) → IsWhy why → word.now ≡ why_word_of why → seen name.entry ≡ name_of why → Finds result why }
    ensures good { IfOk result IsWhy }
{
    match word {
        "Failed" => failed_in(alloc, name),
        _ => Why::called(word).ok_or(AnswerFault::NotAnswer),
    }
}

fn notice_in(alloc: Global, value: &Value) -> Result<Order, AnswerFault>
    ensures again { (change : ℕ) (why : WhyOf) → IsOrder (Order.Notice change why)
        → view value.now ≡ order_data (Order.Notice change why) → Finds result (Order.Notice change why) }
    ensures good { IfOk result IsOrder }
{
    let change = change_in(value.get("change"))?;
    let word = text_in(value.get("why"))?;
    let why = why_with(alloc, word, value.get("name"))?;
    Ok(Order::Notice { change, why })
}

fn order_in(alloc: Global, value: &Value) -> Result<Order, AnswerFault>
    ensures again { (order : OrderOf) → IsOrder order → view value.now ≡ order_data order → Finds result order }
    ensures good { IfOk result IsOrder }
{
    match text_in(value.get("order"))? {
        "stage" => stage_in(alloc, value),
        "land" => land_in(value),
        "notice" => notice_in(alloc, value),
        _ => Err(AnswerFault::NotAnswer),
    }
}

fn orders_in(alloc: Global, values: &[Value]) -> Result<Orders, AnswerFault>
    ensures again { (orders : List OrderOf) → All IsOrder orders → map view values.now ≡ map order_data orders → Finds result orders }
    ensures good { IfOk result (All IsOrder) }
{
    let mut orders = Orders::from(Vec::new(alloc));
    for value in values {
        orders.push(order_in(alloc, value)?)?;
    }
    Ok(orders)
}

fn done_in(alloc: Global, value: &Value) -> Result<Reply, AnswerFault>
    ensures again { (orders : List OrderOf) → All IsOrder orders → view value.now ≡ reply_data (Reply.Done orders)
        → Finds result (Reply.Done orders) }
    ensures good { IfOk result IsReply }
{
    let orders = orders_in(alloc, items_in(value.get("orders"))?)?;
    Ok(Reply::Done(orders))
}

fn reply_in(alloc: Global, value: &Value) -> Result<Reply, AnswerFault>
    ensures again { (reply : ReplyOf) → IsReply reply → view value.now ≡ reply_data reply → Finds result reply }
    ensures good { IfOk result IsReply }
{
    match text_in(value.get("verdict"))? {
        "done" => done_in(alloc, value),
        "denied" => denied_in(alloc, value),
        _ => Err(AnswerFault::NotAnswer),
    }
}

fn replies_in(alloc: Global, values: &[Value]) -> Result<Answer, AnswerFault>
    ensures again { (replies : List ReplyOf) → IsAnswer replies → map view values.now ≡ map reply_data replies → Finds result replies }
    ensures good { IfOk result IsAnswer }
{
    let mut replies = Answer::from(Vec::new(alloc));
    for value in values {
        replies.push(reply_in(alloc, value)?)?;
    }
    Ok(replies)
}

/// The answer that is found in a value by looking up each part under its name: if the value is written for an answer, that one.
/// No part is looked for that has no place in an answer, so the value may be another than the one that is written for what is
/// found.
pub(crate) fn answer_in(alloc: Global, value: &Value) -> Result<Answer, AnswerFault>
    ensures again { (answer : List ReplyOf) → IsAnswer answer → view value.now ≡ answer_data answer → Finds result answer }
    ensures good { IfOk result IsAnswer }
{
    let values = items_in(Some(value))?;
    replies_in(alloc, values)
}
