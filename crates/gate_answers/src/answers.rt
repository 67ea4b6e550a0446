ghost use Rattle.std.specs.Prelude.{◌≡◌, Some, IfOk, OnOk};
ghost use Rattle.std.specs.List.{All};
ghost use Rattle.std.specs.Option.{option_map};
ghost use Rattle.std.specs.String.{string_bytes};
ghost use Rattle.serde_json.specs.Read.{read};
ghost use Rattle.serde_json.specs.View.{view};
ghost use Rattle.gate_state.specs.declared.reply.Order.TheVariants.{Notice};
ghost use Rattle.gate_state.specs.declared.reply.Reply.TheVariants.{Denied};
ghost use Rattle.gate_answers.specs.Answers.{detail_of, head_data, heads_data, order_data, orders_data, reply_data, answer_data, answer_text_of};
ghost use Rattle.gate_answers.specs.Reading.{answer_of};
ghost use Rattle.gate_answers.specs.Limits.{IsRule, IsHead, IsOrder, IsReply, IsAnswer};

use gate_rules::Rule;
use gate_state::{Head, Order, Reply, Why};
use gate_text::{ChangeNo, List};
use serde_json::{Value, json};
use std::alloc::{AllocError, Global};

/// What one delivery is answered: a reply for each of its acts, in order.
pub type Answer = List<Reply>;

// What a denial tells beside the number and the name of its rule.
fn detail_value(alloc: Global, rule: &Rule) -> Result<Option<Value>, AllocError>
    ensures value { IfOk result (λ detail. option_map view detail ≡ detail_of rule.now) }
    ensures good { OnOk result (IsRule rule.now) }
{
    let detail = match rule {
        Rule::NotPermitted(level) => json!(in alloc; level.word())?,
        Rule::Blocked(label) => json!(in alloc; label.text())?,
        Rule::TooFewReviews(have, need) => json!(in alloc; [*have, *need])?,
        Rule::BadSettings(refusal) => json!(in alloc; *refusal)?,
        Rule::HeadStatus(name) => json!(in alloc; name.text())?,
        _ => return Ok(None),
    };
    Ok(Some(detail))
}

// A denial as JSON.
fn denied_value(alloc: Global, rule: &Rule) -> Result<Value, AllocError>
    ensures value { IfOk result (λ value. view value ≡ reply_data (Denied rule.now)) }
    ensures good { OnOk result (IsRule rule.now) }
{
    let number = rule.number();
    let word = rule.word();
    match detail_value(alloc, rule)? {
        Some(detail) => {
            json!(in alloc; {"detail": detail, "number": number, "rule": word, "verdict": "denied"})
        }
        None => json!(in alloc; {"number": number, "rule": word, "verdict": "denied"}),
    }
}

// A change and its head as JSON.
fn head_value(alloc: Global, staged: &Head) -> Result<Value, AllocError>
    ensures value { IfOk result (λ value. view value ≡ head_data staged.now) }
    ensures good { OnOk result (IsHead staged.now) }
{
    let number = staged.change.number();
    let head = staged.head.text();
    json!(in alloc; [number, head])
}

// Heads as JSON.
fn heads_value(alloc: Global, heads: &[Head]) -> Result<Value, AllocError>
    ensures value { IfOk result (λ value. view value ≡ heads_data heads.now) }
    ensures good { OnOk result (All IsHead heads.now) }
{
    let mut values = Vec::new(alloc);
    for staged in heads {
        values.push(head_value(alloc, staged)?)?;
    }
    Ok(Value::from(values))
}

// A notice as JSON.
fn notice_value(alloc: Global, change: ChangeNo, why: &Why) -> Result<Value, AllocError>
    ensures value { IfOk result (λ value. view value ≡ order_data (Notice change why.now)) }
    ensures good { OnOk result (IsOrder (Notice change why.now)) }
{
    let number = change.number();
    let word = why.word();
    match why {
        Why::Failed(name) => {
            let name = name.text();
            json!(in alloc; {"change": number, "name": name, "order": "notice", "why": word})
        }
        _ => json!(in alloc; {"change": number, "order": "notice", "why": word}),
    }
}

// An order as JSON.
fn order_value(alloc: Global, order: &Order) -> Result<Value, AllocError>
    ensures value { IfOk result (λ value. view value ≡ order_data order.now) }
    ensures good { OnOk result (IsOrder order.now) }
{
    match order {
        Order::Stage {
            batch,
            branch,
            base,
            heads,
        } => {
            let heads = heads_value(alloc, heads.as_slice())?;
            let base = base.text();
            let branch = branch.word();
            json!(in alloc; {"base": base, "batch": *batch, "branch": branch, "heads": heads, "order": "stage"})
        }
        Order::Land {
            batch,
            base,
            commit,
        } => {
            let base = base.text();
            let commit = commit.text();
            json!(in alloc; {"base": base, "batch": *batch, "commit": commit, "order": "land"})
        }
        Order::Notice { change, why } => notice_value(alloc, *change, why),
    }
}

// Orders as JSON.
fn orders_value(alloc: Global, orders: &[Order]) -> Result<Value, AllocError>
    ensures value { IfOk result (λ value. view value ≡ orders_data orders.now) }
    ensures good { OnOk result (All IsOrder orders.now) }
{
    let mut values = Vec::new(alloc);
    for order in orders {
        values.push(order_value(alloc, order)?)?;
    }
    Ok(Value::from(values))
}

// A reply as JSON.
fn reply_value(alloc: Global, reply: &Reply) -> Result<Value, AllocError>
    ensures value { IfOk result (λ value. view value ≡ reply_data reply.now) }
    ensures good { OnOk result (IsReply reply.now) }
{
    match reply {
        Reply::Done(orders) => {
            let orders = orders_value(alloc, orders.as_slice())?;
            json!(in alloc; {"orders": orders, "verdict": "done"})
        }
        Reply::Denied(rule) => denied_value(alloc, rule),
    }
}

// An answer as JSON.
fn answer_value(alloc: Global, answer: &[Reply]) -> Result<Value, AllocError>
    ensures value { IfOk result (λ value. view value ≡ answer_data answer.now) }
    ensures good { OnOk result (IsAnswer answer.now) }
{
    let mut replies = Vec::new(alloc);
    for reply in answer {
        replies.push(reply_value(alloc, reply)?)?;
    }
    Ok(Value::from(replies))
}

/// The text of an answer: a JSON list with one object for each reply, compact, names in the order of their bytes.
/// `AllocError` if there is no memory for it.
pub fn answer_text(alloc: Global, answer: &Answer) -> Result<String, AllocError>
    ensures text { IfOk result (λ text. string_bytes text ≡ answer_text_of answer.now) }
    ensures reads_back { IfOk result (λ text. read (string_bytes text) ≡ Some (answer_data answer.now)) }
    ensures reads { IfOk result (λ text. answer_of (string_bytes text) ≡ answer.now) }
    ensures good { OnOk result (IsAnswer answer.now) }
{
    answer_value(alloc, answer.as_slice())?.to_string(alloc)
}
