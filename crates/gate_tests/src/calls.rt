ghost use Rattle.std.specs.Prelude.{◌≤◌};
ghost use Rattle.gate_state.specs.Acts.{ActKeepsLimits};

use crate::checks::{check_that, check_words, row_of};
use gate_deliveries::{acts_of, read_delivery};
use gate_queue::{Act, Fault, Gate, Reply};
use gate_rules::{Desk, Rule};
use gate_text::{Spoken, read_comment};
use std::alloc::Global;
use std::process::Abort;

// The last act of a delivery.
pub(crate) fn act_of(rt: &impl Abort, alloc: Global, line: &str) -> Act
    ensures { ActKeepsLimits result }
{
    let delivery = read_delivery(alloc, line.as_bytes()).expect(rt, "a delivery");
    let mut acts = acts_of(alloc, &delivery).expect(rt, "memory");
    drop(delivery);
    acts.pop().expect(rt, "an act")
}

// The rule that would deny the act of a line.
fn refusal_to(rt: &impl Abort, alloc: Global, gate: &Gate, line: &str) -> Option<Rule> {
    let act = act_of(rt, alloc, line);
    let rule = gate.refusal(alloc, &act).expect(rt, "memory");
    drop(act);
    rule
}

// What the gate gives for the act of a line. What is dropped by a call is cheaper to prove than what is left to the end of its
// scope, so acts, gates and replies are.
fn given(rt: &impl Abort, alloc: Global, gate: Gate, line: &str) -> Result<(Gate, Reply), Fault> {
    let act = act_of(rt, alloc, line);
    let done = gate.act(alloc, &act);
    drop(act);
    done
}

// Whether a reply denies by just the rule that a refusal names.
fn is_denied(refusal: &Option<Rule>, reply: &Reply) -> bool {
    match (refusal, reply) {
        (None, Reply::Done(_)) => true,
        (Some(rule), Reply::Denied(denial)) => rule == denial,
        _ => false,
    }
}

fn word_of(refusal: &Option<Rule>) -> &'static str {
    match refusal {
        None => "done",
        Some(rule) => rule.word(),
    }
}

// The gate after the act of a line, which the rule of this word denies, or none. The gate has said so before.
fn stepped(rt: &impl Abort, alloc: Global, gate: Gate, line: &str, word: &str) -> Gate {
    let refusal = refusal_to(rt, alloc, &gate, line);
    check_words(rt, line, word_of(&refusal), word);
    let (gate, reply) = given(rt, alloc, gate, line).expect(rt, "memory");
    check_that(rt, line, is_denied(&refusal, &reply));
    drop(refusal);
    drop(reply);
    gate
}

// The numbers of all batches in order of service.
fn queue_words(rt: &impl Abort, alloc: Global, gate: &Gate) -> String {
    let mut words = String::new(alloc);
    for number in gate.queue(alloc).expect(rt, "memory") {
        write!(words, " {number}").expect(rt, "memory");
    }
    words
}

// Puts each change of a gate on a desk, which then shows it.
fn put_each(rt: &impl Abort, alloc: Global, desk: &mut Desk, gate: &Gate) {
    for (number, change) in gate.desk().changes().iter() {
        desk.put_change(alloc, *number, change).expect(rt, "memory");
        check_that(rt, "a change", desk.change(*number) == Some(change));
    }
}

// How many changes a new desk has onto which those of a gate are put.
fn changes_put(rt: &impl Abort, alloc: Global, gate: &Gate) -> usize {
    let mut desk = Desk::new(alloc);
    put_each(rt, alloc, &mut desk, gate);
    let many = desk.changes().len();
    drop(desk);
    many
}

// The gate after a row.
fn told(rt: &impl Abort, alloc: Global, gate: Gate, line: &str) -> Gate {
    let (line, rest) = row_of(rt, line);
    let (word, shown) = row_of(rt, rest);
    let gate = stepped(rt, alloc, gate, line, word);
    let batches = queue_words(rt, alloc, &gate);
    let found = format!(in alloc; "{} changes:{batches}", changes_put(rt, alloc, &gate));
    check_words(rt, line, found.expect(rt, "memory").as_str(), shown);
    gate
}

// A delivery, the rule that denies it or `done`, and how many changes and which batches there are then, in order of service.
const STORY: &str = r#"
        {"id":"d","event":"tick","now":0} => done => 0 changes:
        {"id":"d","event":"role","person":"alice","role":"reviewer"} => done => 0 changes:
        {"id":"d","event":"settings","text":"status = ['ci']\nmax_batch_size = 1"} => done => 0 changes:
        {"id":"d","event":"settings","text":""} => BadSettings => 0 changes:
        {"id":"d","event":"base","commit":"0000000000000000000000000000000000000000"} => done => 0 changes:
        {"id":"d","event":"comment","change":1,"person":"alice","text":"bors r+"} => UnknownChange => 0 changes:
        {"id":"d","event":"opened","change":1,"author":"carol","head":"aaaaaaaaaaaaaaaaaaaaaaaaaaaaaaaaaaaaaaaa"} => done => 1 changes:
        {"id":"d","event":"opened","change":2,"author":"carol","head":"bbbbbbbbbbbbbbbbbbbbbbbbbbbbbbbbbbbbbbbb"} => done => 2 changes:
        {"id":"d","event":"opened","change":3,"author":"dave","head":"cccccccccccccccccccccccccccccccccccccccc"} => done => 3 changes:
        {"id":"d","event":"comment","change":1,"person":"alice","text":"bors r+"} => done => 3 changes: 1
        {"id":"d","event":"comment","change":2,"person":"alice","text":"bors r+"} => done => 3 changes: 1 2
        {"id":"d","event":"comment","change":3,"person":"alice","text":"bors p=5"} => done => 3 changes: 1 2
        {"id":"d","event":"comment","change":3,"person":"alice","text":"bors r=zoe,al"} => done => 3 changes: 3 1 2
        {"id":"d","event":"comment","change":3,"person":"carol","text":"bors r-"} => NotPermitted => 3 changes: 3 1 2
        {"id":"d","event":"labeled","change":1,"label":"hold"} => done => 3 changes: 3 1 2
    "#;

#[test]
fn calls_that_no_delivery_makes(rt: HostRuntime) {
    let alloc = rt.alloc();
    let mut gate = Gate::new(alloc);
    for line in STORY.trim().lines() {
        gate = told(&rt, alloc, gate, line.trim());
    }
    drop(gate);
}

// Whether a gate whose first batch would have the number is full, so that it does no act.
fn is_full(rt: &impl Abort, alloc: Global, next: u64, line: &str) -> bool
    requires low { 1 ≤ next }
    requires high { next ≤ 9_000_000_000_000_000 }
{
    match given(rt, alloc, Gate::starting_at(alloc, next), line) {
        Ok((gate, reply)) => {
            drop(gate);
            drop(reply);
            false
        }
        Err(fault) => fault == Fault::Full,
    }
}

// A full gate has a refusal for an act all the same.
fn check_refusal(rt: &impl Abort, alloc: Global, line: &str, rule: &Rule) {
    let gate = Gate::starting_at(alloc, 9_000_000_000_000_000);
    let refusal = refusal_to(rt, alloc, &gate, line);
    drop(gate);
    check_that(rt, line, refusal.as_ref() == Some(rule));
}

// No act is done if the numbers are used up, and each is if one more fits.
fn check_last_number(rt: &impl Abort, alloc: Global, line: &str) {
    check_that(rt, line, is_full(rt, alloc, 8_999_999_999_999_997, line));
    check_that(rt, line, !is_full(rt, alloc, 8_999_999_999_999_996, line));
}

const ON_FULL_GATES: &str = r#"
        {"id":"d","event":"role","person":"alice","role":"reviewer"}
        {"id":"d","event":"base","commit":"0000000000000000000000000000000000000000"}
        {"id":"d","event":"opened","change":1,"author":"carol","head":"aaaaaaaaaaaaaaaaaaaaaaaaaaaaaaaaaaaaaaaa"}
        {"id":"d","event":"comment","change":1,"person":"alice","text":"bors r+"}
        {"id":"d","event":"settings","text":""}
        {"id":"d","event":"pushed","change":1,"head":"aaaaaaaaaaaaaaaaaaaaaaaaaaaaaaaaaaaaaaaa"}
        {"id":"d","event":"conflict","batch":1}
        {"id":"d","event":"status","commit":"dddddddddddddddddddddddddddddddddddddddd","name":"ci","state":"error"}
        {"id":"d","event":"refused","batch":1}
        {"id":"d","event":"tick","now":5}
        {"id":"d","event":"closed","change":1}
        {"id":"d","event":"labeled","change":1,"label":"hold"}
        {"id":"d","event":"unlabeled","change":1,"label":"hold"}
        {"id":"d","event":"review","change":1,"person":"mia","head":"aaaaaaaaaaaaaaaaaaaaaaaaaaaaaaaaaaaaaaaa","approves":true}
        {"id":"d","event":"staged","batch":1,"commit":"dddddddddddddddddddddddddddddddddddddddd"}
    "#;

#[test]
fn full_gates(rt: HostRuntime) {
    let alloc = rt.alloc();
    for line in ON_FULL_GATES.trim().lines() {
        check_last_number(&rt, alloc, line);
    }
    let closed = r#"{"id":"d","event":"closed","change":1}"#;
    check_refusal(&rt, alloc, closed, &Rule::UnknownChange);
    gate_queue::empty_history_is_legal();
}

// Whether a command is equal to its copy.
fn is_copied(rt: &impl Abort, alloc: Global, spoken: &Spoken) -> bool {
    match spoken {
        Spoken::Known(command) => {
            let copy = command.copy(alloc).expect(rt, "memory");
            let is_same = copy == *command;
            drop(copy);
            is_same
        }
        Spoken::Unknown => false,
    }
}

// All eleven commands.
const COMMANDS: &str =
    "bors ping\nbors r+\nbors r=zoe,al\nbors r-\nbors p=5\nbors try\nbors try-\nbors d+\nbors d=zoe\nbors d-\nbors retry";

#[test]
fn copies_of_commands(rt: HostRuntime) {
    let spoken = read_comment(rt.alloc(), COMMANDS).expect(&rt, "memory");
    check_that(&rt, COMMANDS, spoken.len() == 11);
    for one in spoken.iter() {
        check_that(&rt, COMMANDS, is_copied(&rt, rt.alloc(), one));
    }
}
