use crate::checks::{check_words, row_of};
use gate_answers::AnswerFault;
use gate_hook::{DeliveryFault, Field, HookFault, error_text};
use gate_queue::Fault;
use gate_text::{ChangeNo, SettingsFault, TextFault, read_settings};
use std::alloc::{AllocError, Global};
use std::process::Abort;

// A refusal of settings by its number, and as it is printed.
fn refusal_of(rt: &impl Abort, alloc: Global, fault: SettingsFault) -> String {
    format!(in alloc; "{} {fault}", fault.number()).expect(rt, "memory")
}

// Why a text is no settings.
fn refusal_to(rt: &impl Abort, alloc: Global, text: &str) -> String {
    match &read_settings(alloc, text) {
        Ok(_) => String::from_str(alloc, "settings").expect(rt, "memory"),
        Err(fault) => refusal_of(rt, alloc, *fault),
    }
}

// The text of a row, in which a `|` stands for a line feed, is refused by the words beside it.
fn check_settings(rt: &impl Abort, alloc: Global, row: &str) {
    let (text, words) = row_of(rt, row);
    let text = text.replace(alloc, "|", "\n").expect(rt, "memory");
    check_words(
        rt,
        row,
        refusal_to(rt, alloc, text.as_str()).as_str(),
        words,
    );
}

// Refusals, by their number and as they are printed. The key that is checked first is told, whichever stands first in the text.
const SETTINGS: &str = r#"
        status = [ => 1 the text is no TOML
        timeout_sec = 0|x = => 1 the text is no TOML
        timeout_sec = 60 => 2 the key status is missing
        timeout_sec = 0 => 2 the key status is missing
        block_labels = 1|max_batch_size = 0 => 2 the key status is missing
        status = [] => 3 the key status has a bad value
        timeout_sec = 0|status = [] => 3 the key status has a bad value
        max_batch_size = 0|status = 'ci' => 3 the key status has a bad value
        status = ['ci']|[pr_status] => 3 the key pr_status has a bad value
        status = ['ci']|[block_labels] => 3 the key block_labels has a bad value
        status = ['ci']|timeout_sec = 0 => 3 the key timeout_sec has a bad value
        status = ['ci']|required_approvals = 101 => 3 the key required_approvals has a bad value
        status = ['ci']|max_batch_size = 0 => 3 the key max_batch_size has a bad value
        status = ['ci']|max_batch_size = 0|timeout_sec = 0 => 3 the key timeout_sec has a bad value
        status = ['ci']|block_labels = ['']|timeout_sec = 0 => 3 the key timeout_sec has a bad value
        status = ['ci']|required_approvals = 101|timeout_sec = 0 => 3 the key timeout_sec has a bad value
        status = ['ci']|required_approvals = 101|block_labels = 1 => 3 the key block_labels has a bad value
        status = ['ci']|max_batch_size = 0|block_labels = [''] => 3 the key block_labels has a bad value
        status = ['ci']|max_batch_size = 0|required_approvals = 101 => 3 the key required_approvals has a bad value
        status = ['ci']|pr_status = 1|max_batch_size = 0 => 3 the key max_batch_size has a bad value
        status = ['ci']|pr_status = ['']|use_codeowners = 1 => 3 the key pr_status has a bad value
        status = ['ci']|max_batch_size = 0|use_codeowners = 1 => 3 the key max_batch_size has a bad value
    "#;

#[test]
fn refusals_of_settings(rt: HostRuntime) {
    for row in SETTINGS.trim().lines() {
        check_settings(&rt, rt.alloc(), row.trim());
    }
    let memory = refusal_of(&rt, rt.alloc(), SettingsFault::from(AllocError));
    check_words(&rt, "a fault of memory", memory.as_str(), "4 out of memory");
}

// A fault, as it is printed.
fn shown(rt: &impl Abort, alloc: Global, fault: TextFault) -> String {
    format!(in alloc; "{fault}").expect(rt, "memory")
}

// Why a text is no change number, as it is printed.
fn printed(rt: &impl Abort, alloc: Global, text: &str) -> String {
    match ChangeNo::read(text) {
        Ok(_) => String::from_str(alloc, "a number").expect(rt, "memory"),
        Err(fault) => shown(rt, alloc, fault),
    }
}

fn check_printed(rt: &impl Abort, alloc: Global, text: &str, words: &str) {
    check_words(rt, text, printed(rt, alloc, text).as_str(), words);
}

#[test]
fn refusals_of_texts(rt: HostRuntime) {
    let alloc = rt.alloc();
    check_printed(&rt, alloc, "", "the text is empty");
    check_printed(&rt, alloc, "10000000000", "the text is too long");
    check_printed(&rt, alloc, "1x", "no allowed byte at place 1");
    let words = "the digits begin with 0, or their number is too great";
    check_printed(&rt, alloc, "01", words);
    let memory = shown(&rt, alloc, TextFault::Memory);
    check_words(&rt, "no memory", memory.as_str(), "out of memory");
}

fn check_hook_fault(rt: &impl Abort, alloc: Global, fault: HookFault, word: &str) {
    let printed = format!(in alloc; "{fault}").expect(rt, "memory");
    check_words(rt, word, printed.as_str(), word);
}

#[test]
fn words_of_hook_faults(rt: HostRuntime) {
    check_hook_fault(&rt, rt.alloc(), HookFault::Gate(Fault::Memory), "Memory");
    check_hook_fault(&rt, rt.alloc(), HookFault::Gate(Fault::Store), "Store");
    check_hook_fault(&rt, rt.alloc(), HookFault::Gate(Fault::Full), "Full");
    check_hook_fault(&rt, rt.alloc(), HookFault::Gate(Fault::Foreign), "Foreign");
    check_hook_fault(&rt, rt.alloc(), HookFault::Read, "Read");
    check_hook_fault(&rt, rt.alloc(), HookFault::Write, "Write");
    check_hook_fault(&rt, rt.alloc(), HookFault::TooMuch, "TooMuch");
}

fn check_delivery_fault(rt: &impl Abort, alloc: Global, fault: DeliveryFault, words: &str) {
    let printed = format!(in alloc; "{fault}").expect(rt, "memory");
    check_words(rt, words, printed.as_str(), words);
}

#[test]
fn words_of_delivery_faults(rt: HostRuntime) {
    let alloc = rt.alloc();
    check_delivery_fault(&rt, alloc, DeliveryFault::NotJson, "not a JSON object");
    check_delivery_fault(&rt, alloc, DeliveryFault::UnknownEvent, "unknown event");
    let fault = DeliveryFault::BadField(Field::Approves);
    check_delivery_fault(&rt, alloc, fault, r#"bad field "approves""#);
    check_delivery_fault(&rt, alloc, DeliveryFault::Memory, "out of memory");
    let text = error_text(alloc, &DeliveryFault::Memory).expect(&rt, "memory");
    check_words(
        &rt,
        "Memory",
        text.as_str(),
        r#"{"error":"Memory","number":4}"#,
    );
}

fn check_answer_fault(rt: &impl Abort, alloc: Global, fault: AnswerFault, words: &str) {
    let printed = format!(in alloc; "{fault}").expect(rt, "memory");
    check_words(rt, words, printed.as_str(), words);
}

#[test]
fn words_of_answer_faults(rt: HostRuntime) {
    check_answer_fault(&rt, rt.alloc(), AnswerFault::NotAnswer, "not an answer");
    check_answer_fault(&rt, rt.alloc(), AnswerFault::Memory, "out of memory");
}
