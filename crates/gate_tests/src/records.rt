ghost use Rattle.std.specs.Prelude.{◌≤◌};

use crate::by_commit::ByCommit;
use crate::checks::check_words;
use gate_deliveries::{Delivery, read_delivery};
use gate_hook::{HookFault, Served, serve_lines, serve_one};
use gate_queue::{Fault, Gate};
use gate_store::{Answer, Book, Keeper, PlainBook, answer_text, reread};
use gate_text::DeliveryId;
use std::alloc::Global;
use std::io;
use std::process::Abort;

const ZEROS: &str = "0000000000000000000000000000000000000000";

const ONES: &str = "1111111111111111111111111111111111111111";

const DONE: &str = "[{\"orders\":[],\"verdict\":\"done\"}]";

// A base of these digits, a role, and comments without commands.
const FACTS: &str = concat!(
    r#"{"id":"d1","event":"base","commit":"0000000000000000000000000000000000000000"}"#,
    "\n",
    r#"{"id":"d2","event":"role","person":"alice","role":"reviewer"}"#,
);

const COMMENTS: &str = concat!(
    r#"{"id":"d1","event":"comment","change":1,"person":"alice","text":"Thanks!"}"#,
    "\n",
    r#"{"id":"d1","event":"base","commit":"0000000000000000000000000000000000000000"}"#,
    "\n",
    r#"{"id":"d2","event":"base","commit":"0000000000000000000000000000000000000000"}"#,
    "\n",
    r#"{"id":"d3","event":"comment","change":1,"person":"alice","text":"Thanks!"}"#,
);

fn delivery_of(rt: &impl Abort, alloc: Global, line: &str) -> Delivery {
    read_delivery(alloc, line.as_bytes()).expect(rt, "a delivery")
}

// The deliveries of lines.
fn deliveries_of(rt: &impl Abort, alloc: Global, lines: &str) -> Vec<Delivery> {
    let mut deliveries = Vec::new(alloc);
    for line in lines.lines() {
        let delivery = delivery_of(rt, alloc, line);
        deliveries.push(delivery).expect(rt, "memory");
    }
    deliveries
}

// How many answers a run gives, and its fault.
fn told<B: Book>(rt: &impl Abort, alloc: Global, keeper: &mut Keeper<B>, lines: &str) -> String {
    let deliveries = deliveries_of(rt, alloc, lines);
    let (answers, fault) = keeper.run(alloc, deliveries.as_slice());
    let count = answers.len();
    match fault {
        None => format!(in alloc; "{count}"),
        Some(fault) => format!(in alloc; "{count} {fault}"),
    }
    .expect(rt, "memory")
}

// A run over a book, which keeps each delivery by `commit`.
fn ran<B: Book + Drop>(rt: &impl Abort, alloc: Global, book: B, lines: &str) -> String {
    let mut keeper = Keeper::new(ByCommit { book });
    let words = told(rt, alloc, &mut keeper, lines);
    drop(keeper);
    words
}

// A run by a keeper whose next batch has this number.
fn check_run(rt: &impl Abort, alloc: Global, next: u64, lines: &str, due: &str)
    requires low { 1 ≤ next }
    requires high { next ≤ 9_000_000_000_000_000 }
{
    let book = PlainBook::new(alloc, Gate::starting_at(alloc, next));
    check_words(rt, lines, ran(rt, alloc, book, lines).as_str(), due);
}

#[test]
fn runs(rt: HostRuntime) {
    check_run(&rt, rt.alloc(), 1, "", "0");
    check_run(&rt, rt.alloc(), 1, FACTS, "2");
    check_run(&rt, rt.alloc(), 8_999_999_999_999_996, FACTS, "2");
    check_run(&rt, rt.alloc(), 8_999_999_999_999_997, FACTS, "0 Full");
    check_run(&rt, rt.alloc(), 8_999_999_999_999_997, COMMENTS, "2 Full");
}

// The text of an answer, as it is read again.
fn text_of(rt: &impl Abort, alloc: Global, answer: &Answer) -> String {
    let again = reread(alloc, answer).expect(rt, "an answer");
    let text = answer_text(alloc, &again).expect(rt, "memory");
    drop(again);
    text
}

// What a delivery is answered.
fn answered<B: Book>(rt: &impl Abort, alloc: Global, keeper: &mut Keeper<B>, line: &str) -> String {
    let delivery = delivery_of(rt, alloc, line);
    let answer = keeper.deliver(alloc, &delivery).expect(rt, "an answer");
    drop(delivery);
    text_of(rt, alloc, &answer)
}

fn check_answer<B: Book>(rt: &impl Abort, alloc: Global, keeper: &mut Keeper<B>, line: &str) {
    check_words(rt, line, answered(rt, alloc, keeper, line).as_str(), DONE);
}

// The base of a gate.
fn base_of(rt: &impl Abort, alloc: Global, gate: &Gate) -> String {
    let base = gate.desk().base().expect(rt, "a base");
    String::from_str(alloc, base.text()).expect(rt, "memory")
}

// What a book keeps under an identifier.
fn kept<B: Book>(rt: &impl Abort, alloc: Global, book: &mut B, id: &str) -> String {
    let id = DeliveryId::read(alloc, id).expect(rt, "an identifier");
    match book.kept(alloc, &id).expect(rt, "memory") {
        Some(answer) => text_of(rt, alloc, &answer),
        None => String::from_str(alloc, "none").expect(rt, "memory"),
    }
}

// The book of a keeper after lines.
fn book_after(rt: &impl Abort, alloc: Global, lines: &str) -> ByCommit<PlainBook> {
    let book = PlainBook::new(alloc, Gate::new(alloc));
    let mut keeper = Keeper::new(ByCommit { book });
    for line in lines.lines() {
        check_answer(rt, alloc, &mut keeper, line);
    }
    keeper.into_book()
}

fn base_kept<B: Book>(rt: &impl Abort, alloc: Global, book: &mut B) -> String {
    let gate = book.load(alloc).expect(rt, "memory");
    let base = base_of(rt, alloc, &gate);
    drop(gate);
    base
}

// What is kept by `commit` is in the book that a keeper leaves.
#[test]
fn a_book_that_is_left(rt: HostRuntime) {
    let alloc = rt.alloc();
    let mut book = book_after(&rt, alloc, FACTS);
    check_words(&rt, "d1", kept(&rt, alloc, &mut book, "d1").as_str(), DONE);
    check_words(
        &rt,
        "d9",
        kept(&rt, alloc, &mut book, "d9").as_str(),
        "none",
    );
    let zeros = "0000000000000000000000000000000000000000";
    check_words(
        &rt,
        "load",
        base_kept(&rt, alloc, &mut book).as_str(),
        zeros,
    );
    drop(book);
}

// Tells a keeper so many bases, of digits 0 and 1 in turn, each by a delivery of its own.
fn tell_bases(rt: &impl Abort, alloc: Global, keeper: &mut Keeper<PlainBook>, count: u32) {
    for number in 0..count {
        let commit = if number % 2 == 0 { ZEROS } else { ONES };
        let line = format!(in alloc;
            "{{\"id\":\"d{number}\",\"event\":\"base\",\"commit\":\"{commit}\"}}"
        );
        check_answer(rt, alloc, keeper, line.expect(rt, "memory").as_str());
    }
}

// The book of a keeper that was told so many bases.
fn book_with_bases(rt: &impl Abort, alloc: Global, count: u32) -> PlainBook {
    let mut keeper = Keeper::new(PlainBook::new(alloc, Gate::new(alloc)));
    tell_bases(rt, alloc, &mut keeper, count);
    keeper.into_book()
}

fn check_log(rt: &impl Abort, alloc: Global, count: u32, base: &str) {
    let mut book = book_with_bases(rt, alloc, count);
    check_words(rt, "d1", kept(rt, alloc, &mut book, "d1").as_str(), DONE);
    check_words(rt, "load", base_kept(rt, alloc, &mut book).as_str(), base);
    drop(book);
}

// The log of a book is at its greatest length, or has given way to a copy of the gate, once and twice.
#[test]
fn a_log_that_is_full(rt: HostRuntime) {
    for (count, base) in [(4_096, ONES), (4_097, ZEROS), (4_098, ONES), (8_195, ZEROS)] {
        check_log(&rt, rt.alloc(), count, base);
    }
}

// A keeper whose numbers are used up.
fn full_keeper(alloc: Global) -> Keeper<PlainBook> {
    Keeper::new(PlainBook::new(alloc, Gate::starting_at(alloc, 8_999_999_999_999_997)))
}

const LINE: &str = r#"{"id":"d1","event":"role","person":"alice","role":"reviewer"}"#;

const REQUEST: &str = concat!(
    "POST /deliveries HTTP/1.1\r\nHost: here\r\nContent-Length: 61\r\n\r\n",
    r#"{"id":"d1","event":"role","person":"alice","role":"reviewer"}"#,
);

// The fault that lines meet.
fn word_of_line(rt: &impl Abort, alloc: Global) -> String {
    let mut keeper = full_keeper(alloc);
    let served = serve_lines(alloc, &mut keeper, &mut LINE.as_bytes(), &mut io::sink());
    drop(keeper);
    match served {
        Ok(count) => format!(in alloc; "{count}"),
        Err(fault) => format!(in alloc; "{fault}"),
    }
    .expect(rt, "memory")
}

// The status of a response, and its fault.
fn words_of_request(rt: &impl Abort, alloc: Global) -> String {
    let mut keeper = full_keeper(alloc);
    let served = serve_one(alloc, &mut keeper, &mut REQUEST.as_bytes(), &mut io::sink());
    drop(keeper);
    words_of(rt, alloc, &served)
}

fn words_of(rt: &impl Abort, alloc: Global, served: &Result<Served, HookFault>) -> String {
    match served {
        Ok(served) => match served.fault {
            Some(fault) => format!(in alloc; "{} {fault}", served.status.as_str()),
            None => format!(in alloc; "{}", served.status.as_str()),
        },
        Err(fault) => format!(in alloc; "{fault}"),
    }
    .expect(rt, "memory")
}

// A full gate answers no act.
#[test]
fn full_gates_over_lines_and_requests(rt: HostRuntime) {
    check_words(&rt, LINE, word_of_line(&rt, rt.alloc()).as_str(), "Full");
    let words = words_of_request(&rt, rt.alloc());
    check_words(&rt, REQUEST, words.as_str(), "503 Full");
}
