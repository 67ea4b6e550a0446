use crate::calls::act_of;
use crate::checks::check_pair;
use gate_answers::{Answer, read_answer};
use gate_queue::Act;
use std::alloc::Global;
use std::process::Abort;

// Deliveries, no two of which are the same act. Of acts and replies the prover finds no proof by itself that `==` is equality.
const ACTS: &str = r#"
        {"id":"d","event":"comment","change":1,"person":"alice","text":"bors r+"}
        {"id":"d","event":"comment","change":2,"person":"alice","text":"bors r+"}
        {"id":"d","event":"comment","change":1,"person":"mia","text":"bors r+"}
        {"id":"d","event":"comment","change":1,"person":"alice","text":"bors ping"}
        {"id":"d","event":"comment","change":1,"person":"alice","text":"bors r-"}
        {"id":"d","event":"comment","change":1,"person":"alice","text":"bors r=zoe"}
        {"id":"d","event":"comment","change":1,"person":"alice","text":"bors r=al"}
        {"id":"d","event":"comment","change":1,"person":"alice","text":"bors r=zoe,al"}
        {"id":"d","event":"comment","change":1,"person":"alice","text":"bors r=al,zoe"}
        {"id":"d","event":"comment","change":1,"person":"alice","text":"bors p=1"}
        {"id":"d","event":"comment","change":1,"person":"alice","text":"bors p=-1"}
        {"id":"d","event":"comment","change":1,"person":"alice","text":"bors try"}
        {"id":"d","event":"comment","change":1,"person":"alice","text":"bors try-"}
        {"id":"d","event":"comment","change":1,"person":"alice","text":"bors d+"}
        {"id":"d","event":"comment","change":1,"person":"alice","text":"bors d=zoe"}
        {"id":"d","event":"comment","change":1,"person":"alice","text":"bors d=al"}
        {"id":"d","event":"comment","change":1,"person":"alice","text":"bors d-"}
        {"id":"d","event":"comment","change":1,"person":"alice","text":"bors retry"}
        {"id":"d","event":"comment","change":1,"person":"alice","text":"bors dance"}
        {"id":"d","event":"role","person":"alice","role":"member"}
        {"id":"d","event":"role","person":"alice","role":"reviewer"}
        {"id":"d","event":"role","person":"mia","role":"member"}
        {"id":"d","event":"settings","text":"a"}
        {"id":"d","event":"settings","text":"b"}
        {"id":"d","event":"base","commit":"aaaaaaaaaaaaaaaaaaaaaaaaaaaaaaaaaaaaaaaa"}
        {"id":"d","event":"base","commit":"bbbbbbbbbbbbbbbbbbbbbbbbbbbbbbbbbbbbbbbb"}
        {"id":"d","event":"opened","change":1,"author":"carol","head":"aaaaaaaaaaaaaaaaaaaaaaaaaaaaaaaaaaaaaaaa"}
        {"id":"d","event":"opened","change":2,"author":"carol","head":"aaaaaaaaaaaaaaaaaaaaaaaaaaaaaaaaaaaaaaaa"}
        {"id":"d","event":"opened","change":1,"author":"dave","head":"aaaaaaaaaaaaaaaaaaaaaaaaaaaaaaaaaaaaaaaa"}
        {"id":"d","event":"opened","change":1,"author":"carol","head":"bbbbbbbbbbbbbbbbbbbbbbbbbbbbbbbbbbbbbbbb"}
        {"id":"d","event":"pushed","change":1,"head":"aaaaaaaaaaaaaaaaaaaaaaaaaaaaaaaaaaaaaaaa"}
        {"id":"d","event":"pushed","change":2,"head":"aaaaaaaaaaaaaaaaaaaaaaaaaaaaaaaaaaaaaaaa"}
        {"id":"d","event":"pushed","change":1,"head":"bbbbbbbbbbbbbbbbbbbbbbbbbbbbbbbbbbbbbbbb"}
        {"id":"d","event":"closed","change":1}
        {"id":"d","event":"closed","change":2}
        {"id":"d","event":"labeled","change":1,"label":"a"}
        {"id":"d","event":"labeled","change":2,"label":"a"}
        {"id":"d","event":"labeled","change":1,"label":"b"}
        {"id":"d","event":"unlabeled","change":1,"label":"a"}
        {"id":"d","event":"unlabeled","change":2,"label":"a"}
        {"id":"d","event":"unlabeled","change":1,"label":"b"}
        {"id":"d","event":"review","change":1,"person":"mia","head":"aaaaaaaaaaaaaaaaaaaaaaaaaaaaaaaaaaaaaaaa","approves":true}
        {"id":"d","event":"review","change":2,"person":"mia","head":"aaaaaaaaaaaaaaaaaaaaaaaaaaaaaaaaaaaaaaaa","approves":true}
        {"id":"d","event":"review","change":1,"person":"al","head":"aaaaaaaaaaaaaaaaaaaaaaaaaaaaaaaaaaaaaaaa","approves":true}
        {"id":"d","event":"review","change":1,"person":"mia","head":"bbbbbbbbbbbbbbbbbbbbbbbbbbbbbbbbbbbbbbbb","approves":true}
        {"id":"d","event":"review","change":1,"person":"mia","head":"aaaaaaaaaaaaaaaaaaaaaaaaaaaaaaaaaaaaaaaa","approves":false}
        {"id":"d","event":"staged","batch":1,"commit":"aaaaaaaaaaaaaaaaaaaaaaaaaaaaaaaaaaaaaaaa"}
        {"id":"d","event":"staged","batch":2,"commit":"aaaaaaaaaaaaaaaaaaaaaaaaaaaaaaaaaaaaaaaa"}
        {"id":"d","event":"staged","batch":1,"commit":"bbbbbbbbbbbbbbbbbbbbbbbbbbbbbbbbbbbbbbbb"}
        {"id":"d","event":"conflict","batch":1}
        {"id":"d","event":"conflict","batch":2}
        {"id":"d","event":"status","commit":"aaaaaaaaaaaaaaaaaaaaaaaaaaaaaaaaaaaaaaaa","name":"ci","state":"success"}
        {"id":"d","event":"status","commit":"bbbbbbbbbbbbbbbbbbbbbbbbbbbbbbbbbbbbbbbb","name":"ci","state":"success"}
        {"id":"d","event":"status","commit":"aaaaaaaaaaaaaaaaaaaaaaaaaaaaaaaaaaaaaaaa","name":"lint","state":"success"}
        {"id":"d","event":"status","commit":"aaaaaaaaaaaaaaaaaaaaaaaaaaaaaaaaaaaaaaaa","name":"ci","state":"failure"}
        {"id":"d","event":"status","commit":"aaaaaaaaaaaaaaaaaaaaaaaaaaaaaaaaaaaaaaaa","name":"ci","state":"error"}
        {"id":"d","event":"status","commit":"aaaaaaaaaaaaaaaaaaaaaaaaaaaaaaaaaaaaaaaa","name":"ci","state":"pending"}
        {"id":"d","event":"refused","batch":1}
        {"id":"d","event":"refused","batch":2}
        {"id":"d","event":"tick","now":1}
        {"id":"d","event":"tick","now":2}
    "#;

fn is_act(rt: &impl Abort, alloc: Global, act: &Act, line: &str) -> bool {
    let other = act_of(rt, alloc, line);
    let is_same = *act == other;
    drop(other);
    is_same
}

// The act of a line is equal to no act of another line.
fn check_act(rt: &impl Abort, alloc: Global, act: &Act, line: &str) {
    for other in ACTS.trim().lines() {
        check_pair(rt, line, other, is_act(rt, alloc, act, other));
    }
}

#[test]
fn acts_that_are_equal(rt: HostRuntime) {
    for line in ACTS.trim().lines() {
        let act = act_of(&rt, rt.alloc(), line);
        check_act(&rt, rt.alloc(), &act, line);
        drop(act);
    }
}

// Texts of answers, no two of which are the same answer.
const ANSWERS: &str = r#"
        [{"orders":[],"verdict":"done"}]
        [{"number":1,"rule":"UnknownChange","verdict":"denied"}]
        [{"number":4,"rule":"NotOpen","verdict":"denied"}]
        [{"detail":"Reviewer","number":3,"rule":"NotPermitted","verdict":"denied"}]
        [{"detail":"ReviewerOrDelegate","number":3,"rule":"NotPermitted","verdict":"denied"}]
        [{"detail":"hold","number":10,"rule":"Blocked","verdict":"denied"}]
        [{"detail":"wip","number":10,"rule":"Blocked","verdict":"denied"}]
        [{"detail":[0,1],"number":11,"rule":"TooFewReviews","verdict":"denied"}]
        [{"detail":[0,2],"number":11,"rule":"TooFewReviews","verdict":"denied"}]
        [{"detail":[1,2],"number":11,"rule":"TooFewReviews","verdict":"denied"}]
        [{"detail":1,"number":17,"rule":"BadSettings","verdict":"denied"}]
        [{"detail":2,"number":17,"rule":"BadSettings","verdict":"denied"}]
        [{"detail":"ci","number":21,"rule":"HeadStatus","verdict":"denied"}]
        [{"detail":"lint","number":21,"rule":"HeadStatus","verdict":"denied"}]
        [{"orders":[{"change":1,"order":"notice","why":"Closed"}],"verdict":"done"}]
        [{"orders":[{"change":2,"order":"notice","why":"Closed"}],"verdict":"done"}]
        [{"orders":[{"change":1,"order":"notice","why":"Pushed"}],"verdict":"done"}]
        [{"orders":[{"change":1,"order":"notice","why":"Settings"}],"verdict":"done"}]
        [{"orders":[{"change":1,"order":"notice","why":"Settings"},{"change":2,"order":"notice","why":"Settings"}],"verdict":"done"}]
        [{"orders":[{"change":1,"order":"notice","why":"Settings"},{"change":3,"order":"notice","why":"Settings"}],"verdict":"done"}]
        [{"orders":[{"change":1,"order":"notice","why":"TimedOut"}],"verdict":"done"}]
        [{"orders":[{"change":1,"order":"notice","why":"TimedOut"},{"base":"0000000000000000000000000000000000000000","batch":2,"branch":"staging","heads":[[2,"bbbbbbbbbbbbbbbbbbbbbbbbbbbbbbbbbbbbbbbb"]],"order":"stage"}],"verdict":"done"}]
        [{"orders":[{"change":1,"order":"notice","why":"TryFailed"}],"verdict":"done"}]
        [{"orders":[{"change":1,"order":"notice","why":"TryPassed"}],"verdict":"done"}]
        [{"orders":[{"change":1,"name":"ci","order":"notice","why":"Failed"}],"verdict":"done"}]
        [{"orders":[{"change":1,"name":"lint","order":"notice","why":"Failed"}],"verdict":"done"}]
        [{"orders":[{"change":2,"name":"ci","order":"notice","why":"Failed"}],"verdict":"done"}]
        [{"orders":[{"base":"0000000000000000000000000000000000000000","batch":1,"branch":"staging","heads":[[1,"aaaaaaaaaaaaaaaaaaaaaaaaaaaaaaaaaaaaaaaa"]],"order":"stage"}],"verdict":"done"}]
        [{"orders":[{"base":"0000000000000000000000000000000000000000","batch":2,"branch":"staging","heads":[[1,"aaaaaaaaaaaaaaaaaaaaaaaaaaaaaaaaaaaaaaaa"]],"order":"stage"}],"verdict":"done"}]
        [{"orders":[{"base":"0000000000000000000000000000000000000000","batch":1,"branch":"trying","heads":[[1,"aaaaaaaaaaaaaaaaaaaaaaaaaaaaaaaaaaaaaaaa"]],"order":"stage"}],"verdict":"done"}]
        [{"orders":[{"base":"1111111111111111111111111111111111111111","batch":1,"branch":"staging","heads":[[1,"aaaaaaaaaaaaaaaaaaaaaaaaaaaaaaaaaaaaaaaa"]],"order":"stage"}],"verdict":"done"}]
        [{"orders":[{"base":"0000000000000000000000000000000000000000","batch":1,"branch":"staging","heads":[[1,"bbbbbbbbbbbbbbbbbbbbbbbbbbbbbbbbbbbbbbbb"]],"order":"stage"}],"verdict":"done"}]
        [{"orders":[{"base":"0000000000000000000000000000000000000000","batch":1,"branch":"staging","heads":[[1,"aaaaaaaaaaaaaaaaaaaaaaaaaaaaaaaaaaaaaaaa"],[2,"bbbbbbbbbbbbbbbbbbbbbbbbbbbbbbbbbbbbbbbb"]],"order":"stage"}],"verdict":"done"}]
        [{"orders":[{"base":"0000000000000000000000000000000000000000","batch":1,"branch":"staging","heads":[[2,"bbbbbbbbbbbbbbbbbbbbbbbbbbbbbbbbbbbbbbbb"],[1,"aaaaaaaaaaaaaaaaaaaaaaaaaaaaaaaaaaaaaaaa"]],"order":"stage"}],"verdict":"done"}]
        [{"orders":[{"base":"0000000000000000000000000000000000000000","batch":1,"commit":"dddddddddddddddddddddddddddddddddddddddd","order":"land"}],"verdict":"done"}]
        [{"orders":[{"base":"0000000000000000000000000000000000000000","batch":1,"commit":"eeeeeeeeeeeeeeeeeeeeeeeeeeeeeeeeeeeeeeee","order":"land"}],"verdict":"done"}]
        [{"orders":[{"base":"1111111111111111111111111111111111111111","batch":1,"commit":"dddddddddddddddddddddddddddddddddddddddd","order":"land"}],"verdict":"done"}]
        [{"orders":[{"base":"0000000000000000000000000000000000000000","batch":2,"commit":"dddddddddddddddddddddddddddddddddddddddd","order":"land"}],"verdict":"done"}]
        [{"orders":[],"verdict":"done"},{"orders":[],"verdict":"done"}]
    "#;

fn answer_of(rt: &impl Abort, alloc: Global, text: &str) -> Answer {
    read_answer(alloc, text).expect(rt, "an answer")
}

fn is_answer(rt: &impl Abort, alloc: Global, answer: &Answer, text: &str) -> bool {
    let other = answer_of(rt, alloc, text);
    let is_same = *answer == other;
    drop(other);
    is_same
}

// The answer of a text is equal to that of no other text.
fn check_answer(rt: &impl Abort, alloc: Global, answer: &Answer, text: &str) {
    for other in ANSWERS.trim().lines() {
        check_pair(rt, text, other, is_answer(rt, alloc, answer, other));
    }
}

#[test]
fn replies_that_are_equal(rt: HostRuntime) {
    for text in ANSWERS.trim().lines() {
        let answer = answer_of(&rt, rt.alloc(), text);
        check_answer(&rt, rt.alloc(), &answer, text);
        drop(answer);
    }
}
