use std::process::Abort;

// The answer to a row is these words. An assertion is dear to prove while many values are alive, so nearly all stand here.
pub(crate) fn check_words(rt: &impl Abort, row: &str, found: &str, words: &str) {
    assert_eq!(rt; found, words, "{row:?}");
}

// What was asked about a row is so.
pub(crate) fn check_that(rt: &impl Abort, row: &str, is_so: bool) {
    assert!(rt; is_so, "{row:?}");
}

// Two texts of a table say the same just if they are the same text.
pub(crate) fn check_pair(rt: &impl Abort, one: &str, other: &str, are_equal: bool) {
    assert!(rt; are_equal == (one == other), "{one:?} and {other:?}");
}

// A row of a table: a text, and behind ` => ` what is answered to it.
pub(crate) fn row_of<'a>(rt: &impl Abort, line: &'a str) -> (&'a str, &'a str) {
    line.split_once(" => ").expect(rt, "a row")
}
