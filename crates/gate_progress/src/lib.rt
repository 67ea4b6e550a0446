//! What the machine of the merge bot comes to, over lists of acts. Nothing here runs: each law is a function with an empty body, and its
//! clause is the statement.
#![tactic(auto)]

mod laws;

pub use laws::{
    law_of_coming, law_of_courses, law_of_finding, law_of_halving, law_of_overtaking,
    law_of_sparing, law_of_successes, law_of_turns,
};
