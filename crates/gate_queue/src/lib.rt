//! The machine of the merge bot: what each act is answered, and what it leaves; and the history that its contract speaks of.
#![tactic(auto)]

mod before;
mod changing;
mod fault;
mod gate;
mod judging;
mod laws;
mod marks;
mod outcome;
mod performing;
mod repeating;
mod running;
mod settings;
mod stepping;
mod ticking;
mod touching;
mod verdict;

pub use before::Before;
pub use fault::Fault;
pub use gate::{Gate, empty_history_is_legal};
pub use laws::{
    law_of_entries, law_of_firsts, law_of_freeing, law_of_histories, law_of_landings,
    law_of_passing, law_of_sets, law_of_since, law_of_stagings, law_of_states, law_of_tests,
    law_of_the_last, law_of_the_queue, law_of_time_outs, law_of_untouched, law_of_waiting,
};
pub use settings::LosesApproval;
pub use verdict::{Judged, Verdict};

// What a gate takes and gives, and what it is made of and shows, so that who uses it needs no other crate for that.
pub use gate_state::{
    Act, Batch, Batches, Branch, ChangeFact, Changes, Deed, Fact, Head, Heads, Lane, Moment, Order,
    Orders, Queue, Reply, Report, Reports, Stage, State, StatusState, Why,
};
