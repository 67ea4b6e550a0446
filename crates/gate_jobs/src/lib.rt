//! The jobs of the program over any book, what is told if its words ask for none, and how it ends.
#![tactic(auto)]

mod accepting;
mod closing;
mod connections;
mod explaining;
mod fault;
mod leaving;
mod limits;
mod logging;
mod outcome;
mod patient;
mod reporting;
mod serving;
mod watching;

pub use accepting::Acceptor;
pub use closing::drop_part;
pub use connections::Connections;
pub use explaining::explain;
pub use fault::JobFault;
pub use gate_words::{Job, WordsFault, no_text, read_words};
pub use logging::{LineLog, Log, Silence, log_line};
pub use outcome::{Ending, complaint, ended, status};
pub use patient::{PatientReader, PatientWriter};
pub use reporting::report;
pub use serving::{announce, serve, serve_request, token_of};
