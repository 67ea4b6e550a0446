ghost use Rattle.std.specs.Prelude.{◌≡◌};
ghost use Rattle.std.specs.Str.{bytes_eq};
ghost use Rattle.gate_http.specs.Targets as targets;

use gate_text::ChangeNo;
use http::Method;

/// Which report is asked for.
#[derive(Clone, Copy, Debug, PartialEq, Eq)]
pub enum Report {
    /// The queue.
    Queue,
    /// One change.
    Change(ChangeNo),
}

/// What a target names.
#[derive(Clone, Copy, Debug, PartialEq, Eq)]
pub enum Target {
    /// The place where deliveries are handed in.
    Deliveries,
    /// A report.
    Report(Report),
}

impl Target {
    /// The one method that the target takes.
    pub fn method(self) -> Method
        ensures { result ≡ targets.method_of self }
    {
        match self {
            Target::Deliveries => Method::POST,
            Target::Report(_) => Method::GET,
        }
    }

    /// Whether this is that method. Upper and lower case differ (RFC 9110).
    pub fn takes(self, method: &[u8]) -> bool
        ensures { result ≡ bytes_eq method.now (targets.method_of self) }
    {
        let due = self.method();
        method == due.as_str().as_bytes()
    }
}
