ghost use Rattle.std.specs.Prelude.{◌≡◌, ℕ, List, Option, None, IfOk, OnErr};
ghost use Rattle.gate_jobs.specs.Accepting.{AddsText, ComesFirst};

use std::io::{Read, Result, Write};

/// Where connections come from, one after the other: each is a pair of a reader and a writer.
///
/// An acceptor may know what its connections give, what was written on them and what they had still to give, as one over texts in memory
/// may. No contract knows that of a connection of the network.
pub trait Acceptor<R: Read, W: Write> {
    // What the connections to come will give, in their order, if that is known.
    ghost waiting: { Self → Option (List (List ℕ)) } = { λ _. None };

    // What was written on those that were ended, in their order, if that is known.
    ghost ended: { Self → Option (List (List ℕ)) } = { λ _. None };

    // What those that were ended had still to give, in their order, if that is known.
    ghost unread: { Self → Option (List (List ℕ)) } = { λ _. None };

    /// Waits for the next connection. After a failure none is lost.
    fn accept(&mut self) -> Result<(R, W)>
        ensures comes { IfOk result (λ pair. ComesFirst (waiting self.old) (waiting self.new) (R.remaining pair.0) (W.contents pair.1)) }
        ensures none { OnErr result (waiting self.new ≡ waiting self.old) }
        ensures same { ended self.new ≡ ended self.old }
        ensures kept { unread self.new ≡ unread self.old };

    /// Ends a connection that was accepted.
    fn end(&mut self, reader: R, writer: W)
        ensures same { waiting self.new ≡ waiting self.old }
        ensures text { AddsText (ended self.old) (ended self.new) (W.contents writer) }
        ensures rest { AddsText (unread self.old) (unread self.new) (R.remaining reader) };
}
