ghost use Rattle.std.specs.Prelude.{◌≡◌, ◌≤◌, ◌-◌, ◌*◌, ◌↔◌, IfOk, IfSome, IsNone, min};
ghost use Rattle.std.specs.Duration.{as_nanos};
ghost use Rattle.std.specs.Time.{instant_nanos};

use std::io::{self, Error, ErrorKind};
use std::time::{Clock, Duration, Instant};

// A request as a whole may take so many times as long as a single wait.
const WAITS: u64 = 10;

// How long a connection is waited for: so many seconds at a time, and ten times that in all from a start on.
#[derive(Clone, Copy)]
pub(crate) struct Limits {
    pub(crate) start: Instant,
    pub(crate) patience: u32,
}

impl Limits {
    pub(crate) fn from_now(clock: &impl Clock, patience: u32) -> io::Result<Limits>
        ensures { IfOk result (λ limits. limits.patience ≡ patience) }
    {
        let start = Instant::now(clock)?;
        Ok(Limits { start, patience })
    }

    // How long the next read or write may wait. `TimedOut` if there is no time left.
    pub(crate) fn next(&self, clock: &impl Clock) -> io::Result<Duration> {
        match next_wait(self.patience, self.start.elapsed(clock)?) {
            Some(wait) => Ok(wait),
            None => Err(Error::from(ErrorKind::TimedOut)),
        }
    }

    // How long a connection is still waited for at this time, if nothing has come since that one.
    pub(crate) fn left(&self, time: Instant, since: Instant) -> Duration
        ensures { as_nanos result ≡ min (self.now.patience * 10_000_000_000 - (instant_nanos time - instant_nanos self.now.start))
            (self.now.patience * 1_000_000_000 - (instant_nanos time - instant_nanos since)) }
    {
        let patience = u64::from(self.patience);
        let in_all = left_of(WAITS * patience, time.duration_since(self.start));
        in_all.min(left_of(patience, time.duration_since(since)))
    }
}

// What is left of so many seconds if that is over already.
fn left_of(seconds: u64, over: Duration) -> Duration
    ensures { as_nanos result ≡ seconds * 1_000_000_000 - as_nanos over }
{
    Duration::from_secs(seconds).saturating_sub(over)
}

// How long a connection may be waited for next, if that is waited for so long already: its patience, or what is left of ten times that.
fn next_wait(patience: u32, waited: Duration) -> Option<Duration>
    ensures none { IsNone result ↔ (patience * 10_000_000_000 ≤ as_nanos waited) }
    ensures some { IfSome result (λ wait. as_nanos wait ≡ min (patience * 10_000_000_000 - as_nanos waited) (patience * 1_000_000_000)) }
{
    let patience = u64::from(patience);
    match Duration::from_secs(WAITS * patience).checked_sub(waited) {
        Some(left) if !left.is_zero() => Some(left.min(Duration::from_secs(patience))),
        _ => None,
    }
}
