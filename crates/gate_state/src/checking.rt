ghost use Rattle.std.specs.Prelude.{◌≡◌};
ghost use Rattle.gate_state.specs.Checks as checks;

mod changes;
mod numbers;
mod places;
mod stages;

use crate::batch::Branch;
use crate::lane::Lane;
use crate::queue::Queue;
use crate::state::State;
use crate::waiting::MAX_NEXT;
use changes::fits_desk;
use gate_rules::Desk;
use numbers::fits_order;
use places::fit_places;
use stages::{are_alone, fit_stages};

// Whether the parts of a state fit together.
pub(crate) fn fits(state: &State) -> bool
    ensures { result ≡ checks.fits state.now }
{
    fits_desk(&state.desk) && fits_next(state.queue.next) && fits_queue(&state.desk, &state.queue)
}

fn fits_next(next: u64) -> bool
    ensures { result ≡ checks.fits_next next }
{
    next >= 1 && next <= MAX_NEXT
}

fn fits_queue(desk: &Desk, queue: &Queue) -> bool
    ensures { result ≡ checks.fits_queue desk.now queue.now }
{
    fits_order(queue)
        && fits_lane(desk, Branch::Staging, &queue.staging)
        && fits_lane(desk, Branch::Trying, &queue.trying)
        && are_alone(&queue.trying)
}

fn fits_lane(desk: &Desk, on: Branch, lane: &Lane) -> bool
    ensures { result ≡ checks.fits_lane desk.now on lane.now }
{
    fit_stages(desk, on, lane) && fit_places(desk, on, lane)
}
