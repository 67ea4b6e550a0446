ghost use Rattle.std.specs.Prelude.{◌≡◌, nat_lt};
ghost use Rattle.std.specs.List.{list_all};
ghost use Rattle.gate_state.specs.Checks as checks;
ghost use Rattle.gate_state.specs.Lanes as lanes;
ghost use Rattle.gate_state.specs.declared.batch.Batch.{Batch as BatchOf};

use crate::batch::Batch;
use crate::lane::Lane;
use crate::queue::Queue;
use crate::waiting::goes_before;

// Whether no two batches have the same number, each has one below the next, and those that wait are in order of service.
pub(crate) fn fits_order(queue: &Queue) -> bool
    ensures { result ≡ checks.fits_order queue.now }
{
    fit_numbers(&queue.staging, queue.next)
        && fit_numbers(&queue.trying, queue.next)
        && have_other_numbers(&queue.staging, &queue.trying)
        && are_in_service(queue.staging.waiting.as_slice())
        && are_in_service(queue.trying.waiting.as_slice())
}

fn fit_numbers(lane: &Lane, next: u64) -> bool
    ensures { result ≡ checks.fit_numbers next (lanes.batches_of lane.now) }
{
    are_below(lane, next) && are_different(lane)
}

fn are_below(lane: &Lane, next: u64) -> bool
    ensures { result ≡ list_all (λ (batch : BatchOf). nat_lt batch.number next) (lanes.batches_of lane.now) }
{
    let waiting = lane.waiting.as_slice();
    match &lane.running {
        Some(batch) => batch.number < next && all_below(waiting, next),
        None => all_below(waiting, next),
    }
}

fn all_below(batches: &[Batch], next: u64) -> bool
    ensures { result ≡ list_all (λ (batch : BatchOf). nat_lt batch.number next) batches.now }
{
    batches.iter().all(|batch| batch.number < next)
}

fn are_different(lane: &Lane) -> bool
    ensures { result ≡ checks.all_pairs checks.has_other_number (lanes.batches_of lane.now) }
{
    let waiting = lane.waiting.as_slice();
    match &lane.running {
        Some(batch) => is_unlike(batch, waiting) && are_unlike(waiting),
        None => are_unlike(waiting),
    }
}

fn are_unlike(batches: &[Batch]) -> bool
    ensures { result ≡ checks.all_pairs checks.has_other_number batches.now }
{
    let mut rest = batches;
    'batches: while let [first, others @ ..] = rest {
        if !is_unlike(first, others) {
            return false;
        }
        rest = others;
    }
    true
}

// Whether none of the others has the number of a batch.
fn is_unlike(batch: &Batch, others: &[Batch]) -> bool
    ensures { result ≡ list_all (checks.has_other_number batch.now) others.now }
{
    others.iter().all(|other| batch.number != other.number)
}

fn is_unlike_all(batch: &Batch, lane: &Lane) -> bool
    ensures { result ≡ list_all (checks.has_other_number batch.now) (lanes.batches_of lane.now) }
{
    let waiting = lane.waiting.as_slice();
    match &lane.running {
        Some(other) => batch.number != other.number && is_unlike(batch, waiting),
        None => is_unlike(batch, waiting),
    }
}

fn have_other_numbers(lane: &Lane, others: &Lane) -> bool
    ensures { result ≡ checks.have_other_numbers (lanes.batches_of lane.now) (lanes.batches_of others.now) }
{
    let waiting = lane.waiting.as_slice();
    match &lane.running {
        Some(batch) => is_unlike_all(batch, others) && are_unlike_all(waiting, others),
        None => are_unlike_all(waiting, others),
    }
}

fn are_unlike_all(batches: &[Batch], lane: &Lane) -> bool
    ensures { result ≡ checks.have_other_numbers batches.now (lanes.batches_of lane.now) }
{
    batches.iter().all(|batch| is_unlike_all(batch, lane))
}

fn are_in_service(waiting: &[Batch]) -> bool
    ensures { result ≡ checks.all_pairs lanes.goes_before waiting.now }
{
    let mut rest = waiting;
    'waiting: while let [first, others @ ..] = rest {
        if !goes_before_all(first, others) {
            return false;
        }
        rest = others;
    }
    true
}

fn goes_before_all(batch: &Batch, others: &[Batch]) -> bool
    ensures { result ≡ list_all (lanes.goes_before batch.now) others.now }
{
    others.iter().all(|other| goes_before(batch, other))
}
