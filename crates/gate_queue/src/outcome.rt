ghost use Rattle.std.specs.Prelude.{◌≡◌, ◌++◌, [], IfOk, IsOk};
ghost use Rattle.gate_queue.specs.Machine as machine;

use crate::changing::no_orders;
use gate_state::{Orders, State};
use std::alloc::{AllocError, Global};

/// What an act comes to.
#[derive(Drop)]
pub struct Outcome {
    /// The state after it.
    pub state: State,
    /// Its orders.
    pub orders: Orders,
}

/// An outcome without orders. It takes no memory; its list keeps the allocator.
pub fn quiet(state: State, alloc: Global) -> Outcome
    ensures { result ≡ machine.quiet state }
{
    Outcome {
        state,
        orders: no_orders(alloc),
    }
}

/// An outcome that has these orders before its own. `AllocError` if there is no memory for it; without orders of its own, it
/// takes none.
pub fn with_first(first: Orders, next: Outcome) -> Result<Outcome, AllocError>
    ensures value { IfOk result (λ outcome. outcome ≡ record { state = next.state; orders = first ++ next.orders }) }
    ensures no_memory { next.orders ≡ [] → IsOk result }
{
    let Outcome { state, orders } = next;
    let orders = join(first, orders)?;
    Ok(Outcome { state, orders })
}

// These orders, and then those.
fn join(mut first: Orders, second: Orders) -> Result<Orders, AllocError>
    ensures orders { IfOk result (λ orders. orders ≡ first ++ second) }
    ensures no_memory { second ≡ [] → IsOk result }
{
    if second.as_slice().is_empty() {
        return Ok(first);
    }
    for order in second.into_vec() {
        first.push(order)?;
    }
    Ok(first)
}
