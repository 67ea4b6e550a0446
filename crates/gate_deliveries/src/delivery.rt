ghost use Rattle.std.specs.Prelude.{◌≡◌, map, IfOk};
ghost use Rattle.std.specs.List.{All};
ghost use Rattle.gate_state.specs.Acts.{ActKeepsLimits};
ghost use Rattle.gate_state.specs.declared.act.Deed.TheVariants.{Said};
ghost use Rattle.gate_deliveries.specs.Acts.{acts_of_event, spoken_acts_of};

use gate_state::{Act, ChangeFact, Deed, Fact};
use gate_text::{ChangeNo, DeliveryId, Name, Spoken, Text, read_comment};
use std::alloc::{AllocError, Global};

/// What happened, as a host hands it in.
#[derive(Drop, PartialEq, Eq)]
pub enum Event {
    /// A comment was written on a change.
    Comment {
        /// The change that the comment is on.
        change: ChangeNo,
        /// Who wrote it.
        person: Name,
        /// The whole comment.
        text: Text,
    },
    /// Something else happened to a change.
    On {
        /// The change.
        change: ChangeNo,
        /// What happened to it.
        fact: ChangeFact,
    },
    /// Something happened apart from any one change.
    Other(Fact),
}

/// One hand-in of the host, with its identifier.
#[derive(Drop, PartialEq, Eq)]
pub struct Delivery {
    /// What the host calls the delivery.
    pub id: DeliveryId,
    /// What happened.
    pub event: Event,
}

/// The acts of a delivery: one for each command that a comment says, in order, and one for a fact. A line such as `bors r+ p=5`
/// says two. A comment without command lines has none. `AllocError` if there is no memory for them. What a comment says
/// keeps its limits.
#[tactic(auto, using(crate::proofs::ActLimits::one_keeps))]
pub fn acts_of(alloc: Global, delivery: &Delivery) -> Result<Vec<Act>, AllocError>
    ensures value { IfOk result (λ acts. acts.items ≡ acts_of_event delivery.now.event) }
    ensures limits { IfOk result (λ acts. All ActKeepsLimits acts.items) }
{
    let act = match &delivery.event {
        Event::Comment {
            change,
            person,
            text,
        } => return spoken_acts(alloc, *change, person, text),
        Event::On { change, fact } => Act::On {
            change: *change,
            deed: Deed::Happened(fact.copy(alloc)?),
        },
        Event::Other(fact) => Act::Other(fact.copy(alloc)?),
    };
    Ok(vec![in alloc; act]?)
}

// The acts of what a person says about a change.
fn acts_for(
    alloc: Global,
    change: ChangeNo,
    person: &Name,
    spoken: Vec<Spoken>,
) -> Result<Vec<Act>, AllocError>
    ensures { IfOk result (λ acts. acts.items ≡ map (λ said. Act.On change (Said person.now said)) spoken.items) }
{
    let mut acts = Vec::new(alloc);
    for spoken in spoken {
        let person = person.copy(alloc)?;
        let deed = Deed::Said { person, spoken };
        acts.push(Act::On { change, deed })?;
    }
    Ok(acts)
}

// The acts of a person's comment on a change.
fn spoken_acts(
    alloc: Global,
    change: ChangeNo,
    person: &Name,
    text: &Text,
) -> Result<Vec<Act>, AllocError>
    ensures value { IfOk result (λ acts. acts.items ≡ spoken_acts_of change person.now text.now) }
    ensures limits { IfOk result (λ acts. All ActKeepsLimits acts.items) }
{
    let spoken = read_comment(alloc, text.as_str())?;
    acts_for(alloc, change, person, spoken)
}
