ghost use Rattle.std.specs.Prelude.{◌≡◌};
ghost use Rattle.gate_deliveries.specs.Deliveries as deliveries;

use std::fmt;
use std::fmt::{Display, Formatter, Write};

/// A field of a delivery.
#[derive(Clone, Copy, Debug, PartialEq, Eq)]
pub enum Field {
    /// `id`
    Id,
    /// `event`
    Event,
    /// `change`
    Change,
    /// `person`
    Person,
    /// `text`
    Text,
    /// `role`
    Role,
    /// `author`
    Author,
    /// `head`
    Head,
    /// `commit`
    Commit,
    /// `label`
    Label,
    /// `approves`
    Approves,
    /// `batch`
    Batch,
    /// `name`
    Name,
    /// `state`
    State,
    /// `now`
    Now,
}

impl Field {
    /// The name of the field, as deliveries write it.
    pub fn name(self) -> &'static str
        ensures value { result.now ≡ deliveries.field_name self }
    {
        match self {
            Field::Id => "id",
            Field::Event => "event",
            Field::Change => "change",
            Field::Person => "person",
            Field::Text => "text",
            Field::Role => "role",
            Field::Author => "author",
            Field::Head => "head",
            Field::Commit => "commit",
            Field::Label => "label",
            Field::Approves => "approves",
            Field::Batch => "batch",
            Field::Name => "name",
            Field::State => "state",
            Field::Now => "now",
        }
    }
}

impl Display for Field {
    fn fmt<W: Write>(&self, f: &mut Formatter<W>) -> Result<(), fmt::Error> {
        f.write_str(self.name())
    }
}
