ghost use Rattle.std.specs.Prelude.{◌≡◌};
ghost use Rattle.gate_state.specs.State.{IsState};
ghost use Rattle.gate_tables.specs.Contents.{AreSame};
ghost use Rattle.gate_tables.specs.Differences.{HaveKeys};
ghost use Rattle.gate_rows.specs.Changed.{LawOfChangedRows};
ghost use Rattle.gate_rows.specs.Decoding.{state_in};
ghost use Rattle.gate_rows.specs.Encoding.{rows_of};
ghost use Rattle.gate_rows.specs.Parts.{LawOfChangesSince, LawOfKeysSince};
ghost use Rattle.gate_rows.specs.Standing.{KeepsLimits, LawOfKeys, LawOfRows};
ghost use Rattle.gate_rows.specs.FirstRows.{LawOfFirstKeys, LawOfFirstRows, in_first};
ghost use Rattle.gate_tables.specs.declared.row.Rows.{Rows};

use gate_queue::Gate;
use gate_state::law_of_checks;
use gate_tables::{law_of_differences, law_of_parts};

/// The law of rows: rows stand for at most one state. The rows of a state, in any order, are read as that state.
pub fn law_of_rows()
    ensures { LawOfRows }
{
    law_of_checks();
}

/// The law of keys: in the rows of a state no two rows of a table have one key. So what differs between the rows of two states is
/// told by keys.
pub fn law_of_keys()
    ensures { LawOfKeys }
{
    law_of_checks();
}

/// The law of keys in version 1: if the settings of a state keep their limits, no two of its rows of a table in that version have
/// one key.
pub fn law_of_first_keys()
    ensures { LawOfFirstKeys }
{
    law_of_checks();
}

/// The law of rows in version 1: they stand for at most one state. Two states whose settings and bases keep their limits, and that have
/// the same rows in that version, in any order, are one.
pub fn law_of_first_rows()
    ensures { LawOfFirstRows }
{
    law_of_checks();
}

/// The law of changed rows: those between two states of the machine, applied to the rows of the first in any order, lead to the rows
/// of the second.
pub fn law_of_changed_rows()
    ensures { LawOfChangedRows }
{
    law_of_keys();
    law_of_differences();
}

/// The law of changes since: between two states of the machine, of the first of which parts were noted, what differs among the rows of
/// these parts, applied to the rows of the first in any order, leads to the rows of the second.
pub fn law_of_changes_since()
    ensures { LawOfChangesSince }
{
    law_of_checks();
    law_of_keys();
    law_of_parts();
}

/// The law of keys since: in the rows of these parts no two rows of a table have one key.
pub fn law_of_keys_since()
    ensures { LawOfKeysSince }
{
    law_of_checks();
    law_of_keys();
}

/// The law of rows for a gate: those of its state, in any order, are read as that state.
pub fn law_of_rows_of(gate: &Gate)
    ensures { (rows : Rows) → AreSame (rows_of gate.now) rows → state_in rows ≡ gate.now }
{
    law_of_rows();
    is_of_machine(gate);
}

/// The state of a gate is one of the machine, and keeps the limits of the types that it is made of.
pub fn is_of_machine(gate: &Gate)
    ensures state { IsState gate.now }
    ensures limits { KeepsLimits gate.now.desk }
{
    gate.state();
    keeps_limits(gate);
}

/// The law of keys for a gate: no two of its rows of a table have one key.
pub fn law_of_keys_of(gate: &Gate)
    ensures { HaveKeys (rows_of gate.now) }
{
    law_of_keys();
    is_of_machine(gate);
}

/// The law of keys in version 1 for a gate: no two of its rows of a table in that version have one key.
pub fn law_of_first_keys_of(gate: &Gate)
    ensures { HaveKeys (in_first (rows_of gate.now)) }
{
    law_of_first_keys();
    is_of_machine(gate);
}

// What the settings and the base of a gate keep by their types.
fn keeps_limits(gate: &Gate)
    ensures { KeepsLimits gate.now.desk }
{
    let desk = gate.desk();
    if let Some(settings) = desk.settings() {
        settings.status();
    }
    if let Some(base) = desk.base() {
        base.text();
    }
}
