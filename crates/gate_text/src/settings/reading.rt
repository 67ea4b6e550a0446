ghost use Rattle.std.specs.Prelude.{◌≡◌, option_map};
ghost use Rattle.toml.specs.Data.{get_member};
ghost use Rattle.toml.specs.View.{view, table_view};
ghost use Rattle.gate_text.specs.Settings as settings;
ghost use Rattle.gate_text.specs.Settings.{Gives, key_name, read_at, whole_in, texts_in, statuses_in};
ghost use Rattle.std.specs.Option.{ok_or};

use super::Settings;
use super::fault::{Key, SettingsFault};
use super::limits::{MAX_APPROVALS, MAX_BATCH_SIZE, MAX_TIMEOUT_SEC};
use super::values::{contexts_in, labels_in, number_in, statuses_in};
use crate::names::{Contexts, Labels};
use std::alloc::Global;
use toml::{Table, Value};

// After how many seconds a batch is given up if the text doesn't say it, as in bors-ng.
const DEFAULT_TIMEOUT_SEC: u32 = 3600;

fn value_at(table: &Table, key: Key) -> Option<&Value>
    ensures { option_map (λ value. view value.now) result ≡ get_member (key_name key) (table_view table.now) }
{
    table.get(key.name())
}

// The number at a key that may be absent.
fn number_at(table: &Table, key: Key, least: u32, most: u32) -> Result<Option<u32>, SettingsFault>
    ensures { result ≡ read_at key (whole_in least most) (table_view table.now) }
{
    let Some(value) = value_at(table, key) else {
        return Ok(None);
    };
    let number = number_in(value, least, most).ok_or(SettingsFault::BadKey(key))?;
    Ok(Some(number))
}

// The labels, which may be absent.
fn labels_at(alloc: Global, table: &Table) -> Result<Option<Labels>, SettingsFault>
    ensures { Gives result (read_at Key.BlockLabels texts_in (table_view table.now)) }
{
    let Some(value) = value_at(table, Key::BlockLabels) else {
        return Ok(None);
    };
    let labels = labels_in(alloc, value)?.ok_or(SettingsFault::BadKey(Key::BlockLabels))?;
    Ok(Some(labels))
}

// The statuses that a change needs of its own, which may be absent.
fn pr_statuses_at(alloc: Global, table: &Table) -> Result<Option<Contexts>, SettingsFault>
    ensures { Gives result (read_at Key.PrStatus texts_in (table_view table.now)) }
{
    let Some(value) = value_at(table, Key::PrStatus) else {
        return Ok(None);
    };
    let contexts = contexts_in(alloc, value)?.ok_or(SettingsFault::BadKey(Key::PrStatus))?;
    Ok(Some(contexts))
}

// The names of the statuses.
fn statuses_at(alloc: Global, value: &Value) -> Result<Contexts, SettingsFault>
    ensures { Gives result (ok_or (statuses_in (view value.now)) (SettingsFault.BadKey Key.Status)) }
{
    statuses_in(alloc, value)?.ok_or(SettingsFault::BadKey(Key::Status))
}

// The settings of a table.
pub(crate) fn settings_in(alloc: Global, table: &Table) -> Result<Settings, SettingsFault>
    ensures { Gives result (settings.settings_in (table_view table.now)) }
{
    let value = value_at(table, Key::Status).ok_or(SettingsFault::NoStatus)?;
    let status = statuses_at(alloc, value)?;
    let timeout_sec = number_at(table, Key::TimeoutSec, 1, MAX_TIMEOUT_SEC)?;
    let block_labels = labels_at(alloc, table)?;
    let required_approvals = number_at(table, Key::RequiredApprovals, 0, MAX_APPROVALS)?;
    let max_batch_size = number_at(table, Key::MaxBatchSize, 1, MAX_BATCH_SIZE)?;
    let pr_status = pr_statuses_at(alloc, table)?;
    Ok(Settings {
        status,
        timeout_sec: timeout_sec.unwrap_or(DEFAULT_TIMEOUT_SEC),
        block_labels: block_labels.unwrap_or(Labels::from(Vec::new(alloc))),
        required_approvals: required_approvals.unwrap_or(0),
        max_batch_size,
        pr_status: pr_status.unwrap_or(Contexts::from(Vec::new(alloc))),
    })
}
