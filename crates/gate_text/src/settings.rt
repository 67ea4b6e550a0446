ghost use Rattle.std.specs.Prelude.{◌≡◌, ◌≤◌, true, IfOk, IfSome};
ghost use Rattle.gate_text.specs.Settings.{Gives, are_settings, if_settings, settings_of};

mod fault;
mod limits;
mod reading;
mod values;

use crate::context::Context;
use crate::label::Label;
use crate::names::{Contexts, Labels};
pub use fault::{Key, SettingsFault};
use limits::{MAX_APPROVALS, MAX_TIMEOUT_SEC, are_labels, are_pr_statuses, are_statuses, is_size};
use reading::settings_in;
use std::alloc::{AllocError, Global};
use std::marker::Model;

/// What a team asks of its merge queue, as its `bors.toml` says it. The keys are those of the bors-ng reference
/// documentation. A contract sees the settings as a record of their six values.
#[derive(Debug, Drop, PartialEq, Eq)]
pub struct Settings {
    status: Contexts,
    timeout_sec: u32,
    block_labels: Labels,
    required_approvals: u32,
    max_batch_size: Option<u32>,
    pr_status: Contexts,
}

impl Model for Settings {
    ghost use Rattle.std.specs.Prelude.{◌≡◌, true};
    ghost use Rattle.gate_text.specs.Settings.{SettingsView, are_settings};

    ghost Value = { SettingsView };

    ghost view = { λ s. record {
      status = s.status;
      timeout_sec = s.timeout_sec;
      block_labels = s.block_labels;
      required_approvals = s.required_approvals;
      max_batch_size = s.max_batch_size;
      pr_status = s.pr_status;
    } };

    ghost invariant = { λ s. are_settings (record {
      status = s.status;
      timeout_sec = s.timeout_sec;
      block_labels = s.block_labels;
      required_approvals = s.required_approvals;
      max_batch_size = s.max_batch_size;
      pr_status = s.pr_status;
    }) ≡ true };

    ghost inverse = { λ s. record {
      status = s.status;
      timeout_sec = s.timeout_sec;
      block_labels = s.block_labels;
      required_approvals = s.required_approvals;
      max_batch_size = s.max_batch_size;
      pr_status = s.pr_status;
    } };
}

impl Settings {
    /// Settings of these values, or nothing if one of them is out of its limits, which are those that the readers tell. It
    /// takes no memory.
    pub fn new(
        status: Contexts,
        timeout_sec: u32,
        block_labels: Labels,
        required_approvals: u32,
        max_batch_size: Option<u32>,
        pr_status: Contexts,
    ) -> Option<Settings>
        ensures value { result ≡ if_settings (record {
          status = status;
          timeout_sec = timeout_sec;
          block_labels = block_labels;
          required_approvals = required_approvals;
          max_batch_size = max_batch_size;
          pr_status = pr_status;
        }) }
    {
        let is_good = are_statuses(status.as_slice())
            && (1..=MAX_TIMEOUT_SEC).contains(&timeout_sec)
            && are_labels(block_labels.as_slice())
            && required_approvals <= MAX_APPROVALS
            && is_size(max_batch_size)
            && are_pr_statuses(pr_status.as_slice());
        if !is_good {
            return None;
        }
        Some(Settings {
            status,
            timeout_sec,
            block_labels,
            required_approvals,
            max_batch_size,
            pr_status,
        })
    }

    /// The statuses that have to succeed before a batch lands, in the order of the text: 1 to 64, no two the same.
    pub fn status(&self) -> &[Context]
        ensures value { result.now ≡ self.now.status }
        ensures limits { are_settings self.now ≡ true }
    {
        self.status.as_slice()
    }

    /// After how many seconds a batch is given up: 1 to 2,147,483,647, and 3,600 if the text doesn't say it.
    pub fn timeout_sec(&self) -> u32
        ensures value { result ≡ self.now.timeout_sec }
        ensures low { 1 ≤ result }
        ensures high { result ≤ 2_147_483_647 }
    {
        self.timeout_sec
    }

    /// The labels that keep a change from being approved, in the order of the text: at most 64, no two the same, and none
    /// if the text doesn't say it.
    pub fn block_labels(&self) -> &[Label]
        ensures value { result.now ≡ self.now.block_labels }
    {
        self.block_labels.as_slice()
    }

    /// How many reviews a change needs before it can be approved: 0 to 100, and 0 if the text doesn't say it.
    pub fn required_approvals(&self) -> u32
        ensures value { result ≡ self.now.required_approvals }
        ensures high { result ≤ 100 }
    {
        self.required_approvals
    }

    /// How many changes a batch has at most: 1 to 1,000, or no limit if the text doesn't say it.
    pub fn max_batch_size(&self) -> Option<u32>
        ensures value { result ≡ self.now.max_batch_size }
        ensures low { IfSome result (λ size. 1 ≤ size) }
        ensures high { IfSome result (λ size. size ≤ 1000) }
    {
        self.max_batch_size
    }

    /// The statuses that have to succeed on the head of a change before it can be approved, in the order of the text: at most
    /// 64, no two the same, and none if the text doesn't say it.
    pub fn pr_status(&self) -> &[Context]
        ensures value { result.now ≡ self.now.pr_status }
    {
        self.pr_status.as_slice()
    }

    /// A copy, or `AllocError` if there is no memory for it.
    pub fn copy(&self, alloc: Global) -> Result<Settings, AllocError>
        ensures value { IfOk result (λ copy. copy ≡ self.now) }
    {
        Ok(Settings {
            status: self.status.copy(alloc)?,
            timeout_sec: self.timeout_sec,
            block_labels: self.block_labels.copy(alloc)?,
            required_approvals: self.required_approvals,
            max_batch_size: self.max_batch_size,
            pr_status: self.pr_status.copy(alloc)?,
        })
    }
}

/// Reads the text of a `bors.toml` (TOML 1.1). Refusals, in their order: `NotToml`; `NoStatus`; `BadKey` with the first
/// bad key, in the order of `Key`. `Memory` can come in place of any of them, since `toml` takes memory while it reads.
/// Keys that the bot doesn't read are ignored, whatever their value.
pub fn read_settings(alloc: Global, text: &str) -> Result<Settings, SettingsFault>
    ensures value { Gives result (settings_of text.now) }
{
    match toml::table_from_str(alloc, text) {
        Ok(table) => settings_in(alloc, &table),
        Err(error) if error.is_memory() => Err(SettingsFault::Memory),
        Err(_) => Err(SettingsFault::NotToml),
    }
}
