ghost use Rattle.std.specs.Prelude.{◌≡◌};
ghost use Rattle.gate_text.specs.Settings.{key_name, fault_number};

use std::alloc::AllocError;
use std::fmt;
use std::fmt::{Display, Formatter, Write};
use thiserror::Error;

/// A key of `bors.toml` that the bot reads, in the order in which the keys are checked.
#[derive(Clone, Copy, Debug, PartialEq, Eq)]
pub enum Key {
    /// `status`: the statuses that have to succeed.
    Status,
    /// `timeout_sec`: after how many seconds a batch is given up.
    TimeoutSec,
    /// `block_labels`: the labels that keep a change from being approved.
    BlockLabels,
    /// `required_approvals`: how many reviews a change needs.
    RequiredApprovals,
    /// `max_batch_size`: how many changes a batch has at most.
    MaxBatchSize,
    /// `pr_status`: the statuses that have to succeed on the head of a change before it can be approved.
    PrStatus,
}

impl Key {
    /// The key as `bors.toml` writes it.
    pub fn name(self) -> &'static str
        ensures value { result.now ≡ key_name self }
    {
        match self {
            Key::Status => "status",
            Key::TimeoutSec => "timeout_sec",
            Key::BlockLabels => "block_labels",
            Key::RequiredApprovals => "required_approvals",
            Key::MaxBatchSize => "max_batch_size",
            Key::PrStatus => "pr_status",
        }
    }
}

/// Why a text was refused as settings. The checks are made in the order of the variants, and the first that fails is
/// answered.
#[derive(Clone, Copy, Debug, PartialEq, Eq, Error)]
pub enum SettingsFault {
    /// The text is no TOML document that `toml` takes.
    #[error("the text is no TOML")]
    NotToml,
    /// The key `status` is missing.
    #[error("the key status is missing")]
    NoStatus,
    /// The value at this key is not of its kind or not within its limits. No key that is checked earlier has a bad value.
    #[error("the key {0} has a bad value")]
    BadKey(Key),
    /// The allocator had no memory while the text was read, which may be good or bad.
    #[error("out of memory")]
    Memory,
}

impl Display for Key {
    fn fmt<W: Write>(&self, f: &mut Formatter<W>) -> Result<(), fmt::Error> {
        f.write_str(self.name())
    }
}

impl SettingsFault {
    /// The number of the refusal, from 1 to 4.
    pub fn number(self) -> u8
        ensures value { result ≡ fault_number self }
    {
        match self {
            SettingsFault::NotToml => 1,
            SettingsFault::NoStatus => 2,
            SettingsFault::BadKey(_) => 3,
            SettingsFault::Memory => 4,
        }
    }
}

impl From<AllocError> for SettingsFault {
    ghost use Rattle.std.specs.Prelude.{◌≡◌};
    ghost use Rattle.gate_text.specs.declared.settings.fault.SettingsFault.TheVariants.{Memory};

    ghost from_gives = { λ _ fault. fault ≡ Memory };

    fn from(_error: AllocError) -> SettingsFault {
        SettingsFault::Memory
    }
}
