//! The words of the merge bot's users: names, labels, names of statuses, commits, change numbers, delivery
//! identifiers, what a comment says, and the settings of a `bors.toml`.
#![tactic(auto)]

mod argument;
mod body;
mod change_no;
mod checks;
mod command;
mod comment;
mod commit;
mod context;
mod delivery_id;
mod fault;
mod label;
mod list;
mod map;
mod name;
mod names;
mod plain;
mod set;
mod settings;
mod spaces;
mod text;

pub use change_no::ChangeNo;
pub use command::{Command, Spoken};
pub use comment::{one_reading, read_comment};
pub use commit::Commit;
pub use context::Context;
pub use delivery_id::DeliveryId;
pub use fault::{TextFault, unless_bad};
pub use label::Label;
pub use list::{List, TryCopy};
pub use map::copy_map;
pub use name::Name;
pub use names::{ContextSet, Contexts, LabelSet, Labels, NameSet, Names};
pub use set::Set;
pub use settings::{Key, Settings, SettingsFault, read_settings};
pub use text::{Text, Word};
