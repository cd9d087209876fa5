//! The settings file of a vehicle, which is TOML: whether it has a fault, and its tree where it has none.
#![tactic(auto)]

mod class_checks;
mod settings_checks;
mod settings_faults;
mod settings_files;
mod settings_keys;
mod settings_tree;

pub use settings_faults::SettingsFault;
pub use settings_files::checked;
pub use settings_tree::{table_at, value_at};
