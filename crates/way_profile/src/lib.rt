//! The profile of a vehicle: read from a settings file in TOML, it says which ways the vehicle may use,
//! in which directions and how fast, of which classes they are, which nodes are closed for it, and what turns and
//! signals cost it.
#![tactic(auto)]

mod class_values;
mod parted_texts;
mod settings_values;
mod turn_penalties;
mod vehicle_profile;
mod way_classes;
mod way_speeds;
mod way_uses;

pub use vehicle_profile::Profile;
pub use vehicle_settings::SettingsFault;
pub use way_uses::WayUse;
