//! What is wrong with a settings file.

ghost use Rattle.std.specs.Prelude.{◌≡◌};
ghost use Rattle.vehicle_settings.specs.declared.settings_faults.SettingsFault.TheVariants.{Memory};

use road_base::Text;
use std::alloc::AllocError;

/// Why a settings file is refused. Of several faults the first is told: no TOML; unknown keys in byte
/// order, those of the file before those of `turn_penalty`; missing keys; and bad values. The last two
/// stand in the order `version`, `name`, `vehicle`, `weight_name`, `speeds`, `access_keys`, `denied`,
/// `barriers`, `turn_penalty`, `u_turn_penalty`, `signal_penalty`, `driving_side`, `maxspeed`, `surfaces`,
/// `classes`, `excludable`, and inside a table in byte order. A key inside a table is told with the table's, as
/// `speeds.residential`; of a list the list's key is told. The last four are unknown where `version` isn't 2.
#[derive(Debug, Drop)]
pub enum SettingsFault {
    /// The bytes are no TOML text.
    NotToml,
    /// There is no such setting.
    UnknownKey(Text),
    /// This setting must be there.
    Missing(Text),
    /// This setting has a value of another type or out of its range.
    BadValue(Text),
    /// There was no memory to read the file.
    Memory,
}

impl From<AllocError> for SettingsFault {
    ghost from_gives = { λ _ e. e ≡ Memory };

    fn from(_error: AllocError) -> SettingsFault {
        SettingsFault::Memory
    }
}
