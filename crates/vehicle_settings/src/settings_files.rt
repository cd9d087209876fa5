//! Settings files.

ghost use Rattle.std.specs.Prelude.{◌≡◌, Ok, IfOk, IfErr};
ghost use Rattle.toml.specs.View.{table_view};
ghost use Rattle.vehicle_settings.specs.Settings.{AreNumbersGood, checked_of, IsFaultOf, table_or_fault};

use crate::settings_checks::bad_value;
use crate::settings_faults::SettingsFault;
use crate::settings_keys::{missing_key, unknown_key};
use crate::settings_tree::tree;
use road_base::Text;
use std::alloc::Global;
use toml::Table;

/// The table of a settings file, which is TOML (toml.io), where it has no fault. Each setting stands once:
/// `version`, if it is there, is 1 or 2; `name` and `vehicle` are texts that are not empty; `speeds` is a table
/// from values of `highway` to whole km/h from 1 to 1000. The others may be absent. `weight_name` is `duration`
/// or `distance`. `access_keys`, `denied` and `barriers` are lists of texts. `turn_penalty` is a table from
/// `straight`, `slight_right`, `right`, `sharp_right`, `uturn`, `sharp_left`, `left` and `slight_left`, and
/// `u_turn_penalty` and `signal_penalty` are penalties: whole deciseconds from 0 to 1000000. `driving_side` is
/// `right` or `left`.
///
/// Where `version` is 2 four more may stand: `maxspeed`, `true` or `false`; `surfaces`, a table from values of
/// `surface` to thousandths from 1 to 1000; `classes`, a table of at most 8, from names of lower-case letters,
/// digits and `_` to lists of texts `key=value`; and `excludable`, a list of at most 7 lists of names of
/// classes, none of them empty. Each fault comes exactly where [`SettingsFault`] says, but for want of memory,
/// which may come at any time.
#[tactic(auto, unfolding(crate::specs::Settings::checked_of))]
pub fn checked(alloc: Global, bytes: &[u8]) -> Result<Table, SettingsFault>
    ensures table { IfOk result (λ table. checked_of bytes.now ≡ Ok (table_view table)) }
    ensures good { IfOk result (λ table. AreNumbersGood (table_view table)) }
    ensures fault { IfErr result (IsFaultOf (checked_of bytes.now)) }
{
    let table = tree(alloc, bytes)?;
    match fault_of(alloc, &table) {
        Ok(()) => Ok(table),
        Err(fault) => Err(fault),
    }
}

// The first fault of a table of settings, if it has one.
#[tactic(auto, unfolding(crate::specs::Settings::table_or_fault))]
fn fault_of(alloc: Global, table: &Table) -> Result<(), SettingsFault>
    ensures none { IfOk result (λ _. table_or_fault (table_view table.now) ≡ Ok (table_view table.now)) }
    ensures good { IfOk result (λ _. AreNumbersGood (table_view table.now)) }
    ensures fault { IfErr result (IsFaultOf (table_or_fault (table_view table.now))) }
{
    if let Some(key) = unknown_key(alloc, table)? {
        return Err(SettingsFault::UnknownKey(key));
    }
    if let Some(key) = missing_key(table) {
        return Err(SettingsFault::Missing(Text::copy_of(alloc, key)?));
    }
    if let Some(key) = bad_value(alloc, table)? {
        return Err(SettingsFault::BadValue(key));
    }
    Ok(())
}
