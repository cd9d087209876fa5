//! The tree of a settings file.

ghost use Rattle.std.specs.Prelude.{◌≡◌, Some, None, IfOk, IfErr, option_map};
ghost use Rattle.std.specs.Option.{option_and_then};
ghost use Rattle.toml.specs.Data.{get_member, as_table};
ghost use Rattle.toml.specs.View.{table_view, view};
ghost use Rattle.vehicle_settings.specs.Settings.{IsTreeFault, tree_of};

use crate::settings_faults::SettingsFault;
use std::alloc::Global;
use toml::{Table, Value};

// The table that the bytes are.
pub(crate) fn tree(alloc: Global, bytes: &[u8]) -> Result<Table, SettingsFault>
    ensures ok { IfOk result (λ table. tree_of bytes.now ≡ Some (table_view table)) }
    ensures refused { IfErr result (λ fault. IsTreeFault (tree_of bytes.now) fault) }
{
    let Ok(text) = std::str::from_utf8(bytes) else {
        return Err(SettingsFault::NotToml);
    };
    match toml::table_from_str(alloc, text) {
        Ok(table) => Ok(table),
        Err(error) => {
            if error.is_memory() {
                Err(SettingsFault::Memory)
            } else {
                Err(SettingsFault::NotToml)
            }
        }
    }
}

/// The value at a key of a table.
pub fn value_at<'a>(table: &'a Table, key: &str) -> Option<&'a Value>
    ensures { option_map (λ v. view v.now) result ≡ get_member key.now (table_view table.now) }
{
    table.get(key)
}

/// The table at a key of a table, None where there is none or another value.
pub fn table_at<'a>(table: &'a Table, key: &str) -> Option<&'a Table>
    ensures { option_map (λ t. table_view t.now) result ≡ option_and_then as_table (get_member key.now (table_view table.now)) }
{
    match value_at(table, key) {
        Some(value) => value.as_table(),
        None => None,
    }
}
