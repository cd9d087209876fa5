//! Which keys a table of settings has.

ghost use Rattle.std.specs.Prelude.{◌≡◌, ◌||◌, ◌&&◌, false, IfOk, option_copied, codes, find, not, string_bytes};
ghost use Rattle.std.specs.Map.{keys_of};
ghost use Rattle.std.specs.Option.{option_map_or};
ghost use Rattle.toml.specs.Data.{get_member};
ghost use Rattle.toml.specs.View.{table_view};
ghost use Rattle.road_base.specs.Words.{is_among};
ghost use Rattle.vehicle_settings.specs.Settings.{common_keys, is_known, is_second, key_beside, missing_key, second_keys, turn_keys, unknown_key};

use crate::settings_tree::{table_at, value_at};
use road_base::Text;
use std::alloc::{AllocError, Global};
use toml::Table;

// The first key that there is no setting of, in byte order, those of the file before those of
// `turn_penalty`.
pub(crate) fn unknown_key(alloc: Global, table: &Table) -> Result<Option<Text>, AllocError>
    ensures { IfOk result (λ key. key ≡ unknown_key (table_view table.now)) }
{
    if let Some(key) = unknown_setting(table) {
        return Ok(Some(Text::copy_of(alloc, key)?));
    }
    let Some(penalties) = table_at(table, "turn_penalty") else {
        return Ok(None);
    };
    match unknown_turn(penalties) {
        Some(key) => Ok(Some(Text::of(format!(in alloc; "turn_penalty.{key}")?))),
        None => Ok(None),
    }
}

fn unknown_setting(table: &Table) -> Option<&str>
    ensures { option_copied result ≡ key_beside (is_known (table_view table.now)) (table_view table.now) }
{
    match first_no_setting(table) {
        Some(key) => Some(key.as_str()),
        None => None,
    }
}

fn first_no_setting(table: &Table) -> Option<&String>
    ensures { option_copied result ≡ find (λ k. not (is_known (table_view table.now) (string_bytes k))) (keys_of table.now.entries) }
{
    let second = is_second(table);
    table.keys().find(|key| !(is_common(key.as_str()) || (second && is_of_second(key.as_str()))))
}

// Whether the settings say that they are of version 2.
fn is_second(table: &Table) -> bool
    ensures { result ≡ is_second (table_view table.now) }
{
    match value_at(table, "version") {
        Some(value) => value.as_integer() == Some(2),
        None => false,
    }
}

// Whether settings of each version may have the key.
fn is_common(key: &str) -> bool
    ensures { result ≡ is_among common_keys key.now }
{
    matches!(
        key,
        "version"
            | "name"
            | "vehicle"
            | "weight_name"
            | "speeds"
            | "access_keys"
            | "denied"
            | "barriers"
            | "turn_penalty"
            | "u_turn_penalty"
            | "signal_penalty"
            | "driving_side"
    )
}

// Whether it is one of those that version 2 has besides.
fn is_of_second(key: &str) -> bool
    ensures { result ≡ is_among second_keys key.now }
{
    matches!(key, "maxspeed" | "surfaces" | "classes" | "excludable")
}

fn unknown_turn(penalties: &Table) -> Option<&str>
    ensures { option_copied result ≡ key_beside (is_among turn_keys) (table_view penalties.now) }
{
    match first_no_turn(penalties) {
        Some(key) => Some(key.as_str()),
        None => None,
    }
}

fn first_no_turn(penalties: &Table) -> Option<&String>
    ensures { option_copied result ≡ find (λ k. not (is_among turn_keys (string_bytes k))) (keys_of penalties.now.entries) }
{
    penalties.keys().find(|key| !is_turn(key.as_str()))
}

fn is_turn(key: &str) -> bool
    ensures { result ≡ is_among turn_keys key.now }
{
    matches!(
        key,
        "straight"
            | "slight_right"
            | "right"
            | "sharp_right"
            | "uturn"
            | "sharp_left"
            | "left"
            | "slight_left"
    )
}

// The first key that must be there and is not.
pub(crate) fn missing_key(table: &Table) -> Option<&'static str>
    ensures { option_copied result ≡ missing_key (table_view table.now) }
{
    if value_at(table, "name").is_none() {
        Some("name")
    } else if value_at(table, "vehicle").is_none() {
        Some("vehicle")
    } else if value_at(table, "speeds").is_none() {
        Some("speeds")
    } else {
        None
    }
}
