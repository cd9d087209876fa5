//! Which values of a table of settings are bad.

ghost use Rattle.std.specs.Prelude.{◌≡◌, ◌∷◌, [], true, IfOk, Some, option_copied, codes};
ghost use Rattle.std.specs.List.{list_all};
ghost use Rattle.std.specs.Option.{option_map_or};
ghost use Rattle.toml.specs.Data.{get_member};
ghost use Rattle.toml.specs.View.{table_view, view};
ghost use Rattle.vehicle_settings.specs.Settings.{bad_common, bad_second, bad_value, is_penalty, is_side, is_weight_name};
ghost use Rattle.vehicle_settings.specs.SettingsData.{bad_at, bad_entry, bad_inside, bad_table, first_of, is_between, is_name, is_one_of, is_text, is_text_list, is_truth};

use crate::class_checks::{bad_classes, is_excludable_at};
use crate::settings_tree::value_at;
use road_base::Text;
use std::alloc::{AllocError, Global};
use toml::{Table, Value};

// The first key with a bad value.
pub(crate) fn bad_value(alloc: Global, table: &Table) -> Result<Option<Text>, AllocError>
    ensures { IfOk result (λ key. key ≡ bad_value (table_view table.now)) }
{
    match bad_common(alloc, table)? {
        Some(key) => Ok(Some(key)),
        None => bad_second(alloc, table),
    }
}

// The first of the keys of each version that has a bad value.
fn bad_common(alloc: Global, table: &Table) -> Result<Option<Text>, AllocError>
    ensures { IfOk result (λ key. key ≡ bad_common (table_view table.now)) }
{
    if let Some(key) = bad_name(table) {
        return Ok(Some(Text::copy_of(alloc, key)?));
    }
    if let Some(key) = bad_inside(alloc, table, "speeds", 1, 1000)? {
        return Ok(Some(key));
    }
    if let Some(key) = bad_list(table) {
        return Ok(Some(Text::copy_of(alloc, key)?));
    }
    if let Some(key) = bad_inside(alloc, table, "turn_penalty", 0, 1_000_000)? {
        return Ok(Some(key));
    }
    match bad_after_tables(table) {
        Some(key) => Ok(Some(Text::copy_of(alloc, key)?)),
        None => Ok(None),
    }
}

// The first of the keys of version 2 that has a bad value.
fn bad_second(alloc: Global, table: &Table) -> Result<Option<Text>, AllocError>
    ensures { IfOk result (λ key. key ≡ bad_second (table_view table.now)) }
{
    if !is_truth_at(table, "maxspeed") {
        return Ok(Some(Text::copy_of(alloc, "maxspeed")?));
    }
    if let Some(key) = bad_inside(alloc, table, "surfaces", 1, 1000)? {
        return Ok(Some(key));
    }
    if let Some(key) = bad_classes(alloc, table)? {
        return Ok(Some(key));
    }
    if !is_excludable_at(table) {
        return Ok(Some(Text::copy_of(alloc, "excludable")?));
    }
    Ok(None)
}

// The first of `version`, the names and `weight_name` that has a bad value.
fn bad_name(table: &Table) -> Option<&'static str>
    ensures { option_copied result ≡ first_of (
        bad_at (is_between 1 2) (codes "version") (table_view table.now)
        ∷ bad_at is_name (codes "name") (table_view table.now)
        ∷ bad_at is_name (codes "vehicle") (table_view table.now)
        ∷ bad_at is_weight_name (codes "weight_name") (table_view table.now)
        ∷ []) }
{
    if !is_number_at(table, "version", 1, 2) {
        Some("version")
    } else if !is_name_at(table, "name") {
        Some("name")
    } else if !is_name_at(table, "vehicle") {
        Some("vehicle")
    } else if !is_either_at(table, "weight_name", "duration", "distance") {
        Some("weight_name")
    } else {
        None
    }
}

// The first of the lists that is no list of texts.
fn bad_list(table: &Table) -> Option<&'static str>
    ensures { option_copied result ≡ first_of (
        bad_at is_text_list (codes "access_keys") (table_view table.now)
        ∷ bad_at is_text_list (codes "denied") (table_view table.now)
        ∷ bad_at is_text_list (codes "barriers") (table_view table.now)
        ∷ []) }
{
    if !is_text_list_at(table, "access_keys") {
        Some("access_keys")
    } else if !is_text_list_at(table, "denied") {
        Some("denied")
    } else if !is_text_list_at(table, "barriers") {
        Some("barriers")
    } else {
        None
    }
}

// The first of the settings after `turn_penalty` that has a bad value.
fn bad_after_tables(table: &Table) -> Option<&'static str>
    ensures { option_copied result ≡ first_of (
        bad_at is_penalty (codes "u_turn_penalty") (table_view table.now)
        ∷ bad_at is_penalty (codes "signal_penalty") (table_view table.now)
        ∷ bad_at is_side (codes "driving_side") (table_view table.now)
        ∷ []) }
{
    if !is_number_at(table, "u_turn_penalty", 0, 1_000_000) {
        Some("u_turn_penalty")
    } else if !is_number_at(table, "signal_penalty", 0, 1_000_000) {
        Some("signal_penalty")
    } else if !is_either_at(table, "driving_side", "right", "left") {
        Some("driving_side")
    } else {
        None
    }
}

// Of a table of whole numbers at a key, if it is there: the key if it is no table, or the first key in it
// whose value is not in the range.
fn bad_inside(
    alloc: Global,
    table: &Table,
    key: &str,
    least: u32,
    greatest: u32,
) -> Result<Option<Text>, AllocError>
    ensures { IfOk result (λ found. found ≡ bad_inside (is_between least greatest) key.now (table_view table.now)) }
{
    match value_at(table, key) {
        Some(value) => bad_table(alloc, key, value, least, greatest),
        None => Ok(None),
    }
}

fn bad_table(
    alloc: Global,
    key: &str,
    value: &Value,
    least: u32,
    greatest: u32,
) -> Result<Option<Text>, AllocError>
    ensures { IfOk result (λ found. found ≡ bad_table (is_between least greatest) key.now (Some (view value.now))) }
{
    let Some(members) = value.as_table() else {
        return Ok(Some(Text::copy_of(alloc, key)?));
    };
    match bad_entry(members, least, greatest) {
        Some(inner) => Ok(Some(Text::of(format!(in alloc; "{key}.{inner}")?))),
        None => Ok(None),
    }
}

// The key of the first value that is not a whole number in the range.
fn bad_entry(members: &Table, least: u32, greatest: u32) -> Option<&str>
    ensures { option_copied result ≡ bad_entry (is_between least greatest) (table_view members.now) }
{
    for (key, value) in members.iter() {
        if !is_number_between(value, least, greatest) {
            return Some(key.as_str());
        }
    }
    None
}

// Whether the value at a key, if there is one, is a whole number in a range.
fn is_number_at(table: &Table, key: &str, least: u32, greatest: u32) -> bool
    ensures { result ≡ option_map_or (is_between least greatest) (get_member key.now (table_view table.now)) true }
{
    match value_at(table, key) {
        Some(value) => is_number_between(value, least, greatest),
        None => true,
    }
}

// Whether the value at a key, if there is one, is a text that is not empty.
fn is_name_at(table: &Table, key: &str) -> bool
    ensures { result ≡ option_map_or is_name (get_member key.now (table_view table.now)) true }
{
    match value_at(table, key) {
        Some(value) => is_name(value),
        None => true,
    }
}

// Whether the value at a key, if there is one, is a list of texts.
fn is_text_list_at(table: &Table, key: &str) -> bool
    ensures { result ≡ option_map_or is_text_list (get_member key.now (table_view table.now)) true }
{
    match value_at(table, key) {
        Some(value) => is_text_list(value),
        None => true,
    }
}

// Whether the value at a key, if there is one, is one of two texts.
fn is_either_at(table: &Table, key: &str, one: &str, other: &str) -> bool
    ensures { result ≡ option_map_or (is_one_of (one.now ∷ other.now ∷ [])) (get_member key.now (table_view table.now)) true }
{
    match value_at(table, key) {
        Some(value) => is_either(value, one, other),
        None => true,
    }
}

// Whether the value at a key, if there is one, is `true` or `false`.
fn is_truth_at(table: &Table, key: &str) -> bool
    ensures { result ≡ option_map_or is_truth (get_member key.now (table_view table.now)) true }
{
    match value_at(table, key) {
        Some(value) => value.is_bool(),
        None => true,
    }
}

fn is_number_between(value: &Value, least: u32, greatest: u32) -> bool
    ensures { result ≡ is_between least greatest (view value.now) }
{
    match value.as_integer() {
        Some(number) => i64::from(least) <= number && number <= i64::from(greatest),
        None => false,
    }
}

fn is_name(value: &Value) -> bool
    ensures { result ≡ is_name (view value.now) }
{
    match value.as_str() {
        Some(text) => !text.is_empty(),
        None => false,
    }
}

fn is_text_list(value: &Value) -> bool
    ensures { result ≡ is_text_list (view value.now) }
{
    match value.as_array() {
        Some(values) => are_texts(values),
        None => false,
    }
}

fn are_texts(values: &[Value]) -> bool
    ensures { result ≡ list_all (λ v. is_text (view v)) values.now }
{
    values.iter().all(|value| value.is_str())
}

fn is_either(value: &Value, one: &str, other: &str) -> bool
    ensures { result ≡ is_one_of (one.now ∷ other.now ∷ []) (view value.now) }
{
    match value.as_str() {
        Some(text) => text == one || text == other,
        None => false,
    }
}
