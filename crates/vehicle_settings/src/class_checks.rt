//! Which values of `classes` and `excludable` are bad.

ghost use Rattle.std.specs.Prelude.{◌≡◌, true, IfOk, Some, is_some, option_copied, codes};
ghost use Rattle.std.specs.List.{list_all};
ghost use Rattle.std.specs.Option.{option_map_or};
ghost use Rattle.toml.specs.Data.{get_member};
ghost use Rattle.toml.specs.View.{table_view, view};
ghost use Rattle.vehicle_settings.specs.ClassSettings.{bad_classes, is_class, is_class_letter, is_class_name, is_class_of, is_excludable, is_set, is_tag};
ghost use Rattle.vehicle_settings.specs.SettingsData.{bad_member, is_list_of, members_at};

use crate::settings_tree::{table_at, value_at};
use road_base::Text;
use std::alloc::{AllocError, Global};
use toml::{Table, Value};

// How many classes settings may have.
const MOST_CLASSES: usize = 8;

// How many sets of them may be excluded.
const MOST_SETS: usize = 7;

// `classes`, if there is one and it is no table or has too many; else its first class that is bad.
pub(crate) fn bad_classes(alloc: Global, table: &Table) -> Result<Option<Text>, AllocError>
    ensures { IfOk result (λ found. found ≡ bad_classes (get_member (codes "classes") (table_view table.now))) }
{
    match value_at(table, "classes") {
        Some(value) => bad_classes_in(alloc, value),
        None => Ok(None),
    }
}

fn bad_classes_in(alloc: Global, value: &Value) -> Result<Option<Text>, AllocError>
    ensures { IfOk result (λ found. found ≡ bad_classes (Some (view value.now))) }
{
    let Some(classes) = value.as_table() else {
        return Ok(Some(Text::copy_of(alloc, "classes")?));
    };
    if classes.len() > MOST_CLASSES {
        return Ok(Some(Text::copy_of(alloc, "classes")?));
    }
    match bad_class(classes) {
        Some(name) => Ok(Some(Text::of(format!(in alloc; "classes.{name}")?))),
        None => Ok(None),
    }
}

// The first class whose name or list is bad.
fn bad_class(classes: &Table) -> Option<&str>
    ensures { option_copied result ≡ bad_member is_class (table_view classes.now) }
{
    for (name, value) in classes.iter() {
        if !is_class(name.as_str(), value) {
            return Some(name.as_str());
        }
    }
    None
}

fn is_class(name: &str, value: &Value) -> bool
    ensures { result ≡ is_class name.now (view value.now) }
{
    is_class_name(name) && is_tag_list(value)
}

fn is_class_name(name: &str) -> bool
    ensures { result ≡ is_class_name name.now }
{
    !name.is_empty() && are_class_letters(name.as_bytes())
}

fn are_class_letters(bytes: &[u8]) -> bool
    ensures { result ≡ list_all is_class_letter bytes.now }
{
    bytes.iter().all(|b| b.is_ascii_lowercase() || b.is_ascii_digit() || *b == b'_')
}

fn is_tag_list(value: &Value) -> bool
    ensures { result ≡ is_list_of is_tag (view value.now) }
{
    match value.as_array() {
        Some(values) => are_tags(values),
        None => false,
    }
}

fn are_tags(values: &[Value]) -> bool
    ensures { result ≡ list_all (λ v. is_tag (view v)) values.now }
{
    values.iter().all(|value| is_tag(value))
}

fn is_tag(value: &Value) -> bool
    ensures { result ≡ is_tag (view value.now) }
{
    match value.as_str() {
        Some(text) => text.as_bytes().contains(&b'='),
        None => false,
    }
}

// Whether the sets that may be excluded, if there are any, are good.
pub(crate) fn is_excludable_at(table: &Table) -> bool
    ensures { result ≡ option_map_or (is_excludable (members_at (codes "classes") (table_view table.now))) (get_member (codes "excludable") (table_view table.now)) true }
{
    match value_at(table, "excludable") {
        Some(value) => is_excludable(table, value),
        None => true,
    }
}

fn is_excludable(table: &Table, value: &Value) -> bool
    ensures { result ≡ is_excludable (members_at (codes "classes") (table_view table.now)) (view value.now) }
{
    match value.as_array() {
        Some(sets) => sets.len() <= MOST_SETS && are_sets(table, sets),
        None => false,
    }
}

fn are_sets(table: &Table, sets: &[Value]) -> bool
    ensures { result ≡ list_all (λ v. is_set (members_at (codes "classes") (table_view table.now)) (view v)) sets.now }
{
    sets.iter().all(|set| is_set(table, set))
}

fn is_set(table: &Table, value: &Value) -> bool
    ensures { result ≡ is_set (members_at (codes "classes") (table_view table.now)) (view value.now) }
{
    match value.as_array() {
        Some(names) => !names.is_empty() && are_classes(table, names),
        None => false,
    }
}

fn are_classes(table: &Table, names: &[Value]) -> bool
    ensures { result ≡ list_all (λ v. is_class_of (members_at (codes "classes") (table_view table.now)) (view v)) names.now }
{
    names.iter().all(|name| is_class_of(table, name))
}

// Whether the value is the name of one of the classes.
fn is_class_of(table: &Table, value: &Value) -> bool
    ensures { result ≡ is_class_of (members_at (codes "classes") (table_view table.now)) (view value.now) }
{
    match value.as_str() {
        Some(name) => has_class(table, name),
        None => false,
    }
}

fn has_class(table: &Table, name: &str) -> bool
    ensures { result ≡ is_some (get_member name.now (members_at (codes "classes") (table_view table.now))) }
{
    match table_at(table, "classes") {
        Some(classes) => value_at(classes, name).is_some(),
        None => false,
    }
}
