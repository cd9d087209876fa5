//! The classes of settings with no fault, and the sets of them that may be excluded.

ghost use Rattle.std.specs.Prelude.{◌≡◌, IfOk, codes, map};
ghost use Rattle.toml.specs.View.{table_view, view};
ghost use Rattle.vehicle_settings.specs.SettingsData.{members_at};
ghost use Rattle.way_profile.specs.SettingsValues.{classes_of_table, sets_at, sets_in, tag_of, texts_in};

use crate::parted_texts::parted;
use crate::settings_values::texts_in;
use crate::way_classes::Class;
use road_base::{Text, Words};
use std::alloc::{AllocError, Global};
use toml::{Table, Value};
use vehicle_settings::{table_at, value_at};

// The classes of the settings.
pub(crate) fn classes_at(alloc: Global, table: &Table) -> Result<Vec<Class>, AllocError>
    ensures { IfOk result (λ list. list.items ≡ classes_of_table (members_at (codes "classes") (table_view table.now))) }
{
    match table_at(table, "classes") {
        Some(classes) => classes_of(alloc, classes),
        None => Ok(Vec::new(alloc)),
    }
}

fn classes_of(alloc: Global, classes: &Table) -> Result<Vec<Class>, AllocError>
    ensures { IfOk result (λ list. list.items ≡ classes_of_table (table_view classes.now)) }
{
    let mut list = Vec::new(alloc);
    for (name, value) in classes.iter() {
        let name = Text::copy_of(alloc, name.as_str())?;
        list.push(Class::of(name, tags_of(alloc, value)?))?;
    }
    Ok(list)
}

// The tags of a list of texts `key=value`.
fn tags_of(alloc: Global, value: &Value) -> Result<Vec<(Text, Text)>, AllocError>
    ensures { IfOk result (λ tags. tags.items ≡ map tag_of (texts_in (view value.now))) }
{
    let texts = texts_in(alloc, value)?;
    tags_of_texts(alloc, texts.as_slice())
}

fn tags_of_texts(alloc: Global, texts: &[Text]) -> Result<Vec<(Text, Text)>, AllocError>
    ensures { IfOk result (λ tags. tags.items ≡ map tag_of texts.now) }
{
    let mut tags = Vec::with_capacity(alloc, texts.len())?;
    for text in texts {
        tags.push(tag_of(alloc, text.as_str())?)?;
    }
    Ok(tags)
}

// The key and the value of an entry of a class.
fn tag_of(alloc: Global, text: &str) -> Result<(Text, Text), AllocError>
    ensures { IfOk result (λ tag. tag ≡ tag_of text.now) }
{
    let (key, value) = parted(text, '=');
    let key = Text::copy_of(alloc, key)?;
    Ok((key, Text::copy_of(alloc, value)?))
}

// The sets of the list at `excludable`, none where it is absent.
pub(crate) fn sets_at(alloc: Global, table: &Table) -> Result<Vec<Words>, AllocError>
    ensures { IfOk result (λ sets. sets.items ≡ sets_at (codes "excludable") (table_view table.now)) }
{
    match value_at(table, "excludable") {
        Some(value) => sets_in(alloc, value),
        None => Ok(Vec::new(alloc)),
    }
}

fn sets_in(alloc: Global, value: &Value) -> Result<Vec<Words>, AllocError>
    ensures { IfOk result (λ sets. sets.items ≡ sets_in (view value.now)) }
{
    match value.as_array() {
        Some(values) => sets_of(alloc, values),
        None => Ok(Vec::new(alloc)),
    }
}

fn sets_of(alloc: Global, values: &[Value]) -> Result<Vec<Words>, AllocError>
    ensures { IfOk result (λ sets. sets.items ≡ map (λ v. texts_in (view v)) values.now) }
{
    let mut sets = Vec::with_capacity(alloc, values.len())?;
    for value in values {
        sets.push(texts_in(alloc, value)?)?;
    }
    Ok(sets)
}
