//! The values of a table of settings with no fault.

ghost use Rattle.std.specs.Prelude.{◌≡◌, ◌≤◌, true, false, None, IfOk, map, codes, All};
ghost use Rattle.std.specs.Option.{option_map_or};
ghost use Rattle.toml.specs.Data.{get_member};
ghost use Rattle.toml.specs.View.{table_view, view};
ghost use Rattle.road_base.specs.declared.directions.Modifier.{Modifier};
ghost use Rattle.vehicle_settings.specs.Settings.{is_factor, is_penalty, is_speed};
ghost use Rattle.vehicle_settings.specs.SettingsData.{bad_at, bad_entry, bad_inside, is_between, members_at};
ghost use Rattle.way_profile.specs.SettingsValues.{is_true, is_word, number_at, number_in, scaled_numbers, text_at, text_in, texts_at, texts_in, turn_penalties_of};
ghost use Rattle.way_profile.specs.Vehicle.{IsFactor, IsSpeed, bend_penalty};

use crate::turn_penalties::TurnPenalties;
use road_base::{Text, Words};
use std::alloc::{AllocError, Global};
use toml::{Table, Value};
use vehicle_settings::{table_at, value_at};

// The text at a key.
pub(crate) fn text_at<'a>(table: &'a Table, key: &str) -> &'a str
    ensures { result.now ≡ text_at key.now (table_view table.now) }
{
    match value_at(table, key) {
        Some(value) => text_in(value),
        None => "",
    }
}

pub(crate) fn text_in(value: &Value) -> &str
    ensures { result.now ≡ text_in (view value.now) }
{
    match value.as_str() {
        Some(text) => text,
        None => "",
    }
}

// The texts of the list at a key, none where it is absent.
pub(crate) fn texts_at(alloc: Global, table: &Table, key: &str) -> Result<Words, AllocError>
    ensures { IfOk result (λ texts. texts ≡ texts_at key.now (table_view table.now)) }
{
    match value_at(table, key) {
        Some(value) => texts_in(alloc, value),
        None => Ok(Words::of(Vec::new(alloc))),
    }
}

// The texts of a list.
pub(crate) fn texts_in(alloc: Global, value: &Value) -> Result<Words, AllocError>
    ensures { IfOk result (λ texts. texts ≡ texts_in (view value.now)) }
{
    match value.as_array() {
        Some(values) => texts_of(alloc, values),
        None => Ok(Words::of(Vec::new(alloc))),
    }
}

fn texts_of(alloc: Global, values: &[Value]) -> Result<Words, AllocError>
    ensures { IfOk result (λ texts. texts ≡ map (λ v. text_in (view v)) values.now) }
{
    let mut texts = Vec::new(alloc);
    for value in values {
        texts.push(Text::copy_of(alloc, text_in(value))?)?;
    }
    Ok(Words::of(texts))
}

// The speeds of the settings in thousandths of km/h.
pub(crate) fn speeds_at(alloc: Global, table: &Table) -> Result<Vec<(Text, u32)>, AllocError>
    requires { bad_inside is_speed (codes "speeds") (table_view table.now) ≡ None }
    ensures list { IfOk result (λ list. list.items ≡ scaled_numbers 1000 (members_at (codes "speeds") (table_view table.now))) }
    ensures range { IfOk result (λ list. All (λ e. IsSpeed e.1) list.items) }
{
    match table_at(table, "speeds") {
        Some(speeds) => numbers_of(alloc, speeds, 1000),
        None => Ok(Vec::new(alloc)),
    }
}

// The factors of the settings in thousandths.
pub(crate) fn surfaces_at(alloc: Global, table: &Table) -> Result<Vec<(Text, u32)>, AllocError>
    requires { bad_inside is_factor (codes "surfaces") (table_view table.now) ≡ None }
    ensures list { IfOk result (λ list. list.items ≡ scaled_numbers 1 (members_at (codes "surfaces") (table_view table.now))) }
    ensures range { IfOk result (λ list. All (λ e. IsFactor e.1) list.items) }
{
    match table_at(table, "surfaces") {
        Some(factors) => numbers_of(alloc, factors, 1),
        None => Ok(Vec::new(alloc)),
    }
}

// The keys of a table with so many times their numbers.
fn numbers_of(alloc: Global, members: &Table, scale: u32) -> Result<Vec<(Text, u32)>, AllocError>
    requires numbers { bad_entry (is_between 1 1000) (table_view members.now) ≡ None }
    requires scale { scale ≤ 1000 }
    ensures { IfOk result (λ list. list.items ≡ scaled_numbers scale (table_view members.now)) }
{
    let mut list = Vec::new(alloc);
    for (word, value) in members.iter() {
        list.push((
            Text::copy_of(alloc, word.as_str())?,
            number_in(value) * scale,
        ))?;
    }
    Ok(list)
}

// The penalties of turns by the way they bend.
pub(crate) fn turn_penalties_at(table: &Table) -> TurnPenalties
    requires { bad_inside is_penalty (codes "turn_penalty") (table_view table.now) ≡ None }
    ensures value { result ≡ turn_penalties_of (members_at (codes "turn_penalty") (table_view table.now)) }
    ensures range { (modifier : Modifier) → bend_penalty result modifier ≤ 1000000 }
{
    match table_at(table, "turn_penalty") {
        Some(penalties) => turn_penalties_of(penalties),
        None => TurnPenalties::NONE,
    }
}

fn turn_penalties_of(penalties: &Table) -> TurnPenalties
    requires { bad_entry is_penalty (table_view penalties.now) ≡ None }
    ensures value { result ≡ turn_penalties_of (table_view penalties.now) }
    ensures range { (modifier : Modifier) → bend_penalty result modifier ≤ 1000000 }
{
    TurnPenalties {
        straight: penalty_at(penalties, "straight"),
        slight_right: penalty_at(penalties, "slight_right"),
        right: penalty_at(penalties, "right"),
        sharp_right: penalty_at(penalties, "sharp_right"),
        uturn: penalty_at(penalties, "uturn"),
        sharp_left: penalty_at(penalties, "sharp_left"),
        left: penalty_at(penalties, "left"),
        slight_left: penalty_at(penalties, "slight_left"),
    }
}

// The penalty at a key, 0 where it is absent.
pub(crate) fn penalty_at(table: &Table, key: &str) -> u32
    requires { bad_at is_penalty key.now (table_view table.now) ≡ None }
    ensures value { result ≡ number_at key.now (table_view table.now) }
    ensures range { result ≤ 1000000 }
{
    match value_at(table, key) {
        Some(value) => number_in(value),
        None => 0,
    }
}

// The whole number of a value, held within a million.
fn number_in(value: &Value) -> u32
    requires { is_between 0 1000000 (view value.now) ≡ true }
    ensures value { result ≡ number_in (view value.now) }
    ensures range { result ≤ 1000000 }
{
    match value.as_integer() {
        Some(number) => number as u32,
        None => 0,
    }
}

// Whether the value at a key is this text; an absent one is not.
pub(crate) fn is_word_at(table: &Table, key: &str, word: &str) -> bool
    ensures { result ≡ option_map_or (is_word word.now) (get_member key.now (table_view table.now)) false }
{
    match value_at(table, key) {
        Some(value) => is_word(value, word),
        None => false,
    }
}

fn is_word(value: &Value, word: &str) -> bool
    ensures { result ≡ is_word word.now (view value.now) }
{
    match value.as_str() {
        Some(text) => text == word,
        None => false,
    }
}

// Whether the value at a key is `true`; an absent one is not.
pub(crate) fn is_true_at(table: &Table, key: &str) -> bool
    ensures { result ≡ option_map_or is_true (get_member key.now (table_view table.now)) false }
{
    match value_at(table, key) {
        Some(value) => is_true(value),
        None => false,
    }
}

fn is_true(value: &Value) -> bool
    ensures { result ≡ is_true (view value.now) }
{
    value.as_bool() == Some(true)
}
