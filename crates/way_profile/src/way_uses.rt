//! How a vehicle may use a way.

ghost use Rattle.std.specs.Prelude.{◌≡◌, ◌∷◌, []};
ghost use Rattle.way_profile.specs.WayTags.{is_denied, values_at, number_of, number_by, says, is_backward_only, is_forward_only, is_oneway, is_round, has_other_oneway, is_forward_by_kind};

use road_base::{Tags, Text, Words};

/// The directions of a way that a vehicle may use, its speed there, and whether the way is a roundabout. Where the
/// way is not routable for the vehicle all three are false, and the speed is 0.
#[derive(Clone, Copy, Debug, PartialEq, Eq)]
pub struct WayUse {
    /// Along the way's own direction.
    pub forward: bool,
    /// Against it.
    pub backward: bool,
    /// In thousandths of km/h.
    pub speed: u32,
    /// Whether the way is a roundabout, or a piece of one.
    pub round: bool,
}

// Whether the first of these keys that a way carries has a value that is denied.
pub(crate) fn is_denied(tags: &Tags, keys: &Words, denied: &Words) -> bool
    ensures { result ≡ is_denied denied.now (values_at tags.now keys.now) }
{
    for key in keys.as_slice() {
        if let Some(value) = tags.get(key.as_str()) {
            return denied.has(value);
        }
    }
    false
}

// The number that the value at a key has.
pub(crate) fn number_by(tags: &Tags, key: &str, numbers: &[(Text, u32)]) -> Option<u32>
    ensures { result ≡ number_by key.now numbers.now tags.now }
{
    match tags.get(key) {
        Some(value) => number_of(numbers, value),
        None => None,
    }
}

// The number that a word has.
fn number_of(numbers: &[(Text, u32)], word: &str) -> Option<u32>
    ensures { result ≡ number_of numbers.now word.now }
{
    for entry in numbers {
        if entry.0.as_str() == word {
            return Some(entry.1);
        }
    }
    None
}

// Whether a way is used against its own direction only.
pub(crate) fn is_backward_only(tags: &Tags) -> bool
    ensures { result ≡ is_backward_only tags.now }
{
    match tags.get("oneway") {
        Some(value) => value == "-1" || value == "reverse",
        None => false,
    }
}

// Whether a way is used in its own direction only.
pub(crate) fn is_forward_only(tags: &Tags) -> bool
    ensures { result ≡ is_forward_only tags.now }
{
    is_oneway(tags) || (!has_other_oneway(tags) && is_forward_by_kind(tags))
}

fn is_oneway(tags: &Tags) -> bool
    ensures { result ≡ is_oneway tags.now }
{
    match tags.get("oneway") {
        Some(value) => value == "yes" || value == "true" || value == "1",
        None => false,
    }
}

// Whether `oneway` says that a way isn't used in its own direction only.
fn has_other_oneway(tags: &Tags) -> bool
    ensures { result ≡ has_other_oneway tags.now }
{
    match tags.get("oneway") {
        Some(value) => value == "-1" || value == "reverse" || value == "no",
        None => false,
    }
}

// Whether ways of this kind are used in their own direction only where `oneway` says nothing.
fn is_forward_by_kind(tags: &Tags) -> bool
    ensures { result ≡ is_forward_by_kind tags.now }
{
    is_round(tags) || has_value(tags, "highway", "motorway")
}

// Whether a way is a roundabout.
pub(crate) fn is_round(tags: &Tags) -> bool
    ensures { result ≡ is_round tags.now }
{
    has_value(tags, "junction", "roundabout")
}

// Whether the value at a key is this word.
pub(crate) fn has_value(tags: &Tags, key: &str, word: &str) -> bool
    ensures { result ≡ says tags.now key.now (word.now ∷ []) }
{
    match tags.get(key) {
        Some(value) => value == word,
        None => false,
    }
}
