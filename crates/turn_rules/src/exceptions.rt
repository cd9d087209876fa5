//! Which relations are turn restrictions, and which vehicles these except.

ghost use Rattle.std.specs.Prelude.{◌≡◌, ◌-◌, ◌≤◌, length, bytes_eq};
ghost use Rattle.std.specs.List.{list_any, prefix_len, suffix_len};
ghost use Rattle.turn_rules.specs.Rules.{entries_of, is_blank, is_excepted, is_restriction, past_blanks, up_to_blanks};

use road_base::Relation;

// Whether a relation is a turn restriction.
pub(crate) fn is_restriction(relation: &Relation) -> bool
    ensures { result ≡ is_restriction relation.now }
{
    match relation.tags.get("type") {
        Some(value) => value == "restriction",
        None => false,
    }
}

// Whether a restriction doesn't apply to the vehicle.
pub(crate) fn is_excepted(vehicle: &str, relation: &Relation) -> bool
    ensures { result ≡ is_excepted vehicle.now relation.now }
{
    match relation.tags.get("except") {
        Some(value) => has_entry(value.as_bytes(), vehicle.as_bytes()),
        None => false,
    }
}

// Whether a list has this entry.
fn has_entry(list: &[u8], wanted: &[u8]) -> bool
    ensures { result ≡ list_any (λ entry. bytes_eq entry wanted.now) (entries_of list.now) }
{
    list.split(|b| *b == b';')
        .any(|entry| is_entry(entry, wanted))
}

// Whether what stands between two semicolons is this entry.
fn is_entry(between: &[u8], wanted: &[u8]) -> bool
    ensures { result ≡ bytes_eq (up_to_blanks (past_blanks between.now)) wanted.now }
{
    without_blanks(between) == wanted
}

// The text without the blanks at its front and its end.
fn without_blanks(text: &[u8]) -> &[u8]
    ensures { result.now ≡ up_to_blanks (past_blanks text.now) }
{
    let rest = &text[blanks_before(text)..];
    &rest[..end_of_text(rest)]
}

// How many blanks the text begins with.
fn blanks_before(text: &[u8]) -> usize
    ensures value { result ≡ prefix_len is_blank text.now }
    ensures bound { result ≤ length text.now }
{
    let mut count = 0;
    while count < text.len() && is_blank(text[count]) {
        count += 1;
    }
    count
}

// Where the blanks at the end of the text begin.
fn end_of_text(text: &[u8]) -> usize
    ensures { result ≡ length text.now - suffix_len is_blank text.now }
{
    let mut end = text.len();
    while end > 0 && is_blank(text[end - 1]) {
        end -= 1;
    }
    end
}

fn is_blank(byte: u8) -> bool
    ensures { result ≡ is_blank byte }
{
    byte == b' ' || byte == b'\t'
}
