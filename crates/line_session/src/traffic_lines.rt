//! Lines that name traffic files.

ghost use Rattle.std.specs.Prelude.{◌≡◌, ◌==◌, option_map};
ghost use Rattle.std.specs.List.{slice_split};
ghost use Rattle.line_session.specs.Traffic.{is_name, names_behind, names_in, traffic_names};

use option_values::cut;

/// How many bytes the longest line has that asks for something.
const LONGEST_LINE: usize = 8192;

/// The name that names no file.
pub const NO_FILE: &str = "-";

// Whether the text, in which there is no blank, is a name of a file.
fn is_name(text: &str) -> bool
    ensures { result ≡ is_name text.now }
{
    !text.is_empty() && cut(text, '\t').is_none()
}

// The names behind the word, where it is the one for traffic.
fn names_behind<'a>(word: &str, speeds: &'a str, turns: &'a str) -> Option<(&'a str, &'a str)>
    ensures { option_map (λ names. (names.0.now, names.1.now)) result ≡ names_behind word.now speeds.now turns.now }
{
    if word == "TRAFFIC" && is_name(speeds) && is_name(turns) {
        return Some((speeds, turns));
    }
    None
}

// The names of the speeds file and of the turns file in a text.
fn names_in(text: &str) -> Option<(&str, &str)>
    ensures { option_map (λ names. (names.0.now, names.1.now)) result ≡ names_in (slice_split (λ b. b == 32) text.now) }
{
    let Some((word, names)) = cut(text, ' ') else {
        return None;
    };
    let Some((speeds, turns)) = cut(names, ' ') else {
        return None;
    };
    if cut(turns, ' ').is_some() {
        return None;
    }
    names_behind(word, speeds, turns)
}

/// The names of the speeds file and of the turns file in a line, or None where it is no traffic line.
pub fn traffic_names(line: &[u8]) -> Option<(&str, &str)>
    ensures { option_map (λ names. (names.0.now, names.1.now)) result ≡ traffic_names line.now }
{
    if line.len() > LONGEST_LINE {
        return None;
    }
    match std::str::from_utf8(line) {
        Ok(text) => names_in(text),
        Err(_) => None,
    }
}
