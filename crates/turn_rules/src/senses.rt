//! The sense of a turn restriction.

ghost use Rattle.std.specs.Prelude.{◌≡◌};
ghost use Rattle.turn_rules.specs.Rules.{only_of, sense_of};

/// What a turn restriction does with the turns from its `from` ways.
#[derive(Clone, Copy, Debug, PartialEq, Eq)]
pub enum Sense {
    /// Those onto its `to` ways are forbidden.
    No,
    /// So they are, but from a way onto itself only where the turn goes back onto its own segment.
    NoUTurn,
    /// Those onto other ways are forbidden.
    Only,
}

// The sense of a value of `restriction`, or None where it is none of the nine.
pub(crate) fn sense_of(value: &str) -> Option<Sense>
    ensures { result ≡ sense_of value.now }
{
    match value {
        "no_left_turn" | "no_right_turn" | "no_straight_on" | "no_entry" | "no_exit" => {
            Some(Sense::No)
        }
        "no_u_turn" => Some(Sense::NoUTurn),
        "only_left_turn" | "only_right_turn" | "only_straight_on" => Some(Sense::Only),
        _ => None,
    }
}

// Whether a value of `restriction` forbids all other ways than the `to` way where there are via ways, or None
// where it may not stand there.
pub(crate) fn only_of(value: &str) -> Option<bool>
    ensures { result ≡ only_of value.now }
{
    match value {
        "no_left_turn" | "no_right_turn" | "no_straight_on" | "no_u_turn" => Some(false),
        "only_left_turn" | "only_right_turn" | "only_straight_on" => Some(true),
        _ => None,
    }
}
