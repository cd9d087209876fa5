//! What drivers are told at turns.

ghost use Rattle.std.specs.Prelude.{◌≡◌};
ghost use Rattle.route_steps.specs.Maneuvers.{told, told_round};

use road_base::{Modifier, Point};

/// What a driver is to do where a step begins, in the words of the OSRM HTTP API's `type`.
#[derive(Clone, Copy, Debug, PartialEq, Eq)]
pub enum ManeuverKind {
    /// sets out on the walk
    Depart,
    /// is at the walk's end
    Arrive,
    /// leaves the road for one of another name
    Turn,
    /// follows a road of the same name where it bends, or turns back on it
    Continue,
    /// goes on, while the road's name changes
    NewName,
    /// comes into a roundabout
    Roundabout,
    /// leaves a roundabout
    ExitRoundabout,
}

/// What a driver is told where a step begins: the point, by which bearings the walk comes to it and leaves it (in
/// whole degrees clockwise from north, below 360; 0 before the departure and after the arrival), what to do
/// there, how the turn bends, if there is one, and by which exit a roundabout is left, if one is entered or left there:
/// its number in the order in which they are passed, None where the walk ends before.
#[derive(Clone, Copy)]
pub struct Maneuver {
    pub location: Point,
    pub before: u32,
    pub after: u32,
    pub kind: ManeuverKind,
    pub modifier: Option<Modifier>,
    pub exit: Option<u32>,
}

/// What a driver is told of a turn, or None where nothing: by whether it leads back onto its own segment, whether
/// there are two exits or more, whether the roads before and after it have one name, and how it bends.
pub(crate) fn told(
    back: bool,
    several: bool,
    same_name: bool,
    bend: Modifier,
) -> Option<(ManeuverKind, Modifier)>
    ensures { result ≡ told back several same_name bend }
{
    if back {
        return Some((ManeuverKind::Continue, Modifier::Uturn));
    }
    match (several, same_name, bend) {
        (false, true, _) | (true, true, Modifier::Straight) => None,
        (true, true, _) => Some((ManeuverKind::Continue, bend)),
        (false, false, _)
        | (true, false, Modifier::Straight | Modifier::SlightRight | Modifier::SlightLeft) => {
            Some((ManeuverKind::NewName, bend))
        }
        (true, false, _) => Some((ManeuverKind::Turn, bend)),
    }
}

/// The same with roundabouts: by whether a turn leads back onto its own segment, whether the vertices before and behind
/// it are round, what the table says of it, and how it bends.
pub(crate) fn told_round(
    back: bool,
    before: bool,
    behind: bool,
    by_table: Option<(ManeuverKind, Modifier)>,
    bend: Modifier,
) -> Option<(ManeuverKind, Modifier)>
    ensures { result ≡ told_round back before behind by_table bend }
{
    match (back, before, behind) {
        (true, _, _) | (false, false, false) => by_table,
        (false, true, true) => None,
        (false, false, true) => Some((ManeuverKind::Roundabout, bend)),
        (false, true, false) => Some((ManeuverKind::ExitRoundabout, bend)),
    }
}
