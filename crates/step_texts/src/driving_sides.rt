//! The sides of a road.

ghost use Rattle.std.specs.Prelude.{◌≡◌};
ghost use Rattle.step_texts.specs.Steps.{driving_side, side_text};

use way_profile::Profile;

/// The side of the road that a vehicle drives on.
#[derive(Clone, Copy, Debug, PartialEq, Eq)]
pub enum DrivingSide {
    Right,
    Left,
}

impl DrivingSide {
    /// The side that the settings of a vehicle say.
    pub fn of(profile: &Profile) -> DrivingSide
        ensures { result ≡ driving_side profile.now }
    {
        if profile.left_side() {
            DrivingSide::Left
        } else {
            DrivingSide::Right
        }
    }

    /// Its name.
    pub fn text(self) -> &'static str
        ensures { result.now ≡ side_text self }
    {
        match self {
            DrivingSide::Right => "right",
            DrivingSide::Left => "left",
        }
    }
}
