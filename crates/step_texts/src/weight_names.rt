//! What weights count.

ghost use Rattle.std.specs.Prelude.{◌≡◌};
ghost use Rattle.step_texts.specs.Totals.{weight_name, weight_text};

use way_profile::Profile;

/// What the weight of a road is that no traffic row rates: its duration or its length.
#[derive(Clone, Copy, Debug, PartialEq, Eq)]
pub enum WeightName {
    Duration,
    Distance,
}

impl WeightName {
    /// The one that the settings of a vehicle say.
    pub fn of(profile: &Profile) -> WeightName
        ensures { result ≡ weight_name profile.now }
    {
        if profile.by_distance() {
            WeightName::Distance
        } else {
            WeightName::Duration
        }
    }

    /// The word for it in replies.
    pub fn text(self) -> &'static str
        ensures { result.now ≡ weight_text self }
    {
        match self {
            WeightName::Duration => "duration",
            WeightName::Distance => "distance",
        }
    }
}
