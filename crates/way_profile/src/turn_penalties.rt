//! The penalties of turns.

ghost use Rattle.std.specs.Prelude.{◌≡◌};
ghost use Rattle.way_profile.specs.Vehicle.{bend_penalty};

use road_base::Modifier;

// The penalty of a turn in deciseconds, by the way it bends.
#[derive(Clone, Copy, Debug)]
pub(crate) struct TurnPenalties {
    pub(crate) straight: u32,
    pub(crate) slight_right: u32,
    pub(crate) right: u32,
    pub(crate) sharp_right: u32,
    pub(crate) uturn: u32,
    pub(crate) sharp_left: u32,
    pub(crate) left: u32,
    pub(crate) slight_left: u32,
}

impl TurnPenalties {
    pub(crate) const NONE: TurnPenalties = TurnPenalties {
        straight: 0,
        slight_right: 0,
        right: 0,
        sharp_right: 0,
        uturn: 0,
        sharp_left: 0,
        left: 0,
        slight_left: 0,
    };

    // The penalty of a turn that bends this way.
    pub(crate) fn of(&self, modifier: Modifier) -> u32
        ensures { result ≡ bend_penalty self.now modifier }
    {
        match modifier {
            Modifier::Straight => self.straight,
            Modifier::SlightRight => self.slight_right,
            Modifier::Right => self.right,
            Modifier::SharpRight => self.sharp_right,
            Modifier::Uturn => self.uturn,
            Modifier::SharpLeft => self.sharp_left,
            Modifier::Left => self.left,
            Modifier::SlightLeft => self.slight_left,
        }
    }
}
