//! The rule of a shared board: what a place has seen is a beginning of what is shown.
ghost use Rattle.std.specs.Prelude.{◌≡◌};
ghost use Rattle.metric_publish.specs.Board.{Keeps, Sits, Sees, newcomer};

use crate::entry::{Kindred, View};
use crate::history::Naming;
use crate::shown::Shown;
use crossbeam_utils::rule::{Outcome, Protocol};

/// The rule itself. No value of it is made.
pub struct Board;

impl<V: Kindred, J: Naming> Protocol<Shown<V, J>, View<V>> for Board {
    ghost holds = { λ x. Keeps x.front.token.log };

    ghost first = { newcomer };
}

/// A seat is made: it looks at what is shown, which counts as no read.
pub struct Sitting;

impl<V: Kindred, J: Naming> Outcome<Shown<V, J>, View<V>> for Sitting {
    ghost then = { λ v x y w. Sits v y.front.token.log w };
}

/// A read begins.
pub struct Entering;

impl<V: Kindred, J: Naming> Outcome<Shown<V, J>, View<V>> for Entering {
    ghost then = { λ v x y w. Sees v y.front.token.log y.put.number w };
}

/// A value is published.
pub struct Adding;

impl<V: Kindred, J: Naming> Outcome<Shown<V, J>, View<V>> for Adding {
    ghost then = { λ v x y w. w ≡ v };
}
