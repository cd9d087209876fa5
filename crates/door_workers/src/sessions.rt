//! How one connection is served, as the loops over doors see it.

ghost use Rattle.std.specs.Prelude.{List};
ghost use Rattle.std.specs.Thread.{IsSync};
ghost use mathlib.Core.List.{IsPrefix};
ghost use Rattle.metric_publish.specs.declared.entry.Entry.{Entry};
ghost use Rattle.road_io.specs.Views.{IsFreshConn, Transcript};

use metric_publish::{Kindred, Publishing, Reading};
use road_io::Conn;
use std::sync::Wait;
use std::thread::Threads;

/// What a control connection asks for at its end.
#[derive(Clone, Copy, Debug, PartialEq, Eq)]
pub enum Then {
    /// The next connection may come.
    GoOn,
    /// Serving shall end.
    Stop,
}

/// Serves query connections, each under what its seat enters.
pub trait Querying<V: Drop> {
    /// The rule that a finished connection meets under a list of publications.
    ghost rule: { Self → List (Entry V) → Transcript → Type 0 };

    /// The rule speaks of what stands in the list, so it is kept by a longer list.
    ghost longer: { (s : Self) (xs ys : List (Entry V)) (t : Transcript) → IsPrefix xs ys → rule s xs t → rule s ys t };

    /// What it can answer under.
    ghost fits: { Self → V → Type 0 };

    /// Serves one connection to its end. `id` is the number of the seat, as a gate knows it. May wait for the
    /// connection, and for no other thread than those that it makes by `rt`.
    fn answer<S: Reading<V>, C: Conn, R: Threads + Sync>(
        &self,
        rt: &R,
        id: u32,
        seat: &mut S,
        conn: &mut C,
    )
        requires shared { IsSync R.row }
        requires fresh { IsFreshConn (C.state conn.old) }
        requires fits { (x : V) → S.kin seat.old x → fits self.now x }
        ensures rule { rule self.now (S.seen seat.new) (C.state conn.new) }
        ensures seen { IsPrefix (S.seen seat.old) (S.seen seat.new) }
        ensures kin_stays { (x : V) → S.kin seat.new x → S.kin seat.old x };
}

/// Serves control connections, each of which may publish.
pub trait Controlling<V: Kindred> {
    ghost use Rattle.door_workers.specs.declared.sessions.Then.{Then};

    /// The rule that a finished connection meets: the list before it, the list behind it, and what it asks
    /// for.
    ghost rule: { Self → List (Entry V) → Transcript → List (Entry V) → Then → Type 0 };

    /// What it may publish.
    ghost makes: { Self → V → Type 0 };

    /// Serves one connection to its end, and says what it asks for. May wait.
    fn control<P: Publishing<V, R>, C: Conn, R: Threads + Wait + Sync>(
        &self,
        rt: &R,
        desk: &mut P,
        conn: &mut C,
    ) -> Then
        requires shared { IsSync R.row }
        requires fresh { IsFreshConn (C.state conn.old) }
        requires makes { (x : V) → makes self.now x → P.kin desk.old x }
        ensures rule { rule self.now (P.list desk.old) (C.state conn.new) (P.list desk.new) result }
        ensures kin_stays { (x : V) → P.kin desk.old x → P.kin desk.new x };
}
