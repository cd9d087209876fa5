//! The doors that connections come through.

ghost use Rattle.std.specs.Prelude.{◌≡◌, ℕ, ◌+◌, ◌<◌, ◌≤◌, ◌↔◌, IsTrue, length, map};
ghost use Rattle.road_io.specs.Doorway.{DoorView, NextGives, after_finish};
ghost use Rattle.road_io.specs.DoorOpening.{DoorsView, Asked, asked, OpenGives, door_set, faults_of, BackGives};
ghost use Rattle.road_io.specs.Views.{IsFreshConn};

use crate::connections::Conn;
use crate::failures::{DoorsFault, Failed};
use std::alloc::Global;
use std::net::{Net, TcpListener, TcpStream};

/// A door: connections come through it one after another, and each goes back to it when it is finished.
pub trait Door {
    type Conn: Conn;

    /// What the door tells of the connections that it gave, and of its own end.
    ghost view: { Self → DoorView };

    /// The next connection, or None once the door was closed; in memory exactly once its connections are
    /// used up. After a None or a Failed the door has ended, and answers None for ever. Failed where the
    /// count of faults rose. May wait.
    fn next(&mut self) -> Result<Option<Self::Conn>, Failed>
        ensures gives { NextGives (view self.old) result (view self.new) (λ c. IsFreshConn (Self.Conn.state c)) };

    /// Takes a finished connection back, whose transcript joins the door's.
    fn finish(&mut self, conn: Self::Conn)
        requires { (view self.old).finished < (view self.old).given }
        ensures joins { view self.new ≡ after_finish (view self.old) (Self.Conn.state conn) };

    /// Whether the door has counted a fault.
    fn has_fault(&self) -> bool
        ensures { IsTrue result ↔ (0 < (view self.now).faults) };
}

/// Whether one of these doors has counted a fault.
pub fn any_fault<D: Door>(queries: &[D], control: &D) -> bool
    ensures { IsTrue result ↔ (0 < faults_of (door_set (map D.view queries.now) (D.view control.now))) }
{
    for door in queries {
        if door.has_fault() {
            return true;
        }
    }
    control.has_fault()
}

/// What closes the query doors of the `Opened` that it came with.
pub trait Closer {
    /// Closes the query doors: each answers None once it sees that.
    fn close(self);
}

/// Open doors: one for queries per worker, one for control, and what closes the query doors. It has no
/// `Drop`, so none of them can be lost.
pub struct Opened<D, K> {
    pub queries: Vec<D>,
    pub control: D,
    pub closer: K,
}

/// Doors without their closer.
pub struct DoorSet<D> {
    pub queries: Vec<D>,
    pub control: D,
}

/// What opens doors at two addresses, and takes them back.
pub trait Doors {
    type Door: Door;

    type Closer: Closer;

    /// What was asked for, which doors are out, and what the doors told that came back.
    ghost view: { Self → DoorsView };

    /// Opens one query door per worker at the address `query` and one door at the address `control`. Each
    /// has given no connection yet. Failed where the count of faults rose; Memory where there was none.
    fn open<R: Net<Listener = TcpListener, Stream = TcpStream>>(
        &mut self,
        rt: &R,
        alloc: Global,
        query: &str,
        control: &str,
        workers: u32,
    ) -> Result<Opened<Self::Door, Self::Closer>, DoorsFault>
        ensures gives { OpenGives (view self.old) result (view self.new) (asked query.now control.now workers) (λ o. door_set (map Self.Door.view o.queries.items) (Self.Door.view o.control)) };

    /// Takes doors back that are out, with what they tell. The count of faults rises exactly where one of
    /// theirs did.
    fn back(&mut self, queries: Vec<Self::Door>, control: Self::Door)
        requires { length queries.items + 1 ≤ (view self.old).out }
        ensures takes { BackGives (view self.old) (door_set (map Self.Door.view queries.items) (Self.Door.view control)) (view self.new) };
}
