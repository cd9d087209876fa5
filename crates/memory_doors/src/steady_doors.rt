//! Doors in memory that never fail.

ghost use Rattle.std.specs.Prelude.{◌≡◌, ◌+◌, ◌-◌, ◌<◌, ◌≤◌, ◌++◌, ◌∷◌, [], All, IfOk, OnErr, OnOk, length, map, replicate, vec_len, vec_capacity};
ghost use Rattle.road_io.specs.DoorOpening.{asked, door_set, OpenGives, BackGives};
ghost use Rattle.road_io.specs.Doorway.{NextGives, after_finish};
ghost use Rattle.road_io.specs.Views.{IsFreshConn};
ghost use Rattle.memory_doors.specs.SteadyDoors.{NextInTurn, after_open, doors_through, left_behind, new_steady_door, steady_door, steady_doors};

use road_io::{Conn, Door, Doors, DoorsFault, Failed, MemCloser, Opened};
use std::alloc::{AllocError, Global};
use std::marker::Model;
use std::mem::replace;
use std::net::{Net, TcpListener, TcpStream};

/// A door in memory that never fails: the connections that it was made with come through it in order, and it has
/// the room to take all of them back. It ends by itself once they are used up. Contracts see the connections.
pub struct SteadyDoor<C: Conn> {
    // the connections to come, the last one first
    waiting: Vec<C>,
    done: Vec<C>,
    given: usize,
    ended: bool,
}

impl<C: Conn + Drop> Drop for SteadyDoor<C> {
    fn drop(self) {
        let SteadyDoor {
            waiting: _waiting,
            done: _done,
            given: _given,
            ended: _ended,
        } = self;
    }
}

impl<C: Conn> Model for SteadyDoor<C> {
    ghost use Rattle.std.specs.Prelude.{◌+◌, ◌≤◌, All, reverse, vec_len, vec_capacity};
    ghost use Rattle.road_io.specs.Views.{IsFreshConn};
    ghost use Rattle.memory_doors.specs.SteadyDoors.{SteadyDoorState};

    ghost Value = { SteadyDoorState C };

    ghost view = { λ d. record { waiting = reverse d.waiting.items; given = d.given; finished = d.done.items; ended = d.ended } };

    ghost invariant = { λ d. (d.given + vec_len d.waiting ≤ vec_capacity d.done) × All (λ c. IsFreshConn (C.state c)) d.waiting.items };
}

impl<C: Conn> SteadyDoor<C> {
    /// A door that these connections come through in order.
    pub fn of(alloc: Global, connections: Vec<C>) -> Result<SteadyDoor<C>, AllocError>
    where
        C: Drop,
        requires { All (λ c. IsFreshConn (C.state c)) connections.items }
        ensures { IfOk result (λ door. door ≡ new_steady_door connections.items) }
    {
        let room = Vec::with_capacity(alloc, connections.len())?;
        Ok(SteadyDoor::over(connections, room))
    }

    // The same, with the room for them when they come back.
    fn over(connections: Vec<C>, room: Vec<C>) -> SteadyDoor<C>
        requires fresh { All (λ c. IsFreshConn (C.state c)) connections.items }
        requires empty { room.items ≡ [] }
        requires room { vec_len connections ≤ vec_capacity room }
        ensures { result ≡ new_steady_door connections.items }
    {
        let mut waiting = connections;
        waiting.reverse();
        SteadyDoor {
            waiting,
            done: room,
            given: 0,
            ended: false,
        }
    }

    /// The connections that came back, in order.
    pub fn finished(&self) -> &[C]
        ensures { result.now ≡ self.now.finished }
    {
        &self.done
    }
}

impl<C: Conn> Door for SteadyDoor<C> {
    ghost use Rattle.memory_doors.specs.SteadyDoors.{steady_door};

    type Conn = C;

    ghost view = { λ d. steady_door C.state d };

    fn next(&mut self) -> Result<Option<C>, Failed>
        ensures gives { NextGives (steady_door C.state self.old) result (steady_door C.state self.new) (λ c. IsFreshConn (C.state c)) }
        ensures in_turn { NextInTurn self.old result self.new }
    {
        if self.ended {
            return Ok(None);
        }
        match self.waiting.pop() {
            Some(conn) => {
                self.given += 1;
                Ok(Some(conn))
            }
            None => {
                self.ended = true;
                Ok(None)
            }
        }
    }

    fn finish(&mut self, conn: C)
        requires { length self.old.finished < self.old.given }
        ensures joins { steady_door C.state self.new ≡ after_finish (steady_door C.state self.old) (C.state conn) }
        ensures back { self.new ≡ record self.old { finished = self.old.finished ++ conn ∷ [] } }
    {
        match self.done.push(conn) {
            Ok(()) => {}
            Err(_) => unreachable!(),
        }
    }

    fn has_fault(&self) -> bool {
        false
    }
}

/// Doors in memory that never fail to open. Through the first query door of the first opening that has one come all
/// connections for queries, and through the control door of the first all for control; through all other doors comes
/// none. They keep nothing of what comes back. Contracts see the connections that are still to come, and how many doors
/// are out.
pub struct SteadyDoors<C: Conn> {
    queries: Vec<C>,
    control: Vec<C>,
    out: usize,
}

impl<C: Conn + Drop> Drop for SteadyDoors<C> {
    fn drop(self) {
        let SteadyDoors {
            queries: _queries,
            control: _control,
            out: _out,
        } = self;
    }
}

impl<C: Conn> Model for SteadyDoors<C> {
    ghost use Rattle.std.specs.Prelude.{All};
    ghost use Rattle.road_io.specs.Views.{IsFreshConn};
    ghost use Rattle.memory_doors.specs.SteadyDoors.{SteadyDoorsState};

    ghost Value = { SteadyDoorsState C };

    ghost view = { λ d. record { queries = d.queries.items; control = d.control.items; out = d.out } };

    ghost invariant = { λ d. All (λ c. IsFreshConn (C.state c)) d.queries.items × All (λ c. IsFreshConn (C.state c)) d.control.items };
}

impl<C: Conn + Drop> SteadyDoors<C> {
    /// Doors through which these connections are to come, in order.
    pub fn of(queries: Vec<C>, control: Vec<C>) -> SteadyDoors<C>
        requires queries { All (λ c. IsFreshConn (C.state c)) queries.items }
        requires control { All (λ c. IsFreshConn (C.state c)) control.items }
        ensures { result ≡ record { queries = queries.items; control = control.items; out = 0 } }
    {
        SteadyDoors {
            queries,
            control,
            out: 0,
        }
    }

    /// How many doors are out.
    pub fn out(&self) -> usize
        ensures { result ≡ self.now.out }
    {
        self.out
    }

    // Gives a query door for each of so many workers, and a control door.
    fn give(
        &mut self,
        alloc: Global,
        workers: u32,
    ) -> Result<Opened<SteadyDoor<C>, MemCloser>, AllocError>
        ensures queries { IfOk result (λ o. o.queries.items ≡ doors_through workers self.old.queries) }
        ensures control { IfOk result (λ o. o.control ≡ new_steady_door self.old.control) }
        ensures left { OnOk result (self.new ≡ after_open workers self.old) }
        ensures kept { OnErr result (self.new ≡ self.old) }
    {
        let count = workers as usize;
        let Some(out) = self.out.checked_add(count + 1) else {
            return Err(AllocError);
        };
        let mut queries = empty_doors(alloc, count)?;
        let query_room = Vec::with_capacity(alloc, self.queries.len())?;
        let control_room = Vec::with_capacity(alloc, self.control.len())?;
        let control = SteadyDoor::over(replace(&mut self.control, Vec::new(alloc)), control_room);
        lead_through(alloc, &mut queries, &mut self.queries, query_room);
        self.out = out;
        Ok(Opened {
            queries,
            control,
            closer: MemCloser,
        })
    }
}

// So many doors that no connection comes through.
fn empty_doors<C: Conn + Drop>(
    alloc: Global,
    count: usize,
) -> Result<Vec<SteadyDoor<C>>, AllocError>
    ensures { IfOk result (λ doors. doors.items ≡ replicate count (new_steady_door [])) }
{
    let mut doors = Vec::new(alloc);
    'doors: while doors.len() < count {
        doors.push(SteadyDoor::of(alloc, Vec::new(alloc))?)?;
    }
    Ok(doors)
}

// Has all of these connections come through the first of the doors, if there is one. The room is for when they come back.
fn lead_through<C: Conn + Drop>(
    alloc: Global,
    doors: &mut Vec<SteadyDoor<C>>,
    connections: &mut Vec<C>,
    room: Vec<C>,
)
    requires doors { doors.old.items ≡ replicate (vec_len doors.old) (new_steady_door []) }
    requires fresh { All (λ c. IsFreshConn (C.state c)) connections.old.items }
    requires empty { room.items ≡ [] }
    requires room { vec_len connections.old ≤ vec_capacity room }
    ensures doors { doors.new.items ≡ doors_through (vec_len doors.old) connections.old.items }
    ensures left { connections.new.items ≡ left_behind (vec_len doors.old) connections.old.items }
    ensures fresh { All (λ c. IsFreshConn (C.state c)) connections.new.items }
{
    if doors.is_empty() {
        return;
    }
    doors[0] = SteadyDoor::over(replace(connections, Vec::new(alloc)), room);
}

impl<C: Conn + Drop> Doors for SteadyDoors<C> {
    ghost use Rattle.memory_doors.specs.SteadyDoors.{steady_doors};

    type Door = SteadyDoor<C>;

    type Closer = MemCloser;

    ghost view = { steady_doors };

    fn open<R: Net<Listener = TcpListener, Stream = TcpStream>>(
        &mut self,
        _rt: &R,
        alloc: Global,
        query: &str,
        control: &str,
        workers: u32,
    ) -> Result<Opened<SteadyDoor<C>, MemCloser>, DoorsFault>
        ensures gives { OpenGives (steady_doors self.old) result (steady_doors self.new) (asked query.now control.now workers) (λ o. door_set (map (steady_door C.state) o.queries.items) (steady_door C.state o.control)) }
        ensures queries { IfOk result (λ o. o.queries.items ≡ doors_through workers self.old.queries) }
        ensures control { IfOk result (λ o. o.control ≡ new_steady_door self.old.control) }
        ensures left { OnOk result (self.new ≡ after_open workers self.old) }
        ensures kept { OnErr result (self.new ≡ self.old) }
    {
        match self.give(alloc, workers) {
            Ok(opened) => Ok(opened),
            Err(_) => Err(DoorsFault::Memory),
        }
    }

    fn back(&mut self, queries: Vec<SteadyDoor<C>>, control: SteadyDoor<C>)
        requires { length queries.items + 1 ≤ self.old.out }
        ensures takes { BackGives (steady_doors self.old) (door_set (map (steady_door C.state) queries.items) (steady_door C.state control)) (steady_doors self.new) }
        ensures stays { self.new ≡ record self.old { out = self.old.out - (length queries.items + 1) } }
    {
        self.out -= queries.len() + 1;
    }
}
