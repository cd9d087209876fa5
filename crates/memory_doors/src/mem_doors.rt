//! What opens doors in memory, and takes them back.

ghost use Rattle.std.specs.Prelude.{◌≡◌, ◌+◌, ◌<◌, ◌≤◌, ◌↔◌, All, IsTrue, IfOk, OnErr, OnOk, length, map, vec_len};
ghost use Rattle.road_io.specs.DoorOpening.{IsNewDoor, Asked, asked, door_set, faults_of, OpenGives, BackGives};
ghost use Rattle.memory_doors.specs.Preparing.{IsOpening, new_doors};

use crate::door_queues::QueueDoor;
use road_base::Text;
use road_io::{Conn, Doors, DoorsFault, MemCloser, Opened, any_fault};
use std::alloc::{AllocError, Global};
use std::marker::Model;
use std::mem::replace;
use std::net::{Net, TcpListener, TcpStream};

/// What an opening asked for.
#[derive(Drop)]
struct Asking {
    query: Text,
    control: Text,
    workers: u32,
}

impl Model for Asking {
    ghost use Rattle.road_io.specs.DoorOpening.{Asked, asked};

    ghost Value = { Asked };

    ghost view = { λ a. asked a.query a.control a.workers };
}

impl Asking {
    fn copy_of(
        alloc: Global,
        query: &str,
        control: &str,
        workers: u32,
    ) -> Result<Asking, AllocError>
        ensures { IfOk result (λ a. a ≡ asked query.now control.now workers) }
    {
        Ok(Asking {
            query: Text::copy_of(alloc, query)?,
            control: Text::copy_of(alloc, control)?,
            workers,
        })
    }
}

/// The doors of one opening, as they came back.
pub struct Returned<C: Conn> {
    queries: Vec<QueueDoor<C>>,
    control: QueueDoor<C>,
}

impl<C: Conn + Drop> Drop for Returned<C> {
    fn drop(self) {
        let Returned {
            queries: _queries,
            control: _control,
        } = self;
    }
}

impl<C: Conn> Model for Returned<C> {
    ghost use Rattle.road_io.specs.DoorOpening.{DoorViews, door_set};

    ghost Value = { DoorViews };

    ghost view = { λ r. door_set r.queries.items r.control };
}

impl<C: Conn> Returned<C> {
    /// The query doors, in the order of their workers.
    pub fn queries(&self) -> &[QueueDoor<C>]
        ensures { result.now ≡ self.now.queries }
    {
        &self.queries
    }

    /// The control door.
    pub fn control(&self) -> &QueueDoor<C>
        ensures { result.now ≡ self.now.control }
    {
        &self.control
    }

    // Whether one of the doors has counted a fault.
    fn has_fault(&self) -> bool
        ensures { IsTrue result ↔ (0 < faults_of self.now) }
    {
        any_fault(&self.queries, &self.control)
    }
}

/// Doors in memory, which were made beforehand: an opening gives as many of the query doors as it asks for,
/// the first ones first, and the control door. Where too few are left, doors that no connection comes through
/// stand in their places. It has the room for all that come back.
pub struct MemDoors<C: Conn> {
    queries: Vec<QueueDoor<C>>,
    control: Option<QueueDoor<C>>,
    failing: Vec<u64>,
    calls: u64,
    opened: Vec<Asking>,
    failed: Vec<Asking>,
    out: usize,
    back: Vec<Returned<C>>,
    faults: u64,
}

impl<C: Conn + Drop> Drop for MemDoors<C> {
    fn drop(self) {
        let MemDoors {
            queries: _queries,
            control: _control,
            failing: _failing,
            calls: _calls,
            opened: _opened,
            failed: _failed,
            out: _out,
            back: _back,
            faults: _faults,
        } = self;
    }
}

impl<C: Conn> Model for MemDoors<C> {
    ghost use Rattle.std.specs.Prelude.{◌+◌, ◌≤◌, All, IfSome, Some, vec_len, vec_capacity};
    ghost use Rattle.road_io.specs.DoorOpening.{DoorsView, IsNewDoor};

    ghost Value = { DoorsView };

    ghost view = { λ d. record { opened = Some d.opened.items; failed = Some d.failed.items; out = d.out; back = Some d.back.items; faults = d.faults } };

    ghost invariant = { λ d. (vec_len d.back + d.out ≤ vec_capacity d.back) × All IsNewDoor d.queries.items × IfSome d.control IsNewDoor };
}

impl<C: Conn + Drop> MemDoors<C> {
    /// Doors that are given in this order, and this control door at the first opening. The openings whose
    /// numbers are in `failing`, counted from 1, fail.
    pub fn of(
        alloc: Global,
        queries: Vec<QueueDoor<C>>,
        control: QueueDoor<C>,
        failing: Vec<u64>,
    ) -> MemDoors<C>
        requires queries { All IsNewDoor queries.items }
        requires control { IsNewDoor control }
        ensures { result ≡ new_doors }
    {
        MemDoors {
            queries,
            control: Some(control),
            failing,
            calls: 0,
            opened: Vec::new(alloc),
            failed: Vec::new(alloc),
            out: 0,
            back: Vec::new(alloc),
            faults: 0,
        }
    }

    /// The doors that came back, opening by opening.
    pub fn returned(&self) -> &[Returned<C>]
        ensures { self.now.back ≡ Some result.now }
    {
        &self.back
    }
}

impl<C: Conn + Drop> MemDoors<C> {
    // Gives the doors that were asked for. For want of memory all stays as it was.
    fn give(
        &mut self,
        alloc: Global,
        asking: Asking,
    ) -> Result<Opened<QueueDoor<C>, MemCloser>, AllocError>
        ensures given { IfOk result (λ o. IsOpening self.old (door_set (map (λ d. d) o.queries.items) o.control) self.new asking) }
        ensures kept { OnErr result (self.new ≡ self.old) }
    {
        let workers = asking.workers as usize;
        let Some(out) = self.out.checked_add(workers + 1) else {
            return Err(AllocError);
        };
        self.back.reserve(out)?;
        self.opened.reserve(1)?;
        let spare = empty_door(alloc)?;
        let queries = first_doors(alloc, &mut self.queries, workers)?;
        let control = self.control.take().unwrap_or(spare);
        match self.opened.push(asking) {
            Ok(()) => {}
            Err(_) => unreachable!(),
        }
        self.out = out;
        Ok(Opened {
            queries,
            control,
            closer: MemCloser,
        })
    }
}

// Takes the first of these doors out, so many, with doors that no connection comes through behind them where
// they are too few.
fn first_doors<C: Conn + Drop>(
    alloc: Global,
    doors: &mut Vec<QueueDoor<C>>,
    count: usize,
) -> Result<Vec<QueueDoor<C>>, AllocError>
    requires { All IsNewDoor doors.old.items }
    ensures given { IfOk result (λ v. (length v.items ≡ count) × All IsNewDoor v.items) }
    ensures left { All IsNewDoor doors.new.items }
{
    top_up(alloc, doors, count)?;
    let rest = doors.split_off(count)?;
    Ok(replace(doors, rest))
}

// A door that no connection comes through.
fn empty_door<C: Conn + Drop>(alloc: Global) -> Result<QueueDoor<C>, AllocError>
    ensures { IfOk result IsNewDoor }
{
    QueueDoor::of(alloc, Vec::new(alloc), Vec::new(alloc))
}

// Puts such doors behind these, until there are so many.
fn top_up<C: Conn + Drop>(
    alloc: Global,
    doors: &mut Vec<QueueDoor<C>>,
    count: usize,
) -> Result<(), AllocError>
    requires { All IsNewDoor doors.old.items }
    ensures new { All IsNewDoor doors.new.items }
    ensures enough { OnOk result (count ≤ vec_len doors.new) }
{
    'doors: while doors.len() < count {
        doors.push(empty_door(alloc)?)?;
    }
    Ok(())
}

impl<C: Conn + Drop> Doors for MemDoors<C> {
    type Door = QueueDoor<C>;

    type Closer = MemCloser;

    ghost view = { λ d. d };

    fn open<R: Net<Listener = TcpListener, Stream = TcpStream>>(
        &mut self,
        _rt: &R,
        alloc: Global,
        query: &str,
        control: &str,
        workers: u32,
    ) -> Result<Opened<QueueDoor<C>, MemCloser>, DoorsFault>
        ensures gives { OpenGives self.old result self.new (asked query.now control.now workers) (λ o. door_set (map (λ d. d) o.queries.items) o.control) }
    {
        let Ok(asking) = Asking::copy_of(alloc, query, control, workers) else {
            return Err(DoorsFault::Memory);
        };
        self.calls = self.calls.saturating_add(1);
        if self.failing.contains(&self.calls) {
            if self.failed.push(asking).is_err() {
                return Err(DoorsFault::Memory);
            }
            self.faults = self.faults.saturating_add(1);
            return Err(DoorsFault::Failed);
        }
        match self.give(alloc, asking) {
            Ok(opened) => Ok(opened),
            Err(_) => Err(DoorsFault::Memory),
        }
    }

    fn back(&mut self, queries: Vec<QueueDoor<C>>, control: QueueDoor<C>)
        requires { length queries.items + 1 ≤ self.old.out }
        ensures takes { BackGives self.old (door_set (map (λ d. d) queries.items) control) self.new }
    {
        let doors = queries.len() + 1;
        let returned = Returned { queries, control };
        if returned.has_fault() {
            self.faults = self.faults.saturating_add(1);
        }
        self.out -= doors;
        match self.back.push(returned) {
            Ok(()) => {}
            Err(_) => unreachable!(),
        }
    }
}
