//! What opens doors over TCP, closes them and takes them back.

ghost use Rattle.std.specs.Prelude.{◌≡◌, ◌+◌, ◌<◌, ◌≤◌, All, IfOk, Ok, length, map};
ghost use Rattle.road_io.specs.DoorOpening.{BackGives, IsNewDoor, door_set};
ghost use Rattle.road_real.specs.TcpDoorsTold.{doors_told};
ghost use Rattle.road_real.specs.TcpStates.{door_view};

use crate::silence_limits::SilenceLimits;
use crate::tcp_doors::TcpDoor;
use road_io::{Closer, Doors, DoorsFault, Opened, any_fault};
use std::alloc::{AllocError, Global};
use std::io;
use std::net::{Net, SocketAddr, TcpListener, TcpStream};
use std::sync::Arc;
use std::sync::atomic::{AtomicBool, Ordering};
use std::time::Duration;

// How long the waking of a door may take, in milliseconds. It takes any time only where connections stand in
// line, and then no door waits.
const WAKING: u64 = 500;

/// What closes query doors over TCP: it raises their flag, and then makes one connection per door to their
/// address, so that each door that waits wakes and sees it. It has no `Drop`, so it can't be lost.
pub struct TcpCloser<'a, N> {
    rt: &'a N,
    address: SocketAddr,
    doors: u32,
    close: Arc<AtomicBool>,
}

impl<'a, N: Net> Closer for TcpCloser<'a, N> {
    fn close(self) {
        let TcpCloser {
            rt,
            address,
            doors,
            close,
        } = self;
        close.store(true, Ordering::SeqCst);
        for _ in 0..doors {
            let _ = TcpStream::connect_timeout(rt, &address, Duration::from_millis(WAKING));
        }
    }
}

/// Doors over TCP. The query doors of an opening share one listener, and each connection comes to one of them.
#[derive(Drop)]
pub struct TcpDoors<'a, N> {
    rt: &'a N,
    limits: SilenceLimits,
    out: u64,
    faults: u64,
}

impl<'a, N> TcpDoors<'a, N> {
    /// Doors of which none is open, with the program's limits of silence. What closes them connects by this
    /// runtime.
    pub fn of(rt: &'a N) -> TcpDoors<'a, N>
        ensures { doors_told result.out result.faults ≡ doors_told 0 0 }
    {
        TcpDoors::with_limits(rt, SilenceLimits::of_program())
    }

    /// The same with these limits of silence.
    pub fn with_limits(rt: &'a N, limits: SilenceLimits) -> TcpDoors<'a, N>
        ensures { doors_told result.out result.faults ≡ doors_told 0 0 }
    {
        TcpDoors {
            rt,
            limits,
            out: 0,
            faults: 0,
        }
    }
}

impl<'a, N: Net + Eprint> TcpDoors<'a, N> {
    // Opens doors at these addresses, and counts nothing.
    fn opened<R: Net<Listener = TcpListener, Stream = TcpStream>>(
        &self,
        rt: &R,
        alloc: Global,
        query: &str,
        control: &str,
        workers: u32,
    ) -> Result<Opened<TcpDoor, TcpCloser<'a, N>>, DoorsFault>
        ensures queries { IfOk result (λ o. (length o.queries.items ≡ workers) × All IsNewDoor (map door_view o.queries.items)) }
        ensures control { IfOk result (λ o. IsNewDoor (door_view o.control)) }
    {
        let side = query_side(rt, alloc, query, self.limits.query, workers);
        let side = self.told(query, side)?;
        let control_door = control_side(rt, alloc, control, self.limits.control);
        Ok(Opened {
            control: self.told(control, control_door)?,
            queries: side.doors,
            closer: TcpCloser {
                rt: self.rt,
                address: side.address,
                doors: workers,
                close: side.close,
            },
        })
    }

    // What was opened at this address. Why the system refuses it is told on standard error.
    fn told<T>(&self, address: &str, opened: Result<T, OpenFault>) -> Result<T, DoorsFault>
        ensures { IfOk result (λ side. opened ≡ Ok side) }
    {
        match opened {
            Ok(side) => Ok(side),
            Err(OpenFault::System(why)) => {
                let _ = eprintln!(self.rt; "walnutkiln: cannot listen at {address}: {why}");
                Err(DoorsFault::Failed)
            }
            Err(OpenFault::Memory) => Err(DoorsFault::Memory),
        }
    }
}

impl<'a, N: Net + Eprint> Doors for TcpDoors<'a, N> {
    type Door = TcpDoor;

    type Closer = TcpCloser<'a, N>;

    ghost view = { λ d. doors_told d.out d.faults };

    fn open<R: Net<Listener = TcpListener, Stream = TcpStream>>(
        &mut self,
        rt: &R,
        alloc: Global,
        query: &str,
        control: &str,
        workers: u32,
    ) -> Result<Opened<TcpDoor, TcpCloser<'a, N>>, DoorsFault> {
        let count = u64::from(workers) + 1;
        let opened = if self.out <= u64::MAX - count {
            self.opened(rt, alloc, query, control, workers)
        } else {
            Err(DoorsFault::Failed)
        };
        match opened {
            Ok(opened) => {
                self.out += count;
                Ok(opened)
            }
            Err(DoorsFault::Failed) => {
                self.faults = self.faults.saturating_add(1);
                Err(DoorsFault::Failed)
            }
            Err(DoorsFault::Memory) => Err(DoorsFault::Memory),
        }
    }

    fn back(&mut self, queries: Vec<TcpDoor>, control: TcpDoor)
        requires { length queries.items + 1 ≤ self.old.out }
        ensures takes { BackGives (doors_told self.old.out self.old.faults) (door_set (map door_view queries.items) (door_view control)) (doors_told self.new.out self.new.faults) }
    {
        if any_fault(&queries, &control) {
            self.faults = self.faults.saturating_add(1);
        }
        self.out -= queries.len() as u64 + 1;
    }
}

// Why nothing is opened at an address.
#[derive(Drop)]
enum OpenFault {
    System(io::Error),
    Memory,
}

impl From<io::Error> for OpenFault {
    fn from(why: io::Error) -> OpenFault {
        OpenFault::System(why)
    }
}

impl From<AllocError> for OpenFault {
    fn from(_: AllocError) -> OpenFault {
        OpenFault::Memory
    }
}

// Query doors, with what their closer needs.
#[derive(Drop)]
struct QuerySide {
    doors: Vec<TcpDoor>,
    address: SocketAddr,
    close: Arc<AtomicBool>,
}

// Opens the query doors at this address.
fn query_side<R: Net<Listener = TcpListener, Stream = TcpStream>>(
    rt: &R,
    alloc: Global,
    address: &str,
    silence: Duration,
    workers: u32,
) -> Result<QuerySide, OpenFault>
    ensures { IfOk result (λ side. (length side.doors.items ≡ workers) × All IsNewDoor (map door_view side.doors.items)) }
{
    let listener = TcpListener::bind(rt, address)?;
    let address = listener.local_addr()?;
    let close = lowered_flag(alloc)?;
    let doors = doors_at(alloc, &listener, &close, silence, workers)?;
    Ok(QuerySide {
        doors,
        address,
        close,
    })
}

// Opens the control door at this address.
fn control_side<R: Net<Listener = TcpListener, Stream = TcpStream>>(
    rt: &R,
    alloc: Global,
    address: &str,
    silence: Duration,
) -> Result<TcpDoor, OpenFault>
    ensures { IfOk result (λ door. IsNewDoor (door_view door)) }
{
    let listener = TcpListener::bind(rt, address)?;
    Ok(TcpDoor::of(listener, lowered_flag(alloc)?, silence))
}

// A flag that is not raised.
fn lowered_flag(alloc: Global) -> Result<Arc<AtomicBool>, AllocError> {
    Ok(Arc::new(alloc, AtomicBool::new(false))?)
}

// So many doors that share a listener and a flag.
fn doors_at(
    alloc: Global,
    listener: &TcpListener,
    close: &Arc<AtomicBool>,
    silence: Duration,
    count: u32,
) -> Result<Vec<TcpDoor>, OpenFault>
    ensures { IfOk result (λ v. (length v.items ≡ count) × All IsNewDoor (map door_view v.items)) }
{
    let mut doors = Vec::new(alloc);
    for _ in 0..count {
        let door = door_at(listener, close, silence)?;
        if doors.push(door).is_err() {
            return Err(OpenFault::Memory);
        }
    }
    Ok(doors)
}

// A door that shares this listener and this flag.
fn door_at(
    listener: &TcpListener,
    close: &Arc<AtomicBool>,
    silence: Duration,
) -> Result<TcpDoor, OpenFault>
    ensures { IfOk result (λ door. IsNewDoor (door_view door)) }
{
    let listener = listener.try_clone()?;
    Ok(TcpDoor::of(listener, Arc::try_clone(close)?, silence))
}
