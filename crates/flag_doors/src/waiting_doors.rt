//! Doors in memory whose connections wait for flags, and what serving them left.

ghost use Rattle.std.specs.Prelude.{◌+◌, ◌≤◌, All, OnOk, length};
ghost use Rattle.road_io.specs.DoorOpening.{IsNewDoor};

use crate::waiting_conns::push_conn;
use door_workers::Served;
use memory_doors::{Flag, FlagConn, QueueDoor};
use road_io::{Closer, DoorSet, Doors, MemConn};
use std::alloc::{AllocError, Global};
use std::sync::Arc;

/// Puts a door that such a connection comes through behind these.
pub fn push_door(
    alloc: Global,
    doors: &mut Vec<QueueDoor<FlagConn<MemConn>>>,
    input: &[u8],
    room: usize,
    wait: &Arc<Flag>,
    set: &Arc<Flag>,
) -> Result<(), AllocError>
    requires { All IsNewDoor doors.old.items }
    ensures { OnOk result (All IsNewDoor doors.new.items) }
{
    let mut connections = Vec::new(alloc);
    push_conn(alloc, &mut connections, input, room, wait, set)?;
    doors.push(QueueDoor::of(alloc, connections, Vec::new(alloc))?)?;
    Ok(())
}

/// What serving left, its doors put back: how many connections came, the number of the last publication, whether a last
/// Enter found no memory, and whether the closer was spent.
#[derive(Clone, Copy, Debug, PartialEq, Eq)]
pub struct Told {
    pub connections: u64,
    pub metric: u32,
    pub short: bool,
    pub spent: bool,
}

/// Puts the doors back, and closes what was not.
pub fn put_back<N: Doors>(doors: &mut N, served: Served<N::Door, N::Closer>) -> Told
    requires { length served.doors.queries.items + 1 ≤ (N.view doors.old).out }
{
    let Served {
        connections,
        metric,
        doors: DoorSet { queries, control },
        closer,
        short,
    } = served;
    doors.back(queries, control);
    let spent = closer.is_none();
    if let Some(closer) = closer {
        closer.close();
    }
    Told {
        connections,
        metric,
        short,
        spent,
    }
}
