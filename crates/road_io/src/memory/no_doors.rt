//! Doors for a program that has none.

ghost use Rattle.std.specs.Prelude.{◌≡◌, map};
ghost use Rattle.road_io.specs.DoorOpening.{asked, door_set, OpenGives, BackGives};
ghost use Rattle.road_io.specs.MemoryDoor.{door_view};
ghost use Rattle.road_io.specs.NoDoors.{no_doors};

use crate::doorways::{Doors, Opened, any_fault};
use crate::failures::DoorsFault;
use crate::memory::doors::{MemCloser, MemDoor};
use std::alloc::Global;
use std::marker::Model;
use std::net::{Net, TcpListener, TcpStream};

/// No doors: each opening fails, and is counted.
#[derive(Drop, Debug)]
pub struct NoDoors {
    faults: u64,
}

impl Model for NoDoors {
    ghost use Rattle.std.specs.Prelude.{ℕ};

    ghost Value = { ℕ };

    ghost view = { λ d. d.faults };
}

impl NoDoors {
    /// No doors, none of which was asked for.
    pub fn new() -> NoDoors
        ensures { result ≡ 0 }
    {
        NoDoors { faults: 0 }
    }
}

impl Doors for NoDoors {
    type Door = MemDoor;

    type Closer = MemCloser;

    ghost view = { no_doors };

    fn open<R: Net<Listener = TcpListener, Stream = TcpStream>>(
        &mut self,
        _rt: &R,
        _alloc: Global,
        query: &str,
        control: &str,
        workers: u32,
    ) -> Result<Opened<MemDoor, MemCloser>, DoorsFault>
        ensures gives { OpenGives (no_doors self.old) result (no_doors self.new) (asked query.now control.now workers) (λ o. door_set (map door_view o.queries.items) (door_view o.control)) }
    {
        self.faults = self.faults.saturating_add(1);
        Err(DoorsFault::Failed)
    }

    fn back(&mut self, queries: Vec<MemDoor>, control: MemDoor)
        ensures takes { BackGives (no_doors self.old) (door_set (map door_view queries.items) (door_view control)) (no_doors self.new) }
    {
        if any_fault(&queries, &control) {
            self.faults = self.faults.saturating_add(1);
        }
    }
}
