//! What serves doors in memory: that workers run beside each other and beside the desk, and what is answered when. A
//! query byte is answered by the number that was entered; a control byte is published and answered by its number, and 0
//! asks to stop.

ghost use Rattle.std.specs.Prelude.{◌≡◌, ◌<◌};

use crate::publishing::{Figure, new_figure};
use door_workers::{Controlling, Querying, Then, serve};
use flag_doors::{Flags, Told, gate_of, new_flags, push_conn, push_door, put_back};
use memory_doors::{FlagConn, FlagGate, MemDoors, QueueDoor};
use metric_publish::{Naming, Opened as History, Publishing, Reading, open};
use road_io::{Conn, Door, Doors, Gate, MemConn};
use std::alloc::{AllocError, Global};
use std::marker::Brand;
use std::net::{Net, TcpListener, TcpStream};
use std::process::Abort;
use std::sync::Wait;
use std::test::*;
use std::thread::Threads;

/// How much output a connection has room for.
const ROOM: usize = 8;

/// Answers a byte by the number of the publication that was entered.
#[derive(Drop)]
struct Numbers {
    gate: FlagGate,
}

impl Querying<Figure> for Numbers {
    ghost rule = { λ s list t. Unit {0} };

    ghost longer = { λ s xs ys t more rule. tt };

    ghost fits = { λ s x. Unit {0} };

    fn answer<S: Reading<Figure>, C: Conn, R: Threads + Sync>(
        &self,
        rt: &R,
        id: u32,
        seat: &mut S,
        conn: &mut C,
    ) {
        let mut byte = [0_u8; 1];
        if conn.take(&mut byte) != Ok(1) {
            return;
        }
        if let Ok(held) = seat.enter() {
            self.gate.pass(id, held.number());
            let _ = conn.put(&[held.number().min(255) as u8]);
        }
    }
}

/// Publishes a byte, and answers its number.
#[derive(Drop)]
struct Storing {
    alloc: Global,
}

impl Controlling<Figure> for Storing {
    ghost rule = { λ s before t after then. Unit {0} };

    ghost makes = { λ s x. Unit {0} };

    fn control<P: Publishing<Figure, R>, C: Conn, R: Threads + Wait + Sync>(
        &self,
        rt: &R,
        desk: &mut P,
        conn: &mut C,
    ) -> Then {
        let mut byte = [0_u8; 1];
        if conn.take(&mut byte) != Ok(1) {
            return Then::GoOn;
        }
        if byte[0] == 0 {
            return Then::Stop;
        }
        let Ok(figure) = new_figure(self.alloc, u64::from(byte[0])) else {
            return Then::GoOn;
        };
        if let Ok(receipt) = desk.publish(rt, figure) {
            let _ = conn.put(&[receipt.number.min(255) as u8]);
        }
        Then::GoOn
    }
}

// Two query doors, and a control door that two figures and a stop come through once the first query has
// arrived at its gate. The second query comes once both are published.
fn doors_of(alloc: Global, flags: &Flags) -> Result<Box<MemDoors<FlagConn<MemConn>>>, AllocError> {
    let mut queries = Vec::new(alloc);
    push_door(alloc, &mut queries, b"a", ROOM, &flags.begun, &flags.other)?;
    push_door(
        alloc,
        &mut queries,
        b"b",
        ROOM,
        &flags.published,
        &flags.answered,
    )?;
    let mut control = Vec::new(alloc);
    push_conn(
        alloc,
        &mut control,
        &[7],
        ROOM,
        &flags.arrived,
        &flags.other,
    )?;
    push_conn(
        alloc,
        &mut control,
        &[8],
        ROOM,
        &flags.begun,
        &flags.published,
    )?;
    push_conn(alloc, &mut control, &[0], ROOM, &flags.begun, &flags.other)?;
    push_conn(alloc, &mut control, &[9], ROOM, &flags.begun, &flags.other)?;
    let control = QueueDoor::of(alloc, control, Vec::new(alloc))?;
    let doors = MemDoors::of(alloc, queries, control, Vec::new(alloc));
    Ok(Box::new(alloc, doors)?)
}

// Opens doors and a board, serves, and puts the doors back.
fn serve_once<
    N: Doors,
    J: Naming + Send + Sync,
    R: Threads + Wait + Net<Listener = TcpListener, Stream = TcpStream> + Sync,
>(
    rt: &R,
    alloc: Global,
    queries: &Numbers,
    doors: &mut N,
    workers: u32,
    history: History<Figure>,
) -> Result<Told, Fail>
where
    N::Door: Send,
    <N::Door as Door>::Conn: Send,
    requires book { history.seen.book ≡ J.book }
    requires workers { 0 < workers }
{
    let figure = new_figure(alloc, 1)?;
    let (mut desk, mut seats) = open::<Figure, J, R>(rt, alloc, history, figure, 0, workers)?;
    let Ok(room) = Vec::with_capacity(alloc, workers as usize) else {
        desk.end(rt);
        return Err(Fail::from("no room"));
    };
    let opened = match doors.open(rt, alloc, "a:1", "a:2", workers) {
        Ok(opened) => opened,
        Err(_) => {
            room.destroy_empty();
            desk.end(rt);
            return Err(Fail::from("no doors"));
        }
    };
    let controls = Storing { alloc };
    let served = serve(rt, queries, &controls, opened, &mut seats, room, &mut desk);
    desk.end(rt);
    Ok(put_back(doors, served))
}

// The first byte of output of each connection that came through this door, and where one was late.
fn replies(alloc: Global, door: &QueueDoor<FlagConn<MemConn>>) -> Result<String, AllocError> {
    let mut text = String::new(alloc);
    for conn in door.finished() {
        if let Some(byte) = conn.inner().output().first() {
            text.push_str(format!(in alloc; "{byte} ")?.as_str())?;
        }
        if conn.is_late() {
            text.push_str("late ")?;
        }
    }
    Ok(text)
}

// The replies of all doors that came back, the control door first.
fn all_replies(alloc: Global, doors: &MemDoors<FlagConn<MemConn>>) -> Result<String, AllocError> {
    let mut text = String::new(alloc);
    for set in doors.returned() {
        text.push_str("control ")?;
        text.push_str(replies(alloc, set.control())?.as_str())?;
        for door in set.queries() {
            text.push_str("| ")?;
            text.push_str(replies(alloc, door)?.as_str())?;
        }
    }
    Ok(text)
}

// Serves these doors with two workers, and asserts what that leaves.
fn assert_told<
    J: Naming + Send + Sync,
    R: Threads + Wait + Abort + Net<Listener = TcpListener, Stream = TcpStream> + Sync,
>(
    rt: &R,
    alloc: Global,
    numbers: &Numbers,
    doors: &mut MemDoors<FlagConn<MemConn>>,
    history: History<Figure>,
) -> Result<(), Fail>
    requires { history.seen.book ≡ J.book }
{
    let told = serve_once::<_, J, R>(rt, alloc, numbers, doors, 2, history)?;
    assert_eq!(rt;
        told,
        Told {
            connections: 5,
            metric: 2,
            short: false,
            spent: true
        }
    );
    let replies = all_replies(alloc, doors)?;
    assert_eq!(rt; replies.as_str(), "control 1 2 | 0 | 2 ");
    Ok(())
}

// The first seat is held under number 0 until the second was answered under number 2.
#[test]
fn workers_run_beside_each_other_and_beside_the_desk(rt: HostRuntime) -> Result<(), Fail> {
    let alloc = rt.alloc();
    let flags = new_flags(alloc)?;
    let mut doors = doors_of(alloc, &flags)?;
    let numbers = Numbers {
        gate: gate_of(flags),
    };
    assert_told::<Brand, HostRuntime>(&rt, alloc, &numbers, &mut doors, History::new())?;
    assert!(rt; !numbers.gate.is_late());
    Ok(())
}
