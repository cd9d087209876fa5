//! What is published at a desk or on the board of one thread, and what seats read of it.

ghost use Rattle.std.specs.Prelude.{◌≡◌};
ghost use Rattle.worked_doors.specs.declared.publishing.Figure.{Figure};

use metric_publish::{
    DeskOf, Kindred, LocalBoard, Naming, Opened, Publishing, Reading, Receipt, Refused, Seat, open,
};
use std::alloc::{AllocError, Global};
use std::marker::Brand;
use std::process::Abort;
use std::sync::{Arc, Wait};
use std::test::*;
use std::thread::{Threads, for_each_mut, join_mut};

const FIRST: u32 = 5;

const LAST: u32 = 305;

const READS: u32 = 2000;

/// What is published.
#[derive(Drop)]
pub struct Figure {
    pub value: u64,
}

// Any two may stand in one list.
impl Kindred for Figure {
    ghost akin = { λ x y. Unit {0} };

    ghost itself = { λ x. tt };

    ghost together = { λ x y z a b. tt };
}

pub fn new_figure(alloc: Global, value: u64) -> Result<Arc<Figure>, AllocError> {
    Ok(Arc::new(alloc, Figure { value })?)
}

// Publishes numbers under themselves. It returns how many were not published so.
fn publish_numbers<R, D: Publishing<Figure, R>>(rt: &R, alloc: Global, desk: &mut D) -> u32
    requires { (x : Figure) → D.kin desk.old x }
{
    let mut wrong = 0u32;
    for number in FIRST + 1..LAST + 1 {
        let Ok(value) = new_figure(alloc, u64::from(number)) else {
            return u32::MAX;
        };
        match desk.publish(rt, value) {
            Ok(receipt) if receipt == (Receipt { number }) => {}
            _ => wrong = wrong.saturating_add(1),
        }
    }
    wrong
}

// Reads many times. It returns how many reads failed, went back or gave another value than their number.
fn read_numbers<S: Reading<Figure>>(seat: &mut S, times: u32) -> u32 {
    let mut wrong = 0u32;
    let mut last = 0;
    for _ in 0..times {
        match seat.enter() {
            Ok(held) if held.number() >= last && held.value().value == u64::from(held.number()) => {
                last = held.number();
            }
            _ => wrong = wrong.saturating_add(1),
        }
    }
    wrong
}

#[derive(Clone, Copy, Debug, PartialEq, Eq)]
enum Told {
    Published(u32),
    Spent(u64),
    Memory(u64),
}

fn answered(answer: Result<Receipt, Refused<Figure>>) -> Told {
    match answer {
        Ok(receipt) => Told::Published(receipt.number),
        Err(Refused::Spent(back)) => Told::Spent(back.value),
        Err(Refused::Memory(back)) => Told::Memory(back.value),
    }
}

#[derive(Drop)]
struct Watch<J: Naming> {
    seat: Seat<Figure, J>,
    wrong: u32,
}

fn watches_of<J: Naming>(
    alloc: Global,
    seats: Vec<Seat<Figure, J>>,
) -> Result<Vec<Watch<J>>, AllocError> {
    let mut watches = Vec::new(alloc);
    for seat in seats {
        watches.push(Watch { seat, wrong: 0 })?;
    }
    Ok(watches)
}

fn publish_at_desk<R: Wait, J: Naming>(rt: &R, alloc: Global, desk: &mut DeskOf<Figure, J>) -> u32 {
    let mut wrong = 0u32;
    for number in FIRST + 1..LAST + 1 {
        let Ok(value) = new_figure(alloc, u64::from(number)) else {
            return u32::MAX;
        };
        if answered(desk.publish(rt, value)) != Told::Published(number) {
            wrong = wrong.saturating_add(1);
        }
    }
    wrong
}

fn look<J: Naming>(watch: &mut Watch<J>) {
    watch.wrong = read_numbers(&mut watch.seat, READS);
}

// Each seat learns what the desk tells, and reads once more.
fn settled<J: Naming>(desk: &DeskOf<Figure, J>, watches: &mut Vec<Watch<J>>) -> u32 {
    let mut settled = 0u32;
    for watch in watches.iter_mut() {
        watch.seat.learn(desk.tell());
        let is_last = watch.seat.enter().is_ok_and(|held| held.number() == LAST);
        if is_last && watch.wrong == 0 && desk.is_caught_up(&watch.seat) {
            settled = settled.saturating_add(1);
        }
    }
    settled
}

fn race<R: Threads + Wait + Abort + Sync, J: Naming + Send + Sync>(
    rt: &R,
    alloc: Global,
    opened: Opened<Figure>,
) -> Result<(), Fail>
    requires { opened.seen.book ≡ J.book }
{
    let first = new_figure(alloc, u64::from(FIRST))?;
    let (mut desk, seats) = open::<Figure, J, R>(rt, alloc, opened, first, FIRST, 4)?;
    let mut watches = match watches_of(alloc, seats) {
        Ok(watches) => watches,
        Err(_) => {
            desk.end(rt);
            return Err(Fail::from("no room for the seats"));
        }
    };
    let (unpublished, ()) = join_mut(
        rt,
        &mut || publish_at_desk(rt, alloc, &mut desk),
        &mut || for_each_mut(rt, watches.as_mut_slice(), 4, &|_, watch| look(watch)),
    );
    let settled = settled(&desk, &mut watches);
    desk.end(rt);
    assert_eq!(rt; (unpublished, settled), (0, 4));
    Ok(())
}

#[test]
fn four_seats_never_go_back(rt: HostRuntime) -> Result<(), Fail> {
    race::<HostRuntime, Brand>(&rt, rt.alloc(), Opened::new())
}

fn publish_past_the_end<R: Wait + Abort, J: Naming>(
    rt: &R,
    alloc: Global,
    opened: Opened<Figure>,
) -> Result<(), Fail>
    requires { opened.seen.book ≡ J.book }
{
    let first = new_figure(alloc, 7)?;
    let next = new_figure(alloc, 8)?;
    let last = new_figure(alloc, 9)?;
    let (mut desk, _seats) = open::<Figure, J, R>(rt, alloc, opened, first, u32::MAX - 1, 1)?;
    let published = desk.publish(rt, next);
    let refused = desk.publish(rt, last);
    desk.end(rt);
    assert_eq!(rt; answered(published), Told::Published(u32::MAX));
    assert_eq!(rt; answered(refused), Told::Spent(9));
    Ok(())
}

#[test]
fn numbers_end_at_4294967295(rt: HostRuntime) -> Result<(), Fail> {
    publish_past_the_end::<HostRuntime, Brand>(&rt, rt.alloc(), Opened::new())
}

#[test]
fn one_thread_reads_what_it_published(rt: HostRuntime) -> Result<(), Fail> {
    let alloc = rt.alloc();
    let first = new_figure(alloc, u64::from(FIRST))?;
    let mut board = LocalBoard::of(alloc, first, FIRST)?;
    let before = read_numbers(&mut board, 2);
    let published = publish_numbers(&rt, alloc, &mut board);
    let after = read_numbers(&mut board, 2);
    let held = board.enter()?;
    assert_eq!(rt; (before, published, after, held.number()), (0, 0, 0, LAST));
    Ok(())
}

#[test]
fn the_numbers_of_one_thread_end_too(rt: HostRuntime) -> Result<(), Fail> {
    let alloc = rt.alloc();
    let mut board = LocalBoard::of(alloc, new_figure(alloc, 7)?, u32::MAX)?;
    let refused = board.publish(new_figure(alloc, 8)?);
    let held = board.enter()?;
    assert_eq!(rt; answered(refused), Told::Spent(8));
    assert_eq!(rt; (held.number(), held.value().value), (u32::MAX, 7));
    Ok(())
}
