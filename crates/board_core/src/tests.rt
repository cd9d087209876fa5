//! What no clause says: that calls succeed where memory is ample, and that the
//! outcomes are those that a reader of the rule expects.
use crate::{Event, Machine, Outcome};
use std::test::Fail;

#[test]
fn seats_enter_with_the_last_entry(rt: HostRuntime) -> Result<(), Fail> {
    let mut machine = Machine::of(rt.alloc(), 2, 0, 7)?;
    let events = [
        Event::Enter(0),
        Event::Publish(8),
        Event::Tell,
        Event::Learn(1, 1),
        Event::Enter(1),
        Event::Enter(0),
        Event::Enter(2),
    ];
    let expected = [
        Outcome::Entered(0, 7),
        Outcome::Published(1),
        Outcome::Told(1),
        Outcome::Learned,
        Outcome::Entered(1, 8),
        Outcome::Entered(1, 8),
        Outcome::NoSeat,
    ];
    let answers = machine.run(rt.alloc(), &events)?;
    assert_eq!(rt; answers.as_slice(), expected.as_slice());
    Ok(())
}

#[test]
fn the_last_number_is_4294967295(rt: HostRuntime) -> Result<(), Fail> {
    let mut machine = Machine::of(rt.alloc(), 1, 4294967294, 1)?;
    let steps = [
        (Event::Publish(2), Outcome::Published(4294967295)),
        (Event::Publish(3), Outcome::Spent),
        (Event::Enter(0), Outcome::Entered(4294967295, 2)),
        (Event::Learn(1, 0), Outcome::NoSeat),
    ];
    for (event, expected) in steps {
        assert_eq!(rt; machine.step(event), expected, "at {event:?}");
    }
    Ok(())
}

#[test]
fn a_seat_forgets_no_number(rt: HostRuntime) -> Result<(), Fail> {
    let mut machine = Machine::of(rt.alloc(), 1, 5, 1)?;
    let steps = [
        (Event::Learn(0, 6), Outcome::NotTold, 5),
        (Event::Publish(2), Outcome::Published(6), 5),
        (Event::Learn(0, 6), Outcome::Learned, 6),
        (Event::Learn(0, 5), Outcome::Learned, 6),
        (Event::Publish(3), Outcome::Published(7), 6),
        (Event::Enter(0), Outcome::Entered(7, 3), 7),
    ];
    for (event, expected, known) in steps {
        assert_eq!(rt; machine.step(event), expected, "at {event:?}");
        assert_eq!(rt; machine.known(0), known, "after {event:?}");
    }
    Ok(())
}
