//! Work whose items are made in threads.

ghost use Rattle.std.specs.Prelude.{◌≡◌, ℕ, ◌*◌, ◌<◌, ⊤};

use self_scheduling::{Job, items_in_threads};
use std::alloc::{AllocError, Global};
use std::test::Fail;
use std::thread::Threads;

// The squares of the numbers below a count, but that memory is said to run out at some number. They are taken from the last to
// the first, or by turns that name each even number twice and no odd one.
#[derive(Drop)]
struct Squares {
    count: u32,
    fails_at: u32,
    names_even: bool,
}

impl Job for Squares {
    type Memory = u32;

    type Item = u64;

    ghost ready = { λ _. ⊤ };

    ghost count = { λ s. s.count };

    ghost is_item = { λ _ n item. item ≡ n * n };

    fn count(&self) -> usize {
        self.count as usize
    }

    fn nth(&self, turn: usize) -> usize {
        if self.names_even {
            turn / 2 * 2
        } else {
            self.count as usize - 1 - turn
        }
    }

    fn memory(&self, alloc: Global) -> u32 {
        let _ = alloc;
        0
    }

    fn item(&self, alloc: Global, memory: &mut u32, number: usize) -> Result<u64, AllocError> {
        let _ = alloc;
        *memory = self.count;
        if number == self.fails_at as usize {
            return Err(AllocError);
        }
        let number = number as u64;
        Ok(number * number)
    }
}

// The job's items, one behind another.
fn told(rt: &(impl Threads + Sync), alloc: Global, job: &Squares) -> Result<String, AllocError> {
    let mut text = String::new(alloc);
    for item in items_in_threads(rt, alloc, job)? {
        text.push_str(format!(in alloc; "{item} ")?.as_str())?;
    }
    Ok(text)
}

#[test]
fn all_items_of_a_job_come_in_their_order(rt: HostRuntime) -> Result<(), Fail> {
    let alloc = rt.alloc();
    let job = Squares {
        count: 12,
        fails_at: 12,
        names_even: false,
    };
    let told = told(&rt, alloc, &job)?;
    assert_eq!(&rt; told.as_str(), "0 1 4 9 16 25 36 49 64 81 100 121 ");
    Ok(())
}

#[test]
fn items_that_no_turn_names_are_made_too(rt: HostRuntime) -> Result<(), Fail> {
    let alloc = rt.alloc();
    let job = Squares {
        count: 7,
        fails_at: 7,
        names_even: true,
    };
    let told = told(&rt, alloc, &job)?;
    assert_eq!(&rt; told.as_str(), "0 1 4 9 16 25 36 ");
    Ok(())
}

#[test]
fn a_job_without_items_has_none(rt: HostRuntime) -> Result<(), Fail> {
    let alloc = rt.alloc();
    let job = Squares {
        count: 0,
        fails_at: 0,
        names_even: false,
    };
    let items = items_in_threads(&rt, alloc, &job)?;
    assert!(&rt; items.is_empty());
    Ok(())
}

#[test]
fn want_of_memory_at_one_item_is_told(rt: HostRuntime) -> Result<(), Fail> {
    let alloc = rt.alloc();
    let job = Squares {
        count: 100,
        fails_at: 57,
        names_even: false,
    };
    let items = items_in_threads(&rt, alloc, &job);
    assert!(&rt; items.is_err());
    Ok(())
}
