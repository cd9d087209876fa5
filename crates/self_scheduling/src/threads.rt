//! The threads of a job.

ghost use Rattle.std.specs.Prelude.{◌≡◌, ◌<◌, IfOk};
ghost use Rattle.std.specs.Thread.{IsSync, IsSend};
ghost use Rattle.self_scheduling.specs.Items.{AreItems, AreNumbered};

use crate::job::Job;
use crate::numbered::{Numbered, in_order};
use rayon::current_num_threads;
use std::alloc::{AllocError, Global};
use std::sync::atomic::{AtomicU64, Ordering};
use std::thread::{Threads, join};

// The items that one thread makes: again and again the next that no thread has taken, until none is left.
fn share<J: Job>(
    alloc: Global,
    job: &J,
    next: &AtomicU64,
) -> Result<Vec<Numbered<J::Item>>, AllocError>
    requires { J.ready job.now }
    ensures { IfOk result (λ made. AreNumbered (J.count job.now) (J.is_item job.now) made.items) }
{
    let count = job.count();
    let mut memory = job.memory(alloc);
    let mut made = Vec::new(alloc);
    for _ in 0..count {
        let taken = next.fetch_add(1, Ordering::SeqCst);
        if taken >= count as u64 {
            break;
        }
        let number = job.nth(taken as usize);
        let item = job.item(alloc, &mut memory, number)?;
        made.push(Numbered { number, item })?;
    }
    Ok(made)
}

// The items that so many new threads make while this one waits. Where a thread can't be started, its share falls to the others,
// and what is left of it to this one.
#[cycle(fewer)]
fn shares<R: Threads + Sync, J: Job>(
    rt: &R,
    alloc: Global,
    job: &J,
    next: &AtomicU64,
    threads: usize,
) -> Result<Vec<Numbered<J::Item>>, AllocError>
    requires { J.ready job.now }
    ensures { IfOk result (λ made. AreNumbered (J.count job.now) (J.is_item job.now) made.items) }
{
    if threads == 0 {
        return Ok(Vec::new(alloc));
    }
    let another = move || -> Result<Vec<Numbered<J::Item>>, AllocError>
        requires { IsSync J.row × J.ready job.now }
        ensures { IfOk result (λ made. AreNumbered (J.count job.entry.now) (J.is_item job.entry.now) made.items) }
    { share(alloc, job, next) };
    let others = move || -> Result<Vec<Numbered<J::Item>>, AllocError>
        requires { IsSync R.row × IsSync J.row × J.ready job.now × (0 < threads) }
        ensures { IfOk result (λ made. AreNumbered (J.count job.entry.now) (J.is_item job.entry.now) made.items) }
    { shares(rt, alloc, job, next, threads - 1) };
    let (one, rest) = join(rt, another, others);
    let mut one = one?;
    let mut made = rest?;
    made.append(&mut one)?;
    Ok(made)
}

/// All items of a job in the order of their numbers, made side by side in as many threads as there are processors, and without
/// another thread where there is one processor or one item. It answers the error where memory runs out.
pub fn items_in_threads<J: Job>(
    rt: &(impl Threads + Sync),
    alloc: Global,
    job: &J,
) -> Result<Vec<J::Item>, AllocError>
    requires { J.ready job.now }
    ensures { IfOk result (λ all. AreItems (J.count job.now) (J.is_item job.now) all.items) }
{
    let threads = current_num_threads(rt).min(job.count());
    let next = AtomicU64::new(0);
    let made = if threads > 1 {
        shares(rt, alloc, job, &next, threads)?
    } else {
        share(alloc, job, &next)?
    };
    in_order(alloc, job, made)
}
