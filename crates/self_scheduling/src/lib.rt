//! Work that is made of many items, in threads that each take the next item that no thread has taken yet.
//!
//! How long an item takes isn't known exactly beforehand, a thread may start late, and a processor may be slower than another.
//! So no thread is given its items in advance: each takes one when it is done with the one before (self-scheduling: P. Tang and
//! P.-C. Yew, Processor Self-Scheduling for Multiple-Nested Parallel Loops, 1986), and they end together but for one item.
//! In which order items are taken the job says, so that this one can be a short one.
//! The calling thread starts them one after another and waits. If it took items too, a new thread that the kernel puts behind it
//! on its processor, as Linux does at times where others are idle, would wait until the next tick.
//!
//! A [`Job`] says what its items are and makes one of them; [`items_in_threads`] makes all.
#![tactic(auto)]

mod job;
mod numbered;
mod threads;

pub use job::Job;
pub use threads::items_in_threads;
