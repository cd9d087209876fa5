//! What each seat does at its end: it learns what the desk tells, and enters once more.

ghost use Rattle.std.specs.Prelude.{◌≡◌, ◌+◌, ◌-◌, ◌^◌, min, IsTrue, All, sum_by};
ghost use Rattle.std.specs.List.{AllZip};
ghost use Rattle.left_right.specs.Sides.{view};
ghost use mathlib.Core.List.{IsPrefix};
ghost use Rattle.metric_publish.specs.Calls.{Each};
ghost use Rattle.metric_publish.specs.Published.{published};
ghost use Rattle.door_workers.specs.Settling.{HasReadAll, IsSettled};

use crate::posts::Post;
use metric_publish::{DeskOf, Kindred, Naming, Reading, Seat};

/// Settles one seat, and says whether it has then read all that was published. It has not where its last
/// Enter found no memory.
pub fn settle<V: Kindred, J: Naming, D>(desk: &DeskOf<V, J>, post: &mut Post<D, Seat<V, J>>) -> bool
    ensures settled { IsSettled post.old post.new (λ s. s.seen.token.log) }
    ensures learned { IsPrefix (published desk.now) post.new.seat.learned.token.log }
    ensures all { IsTrue result → HasReadAll (published desk.now) post.new.seat.seen.token.log (view post.new.seat.reader.place).reads }
{
    post.seat.learn(desk.tell());
    match post.seat.enter() {
        Ok(_held) => desk.is_caught_up(&post.seat),
        Err(_) => false,
    }
}

/// Settles the seats, and says whether each has then read all that was published.
pub fn settle_all<V: Kindred, J: Naming, D>(
    desk: &DeskOf<V, J>,
    posts: &mut Vec<Post<D, Seat<V, J>>>,
) -> bool
    ensures settled { AllZip (λ p q. IsSettled p q (λ s. s.seen.token.log)) posts.old.items posts.new.items }
    ensures learned { All (λ q. IsPrefix (published desk.now) q.seat.learned.token.log) posts.new.items }
    ensures all { IsTrue result → Each posts.new.items (λ q. HasReadAll (published desk.now) q.seat.seen.token.log (view q.seat.reader.place).reads) }
{
    let mut all = true;
    for i in 0..posts.len() {
        let is_all = settle(desk, &mut posts[i]);
        all = all && is_all;
    }
    all
}

/// How many connections were served in all; the count stands still at 18446744073709551615.
pub fn connections<D, S>(posts: &[Post<D, S>], control: u64) -> u64
    ensures { result ≡ min (sum_by (λ p. p.connections) posts.now + control) (2 ^ 64 - 1) }
{
    let mut count = control;
    for post in posts {
        count = count.saturating_add(post.connections);
    }
    count
}
