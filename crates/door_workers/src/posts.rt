//! A worker's place: a query door and the seat that its connections are answered from.

ghost use Rattle.std.specs.Prelude.{◌≡◌, List, All};
ghost use Rattle.std.specs.List.{AllZip};
ghost use Rattle.road_io.specs.DoorOpening.{IsNewDoor};
ghost use Rattle.door_workers.specs.Serving.{AnsweredAt};

use crate::sessions::Querying;
use crate::workers::answer_all;
use metric_publish::Reading;
use road_io::Door;
use std::sync::Wait;
use std::thread::{Threads, for_each_mut};

/// A query door with the seat of its worker, under a number, and how many connections came through it. It is
/// `Drop` only where both are, so that no door is lost.
#[derive(Drop)]
pub struct Post<D, S> {
    pub(crate) id: u32,
    pub(crate) door: D,
    pub(crate) seat: S,
    pub(crate) connections: u64,
}

/// Serves all that comes through the door of one post.
pub fn answer_at<V: Drop, Q: Querying<V>, S: Reading<V>, D: Door, R: Threads + Wait + Sync>(
    rt: &R,
    queries: &Q,
    post: &mut Post<D, S>,
)
    requires new { IsNewDoor (D.view post.old.door) }
    requires fits { (x : V) → S.kin post.old.seat x → Q.fits queries.now x }
    ensures { AnsweredAt (Q.rule queries.now) (D.view post.old.door) (D.view post.new.door) (S.seen post.old.seat) (S.seen post.new.seat) post.new.connections }
{
    post.connections = answer_all(rt, queries, post.id, &mut post.seat, &mut post.door);
}

/// Serves all that comes through the doors of these posts, each in a thread of its own where one can be made.
pub fn answer_everywhere<
    V: Drop + Send + Sync,
    Q: Querying<V> + Sync,
    S: Reading<V> + Send,
    D: Door + Send,
    R: Threads + Wait + Sync,
>(rt: &R, queries: &Q, posts: &mut Vec<Post<D, S>>)
where
    D::Conn: Send,
    requires new { All (λ p. IsNewDoor (D.view p.door)) posts.old.items }
    requires fits { All (λ p. (x : V) → S.kin p.seat x → Q.fits queries.now x) posts.old.items }
    ensures { AllZip (λ p q. AnsweredAt (Q.rule queries.now) (D.view p.door) (D.view q.door) (S.seen p.seat) (S.seen q.seat) q.connections) posts.old.items posts.new.items }
{
    let threads = posts.len().max(1);
    for_each_mut(
        rt,
        posts.as_mut_slice(),
        threads,
        &|_: usize, post: &mut Post<D, S>|
            requires { IsNewDoor (D.view post.old.door) × ((x : V) → S.kin post.old.seat x → Q.fits queries.now x) }
            ensures { AnsweredAt (Q.rule queries.entry.now) (D.view post.old.door) (D.view post.new.door) (S.seen post.old.seat) (S.seen post.new.seat) post.new.connections }
        { answer_at(rt, queries, post) },
    );
}
