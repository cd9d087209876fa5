//! Doors and seats become posts, and posts become doors and seats again, without taking memory.

ghost use Rattle.std.specs.Prelude.{◌≡◌, ◌<◌, ◌≤◌, ◌^◌, ◌++◌, [], map, reverse};
ghost use Rattle.std.specs.Vec.{vec_len, vec_capacity};

use crate::posts::Post;

/// Moves each door with its seat into a post, for which there is room. The number of a post is the place of its
/// door.
#[tactic(auto, using(crate::proofs::Pairings::moved_last))]
pub fn pair<D, S>(doors: &mut Vec<D>, seats: &mut Vec<S>, posts: &mut Vec<Post<D, S>>)
    requires as_many { vec_len seats.old ≡ vec_len doors.old }
    requires few { vec_len doors.old < 2 ^ 32 }
    requires empty { posts.old.items ≡ [] }
    requires room { vec_len doors.old ≤ vec_capacity posts.old }
    ensures doors { map (λ p. p.door) posts.new.items ≡ reverse doors.old.items }
    ensures seats { map (λ p. p.seat) posts.new.items ≡ reverse seats.old.items }
    ensures moved { (doors.new.items ≡ []) × (seats.new.items ≡ []) }
    ensures count { vec_len posts.new ≡ vec_len doors.old }
    ensures capacity { (vec_capacity doors.new ≡ vec_capacity doors.old) × (vec_capacity seats.new ≡ vec_capacity seats.old) }
{
    while let Some(door) = doors.pop() {
        let Some(seat) = seats.pop() else {
            unreachable!()
        };
        let post = Post {
            id: doors.len() as u32,
            door,
            seat,
            connections: 0,
        };
        match posts.push(post) {
            Ok(()) => {}
            Err(_) => unreachable!(),
        }
    }
}

/// Moves the doors and seats of these posts back into their lists, in the order in which they stood there.
#[tactic(auto, using(crate::proofs::Pairings::back_last))]
pub fn part<D, S>(posts: &mut Vec<Post<D, S>>, doors: &mut Vec<D>, seats: &mut Vec<S>)
    requires empty { (doors.old.items ≡ []) × (seats.old.items ≡ []) }
    requires room { (vec_len posts.old ≤ vec_capacity doors.old) × (vec_len posts.old ≤ vec_capacity seats.old) }
    ensures doors { doors.new.items ≡ reverse (map (λ p. p.door) posts.old.items) }
    ensures seats { seats.new.items ≡ reverse (map (λ p. p.seat) posts.old.items) }
    ensures moved { posts.new.items ≡ [] }
{
    while let Some(post) = posts.pop() {
        let Post {
            id: _,
            door,
            seat,
            connections: _,
        } = post;
        match doors.push(door) {
            Ok(()) => {}
            Err(_) => unreachable!(),
        }
        match seats.push(seat) {
            Ok(()) => {}
            Err(_) => unreachable!(),
        }
    }
}
