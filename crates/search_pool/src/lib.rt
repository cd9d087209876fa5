//! Memory of searches that have ended, in which others begin.
//!
//! A search takes memory for what it touches, a table of the vertices of its graph among it. A server that makes one for
//! each request lays all this anew each time; with a [`SearchPool`] it takes one that has ended, begins anew in its memory
//! (`Search::restart`), and gives it back.
#![tactic(auto)]

use search_graph::Cost;
use std::alloc::{AllocError, Global};
use std::sync::Mutex;
use step_search::Search;

/// Searches that have ended, each with its memory, shared by threads.
///
/// No thread ever waits: one that finds no search begins in new memory, and a search for which there is no room is let go of, as
/// is one whose place another thread holds just then. What a search held when it ended says nothing to the next.
pub struct SearchPool<C: Cost> {
    places: Vec<Mutex<Option<Search<C>>>>,
}

impl<C: Cost> Drop for SearchPool<C> {
    fn drop(self) {
        let SearchPool { places: _places } = self;
    }
}

impl<C: Cost> SearchPool<C> {
    /// A pool with room for so many searches, which has none yet. It answers the error where memory runs out.
    pub fn with_room(alloc: Global, room: usize) -> Result<SearchPool<C>, AllocError> {
        let mut places = Vec::with_capacity(alloc, room)?;
        for _ in 0..room {
            places.push(Mutex::new(None))?;
        }
        Ok(SearchPool { places })
    }

    /// A search to begin anew: one that was given back, or else one with no memory yet.
    pub fn take(&self, alloc: Global) -> Search<C> {
        for place in &self.places {
            if let Some(search) = taken_from(place) {
                return search;
            }
        }
        Search::new(alloc)
    }

    /// Keeps a search for others, where there is room for it.
    pub fn give(&self, search: Search<C>) {
        let mut search = search;
        for place in &self.places {
            match put_in(place, search) {
                None => return,
                Some(refused) => search = refused,
            }
        }
    }
}

// The search of a place, where it has one and no other thread holds it.
fn taken_from<C: Cost>(place: &Mutex<Option<Search<C>>>) -> Option<Search<C>> {
    let mut held = place.try_lock()?;
    held.take()
}

// Puts a search in a place, and gives it back where another stands there, or another thread holds it.
fn put_in<C: Cost>(place: &Mutex<Option<Search<C>>>, search: Search<C>) -> Option<Search<C>> {
    let Some(mut held) = place.try_lock() else {
        return Some(search);
    };
    if held.is_some() {
        return Some(search);
    }
    *held = Some(search);
    None
}
