//! The ids of the objects that were read.

ghost use Rattle.std.specs.Prelude.{◌≡◌, ◌∷◌, ◌++◌, ◌||◌, [], ℤ, ◌≤ℤ◌, Bool, not, false, IsTrue, IfOk, IfSome, IfNone};
ghost use Rattle.std.specs.HashSet.{contains};
ghost use Rattle.std.specs.List.{list_any};
ghost use Rattle.std.specs.Ordering.{int_eq};
ghost use Rattle.opl_read.specs.Objects.{is_same};
ghost use Rattle.opl_read.specs.Seen.{is_named, stood, AreKept, AreSeen};

use road_base::{Kind, Object};
use std::alloc::{AllocError, Global};
use std::collections::HashSet;
use std::mem;

// What is kept of the ids of one kind that were seen. In most maps they rise, and then the last one tells
// that the next is new.
#[derive(Drop)]
pub(crate) enum KindIds {
    // None was seen.
    Nothing,
    // None above this one was seen.
    UpTo(i64),
    // Just these were seen.
    Among(HashSet<i64>),
}

// The id of an object of this kind.
fn id_of(kind: Kind, object: &Object) -> Option<i64>
    ensures some { IfSome result (λ id. (other : ℤ) → is_named kind other object.now ≡ int_eq id other) }
    ensures none { IfNone result ((other : ℤ) → is_named kind other object.now ≡ false) }
{
    match (kind, object) {
        (Kind::Node, Object::Node(node)) => Some(node.id),
        (Kind::Way, Object::Way(way)) => Some(way.id),
        (Kind::Relation, Object::Relation(relation)) => Some(relation.id),
        _ => None,
    }
}

// The ids of the objects of this kind.
fn ids_of(alloc: Global, kind: Kind, objects: &[Object]) -> Result<HashSet<i64>, AllocError>
    ensures { IfOk result (λ ids. (id : ℤ) → contains int_eq ids id ≡ stood kind objects.now id) }
{
    let mut ids = HashSet::new(alloc);
    for object in objects {
        if let Some(id) = id_of(kind, object) {
            ids.insert(id)?;
        }
    }
    Ok(ids)
}

impl KindIds {
    // Whether it is known without a look at the objects that no id from this one on was seen.
    fn are_below(&self, id: i64) -> bool
        ensures { IsTrue result → (stood : ℤ → Bool) → AreKept stood self.now → (other : ℤ) → id ≤ℤ other → stood other ≡ false }
    {
        match self {
            KindIds::Nothing => true,
            KindIds::UpTo(greatest) => *greatest < id,
            KindIds::Among(_) => false,
        }
    }

    // Just the ids that were seen, those of the objects.
    fn take(
        &mut self,
        alloc: Global,
        kind: Kind,
        objects: &[Object],
    ) -> Result<HashSet<i64>, AllocError>
        requires { AreKept (stood kind objects.now) self.old }
        ensures { IfOk result (λ ids. (id : ℤ) → contains int_eq ids id ≡ stood kind objects.now id) }
    {
        match mem::replace(self, KindIds::Nothing) {
            KindIds::Among(ids) => Ok(ids),
            _ => ids_of(alloc, kind, objects),
        }
    }

    // Whether this id was not seen, which is to say that no object of this kind has it; it is seen from now on.
    fn insert(
        &mut self,
        alloc: Global,
        kind: Kind,
        objects: &[Object],
        id: i64,
    ) -> Result<bool, AllocError>
        requires { AreKept (stood kind objects.now) self.old }
        ensures added { IfOk result (λ added. added ≡ not (stood kind objects.now id)) }
        ensures kept { IfOk result (λ _. AreKept (λ other. stood kind objects.now other || int_eq id other) self.new) }
    {
        if self.are_below(id) {
            *self = KindIds::UpTo(id);
            return Ok(true);
        }
        let mut ids = self.take(alloc, kind, objects)?;
        let added = ids.insert(id)?;
        *self = KindIds::Among(ids);
        Ok(added)
    }
}

// The ids seen so far, by kind.
pub(crate) struct SeenIds {
    nodes: KindIds,
    ways: KindIds,
    relations: KindIds,
}

impl Drop for SeenIds {
    fn drop(self) {
        let SeenIds {
            nodes: _nodes,
            ways: _ways,
            relations: _relations,
        } = self;
    }
}

impl SeenIds {
    pub(crate) fn new() -> SeenIds
        ensures { AreSeen [] result }
    {
        SeenIds {
            nodes: KindIds::Nothing,
            ways: KindIds::Nothing,
            relations: KindIds::Nothing,
        }
    }

    // Whether none of the objects, which were seen, is of this one's kind and id; this one is seen from now on.
    pub(crate) fn insert(
        &mut self,
        alloc: Global,
        objects: &[Object],
        object: &Object,
    ) -> Result<bool, AllocError>
        requires { AreSeen objects.now self.old }
        ensures added { IfOk result (λ added. added ≡ not (list_any (λ earlier. is_same earlier object.now) objects.now)) }
        ensures seen { IfOk result (λ _. AreSeen (objects.now ++ object.now ∷ []) self.new) }
    {
        match object {
            Object::Node(node) => self.nodes.insert(alloc, Kind::Node, objects, node.id),
            Object::Way(way) => self.ways.insert(alloc, Kind::Way, objects, way.id),
            Object::Relation(relation) => {
                self.relations
                    .insert(alloc, Kind::Relation, objects, relation.id)
            }
        }
    }
}
