//! The objects of OpenStreetMap data (https://wiki.openstreetmap.org/wiki/Elements), with what routing
//! needs of them.

ghost use Rattle.std.specs.Prelude.{◌≡◌};

use crate::coordinates::Point;
use crate::id_lists::Ids;
use crate::tag_lists::Tags;
use crate::texts::Text;
use std::marker::Model;

/// The kind of an object.
#[derive(Clone, Copy, Debug, PartialEq, Eq)]
pub enum Kind {
    Node,
    Way,
    Relation,
}

/// A member of a relation: the object of this kind and id, in a role.
#[derive(Drop, Debug)]
pub struct Member {
    pub kind: Kind,
    pub id: i64,
    pub role: Text,
}

/// The members of a relation in order, which contracts see as a list.
#[derive(Debug)]
pub struct Members {
    inner: Vec<Member>,
}

impl Drop for Members {
    fn drop(self) {
        let Members { inner: _inner } = self;
    }
}

impl Model for Members {
    ghost use Rattle.std.specs.Prelude.{List};
    ghost use Rattle.road_base.specs.declared.osm_objects.Member.{Member};

    ghost Value = { List Member };

    ghost view = { λ members. members.inner.items };
}

impl Members {
    /// The list of a `Vec`.
    pub fn of(inner: Vec<Member>) -> Members
        ensures { result ≡ inner.items }
    {
        Members { inner }
    }

    /// The members, in their order.
    pub fn as_slice(&self) -> &[Member]
        ensures { result.now ≡ self.now }
    {
        &self.inner
    }

    /// The list as a `Vec` again.
    pub fn into_vec(self) -> Vec<Member>
        ensures { result.items ≡ self }
    {
        let Members { inner } = self;
        inner
    }
}

/// A node: a point with tags, or only its id and tags where the data gives no location.
#[derive(Drop, Debug)]
pub struct Node {
    pub id: i64,
    pub point: Option<Point>,
    pub tags: Tags,
}

/// A way: a line through nodes, by their ids in order.
#[derive(Drop, Debug)]
pub struct Way {
    pub id: i64,
    pub tags: Tags,
    pub nodes: Ids,
}

/// A relation: other objects in roles, such as a turn restriction.
#[derive(Drop, Debug)]
pub struct Relation {
    pub id: i64,
    pub tags: Tags,
    pub members: Members,
}

/// An object of one of the three kinds.
#[derive(Drop, Debug)]
pub enum Object {
    Node(Node),
    Way(Way),
    Relation(Relation),
}
