//! Points, tags, objects and statuses. What no clause says: that the calls succeed, and that the clauses say what was
//! meant.

use road_base::{
    Ids, Kind, Member, Members, Node, Object, Point, Relation, Status, Tags, Text, Way,
};
use std::alloc::{AllocError, Global};
use std::process::Abort;

// The whole number that a text is.
fn number(rt: &impl Abort, text: Option<&str>) -> i64 {
    let Some(text) = text else {
        panic!(rt; "a text");
    };
    let Ok(number) = text.parse::<i64>() else {
        panic!(rt; "a number");
    };
    number
}

// Longitudes and latitudes in microdegrees, each two with whether there is such a point. A table is one text, since a
// proof takes time for each value of a list.
const PLACES: &str = "0 0 true
180000000 90000000 true
-180000000 -90000000 true
180000001 0 false
-180000001 0 false
0 90000001 false
0 -90000001 false";

// A longitude and a latitude, and whether there is such a point.
fn place_told(rt: &impl Abort, alloc: Global, place: &str) -> Result<String, AllocError> {
    let mut parts = place.split(' ');
    let lon = number(rt, parts.next());
    let lat = number(rt, parts.next());
    let there = Point::of(lon, lat).is_some();
    format!(in alloc; "{lon} {lat} {there}")
}

#[test]
fn points_reach_as_far_as_the_earth(rt: HostRuntime) -> Result<(), AllocError> {
    for row in PLACES.split('\n') {
        assert_eq!(rt; place_told(&rt, rt.alloc(), row)?.as_str(), row);
    }
    let Some(point) = Point::of(-1_000_001, 52_516_275) else {
        panic!(rt; "in range");
    };
    assert_eq!(rt; point.lon, -1_000_001);
    assert_eq!(rt; point.lat, 52_516_275);
    Ok(())
}

fn street(alloc: Global) -> Result<Tags, AllocError> {
    Tags::with_capacity(alloc, 48)?
        .with("name", "Main Street")?
        .with("highway", "residential")?
        .with("name", "B 96")?
        .with("empty", "")
}

fn assert_street(rt: &impl Abort, tags: &Tags) {
    assert_eq!(rt; tags.get("name"), Some("Main Street"));
    assert_eq!(rt; tags.get("highway"), Some("residential"));
    assert_eq!(rt; tags.get("Name"), None);
    assert_eq!(rt; tags.get(""), None);
    assert_eq!(rt; tags.get("empty"), Some(""));
}

#[test]
fn the_first_of_two_equal_keys_counts(rt: HostRuntime) -> Result<(), AllocError> {
    assert_street(&rt, &street(rt.alloc())?);
    Ok(())
}

fn way(rt: &impl Abort, alloc: Global) -> Result<Object, AllocError> {
    let nodes = Ids::of(vec![in alloc; 7_i64, -8]?);
    assert_eq!(rt; nodes.as_slice(), [7, -8].as_slice());
    Ok(Object::Way(Way {
        id: 10,
        tags: Tags::new(alloc),
        nodes,
    }))
}

fn members(rt: &impl Abort, alloc: Global) -> Result<Members, AllocError> {
    let role = Text::copy_of(alloc, "via")?;
    assert_eq!(rt; role.as_bytes(), b"via".as_slice());
    let members = Members::of(vec![in alloc;
        Member {
            kind: Kind::Node,
            id: 5,
            role
        },
    ]?);
    assert_eq!(rt; members.as_slice().len(), 1);
    Ok(members)
}

fn relation(rt: &impl Abort, alloc: Global) -> Result<Object, AllocError> {
    let members = members(rt, alloc)?;
    Ok(Object::Relation(Relation {
        id: 1,
        tags: Tags::new(alloc),
        members,
    }))
}

fn assert_member(rt: &impl Abort, member: Member) {
    assert_eq!(rt; member.kind, Kind::Node);
    assert_eq!(rt; Text::of(member.role.into_string()).as_str(), "via");
}

fn assert_held(rt: &impl Abort, object: Object) {
    match object {
        Object::Node(node) => assert_eq!(rt; node.point, Point::of(1, 2)),
        Object::Way(way) => assert_eq!(rt; way.nodes.into_vec().len(), 2),
        Object::Relation(relation) => {
            for member in relation.members.into_vec() {
                assert_member(rt, member);
            }
        }
    }
}

#[test]
fn an_object_holds_what_it_was_made_of(rt: HostRuntime) -> Result<(), AllocError> {
    let node = Node {
        id: 5,
        point: Point::of(1, 2),
        tags: Tags::new(rt.alloc()),
    };
    assert_held(&rt, Object::Node(node));
    assert_held(&rt, way(&rt, rt.alloc())?);
    assert_held(&rt, relation(&rt, rt.alloc())?);
    Ok(())
}

#[test]
fn each_status_has_its_number(rt: HostRuntime) {
    assert_eq!(rt; Status::Ok.exit_code(), 0);
    assert_eq!(rt; Status::Outside.exit_code(), 1);
    assert_eq!(rt; Status::Words.exit_code(), 2);
    assert_eq!(rt; Status::Refused.exit_code(), 3);
    assert_eq!(rt; Status::Memory.exit_code(), 4);
}
