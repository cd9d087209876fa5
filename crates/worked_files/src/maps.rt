//! Worked texts; expected values are from the OPL manual and this project's rules.

use case_tables::{count, pair};
use opl_read::{ReadFault, read};
use road_base::{Node, Object, Relation, Tags, Way};
use std::alloc::{AllocError, Global};
use std::process::Abort;

const TOWN: &[u8] =
    b"# a town\nn1 v3 dV c7 t2020-01-01T00:00:00Z i1 uA T x0 y0\r\n\tn2 y0.001   x0 \nn3 x0.001 y0.001 Thighway=traffic_signals,name=a=b,name=c\nc5 any\n\nw10 Nn1,n2x0y0.001,n3 Thighway=residential\nn4 dD Ta=b\nn4 x-1.0000005 y\nn5 x-1.0000005 y0";

const TOWN_TOLD: &str = "node 1 0,0
node 2 0,1000
node 3 1000,1000 highway=traffic_signals name=a=b
way 10 1 2 3 highway=residential
node 4 nowhere
node 5 -1000001,0
";

// What reading a text tells of its objects, a line each: its kind and id, where a node lies, the nodes of a way or the
// members of a relation, and the tags of these keys, which a semicolon stands between.
fn objects_told(
    rt: &impl Abort,
    alloc: Global,
    text: &[u8],
    keys: &str,
) -> Result<String, AllocError> {
    match read(alloc, text) {
        Ok(objects) => lines_of(alloc, &objects, keys),
        Err(_fault) => panic!(rt; "a good text"),
    }
}

fn lines_of(alloc: Global, objects: &[Object], keys: &str) -> Result<String, AllocError> {
    let mut told = String::new(alloc);
    push_objects(alloc, &mut told, objects, keys)?;
    Ok(told)
}

fn push_objects(
    alloc: Global,
    told: &mut String,
    objects: &[Object],
    keys: &str,
) -> Result<(), AllocError> {
    for object in objects {
        push_object(alloc, told, object, keys)?;
        told.push_str("\n")?;
    }
    Ok(())
}

fn push_object(
    alloc: Global,
    told: &mut String,
    object: &Object,
    keys: &str,
) -> Result<(), AllocError> {
    match object {
        Object::Node(node) => {
            push_node(alloc, told, node)?;
            push_tags(told, &node.tags, keys)
        }
        Object::Way(way) => {
            push_way(alloc, told, way)?;
            push_tags(told, &way.tags, keys)
        }
        Object::Relation(relation) => {
            push_relation(alloc, told, relation)?;
            push_tags(told, &relation.tags, keys)
        }
    }
}

fn push_node(alloc: Global, told: &mut String, node: &Node) -> Result<(), AllocError> {
    let text = match node.point {
        Some(point) => format!(in alloc; "node {} {},{}", node.id, point.lon, point.lat),
        None => format!(in alloc; "node {} nowhere", node.id),
    };
    told.push_str(text?.as_str())
}

fn push_way(alloc: Global, told: &mut String, way: &Way) -> Result<(), AllocError> {
    told.push_str(format!(in alloc; "way {}", way.id)?.as_str())?;
    for id in way.nodes.as_slice() {
        told.push_str(format!(in alloc; " {id}")?.as_str())?;
    }
    Ok(())
}

fn push_relation(alloc: Global, told: &mut String, relation: &Relation) -> Result<(), AllocError> {
    told.push_str(format!(in alloc; "relation {}", relation.id)?.as_str())?;
    for member in relation.members.as_slice() {
        let role = member.role.as_str();
        let text = format!(in alloc; " {:?} {} [{role}]", member.kind, member.id)?;
        told.push_str(text.as_str())?;
    }
    Ok(())
}

fn push_tags(told: &mut String, tags: &Tags, keys: &str) -> Result<(), AllocError> {
    for key in keys.split(';') {
        if let Some(value) = tags.get(key) {
            told.push_str(" ")?;
            told.push_str(key)?;
            told.push_str("=")?;
            told.push_str(value)?;
        }
    }
    Ok(())
}

#[test]
fn a_town_of_five_nodes_and_a_way(rt: HostRuntime) -> Result<(), AllocError> {
    let told = objects_told(&rt, rt.alloc(), TOWN, "highway;name")?;
    assert_eq!(rt; told.as_str(), TOWN_TOLD);
    Ok(())
}

const ESCAPES: &[u8] = b"n1 Ta%20%b=c%e4%,six=%01f600%,upper=%1F600%,both=%25%%3d%,bare=";

const ESCAPES_TOLD: &str =
    "node 1 nowhere a b=c\u{e4} six=\u{1f600} upper=\u{1f600} both=%= bare=\n";

#[test]
fn escapes_stand_for_characters(rt: HostRuntime) -> Result<(), AllocError> {
    let told = objects_told(&rt, rt.alloc(), ESCAPES, "a b;six;upper;both;bare")?;
    assert_eq!(rt; told.as_str(), ESCAPES_TOLD);
    Ok(())
}

const RELATIONS: &[u8] =
    b"r5 Mn-1@,w10@from%2c%to,r7@a@b Ttype=restriction,note=a%2C%b\nr6 M\nr5 dD\n";

const RELATIONS_TOLD: &str =
    "relation 5 Node -1 [] Way 10 [from,to] Relation 7 [a@b] type=restriction note=a,b
relation 6
";

#[test]
fn a_relation_has_members_in_roles(rt: HostRuntime) -> Result<(), AllocError> {
    let told = objects_told(&rt, rt.alloc(), RELATIONS, "type;note")?;
    assert_eq!(rt; told.as_str(), RELATIONS_TOLD);
    Ok(())
}

// Texts, each with what reading it tells: how many objects there are, or the line and the fault of the first faulty one.
const TEXTS: &[u8] = b"|0$\
x1|1 BadKind$\
\x20#x|1 BadKind$\
n9223372036854775808|1 BadNumber$\
n x0|1 BadNumber$\
n1 x180.0000005 y0|1 BadNumber$\
n1 x0 y-90.0000005|1 BadNumber$\
n1 x1e5 y0|1 BadField$\
n1 x0 x1|1 BadField$\
w1 x0|1 BadField$\
n1 Nn1|1 BadField$\
w1 Na1|1 BadField$\
w1 Nn1y2|1 BadNumber$\
w1 Nn1,|1 BadField$\
n1 dX|1 BadField$\
n1 Mw1@|1 BadField$\
n1 T%|1 BadField$\
n1 Ta=%zz%|1 BadEscape$\
n1 Ta=%d800%|1 BadEscape$\
n1 Ta=%41|1 BadEscape$\
n1 Ta=%0000041%|1 BadEscape$\
n1 Ta=%%|1 BadEscape$\
n1 Ta=%110000%|1 BadEscape$\
n1 Ta=%10ffff%|1$\
n1 Ta=%+41%|1 BadEscape$\
n1 Ta%20%b=c%e4%|1$\
n1 Ta%20=c|1 BadEscape$\
n1 Ta=%41%%|1 BadEscape$\
n1 Ta=%,b x1e5|1 BadEscape$\
n1 Tb,a=% x1e5|1 BadField$\
n1\nn1|2 Duplicate$\
n2\nn1\nn2|3 Duplicate$\
n2\nn1\nn3\nn1|4 Duplicate$\
n3\nn1\nn2\nw1\nw-2|5$\
n1\nn1 Tb|2 BadField$\
n1 dD\nn1|1$\
#\xff|1 NotUtf8$\
n1 dD\nn1\nw1\n#\nn1\nx\n|5 Duplicate$\
c\xff|1 NotUtf8$\
r1 T\xff|1 NotUtf8$\
r|1 BadNumber$\
r1 Mn1|1 BadField$\
r1 Mx1@a|1 BadField$\
r1 Mn@a|1 BadNumber$\
r1 Mnx@%zz%|1 BadNumber$\
r1 M@%zz%|1 BadField$\
r1 Mn1@a,|1 BadField$\
r1 Mn1@% dX|1 BadEscape$\
r1 Nn1|1 BadField$\
r1 x0|1 BadField$\
r1 M M|1 BadField$\
w1 Mn1@|1 BadField$\
r1 Mn1@%zz%|1 BadEscape$\
r1 Mn1@|1$\
r1 M|1$\
r1 dD Mn1|1 BadField$\
r1\nr1|2 Duplicate$\
r1 dD\nr1\nn1\nw1\nr1\n|5 Duplicate$\
r1\nr1 T%|2 BadField";

// What reading a text tells, as the table has it.
fn told(alloc: Global, text: &[u8]) -> Result<String, AllocError> {
    match read(alloc, text) {
        Ok(objects) => format!(in alloc; "{}", objects.len()),
        Err(ReadFault::Line(fault)) => format!(in alloc; "{} {:?}", fault.line, fault.kind),
        Err(ReadFault::Memory) => Err(AllocError),
    }
}

#[test]
fn the_first_fault_of_a_text_is_told(rt: HostRuntime) -> Result<(), AllocError> {
    for number in 0..count(TEXTS) {
        let (text, want) = pair(TEXTS, number).expect(&rt, "a row of two");
        assert_eq!(rt; told(rt.alloc(), text)?.as_bytes(), want, "row {number}");
    }
    Ok(())
}
