//! Small towns, as OPL texts, and what is answered over them. A proof takes time for each exit past a value that holds much,
//! so a function that owns one has a single exit behind it, and answers stand in boxes.

ghost use Rattle.std.specs.Prelude.{◌≡◌, ◌≤◌, All, IfOk};
ghost use Rattle.std.specs.List.Sorted.{IsStrictlyIncreasing};
ghost use Rattle.std.specs.Arc.{arc_value};
ghost use Rattle.snap_index.specs.Ends.{all_ends};

use customized::{Metric, Roads, SERVER_LIMITS};
use edge_graph::Network;
use metric_make::metric;
use metric_publish::{Held, LocalBoard};
use opl_read::read;
use reply_core::{Answer, ReplyFault, answer, line_answer};
use road_base::Object;
use snap_index::Grid;
use std::alloc::{AllocError, Global};
use std::process::Abort;
use std::sync::Arc;
use std::thread::Threads;
use traffic_files::read_speeds;
use way_profile::Profile;

/// The settings of a car that drives 40 km/h in residential streets.
pub(crate) const SETTINGS: &str =
    "name = \"car\"\nvehicle = \"motorcar\"\nu_turn_penalty = 200\n[speeds]\nresidential = 40\n";

const LEFT_SETTINGS: &str =
    "name = \"car\"\nvehicle = \"motorcar\"\nu_turn_penalty = 200\ndriving_side = \"left\"\n[speeds]\nresidential = 40\n";

const BARRED_SETTINGS: &str =
    "name = \"car\"\nvehicle = \"motorcar\"\nbarriers = [\"bollard\"]\nu_turn_penalty = 200\n[speeds]\nresidential = 40\n";

// The settings of a car that may avoid toll roads.
const TOLL_SETTINGS: &str =
    "version = 2\nname = \"car\"\nvehicle = \"motorcar\"\nu_turn_penalty = 200\nexcludable = [[\"toll\"]]\n[speeds]\nresidential = 40\n[classes]\ntoll = [\"toll=yes\"]\n";

// The settings of a car that heeds speed limits and is slow on gravel.
const LIMIT_SETTINGS: &str =
    "version = 2\nname = \"car\"\nvehicle = \"motorcar\"\nu_turn_penalty = 200\nmaxspeed = true\n[speeds]\nresidential = 40\n[surfaces]\ngravel = 500\n";

/// Two streets that meet at a right angle.
pub(crate) const CORNER: Town<'static> = Town {
    map: "n1 x0 y0
n2 x0 y0.001
n3 x0.001 y0.001
w10 Thighway=residential,oneway=no Nn1,n2,n3",
    settings: SETTINGS,
};

// The same streets with a speed limit in miles, on gravel, and both.
const LIMITED: Town<'static> = Town {
    map: "n1 x0 y0
n2 x0 y0.001
n3 x0.001 y0.001
w10 Thighway=residential,oneway=no,maxspeed=30%20%mph Nn1,n2,n3",
    settings: LIMIT_SETTINGS,
};

const GRAVEL: Town<'static> = Town {
    map: "n1 x0 y0
n2 x0 y0.001
n3 x0.001 y0.001
w10 Thighway=residential,oneway=no,surface=gravel Nn1,n2,n3",
    settings: LIMIT_SETTINGS,
};

const LIMITED_GRAVEL_MAP: &str = "n1 x0 y0
n2 x0 y0.001
n3 x0.001 y0.001
w10 Thighway=residential,oneway=no,maxspeed=30%20%mph,surface=gravel Nn1,n2,n3";

const LIMITED_GRAVEL: Town<'static> = Town {
    map: LIMITED_GRAVEL_MAP,
    settings: LIMIT_SETTINGS,
};

// Settings of the first version heed neither.
const UNHEEDED: Town<'static> = Town {
    map: LIMITED_GRAVEL_MAP,
    settings: SETTINGS,
};

/// A block of which two sides are a toll road.
pub(crate) const TOLL: Town<'static> = Town {
    map: "n1 x0 y0
n2 x0.001 y0
n3 x0.001 y0.001
n4 x0 y0.001
w1 Thighway=residential,toll=yes Nn1,n2,n3
w2 Thighway=residential Nn3,n4,n1",
    settings: TOLL_SETTINGS,
};

/// A block that is driven round one way.
pub(crate) const BLOCK: Town<'static> = Town {
    map: "n1 x0 y0
n2 x0.001 y0
n3 x0.001 y0.001
n4 x0 y0.001
w10 Thighway=residential,oneway=yes Nn1,n2,n3,n4,n1",
    settings: SETTINGS,
};

/// The same block, driven both ways.
const SQUARE: Town<'static> = Town {
    map: "n1 x0 y0
n2 x0.001 y0
n3 x0.001 y0.001
n4 x0 y0.001
w10 Thighway=residential,oneway=no Nn1,n2,n3,n4,n1",
    settings: SETTINGS,
};

/// A lane that is driven one way.
pub(crate) const LANE: Town<'static> = Town {
    map: "n1 x0 y0
n2 x0.001 y0
w10 Thighway=residential,oneway=yes Nn1,n2",
    settings: SETTINGS,
};

/// No streets.
pub(crate) const DESERT: Town<'static> = Town {
    map: "",
    settings: SETTINGS,
};

/// Four streets that meet at a crossing, two of which have a name.
pub(crate) const CROSSING: Town<'static> = Town {
    map: CROSSING_MAP,
    settings: SETTINGS,
};

/// The same crossing, where vehicles drive on the left side.
const LEFT_CROSSING: Town<'static> = Town {
    map: CROSSING_MAP,
    settings: LEFT_SETTINGS,
};

const CROSSING_MAP: &str = "n1 x0.001 y0
n2 x0.002 y0.001
n3 x0.001 y0.002
n4 x0 y0.001
n5 x0.001 y0.001
w10 Thighway=residential,oneway=no,name=South Nn1,n5
w11 Thighway=residential,oneway=no Nn5,n2
w12 Thighway=residential,oneway=no Nn5,n3
w13 Thighway=residential,oneway=no,name=West Nn4,n5";

/// Three roads that meet at a barrier. A lane comes to one of them before it, from where the only way on leads to the
/// barrier.
pub(crate) const BARRED: Town<'static> = Town {
    map: "n1 x0.01 y0.009
n2 x0.01 y0.01 Tbarrier=bollard
n3 x0.011 y0.01
n4 x0.009 y0.01
n5 x0.01 y0.0095
n6 x0.011 y0.0095
w10 Thighway=residential,name=A Nn1,n5
w11 Thighway=residential,name=A Nn5,n2
w12 Thighway=residential,name=B Nn2,n3
w13 Thighway=residential,name=C Nn2,n4
w14 Thighway=residential,name=D,oneway=yes Nn6,n5
r1 Ttype=restriction,restriction=no_left_turn Mw14@from,n5@via,w10@to",
    settings: BARRED_SETTINGS,
};

// A roundabout where three streets meet: one from the west, and two to the east.
const ROUNDABOUT: Town<'static> = Town {
    map: "n1 x0 y0
n2 x0.001 y0
n3 x0.001 y0.001
n4 x0 y0.001
n5 x-0.001 y0
n6 x0.002 y0
n7 x0.002 y0.001
w20 Thighway=residential,junction=roundabout Nn1,n2,n3,n4,n1
w21 Thighway=residential Nn5,n1
w22 Thighway=residential Nn2,n6
w23 Thighway=residential Nn3,n7",
    settings: SETTINGS,
};

// The same, where one of the streets only leads to the roundabout.
const JOINED_ROUNDABOUT: Town<'static> = Town {
    map: "n1 x0 y0
n2 x0.001 y0
n3 x0.001 y0.001
n4 x0 y0.001
n5 x-0.001 y0
n6 x0.002 y0
n7 x0.002 y0.001
w20 Thighway=residential,junction=roundabout Nn1,n2,n3,n4,n1
w21 Thighway=residential Nn5,n1
w22 Thighway=residential,oneway=yes Nn6,n2
w23 Thighway=residential Nn3,n7",
    settings: SETTINGS,
};

/// A map, and the settings of the vehicle.
#[derive(Clone, Copy)]
pub(crate) struct Town<'a> {
    pub(crate) map: &'a str,
    pub(crate) settings: &'a str,
}

/// The town of this name.
pub(crate) fn town_named(rt: &impl Abort, name: &str) -> Town<'static> {
    match name {
        "corner" => CORNER,
        "block" => BLOCK,
        "square" => SQUARE,
        "lane" => LANE,
        "desert" => DESERT,
        "crossing" => CROSSING,
        "left crossing" => LEFT_CROSSING,
        "toll" => TOLL,
        "limited" => LIMITED,
        "gravel" => GRAVEL,
        "limited gravel" => LIMITED_GRAVEL,
        "unheeded" => UNHEEDED,
        "roundabout" => ROUNDABOUT,
        "joined roundabout" => JOINED_ROUNDABOUT,
        _ => panic!(rt; "a town"),
    }
}

// The network of these objects under a profile, in a box.
fn boxed_network(
    alloc: Global,
    objects: &[Object],
    profile: &Profile,
) -> Result<Box<Network>, ReplyFault> {
    match Network::build(alloc, objects, profile) {
        Ok(network) => Ok(Box::new(alloc, network)?),
        Err(_) => Err(ReplyFault::Memory),
    }
}

// The network of these objects under these settings.
fn network_under(
    alloc: Global,
    objects: &[Object],
    settings: &str,
) -> Result<Box<Network>, ReplyFault> {
    match Profile::read(alloc, settings.as_bytes()) {
        Ok(profile) => boxed_network(alloc, objects, &profile),
        Err(_) => Err(ReplyFault::Memory),
    }
}

// The network of a town, in a box.
fn network_of(alloc: Global, town: Town<'_>) -> Result<Box<Network>, ReplyFault> {
    match read(alloc, town.map.as_bytes()) {
        Ok(objects) => network_under(alloc, &objects, town.settings),
        Err(_) => Err(ReplyFault::Memory),
    }
}

/// The roads of a town, cut into cells by these limits.
pub(crate) fn roads_of(alloc: Global, town: Town<'_>, limits: &[u32]) -> Result<Roads, ReplyFault>
    requires ascending { IsStrictlyIncreasing limits.now }
    requires some { All (λ limit. 1 ≤ limit) limits.now }
{
    let network = network_of(alloc, town)?;
    Ok(Roads::of(alloc, Box::into_inner(network), limits)?)
}

// A metric, as a board holds it that is opened with it, at this number.
fn held_of(alloc: Global, metric: Arc<Metric>, number: u32) -> Result<Held<Metric>, AllocError>
    ensures { IfOk result (λ held. held.value ≡ arc_value metric) }
{
    let board = LocalBoard::of(alloc, metric, number)?;
    board.enter()
}

// The metric of roads by the settings and the rows of a speeds file, so held.
fn held_on(
    rt: &(impl Threads + Sync),
    alloc: Global,
    roads: &Roads,
    speeds: &[u8],
    number: u32,
) -> Result<Held<Metric>, AllocError>
    ensures { IfOk result (λ held. held.value.road.network ≡ roads.now.network) }
{
    let Ok(rows) = read_speeds(alloc, speeds) else {
        return Err(AllocError);
    };
    let base = metric(alloc, roads.network(), roads.base(), &rows, &[])?;
    let metric = Metric::make(rt, alloc, roads, base)?;
    held_of(alloc, Arc::new(alloc, metric)?, number)
}

// The answer under a metric that is held, in a box.
fn boxed_answer(
    rt: &(impl Threads + Sync),
    alloc: Global,
    held: &Held<Metric>,
    grid: &Grid,
    asked: Asked<'_>,
) -> Result<Box<Answer>, ReplyFault>
    requires { grid.now ≡ all_ends held.now.value.road.network.segments }
{
    let answer = match asked {
        Asked::Target(target) => answer(rt, alloc, held, grid, target.as_bytes())?,
        Asked::Line(line) => line_answer(rt, alloc, held, grid, line)?,
    };
    Ok(Box::new(alloc, answer)?)
}

// The answer over roads, under a metric that is held.
fn answer_on(
    rt: &(impl Threads + Sync),
    alloc: Global,
    roads: &Roads,
    held: &Held<Metric>,
    asked: Asked<'_>,
) -> Result<Box<Answer>, ReplyFault>
    requires { held.now.value.road.network ≡ roads.now.network }
{
    let grid = Grid::of(alloc, roads.network())?;
    boxed_answer(rt, alloc, held, &grid, asked)
}

// The answer over roads, under a metric of this number by the rows of a speeds file.
fn ask_on(
    rt: &(impl Threads + Sync),
    alloc: Global,
    roads: &Roads,
    speeds: &[u8],
    number: u32,
    asked: Asked<'_>,
) -> Result<Box<Answer>, ReplyFault> {
    let held = held_on(rt, alloc, roads, speeds, number)?;
    answer_on(rt, alloc, roads, &held, asked)
}

/// The answer to a target or to a line, under a metric of number 7.
pub(crate) fn ask(
    rt: &(impl Threads + Sync),
    alloc: Global,
    town: Town<'_>,
    asked: Asked<'_>,
) -> Result<Box<Answer>, ReplyFault> {
    ask_at(rt, alloc, town, 7, asked)
}

/// The answer under the metric that a board is opened with, at this number.
pub(crate) fn ask_at(
    rt: &(impl Threads + Sync),
    alloc: Global,
    town: Town<'_>,
    number: u32,
    asked: Asked<'_>,
) -> Result<Box<Answer>, ReplyFault> {
    ask_paying(rt, alloc, town, b"", number, asked)
}

/// The same where the metric is by the rows of a speeds file too.
pub(crate) fn ask_paying(
    rt: &(impl Threads + Sync),
    alloc: Global,
    town: Town<'_>,
    speeds: &[u8],
    number: u32,
    asked: Asked<'_>,
) -> Result<Box<Answer>, ReplyFault> {
    let roads = roads_of(alloc, town, &SERVER_LIMITS)?;
    ask_on(rt, alloc, &roads, speeds, number, asked)
}

/// The answer over a network that is cut into cells by these limits.
pub(crate) fn ask_over(
    rt: &(impl Threads + Sync),
    alloc: Global,
    town: Town<'_>,
    limits: &[u32],
    asked: Asked<'_>,
) -> Result<Box<Answer>, ReplyFault>
    requires ascending { IsStrictlyIncreasing limits.now }
    requires some { All (λ limit. 1 ≤ limit) limits.now }
{
    let roads = roads_of(alloc, town, limits)?;
    ask_on(rt, alloc, &roads, b"", 7, asked)
}

/// What is asked for.
#[derive(Clone, Copy)]
pub(crate) enum Asked<'a> {
    Target(&'a str),
    Line(&'a [u8]),
}
