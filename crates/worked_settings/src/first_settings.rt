//! Worked settings and ways; expected values are from this project's rules.

use case_tables::{count, pair};
use road_base::{Modifier, Tags};
use std::alloc::{AllocError, Global};
use std::process::Abort;
use way_profile::{Profile, SettingsFault};

const CAR: &str =
    "name = \"car\"\nvehicle = \"motorcar\"\naccess_keys = [\"motor_vehicle\", \"access\"]\n\
denied = [\"no\", \"private\"]\nbarriers = [\"bollard\", \"gate\"]\nu_turn_penalty = 200\nsignal_penalty = 25\n\
driving_side = \"left\"\n[speeds]\nresidential = 40\nmotorway = 130\n[turn_penalty]\nstraight = 1\n\
slight_right = 2\nright = 3\nsharp_right = 4\nuturn = 5\nsharp_left = 6\nleft = 7\nslight_left = 8\n";

// What reading these settings tells: `Ok`, or the fault and its key.
fn told(alloc: Global, settings: &[u8]) -> Result<String, AllocError> {
    match Profile::read(alloc, settings) {
        Ok(_) => format!(in alloc; "Ok"),
        Err(SettingsFault::NotToml) => format!(in alloc; "NotToml"),
        Err(SettingsFault::UnknownKey(key)) => format!(in alloc; "UnknownKey {}", key.as_str()),
        Err(SettingsFault::Missing(key)) => format!(in alloc; "Missing {}", key.as_str()),
        Err(SettingsFault::BadValue(key)) => format!(in alloc; "BadValue {}", key.as_str()),
        Err(SettingsFault::Memory) => Err(AllocError),
    }
}

// Settings, each with what reading them tells.
const SETTINGS: &[u8] = b"|Missing name$\
name = \"car\"\nvehicle = \"motorcar\"\n|Missing speeds$\
\xff|NotToml$\
name = |NotToml$\
colour = 1\n|UnknownKey colour$\
[turn_penalty]\nup = 1\n|UnknownKey turn_penalty.up$\
zoom = 1\ncolour = 1\n|UnknownKey colour$\
name = 5\nvehicle = \"a\"\n[speeds]\n|BadValue name$\
name = \"\"\nvehicle = \"a\"\n[speeds]\n|BadValue name$\
version = 3\nname = 5\nvehicle = \"a\"\n[speeds]\n|BadValue version$\
name = \"a\"\nvehicle = \"a\"\nspeeds = 3\n|BadValue speeds$\
name = \"a\"\nweight_name = 1\n|Missing vehicle$\
name = \"a\"\nvehicle = \"\"\nweight_name = 1\n[speeds]\n|BadValue vehicle$\
name = \"a\"\nvehicle = \"a\"\nweight_name = 1\nspeeds = 3\n|BadValue weight_name$\
name = \"a\"\nvehicle = \"a\"\n[speeds]\nresidential = 0\n|BadValue speeds.residential$\
name = \"a\"\nvehicle = \"a\"\naccess_keys = 1\n[speeds]\nprimary = true\n|BadValue speeds.primary$\
name = \"a\"\nvehicle = \"a\"\n[speeds]\nresidential = 0\nprimary = 1001\n|BadValue speeds.primary$\
name = \"a\"\nvehicle = \"a\"\n[speeds]\nresidential = 1\nprimary = 1000\n|Ok$\
name = \"a\"\nvehicle = \"a\"\nu_turn_penalty = 1000001\n[speeds]\n|BadValue u_turn_penalty";

#[test]
fn the_first_fault_of_settings_is_told(rt: HostRuntime) -> Result<(), AllocError> {
    assert_eq!(rt; told(rt.alloc(), CAR.as_bytes())?.as_str(), "Ok");
    for number in 0..count(SETTINGS) {
        let (settings, want) = pair(SETTINGS, number).expect(&rt, "a row of two");
        assert_eq!(rt;
            told(rt.alloc(), settings)?.as_bytes(),
            want,
            "row {number}"
        );
    }
    Ok(())
}

// Lines of settings that may be left out, each with what reading them among the others tells.
const OPTIONAL_SETTINGS: &[u8] = b"|Ok$\
weight_name = \"duration\"|Ok$\
weight_name = \"distance\"|Ok$\
weight_name = \"Distance\"|BadValue weight_name$\
weight_name = \"routability\"|BadValue weight_name$\
weight_name = \"\"|BadValue weight_name$\
weight_name = true|BadValue weight_name$\
weight_name = [\"distance\"]|BadValue weight_name$\
access_keys = 1\nweight_name = \"speed\"|BadValue weight_name$\
weight_names = 1\nweight_name = 1|UnknownKey weight_names$\
access_keys = [\"motorcar\"]\ndenied = []|Ok$\
access_keys = \"access\"|BadValue access_keys$\
denied = 1\naccess_keys = [1]|BadValue access_keys$\
barriers = 1\ndenied = [\"no\", 1]|BadValue denied$\
turn_penalty = 5\nbarriers = true|BadValue barriers$\
u_turn_penalty = -1\nturn_penalty = 5|BadValue turn_penalty$\
turn_penalty = { up = 1 }|UnknownKey turn_penalty.up$\
turn_penalty = { up = 1, left = -1 }|UnknownKey turn_penalty.up$\
turn_penalty = { up = 1 }\nzoom = 1|UnknownKey zoom$\
turn_penalty = { right = 1000001, left = -1 }|BadValue turn_penalty.left$\
turn_penalty = { right = 1000001, left = 0 }|BadValue turn_penalty.right$\
turn_penalty = { right = 1000000, left = 0 }|Ok$\
signal_penalty = 1\nu_turn_penalty = \"a\"|BadValue u_turn_penalty$\
driving_side = 1\nsignal_penalty = 0.5|BadValue signal_penalty$\
signal_penalty = 1000001|BadValue signal_penalty$\
signal_penalty = 1000000\ndriving_side = \"right\"|Ok$\
driving_side = \"left\"|Ok$\
driving_side = \"Left\"|BadValue driving_side$\
driving_side = true|BadValue driving_side$\
version = 1|Ok";

// Settings with these lines.
fn settings_with(alloc: Global, lines: &[u8]) -> Result<Vec<u8>, AllocError> {
    let mut settings = Vec::from_slice(alloc, b"name = \"a\"\nvehicle = \"a\"\n")?;
    settings.extend_from_slice(lines)?;
    settings.extend_from_slice(b"\n[speeds]\n")?;
    Ok(settings)
}

// What reading settings with these lines tells.
pub(crate) fn told_with(alloc: Global, lines: &[u8]) -> Result<String, AllocError> {
    let settings = settings_with(alloc, lines)?;
    told(alloc, &settings)
}

#[test]
fn the_first_fault_of_optional_settings_is_told(rt: HostRuntime) -> Result<(), AllocError> {
    for number in 0..count(OPTIONAL_SETTINGS) {
        let (lines, want) = pair(OPTIONAL_SETTINGS, number).expect(&rt, "a row of two");
        assert_eq!(rt;
            told_with(rt.alloc(), lines)?.as_bytes(),
            want,
            "row {number}"
        );
    }
    Ok(())
}

// A copy of the car's profile.
fn car(rt: &impl Abort, alloc: Global) -> Result<Profile, AllocError> {
    match Profile::read(alloc, CAR.as_bytes()) {
        Ok(read) => read.try_clone(alloc),
        Err(_fault) => panic!(rt; "good settings"),
    }
}

fn assert_answers(rt: &impl Abort, profile: &Profile) {
    assert_eq!(rt; profile.name(), "car");
    assert_eq!(rt; profile.vehicle(), "motorcar");
    assert!(rt; profile.barrier("gate"));
    assert!(rt; !profile.barrier("stile"));
    assert_eq!(rt; profile.u_turn(), 200);
    assert_eq!(rt; profile.signal(), 25);
    assert!(rt; profile.left_side());
}

#[test]
fn each_setting_has_its_answer(rt: HostRuntime) -> Result<(), AllocError> {
    let profile = car(&rt, rt.alloc())?;
    assert_answers(&rt, &profile);
    Ok(())
}

// Lines of settings, each with whether a road weighs its length, by the profile and by its copy.
const WEIGHT_NAMES: &[u8] = b"|false false$\
weight_name = \"duration\"|false false$\
weight_name = \"distance\"|true true$\
version = 1\nweight_name = \"distance\"|true true$\
version = 2\nweight_name = \"duration\"|false false$\
version = 2\nweight_name = \"distance\"|true true";

// What the profile of settings with these lines, and its copy, say of the weight of a road.
fn weight_told(rt: &impl Abort, alloc: Global, lines: &[u8]) -> Result<String, AllocError> {
    match Profile::read(alloc, &settings_with(alloc, lines)?) {
        Ok(read) => {
            let copy = read.try_clone(alloc)?;
            format!(in alloc; "{} {}", read.by_distance(), copy.by_distance())
        }
        Err(_fault) => panic!(rt; "good settings"),
    }
}

#[test]
fn roads_weigh_their_length_only_where_settings_say_so(rt: HostRuntime) -> Result<(), AllocError> {
    for number in 0..count(WEIGHT_NAMES) {
        let (lines, want) = pair(WEIGHT_NAMES, number).expect(&rt, "a row of two");
        assert_eq!(rt;
            weight_told(&rt, rt.alloc(), lines)?.as_bytes(),
            want,
            "row {number}"
        );
    }
    Ok(())
}

// The modifiers, each with its penalty in the car's settings.
const PENALTIES: &str = "straight 1
slight_right 2
right 3
sharp_right 4
uturn 5
sharp_left 6
left 7
slight_left 8";

// The modifier of this name.
fn modifier(rt: &impl Abort, name: &str) -> Modifier {
    match name {
        "straight" => Modifier::Straight,
        "slight_right" => Modifier::SlightRight,
        "right" => Modifier::Right,
        "sharp_right" => Modifier::SharpRight,
        "uturn" => Modifier::Uturn,
        "sharp_left" => Modifier::SharpLeft,
        "left" => Modifier::Left,
        "slight_left" => Modifier::SlightLeft,
        _ => panic!(rt; "a modifier"),
    }
}

fn assert_penalties(rt: &impl Abort, alloc: Global, profile: &Profile) -> Result<(), AllocError> {
    for row in PENALTIES.split('\n') {
        let mut parts = row.split(' ');
        let (Some(name), Some(want)) = (parts.next(), parts.next()) else {
            panic!(rt; "a row of two");
        };
        let told = format!(in alloc; "{}", profile.penalty(modifier(rt, name)))?;
        assert_eq!(rt; told.as_str(), want, "{name}");
    }
    Ok(())
}

#[test]
fn each_modifier_has_its_penalty(rt: HostRuntime) -> Result<(), AllocError> {
    let profile = car(&rt, rt.alloc())?;
    assert_penalties(&rt, rt.alloc(), &profile)
}

// Tags, with a semicolon between each two, and how a way with them is used: forward, backward, its speed in metres an hour,
// and whether it is a roundabout.
const WAYS: &str = "highway=residential|true true 40000
highway=footway|false false 0
name=Main Street|false false 0
highway=residential;oneway=yes|true false 40000
oneway=-1;highway=residential|false true 40000
highway=motorway|true false 130000
highway=motorway;oneway=no|true true 130000
highway=residential;junction=roundabout;oneway=maybe|true false 40000 round
highway=residential;junction=roundabout;oneway=no|true true 40000 round
highway=residential;junction=circular|true true 40000
highway=footway;junction=roundabout|false false 0
highway=motorway;oneway=reverse|false true 130000
highway=residential;access=no|false false 0
highway=residential;access=destination|true true 40000
access=no;highway=residential;motor_vehicle=yes|true true 40000
access=yes;highway=residential;motor_vehicle=private|false false 0";

// The tags of a text.
pub(crate) fn tags(rt: &impl Abort, alloc: Global, text: &str) -> Result<Tags, AllocError> {
    let mut tags = Tags::new(alloc);
    for tag in text.split(';') {
        let mut parts = tag.split('=');
        match (parts.next(), parts.next()) {
            (Some(key), Some(value)) => tags = tags.with(key, value)?,
            _ => panic!(rt; "a tag"),
        }
    }
    Ok(tags)
}

// How a way with these tags is used.
pub(crate) fn use_told(
    rt: &impl Abort,
    alloc: Global,
    profile: &Profile,
    pairs: &str,
) -> Result<String, AllocError> {
    let found = profile.way(&tags(rt, alloc, pairs)?);
    let kind = if found.round { " round" } else { "" };
    format!(in alloc;
        "{} {} {}{kind}",
        found.forward, found.backward, found.speed
    )
}

fn assert_used(rt: &impl Abort, alloc: Global, profile: &Profile) -> Result<(), AllocError> {
    for row in WAYS.split('\n') {
        let mut parts = row.split('|');
        match (parts.next(), parts.next()) {
            (Some(pairs), Some(wanted)) => {
                let told = use_told(rt, alloc, profile, pairs)?;
                assert_eq!(rt; told.as_str(), wanted);
            }
            _ => panic!(rt; "a row of two"),
        }
    }
    Ok(())
}

#[test]
fn ways_are_used_by_their_tags(rt: HostRuntime) -> Result<(), AllocError> {
    match Profile::read(rt.alloc(), CAR.as_bytes()) {
        Ok(profile) => assert_used(&rt, rt.alloc(), &profile),
        Err(_fault) => panic!(rt; "good settings"),
    }
}
