//! Worked settings of version 2 and ways under them; expected values are from this project's rules.

use crate::first_settings::{tags, told_with, use_told};
use case_tables::{count, pair};
use road_base::Words;
use std::alloc::{AllocError, Global};
use std::process::Abort;
use way_profile::Profile;

// Lines of settings, each with what reading them tells.
const VERSIONS: &[u8] = b"version = 2|Ok$\
version = 3|BadValue version$\
version = 0|BadValue version$\
version = \"2\"|BadValue version$\
version = 2.0|BadValue version$\
maxspeed = true|UnknownKey maxspeed$\
version = 1\nsurfaces = {}|UnknownKey surfaces$\
version = 1\nclasses = {}|UnknownKey classes$\
version = 1\nexcludable = []|UnknownKey excludable$\
version = 3\nmaxspeed = 1|UnknownKey maxspeed$\
version = 3\nweight_name = 1|BadValue version$\
version = \"2\"\nmaxspeed = true|UnknownKey maxspeed$\
version = 2.0\nmaxspeed = true|UnknownKey maxspeed$\
surfaces = 1\nmaxspeed = 1\nexcludable = 1\nclasses = 1|UnknownKey classes$\
version = 2\nzoom = 1\nmaxspeed = 1|UnknownKey zoom$\
version = 2\nmaxspeeds = true|UnknownKey maxspeeds$\
version = 2\nmaxspeed = 1\nturn_penalty = { up = 1 }|UnknownKey turn_penalty.up";

// Lines of settings of version 2, each with what reading them tells.
const SECOND_SETTINGS: &[u8] = b"maxspeed = true|Ok$\
weight_name = \"distance\"|Ok$\
maxspeed = 1\nweight_name = \"Duration\"|BadValue weight_name$\
maxspeed = false|Ok$\
maxspeed = 1|BadValue maxspeed$\
maxspeed = \"true\"|BadValue maxspeed$\
maxspeed = 1\ndriving_side = \"up\"|BadValue driving_side$\
surfaces = 1\nmaxspeed = 1|BadValue maxspeed$\
surfaces = 1|BadValue surfaces$\
surfaces = {}|Ok$\
surfaces = { gravel = 1, mud = 1000 }|Ok$\
surfaces = { gravel = 0 }|BadValue surfaces.gravel$\
surfaces = { mud = 1001, gravel = 1001 }|BadValue surfaces.gravel$\
surfaces = { gravel = 5, mud = 0.5 }|BadValue surfaces.mud$\
classes = 1\nsurfaces = { mud = 0 }|BadValue surfaces.mud$\
classes = 1|BadValue classes$\
classes = []|BadValue classes$\
classes = {}|Ok$\
classes = { a = [], b = [], c = [], d = [], e = [], f = [], g = [], h = [] }|Ok$\
classes = { a = [], b = [], c = [], d = [], e = [], f = [], g = [], h = [], i = [] }|BadValue classes$\
classes = { A = 1, b = [], c = [], d = [], e = [], f = [], g = [], h = [], i = [] }|BadValue classes$\
classes = { toll_2 = [\"toll=yes\", \"a=b=c\", \"=\"] }|Ok$\
classes = { toll = \"toll=yes\" }|BadValue classes.toll$\
classes = { toll = [1] }|BadValue classes.toll$\
classes = { toll = [\"toll\"] }|BadValue classes.toll$\
classes = { toll = [\"toll=yes\", \"\"] }|BadValue classes.toll$\
classes = { toll = [[\"toll=yes\"]] }|BadValue classes.toll$\
classes = { Toll = [] }|BadValue classes.Toll$\
classes = { \"\" = [] }|BadValue classes.$\
classes = { \"to ll\" = [] }|BadValue classes.to ll$\
classes = { b = 1, a-b = [], c = [] }|BadValue classes.a-b$\
excludable = 1\nclasses = { toll = 1 }|BadValue classes.toll$\
excludable = 1|BadValue excludable$\
excludable = {}|BadValue excludable$\
excludable = []|Ok$\
excludable = [[\"toll\"]]|BadValue excludable$\
excludable = [[]]|BadValue excludable$\
classes = { toll = [], ferry = [] }\nexcludable = [[\"toll\"], [\"ferry\", \"toll\"], [\"toll\", \"toll\"]]|Ok$\
classes = { toll = [], ferry = [] }\nexcludable = [\"toll\"]|BadValue excludable$\
classes = { toll = [], ferry = [] }\nexcludable = [[\"toll\"], []]|BadValue excludable$\
classes = { toll = [], ferry = [] }\nexcludable = [[\"toll\", \"tolls\"]]|BadValue excludable$\
classes = { toll = [], ferry = [] }\nexcludable = [[\"toll\", 1]]|BadValue excludable$\
classes = { toll = [], ferry = [] }\nexcludable = [[\"toll\"], [\"toll\"], [\"toll\"], [\"toll\"], [\"toll\"], [\"toll\"], [\"toll\"]]|Ok$\
classes = { toll = [], ferry = [] }\nexcludable = [[\"toll\"], [\"toll\"], [\"toll\"], [\"toll\"], [\"toll\"], [\"toll\"], [\"toll\"], [\"toll\"]]|BadValue excludable";

#[test]
fn version_2_has_keys_of_its_own(rt: HostRuntime) -> Result<(), AllocError> {
    for number in 0..count(VERSIONS) {
        let (lines, want) = pair(VERSIONS, number).expect(&rt, "a row of two");
        assert_eq!(rt;
            told_with(rt.alloc(), lines)?.as_bytes(),
            want,
            "row {number}"
        );
    }
    Ok(())
}

// What reading settings of version 2 with these lines tells.
fn told_of_second(alloc: Global, lines: &[u8]) -> Result<String, AllocError> {
    let mut settings = Vec::from_slice(alloc, b"version = 2\n")?;
    settings.extend_from_slice(lines)?;
    told_with(alloc, &settings)
}

#[test]
fn the_first_fault_of_settings_of_version_2_is_told(rt: HostRuntime) -> Result<(), AllocError> {
    for number in 0..count(SECOND_SETTINGS) {
        let (lines, want) = pair(SECOND_SETTINGS, number).expect(&rt, "a row of two");
        assert_eq!(rt;
            told_of_second(rt.alloc(), lines)?.as_bytes(),
            want,
            "row {number}"
        );
    }
    Ok(())
}

// A car that heeds limits, surfaces and classes.
const CAR: &str =
    "version = 2\nname = \"car\"\nvehicle = \"motorcar\"\naccess_keys = [\"access\"]\ndenied = [\"no\"]\nmaxspeed = true\nexcludable = [[\"toll\"], [\"toll\", \"fast\"]]\n[speeds]\nresidential = 40\nmotorway = 130\n[surfaces]\ngravel = 500\nmud = 1\nasphalt = 1000\n[classes]\ntoll = [\"toll=yes\", \"barrier=toll_booth\", \"note=a=b\"]\nfast = [\"highway=motorway\"]\nnone = []\n";

// A copy of the car's profile.
fn car(rt: &impl Abort, alloc: Global) -> Result<Profile, AllocError> {
    match Profile::read(alloc, CAR.as_bytes()) {
        Ok(read) => read.try_clone(alloc),
        Err(_fault) => panic!(rt; "good settings"),
    }
}

// Tags, with a semicolon between each two, and how a way with them is used: forward, backward, and its speed in metres an hour.
const SPEEDS: &str = "highway=residential;maxspeed=30 mph|true true 48280
highway=residential;surface=gravel|true true 20000
surface=gravel;maxspeed=30 mph;highway=residential|true true 24140
highway=residential;surface=asphalt|true true 40000
highway=residential;surface=mud|true true 1000
highway=residential;surface=mud;maxspeed=999|true true 1000
highway=residential;surface=grass|true true 40000
highway=residential;maxspeed=50|true true 50000
highway=residential;maxspeed=1|true true 1000
highway=residential;maxspeed=030|true true 30000
highway=residential;maxspeed=999|true true 999000
highway=residential;maxspeed=0|true true 40000
highway=residential;maxspeed=0050|true true 40000
highway=residential;maxspeed=1000|true true 40000
highway=residential;maxspeed=0 mph|true true 40000
highway=residential;maxspeed=1 mph|true true 1609
highway=residential;maxspeed=621 mph|true true 999402
highway=residential;maxspeed=622 mph|true true 40000
highway=residential;maxspeed=30mph|true true 40000
highway=residential;maxspeed=30  mph|true true 40000
highway=residential;maxspeed=30 mph |true true 40000
highway=residential;maxspeed=30 MPH|true true 40000
highway=residential;maxspeed= mph|true true 40000
highway=residential;maxspeed=30 |true true 40000
highway=residential;maxspeed=30 kmh|true true 40000
highway=residential;maxspeed=+30|true true 40000
highway=residential;maxspeed=-30|true true 40000
highway=residential;maxspeed=|true true 40000
highway=residential;maxspeed=signals|true true 40000
highway=motorway;maxspeed=100;surface=gravel|true false 50000
highway=motorway;maxspeed=100;oneway=-1|false true 100000
highway=footway;maxspeed=50;surface=gravel|false false 0
maxspeed=50|false false 0
highway=residential;maxspeed=50;access=no|false false 0";

#[test]
fn limits_and_surfaces_change_the_speed(rt: HostRuntime) -> Result<(), AllocError> {
    let profile = car(&rt, rt.alloc())?;
    assert_used(&rt, rt.alloc(), &profile, SPEEDS)
}

// Asserts that ways are used as a table says.
fn assert_used(
    rt: &impl Abort,
    alloc: Global,
    profile: &Profile,
    table: &str,
) -> Result<(), AllocError> {
    for row in table.split('\n') {
        let Some((pairs, want)) = row.split_once('|') else {
            panic!(rt; "a row of two");
        };
        assert_eq!(rt;
            use_told(rt, alloc, profile, pairs)?.as_str(),
            want,
            "{pairs}"
        );
    }
    Ok(())
}

// Settings that don't say so heed neither limits nor surfaces.
const PLAIN: &str =
    "version = 2\nname = \"car\"\nvehicle = \"motorcar\"\n[speeds]\nresidential = 40\n";

#[test]
fn limits_and_surfaces_count_only_where_settings_say_so(rt: HostRuntime) -> Result<(), AllocError> {
    match Profile::read(rt.alloc(), PLAIN.as_bytes()) {
        Ok(profile) => assert_used(
            &rt,
            rt.alloc(),
            &profile,
            "highway=residential;maxspeed=30 mph;surface=gravel|true true 40000",
        ),
        Err(_fault) => panic!(rt; "good settings"),
    }
}

// Tags, and the names of the classes of a way with them.
const CLASSES: &str = "highway=residential|
highway=residential;toll=yes|toll
toll=yes|toll
barrier=toll_booth;toll=yes|toll
highway=motorway;toll=yes|fast,toll
toll=yes;highway=motorway_link|toll
toll=no;toll=yes|
toll=Yes|
toll=yes;toll=no|toll";

// Words with a comma between each two.
fn joined(alloc: Global, words: &Words) -> Result<String, AllocError> {
    let mut text = String::new(alloc);
    for word in words.as_slice() {
        if !text.is_empty() {
            text.push_str(",")?;
        }
        text.push_str(word.as_str())?;
    }
    Ok(text)
}

fn assert_classes(rt: &impl Abort, alloc: Global, profile: &Profile) -> Result<(), AllocError> {
    for row in CLASSES.split('\n') {
        let Some((pairs, want)) = row.split_once('|') else {
            panic!(rt; "a row of two");
        };
        let found = profile.classes(alloc, &tags(rt, alloc, pairs)?)?;
        assert_eq!(rt; joined(alloc, &found)?.as_str(), want, "{pairs}");
    }
    Ok(())
}

#[test]
fn ways_have_their_classes(rt: HostRuntime) -> Result<(), AllocError> {
    let profile = car(&rt, rt.alloc())?;
    assert_classes(&rt, rt.alloc(), &profile)
}

// An entry is parted at its first equals sign.
#[test]
fn a_value_of_a_class_may_have_an_equals_sign(rt: HostRuntime) -> Result<(), AllocError> {
    let profile = car(&rt, rt.alloc())?;
    let note = road_base::Tags::new(rt.alloc()).with("note", "a=b")?;
    let found = profile.classes(rt.alloc(), &note)?;
    assert_eq!(rt; joined(rt.alloc(), &found)?.as_str(), "toll");
    Ok(())
}

#[test]
fn sets_are_told_in_their_order(rt: HostRuntime) -> Result<(), AllocError> {
    let profile = car(&rt, rt.alloc())?;
    let mut told = String::new(rt.alloc());
    for set in profile.excludable() {
        told.push_str(joined(rt.alloc(), set)?.as_str())?;
        told.push_str(";")?;
    }
    assert_eq!(rt; told.as_str(), "toll;toll,fast;");
    Ok(())
}
