//! Makes the network of a map and settings, or the line on which they are refused.
//!
//! A map's text is let go of as soon as its objects are read, and the objects once the network is built.

ghost use Rattle.std.specs.Prelude.{◌≡◌, ◌↔◌, ◌++◌, ◌∷◌, [], List, Result, Ok, IfOk, IfErr, IsTrue};
ghost use Rattle.edge_graph.specs.NetworkView.{NetworkView, network_of};
ghost use Rattle.map_loading.specs.Loading.{load_of, load_from, within_limits, opl_line, settings_line, kind_word};
ghost use Rattle.map_loading.specs.Counting.{counts_of};
ghost use Rattle.map_loading.specs.LoadCause.{IsLoadFault, IsRefusalOf};
ghost use Rattle.opl_read.specs.Objects.{opl_objects};
ghost use Rattle.road_base.specs.declared.osm_objects.Object.{Object};
ghost use Rattle.way_profile.specs.Settings.{settings_of};
ghost use Rattle.way_profile.specs.Vehicle.{ProfileView};
ghost use Rattle.vehicle_settings.specs.declared.settings_faults.SettingsFault.{SettingsFault};

use crate::counting::{Counts, counts_of};
use edge_graph::{BuildFault, Network};
use opl_read::{FaultKind, LineFault, ReadFault, read};
use road_base::{Object, Text};
use std::alloc::{AllocError, Global};
use way_profile::{Profile, SettingsFault};

/// What a map and settings are loaded as: how many objects the map has, and the network.
#[derive(Drop)]
pub struct Loaded {
    pub objects: Counts,
    pub network: Network,
}

/// Why a map and settings give no network.
#[derive(Drop)]
pub enum LoadFault {
    /// They are refused, on this line.
    Refused(Text),
    /// Memory ran out.
    Memory,
}

impl From<AllocError> for LoadFault {
    ghost use Rattle.std.specs.Prelude.{◌≡◌};
    ghost use Rattle.map_loading.specs.declared.loading.LoadFault.TheVariants.{Memory};

    ghost from_gives = { λ _ r. r ≡ Memory };

    fn from(_error: AllocError) -> LoadFault {
        LoadFault::Memory
    }
}

/// The word for what is wrong with a line of the map.
fn word_of(kind: FaultKind) -> &'static str
    ensures { result.now ≡ kind_word kind }
{
    match kind {
        FaultKind::NotUtf8 => "NotUtf8",
        FaultKind::BadKind => "BadKind",
        FaultKind::BadNumber => "BadNumber",
        FaultKind::BadEscape => "BadEscape",
        FaultKind::BadField => "BadField",
        FaultKind::Duplicate => "Duplicate",
    }
}

// The line for a faulty line of the map.
fn opl_refusal(alloc: Global, fault: LineFault) -> Result<Text, AllocError>
    ensures { IfOk result (λ text. text ≡ opl_line fault) }
{
    let (line, word) = (fault.line, word_of(fault.kind));
    Ok(Text::of(format!(in alloc; "opl line {line} {word}\n")?))
}

// The line for a fault of the settings.
fn settings_refusal(alloc: Global, fault: &SettingsFault) -> Result<Text, AllocError>
    ensures { IfOk result (λ text. text ≡ settings_line fault.now) }
{
    match fault {
        SettingsFault::NotToml => Text::copy_of(alloc, "settings NotToml\n"),
        SettingsFault::UnknownKey(key) => line_of(alloc, "settings UnknownKey ", key.as_str()),
        SettingsFault::Missing(key) => line_of(alloc, "settings Missing ", key.as_str()),
        SettingsFault::BadValue(key) => line_of(alloc, "settings BadValue ", key.as_str()),
        SettingsFault::Memory => Text::copy_of(alloc, "out of memory\n"),
    }
}

// A line of these words.
fn line_of(alloc: Global, words: &str, key: &str) -> Result<Text, AllocError>
    ensures { IfOk result (λ text. text ≡ words.now ++ (key.now ++ 10 ∷ [])) }
{
    Ok(Text::of(format!(in alloc; "{words}{key}\n")?))
}

// The network of a map's objects and a profile, or why there is none.
fn build(alloc: Global, objects: &[Object], profile: &Profile) -> Result<Network, LoadFault>
    ensures network { IfOk result (λ network. within_limits (network_of objects.now profile.now) ≡ Ok network) }
    ensures fault { IfErr result (IsLoadFault (within_limits (network_of objects.now profile.now))) }
{
    match Network::build(alloc, objects, profile) {
        Ok(network) => Ok(network),
        Err(BuildFault::TooManySegments) => Err(LoadFault::Refused(Text::copy_of(
            alloc,
            "too many segments\n",
        )?)),
        Err(BuildFault::TooManyVias) => Err(LoadFault::Refused(Text::copy_of(
            alloc,
            "too many vias\n",
        )?)),
        Err(BuildFault::TooManyTurns) => Err(LoadFault::Refused(Text::copy_of(
            alloc,
            "too many turns\n",
        )?)),
        Err(BuildFault::Memory) => Err(LoadFault::Memory),
    }
}

// The objects of a map, or why there are none, whatever the settings are.
fn read_map(alloc: Global, map: Vec<u8>) -> Result<Vec<Object>, LoadFault>
    ensures objects { IfOk result (λ objects. opl_objects map.items ≡ Ok objects.items) }
    ensures fault { IfErr result (λ fault. (settings : Result ProfileView SettingsFault) → IsLoadFault (load_from (opl_objects map.items) settings) fault) }
{
    match read(alloc, map.as_slice()) {
        Ok(objects) => Ok(objects),
        Err(ReadFault::Line(fault)) => Err(LoadFault::Refused(opl_refusal(alloc, fault)?)),
        Err(ReadFault::Memory) => Err(LoadFault::Memory),
    }
}

// The profile of a settings file, or why there is none, behind any map that is read.
fn read_profile(alloc: Global, settings: &[u8]) -> Result<Profile, LoadFault>
    ensures profile { IfOk result (λ profile. settings_of settings.now ≡ Ok profile) }
    ensures fault { IfErr result (λ fault. (objects : List Object) → IsLoadFault (load_from (Ok objects) (settings_of settings.now)) fault) }
{
    match Profile::read(alloc, settings) {
        Ok(profile) => Ok(profile),
        Err(fault) => Err(refusal_of(alloc, fault)),
    }
}

// What a fault of the settings is to loading.
fn refusal_of(alloc: Global, fault: SettingsFault) -> LoadFault
    ensures { IsRefusalOf fault result }
{
    match settings_refusal(alloc, &fault) {
        Ok(line) if !is_memory(&fault) => LoadFault::Refused(line),
        _ => LoadFault::Memory,
    }
}

// Whether this is want of memory, which refuses nothing.
fn is_memory(fault: &SettingsFault) -> bool
    ensures { IsTrue result ↔ (fault.now ≡ SettingsFault.Memory) }
{
    matches!(fault, SettingsFault::Memory)
}

// The network of a map's objects and a vehicle's settings, or why there is none.
fn load_profile(alloc: Global, objects: &[Object], settings: &[u8]) -> Result<Network, LoadFault>
    ensures network { IfOk result (λ network. load_from (Ok objects.now) (settings_of settings.now) ≡ Ok network) }
    ensures fault { IfErr result (IsLoadFault (load_from (Ok objects.now) (settings_of settings.now))) }
{
    match read_profile(alloc, settings) {
        Ok(profile) => build(alloc, objects, &profile),
        Err(fault) => Err(fault),
    }
}

/// What a map and a vehicle's settings are loaded as.
///
/// It answers `Refused` exactly where they are refused, the map first, then the settings, then the limits,
/// with the line that says so, or `Memory` where memory runs out.
pub fn load(alloc: Global, map: Vec<u8>, settings: &[u8]) -> Result<Loaded, LoadFault>
    ensures loaded { IfOk result (λ loaded. load_of map.items settings.now ≡ Ok loaded.network) }
    ensures counts { IfOk result (λ loaded. (objects : List Object) × (opl_objects map.items ≡ Ok objects) × (loaded.objects ≡ counts_of objects)) }
    ensures fault { IfErr result (IsLoadFault (load_of map.items settings.now)) }
{
    match read_map(alloc, map) {
        Ok(objects) => match load_profile(alloc, objects.as_slice(), settings) {
            Ok(network) => Ok(Loaded {
                objects: counts_of(objects.as_slice()),
                network,
            }),
            Err(fault) => Err(fault),
        },
        Err(fault) => Err(fault),
    }
}
