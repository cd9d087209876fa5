//! The profile of a vehicle.

ghost use Rattle.std.specs.Prelude.{◌≡◌, ◌≤◌, ◌||◌, IfOk, IfSome, IsTrue, codes};
ghost use Rattle.toml.specs.View.{table_view};
ghost use Rattle.vehicle_settings.specs.Settings.{AreNumbersGood};
ghost use Rattle.way_profile.specs.Settings.{IsReadAs, profile_of};
ghost use Rattle.way_profile.specs.Vehicle.{IsFactor, IsInRange, IsSpeed, is_barrier, penalty_of};
ghost use Rattle.way_profile.specs.WayClasses.{classes_of};
ghost use Rattle.way_profile.specs.WayRule.{limited_speed, permitted_speed, speed_by_tags, way_use};
ghost use Rattle.way_profile.specs.WayTags.{number_by};

use crate::class_values::{classes_at, sets_at};
use crate::settings_values::{
    is_true_at, is_word_at, penalty_at, speeds_at, surfaces_at, text_at, texts_at,
    turn_penalties_at,
};
use crate::turn_penalties::TurnPenalties;
use crate::way_classes::Class;
use crate::way_speeds::{kmh_of, limit_or, slowed_by};
use crate::way_uses::{WayUse, is_backward_only, is_denied, is_forward_only, is_round, number_by};
use road_base::{Modifier, Tags, Text, Words};
use std::alloc::{AllocError, Global};
use std::marker::Model;
use toml::Table;
use vehicle_settings::{SettingsFault, checked};

/// What a settings file says of one vehicle. Contracts see its name, its vehicle word, whether a road weighs
/// its length and not its duration, its speeds by value of `highway` in thousandths of km/h, its access keys and
/// the values that they deny, the values of `barrier` that close a node, its penalties in deciseconds, its side
/// of the road, whether `maxspeed` of a way counts, its factors by value of `surface` in thousandths, its
/// classes of ways, and the sets of them that a request may exclude.
#[derive(Debug)]
pub struct Profile {
    name: Text,
    vehicle: Text,
    by_distance: bool,
    speeds: Vec<(Text, u32)>,
    access_keys: Words,
    denied: Words,
    barriers: Words,
    turn_penalties: TurnPenalties,
    u_turn_penalty: u32,
    signal_penalty: u32,
    left_side: bool,
    maxspeed: bool,
    surfaces: Vec<(Text, u32)>,
    classes: Vec<Class>,
    excludable: Vec<Words>,
}

impl Drop for Profile {
    fn drop(self) {
        let Profile {
            name: _name,
            vehicle: _vehicle,
            by_distance: _by_distance,
            speeds: _speeds,
            access_keys: _access_keys,
            denied: _denied,
            barriers: _barriers,
            turn_penalties: _turn_penalties,
            u_turn_penalty: _u_turn_penalty,
            signal_penalty: _signal_penalty,
            left_side: _left_side,
            maxspeed: _maxspeed,
            surfaces: _surfaces,
            classes: _classes,
            excludable: _excludable,
        } = self;
    }
}

impl Model for Profile {
    ghost use Rattle.way_profile.specs.Vehicle.{ProfileView};

    ghost Value = { ProfileView };

    ghost use Rattle.way_profile.specs.Inside.{profile_seen, IsSeenInRange};

    ghost view = { profile_seen };

    ghost invariant = { IsSeenInRange };
}

impl Profile {
    /// Reads a settings file, which is TOML (toml.io), as `vehicle_settings` checks it: each fault comes exactly
    /// where [`SettingsFault`] says, but for want of memory, which may come at any time. A list or a table that
    /// is absent is empty, a penalty 0, `weight_name` `duration`, the side of the road `right`, and `maxspeed`
    /// `false`.
    #[tactic(auto, unfolding(crate::specs::Settings::settings_of))]
    pub fn read(alloc: Global, bytes: &[u8]) -> Result<Profile, SettingsFault>
        ensures { IsReadAs bytes.now result }
    {
        let table = checked(alloc, bytes)?;
        Ok(Profile::of_values(alloc, &table)?)
    }

    // The profile of a table of settings with good values.
    fn of_values(alloc: Global, table: &Table) -> Result<Profile, AllocError>
        requires { AreNumbersGood (table_view table.now) }
        ensures { IfOk result (λ profile. profile ≡ profile_of (table_view table.now)) }
    {
        Ok(Profile {
            name: Text::copy_of(alloc, text_at(table, "name"))?,
            vehicle: Text::copy_of(alloc, text_at(table, "vehicle"))?,
            by_distance: is_word_at(table, "weight_name", "distance"),
            speeds: speeds_at(alloc, table)?,
            access_keys: texts_at(alloc, table, "access_keys")?,
            denied: texts_at(alloc, table, "denied")?,
            barriers: texts_at(alloc, table, "barriers")?,
            turn_penalties: turn_penalties_at(table),
            u_turn_penalty: penalty_at(table, "u_turn_penalty"),
            signal_penalty: penalty_at(table, "signal_penalty"),
            left_side: is_word_at(table, "driving_side", "left"),
            maxspeed: is_true_at(table, "maxspeed"),
            surfaces: surfaces_at(alloc, table)?,
            classes: classes_at(alloc, table)?,
            excludable: sets_at(alloc, table)?,
        })
    }

    /// How the vehicle may use a way with these tags. A way is routable where its `highway` has a speed,
    /// and the first of the access keys that it carries, if there is one, has no value that is denied.
    /// `oneway` `yes`, `true` or `1` permits its own direction only, `-1` or `reverse` the other one only,
    /// `no` both; where it has another value or none, roundabouts and motorways permit their own
    /// direction only, and other ways both.
    ///
    /// The speed is that of `highway`. Where the profile heeds `maxspeed`, a value of 1 to 3 digits (km/h), or
    /// of 1 to 3 digits, one blank and `mph` takes its place if it comes to 1 to 1000 km/h. A factor of the
    /// way's `surface` then slows it, but to no less than 1 km/h.
    #[tactic(auto, unfolding(crate::specs::WayRule::way_use))]
    pub fn way(&self, tags: &Tags) -> WayUse
        ensures value { result ≡ way_use self.now tags.now }
        ensures speed { IsTrue (result.forward || result.backward) → IsSpeed result.speed }
    {
        match self.permitted_speed(tags) {
            Some(speed) => WayUse {
                forward: !is_backward_only(tags),
                backward: !is_forward_only(tags),
                speed: self.speed_by_tags(tags, speed),
                round: is_round(tags),
            },
            None => WayUse {
                forward: false,
                backward: false,
                speed: 0,
                round: false,
            },
        }
    }

    // The speed of the kind of a way with these tags, None where the vehicle may not use it.
    fn permitted_speed(&self, tags: &Tags) -> Option<u32>
        ensures value { result ≡ permitted_speed self.now tags.now }
        ensures range { IfSome result IsSpeed }
    {
        match self.kind_speed(tags) {
            Some(speed) if !is_denied(tags, &self.access_keys, &self.denied) => Some(speed),
            _ => None,
        }
    }

    // The speed on a way of this kind, None where the vehicle has none.
    fn kind_speed(&self, tags: &Tags) -> Option<u32>
        ensures value { result ≡ number_by (codes "highway") self.now.speeds tags.now }
        ensures range { IfSome result IsSpeed }
    {
        number_by(tags, "highway", &self.speeds)
    }

    // The speed that a way's `maxspeed`, and then its `surface`, make of that of its kind.
    fn speed_by_tags(&self, tags: &Tags, speed: u32) -> u32
        requires { IsSpeed speed }
        ensures value { result ≡ speed_by_tags self.now tags.now speed }
        ensures range { IsSpeed result }
    {
        slowed_by(self.factor(tags), self.limited_speed(tags, speed))
    }

    // The speed where the way's `maxspeed` counts.
    fn limited_speed(&self, tags: &Tags, speed: u32) -> u32
        requires { IsSpeed speed }
        ensures value { result ≡ limited_speed self.now tags.now speed }
        ensures range { IsSpeed result }
    {
        if !self.maxspeed {
            return speed;
        }
        match tags.get("maxspeed") {
            Some(value) => limit_or(kmh_of(value), speed),
            None => speed,
        }
    }

    // The factor of the way's `surface`, None where it has none.
    fn factor(&self, tags: &Tags) -> Option<u32>
        ensures value { result ≡ number_by (codes "surface") self.now.surfaces tags.now }
        ensures range { IfSome result IsFactor }
    {
        number_by(tags, "surface", &self.surfaces)
    }

    /// The names of the classes of a way with these tags, in the order in which the profile has them: of
    /// those of which it has a tag, the key with exactly that value.
    pub fn classes(&self, alloc: Global, tags: &Tags) -> Result<Words, AllocError>
        ensures { IfOk result (λ words. words ≡ classes_of self.now tags.now) }
    {
        let mut names = Vec::new(alloc);
        for class in &self.classes {
            if class.has(tags) {
                names.push(Text::copy_of(alloc, class.name())?)?;
            }
        }
        Ok(Words::of(names))
    }

    /// The sets of classes that a request may exclude, each as the names of its classes.
    pub fn excludable(&self) -> &[Words]
        ensures { result.now ≡ self.now.excludable }
    {
        &self.excludable
    }

    /// The word by which turn restrictions except this vehicle, as `motorcar`.
    pub fn vehicle(&self) -> &str
        ensures { result.now ≡ self.now.vehicle }
    {
        self.vehicle.as_str()
    }

    /// Whether a road weighs its length, and a turn nothing, where traffic says nothing else; else each weighs
    /// its duration.
    pub fn by_distance(&self) -> bool
        ensures { result ≡ self.now.by_distance }
    {
        self.by_distance
    }

    /// The name of the profile.
    pub fn name(&self) -> &str
        ensures { result.now ≡ self.now.name }
    {
        self.name.as_str()
    }

    /// Whether a node with this value of `barrier` is closed for the vehicle.
    pub fn barrier(&self, value: &str) -> bool
        ensures { result ≡ is_barrier self.now value.now }
    {
        self.barriers.has(value)
    }

    /// The penalty in deciseconds of a turn that bends this way.
    pub fn penalty(&self, modifier: Modifier) -> u32
        ensures value { result ≡ penalty_of self.now modifier }
        ensures range { result ≤ 1000000 }
    {
        self.turn_penalties.of(modifier)
    }

    /// The penalty in deciseconds of a turn back onto the same segment.
    pub fn u_turn(&self) -> u32
        ensures value { result ≡ self.now.u_turn_penalty }
        ensures range { result ≤ 1000000 }
    {
        self.u_turn_penalty
    }

    /// The penalty in deciseconds of a signal, in addition to that of the turn there.
    pub fn signal(&self) -> u32
        ensures value { result ≡ self.now.signal_penalty }
        ensures range { result ≤ 1000000 }
    {
        self.signal_penalty
    }

    /// Whether the vehicle drives on the left side of the road.
    pub fn left_side(&self) -> bool
        ensures { result ≡ self.now.left_side }
    {
        self.left_side
    }

    /// Another profile that says the same.
    pub fn try_clone(&self, alloc: Global) -> Result<Profile, AllocError>
        ensures { IfOk result (λ copy. copy ≡ self.now) }
    {
        Ok(Profile {
            name: Text::copy_of(alloc, self.name.as_str())?,
            vehicle: Text::copy_of(alloc, self.vehicle.as_str())?,
            by_distance: self.by_distance,
            speeds: copy_of_numbers(alloc, &self.speeds)?,
            access_keys: self.access_keys.try_clone(alloc)?,
            denied: self.denied.try_clone(alloc)?,
            barriers: self.barriers.try_clone(alloc)?,
            turn_penalties: self.turn_penalties,
            u_turn_penalty: self.u_turn_penalty,
            signal_penalty: self.signal_penalty,
            left_side: self.left_side,
            maxspeed: self.maxspeed,
            surfaces: copy_of_numbers(alloc, &self.surfaces)?,
            classes: copy_of_classes(alloc, &self.classes)?,
            excludable: copy_of_sets(alloc, &self.excludable)?,
        })
    }
}

fn copy_of_numbers(alloc: Global, numbers: &[(Text, u32)]) -> Result<Vec<(Text, u32)>, AllocError>
    ensures { IfOk result (λ copy. copy.items ≡ numbers.now) }
{
    let mut copy = Vec::with_capacity(alloc, numbers.len())?;
    for (word, number) in numbers {
        copy.push((Text::copy_of(alloc, word.as_str())?, *number))?;
    }
    Ok(copy)
}

fn copy_of_classes(alloc: Global, classes: &[Class]) -> Result<Vec<Class>, AllocError>
    ensures { IfOk result (λ copy. copy.items ≡ classes.now) }
{
    let mut copy = Vec::with_capacity(alloc, classes.len())?;
    for class in classes {
        copy.push(class.try_clone(alloc)?)?;
    }
    Ok(copy)
}

fn copy_of_sets(alloc: Global, sets: &[Words]) -> Result<Vec<Words>, AllocError>
    ensures { IfOk result (λ copy. copy.items ≡ sets.now) }
{
    let mut copy = Vec::with_capacity(alloc, sets.len())?;
    for set in sets {
        copy.push(set.try_clone(alloc)?)?;
    }
    Ok(copy)
}
