//! Classes of ways by their tags.

ghost use Rattle.std.specs.Prelude.{◌≡◌, IfOk};
ghost use Rattle.way_profile.specs.WayClasses.{is_of_class};

use crate::way_uses::has_value;
use road_base::{Tags, Text};
use std::alloc::{AllocError, Global};
use std::marker::Model;

// A class: its name, and the keys and values of which a way that is of it has one. Contracts see the pair.
#[derive(Debug)]
pub(crate) struct Class {
    name: Text,
    tags: Vec<(Text, Text)>,
}

impl Drop for Class {
    fn drop(self) {
        let Class {
            name: _name,
            tags: _tags,
        } = self;
    }
}

impl Model for Class {
    ghost use Rattle.std.specs.Prelude.{ℕ, List};

    ghost Value = { List ℕ × List (List ℕ × List ℕ) };

    ghost view = { λ class. (class.name, class.tags.items) };
}

impl Class {
    // The class of this name with these tags.
    pub(crate) fn of(name: Text, tags: Vec<(Text, Text)>) -> Class
        ensures { result ≡ (name, tags.items) }
    {
        Class { name, tags }
    }

    pub(crate) fn name(&self) -> &str
        ensures { result.now ≡ self.now.0 }
    {
        self.name.as_str()
    }

    // Whether a way with these tags is of the class.
    pub(crate) fn has(&self, tags: &Tags) -> bool
        ensures { result ≡ is_of_class tags.now self.now }
    {
        self.tags
            .iter()
            .any(|tag| has_value(tags, tag.0.as_str(), tag.1.as_str()))
    }

    // Another class that is the same.
    pub(crate) fn try_clone(&self, alloc: Global) -> Result<Class, AllocError>
        ensures { IfOk result (λ copy. copy ≡ self.now) }
    {
        let mut tags = Vec::with_capacity(alloc, self.tags.len())?;
        for (key, value) in &self.tags {
            let key = Text::copy_of(alloc, key.as_str())?;
            tags.push((key, Text::copy_of(alloc, value.as_str())?))?;
        }
        let name = Text::copy_of(alloc, self.name.as_str())?;
        Ok(Class { name, tags })
    }
}
