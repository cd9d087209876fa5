//! What the calls of a board hand out.
ghost use Rattle.std.specs.Prelude.{◌≡◌};
ghost use Rattle.std.specs.Arc.{arc_value};
ghost use Rattle.metric_publish.specs.History.{entry};

use std::marker::Model;
use std::sync::Arc;

/// A publication that was read, by a pointer of its own: it blocks no later publication, and
/// its value stays while it is held. Contracts see it as an entry of the list. A board alone
/// makes one.
#[derive(Drop)]
pub struct Held<V: Drop> {
    number: u32,
    value: Arc<V>,
}

impl<V: Drop> Model for Held<V> {
    ghost use Rattle.std.specs.Arc.{arc_value};
    ghost use Rattle.metric_publish.specs.declared.entry.Entry.{Entry};
    ghost use Rattle.metric_publish.specs.History.{entry};

    ghost Value = { Entry V };

    ghost view = { λ h. entry h.number (arc_value h.value) };
}

impl<V: Drop> Held<V> {
    /// What is held of a publication under this number.
    pub(crate) fn of(number: u32, value: Arc<V>) -> Held<V>
        ensures { result ≡ entry number (arc_value value) }
    {
        Held { number, value }
    }

    /// The number of the publication.
    pub fn number(&self) -> u32
        ensures { result ≡ self.now.number }
    {
        self.number
    }

    /// Its value, whole.
    pub fn value(&self) -> &V
        ensures { result.now ≡ self.now.value }
    {
        &*self.value
    }
}

/// That a value was published, under this number.
#[derive(Clone, Copy, Debug, PartialEq, Eq)]
pub struct Receipt {
    pub number: u32,
}

/// That a value was not published. It is handed back, and the list is as it was.
#[derive(Drop)]
pub enum Refused<V: Drop> {
    /// No number is left: the last publication has 4294967295.
    Spent(Arc<V>),
    /// Memory ran out.
    Memory(Arc<V>),
}
