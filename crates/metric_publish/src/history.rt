//! The list of publications, and fronts of it. It exists in the proofs alone: at run time a
//! front is its length.
ghost use Rattle.std.specs.Prelude.{◌≡◌, ◌+◌, ◌==◌, ◌<◌, ◌≤◌, ◌^◌, ◌++◌, ◌∷◌, ◌↔◌, IsTrue, [], length, true, false, MatchBool};
ghost use Rattle.std.specs.Arc.{arc_value};
ghost use mathlib.Core.List.{IsPrefix};
ghost use Rattle.metric_publish.specs.History.{IsNext, IsKin, IsRun, AreKin, entry_of, head_of};

use crate::entry::{Entry, Kindred, Put};
use logbook::{Gain, Offer, Plain, Play, Rule, Seen, Start, Word};
use std::marker::{Brand, PhantomData};

/// The rule of the list: its word is its length, its numbers run up by one, and its values
/// are akin.
pub struct Law;

impl<V: Kindred> Rule<Entry<V>, u64> for Law {
    ghost use Rattle.std.specs.Prelude.{[]};
    ghost use base.Fml.{ftrue};
    ghost use Rattle.metric_publish.specs.History.{IsKept};

    ghost holds = { λ cells log. IsKept V.akin cells log };

    ghost first = { [] };

    ghost hinted = { λ n log. Unit {0} };

    ghost shows = { λ log. [] };

    ghost keeps = { λ names log. ftrue };

    ghost moves = { λ ask before after answer. Unit {0} };
}

/// Callers trade nothing.
pub struct Nothing;

impl<V> Gain<Entry<V>, u64> for Nothing {
    ghost use base.Fml.{ftrue};

    ghost after = { λ names about answer. ftrue };
}

/// A step that adds an entry.
pub struct Add;

impl<V> Play<Entry<V>, u64> for Add {
    ghost use Rattle.metric_publish.specs.History.{Adds};

    ghost then = { Adds };
}

impl<V: Drop> Plain<Put<V>, Entry<V>, u64> for Add {
    ghost use Rattle.std.specs.Prelude.{None};
    ghost use Rattle.metric_publish.specs.History.{entry_of};

    ghost ask = { entry_of };

    ghost state = { λ put. None };
}

/// The word of a list: how many entries it has.
pub type Head<V> = Word<Entry<V>, u64, Law>;

/// A beginning of a list that was reached.
pub type Reached<V> = Seen<Entry<V>, u64, Law>;

/// Adds an entry to all that was reached, and returns how many entries the list was found to
/// have. With another number than `len` it added none.
pub fn append<V: Kindred>(head: &Head<V>, reached: &mut Reached<V>, len: u64, put: &Put<V>) -> u64
    requires room { len < 2 ^ 62 }
    requires sized { length reached.old.log ≡ len }
    requires head { head.now ≡ head_of reached.old.book }
    requires next { IsNext reached.old.log put.now.number }
    requires kin { IsKin V.akin reached.old.log (arc_value put.now.value) }
    ensures book { reached.new.book ≡ reached.old.book }
    ensures adds { MatchBool (result == len) (reached.new.log ≡ reached.old.log ++ entry_of put.now ∷ []) (length reached.new.log ≡ result) }
{
    let mut both = reached.again();
    both.learn(reached);
    let mut offer: Offer<Entry<V>, u64, Law, Nothing> = reached.plain::<Nothing, Put<V>, Add>(put);
    let mut pen = reached.no_pen();
    head.compare_exchange::<Add, Nothing>(len, len + 1, reached, &mut offer, &mut pen)
}

/// The numbers of what was reached run up by one, and all its values are akin to the first.
pub fn check_law<V: Kindred>(reached: &Reached<V>)
    ensures runs { IsRun reached.now.log }
    ensures kin { AreKin V.akin reached.now.log }
{
    let mut both = reached.again();
    both.learn(reached);
}

/// Which list it is. Each call of a program that opens a board picks it, by `Brand`.
pub trait Naming {
    ghost use Rattle.logbook.specs.Pages.{Book};

    /// The list, by its name in the proofs.
    ghost book: { Book };
}

impl Naming for Brand {
    ghost book = { record { number = 0; log_name = 0; cells_name = 0 } };
}

/// The word of a list, which the desk alone has.
#[derive(Drop)]
pub struct Book<V: Kindred, J: Naming> {
    head: Head<V>,
    of: PhantomData<J>,
    ghost head_is: { head ≡ head_of J.book },
}

/// A beginning of the list. Copies of it take no memory.
#[derive(Drop)]
pub struct Front<V: Kindred, J: Naming> {
    len: u64,
    pub token: Reached<V>,
    of: PhantomData<J>,
    ghost sized: { len ≡ length token.log },
    ghost named: { token.book ≡ J.book },
}

impl<V: Kindred, J: Naming> Front<V, J> {
    /// How many entries it has.
    pub fn len(&self) -> u64
        ensures { result ≡ length self.now.token.log }
    {
        self.len
    }

    /// A copy.
    pub fn again(&self) -> Front<V, J>
        ensures { result.token.log ≡ self.now.token.log }
    {
        Front {
            len: self.len,
            token: self.token.again(),
            of: PhantomData,
        }
    }

    /// The numbers run up by one, and all values are akin to the first.
    pub fn check_law(&self)
        ensures runs { IsRun self.now.token.log }
        ensures kin { AreKin V.akin self.now.token.log }
    {
        check_law(&self.token);
    }

    /// Whether this front is no longer than the other, which then begins with it.
    pub fn begins(&self, other: &Front<V, J>) -> bool
        ensures yes { result ≡ true → IsPrefix self.now.token.log other.now.token.log }
        ensures no { result ≡ false → IsPrefix other.now.token.log self.now.token.log }
        ensures decides { IsTrue result ↔ (length self.now.token.log ≤ length other.now.token.log) }
    {
        let mut both = self.token.again();
        both.learn(&other.token);
        self.len <= other.len
    }

    /// The longer of two fronts, which begins with both.
    pub fn longer(&self, other: &Front<V, J>) -> Front<V, J>
        ensures this { IsPrefix self.now.token.log result.token.log }
        ensures that { IsPrefix other.now.token.log result.token.log }
    {
        if self.begins(other) {
            other.again()
        } else {
            self.again()
        }
    }

    /// Adds an entry, and says whether it did. It did not where the list is longer, or too long.
    pub fn add(&mut self, book: &Book<V, J>, put: &Put<V>) -> bool
        requires next { IsNext self.old.token.log put.now.number }
        requires kin { IsKin V.akin self.old.token.log (arc_value put.now.value) }
        ensures { result ≡ true → self.new.token.log ≡ self.old.token.log ++ entry_of put.now ∷ [] }
    {
        let len = self.len;
        if len >= 1 << 62 {
            return false;
        }
        let mut token = self.token.again();
        let found = append(&book.head, &mut token, len, put);
        if found != len {
            return false;
        }
        *self = Front {
            len: len + 1,
            token,
            of: PhantomData,
        };
        true
    }
}

/// A list with no entry, which has no name yet.
#[derive(Drop)]
pub struct Opened<V: Kindred> {
    pub head: Head<V>,
    pub seen: Reached<V>,
    pub ghost empty: { seen.log ≡ [] },
    pub ghost head_is: { head ≡ head_of seen.book },
}

impl<V: Kindred> Opened<V> {
    /// An empty list, under a word of its own.
    pub fn new() -> Opened<V> {
        let (seen, mut first, _second) = Seen::open(Start::alone(), 0, 0);
        Opened {
            head: Word::tracked(0, &mut first),
            seen,
        }
    }

    /// The word under a name, and the front that has no entry.
    pub fn named<J: Naming>(self) -> (Book<V, J>, Front<V, J>)
        requires { self.seen.book ≡ J.book }
        ensures { result.1.token.log ≡ [] }
    {
        let Opened { head, seen } = self;
        (
            Book {
                head,
                of: PhantomData,
            },
            Front {
                len: 0,
                token: seen,
                of: PhantomData,
            },
        )
    }
}
