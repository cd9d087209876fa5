//! Which set of names is asked for.

ghost use Rattle.std.specs.Prelude.{◌≡◌, ℕ, ◌^◌, ◌<◌, ◌≤◌, ◌↔◌, List, Some, None, IfSome, All, length};
ghost use Rattle.std.specs.List.{list_all};
ghost use Rattle.road_base.specs.Words.{is_among};
ghost use Rattle.class_sets.specs.Sets.{HaveSameWords, IsFirstEqual, is_same_set, set_among};

use road_base::Words;

// Whether all words of one list stand in the other.
fn has_all(words: &Words, others: &Words) -> bool
    ensures { result ≡ list_all (is_among words.now) others.now }
{
    others
        .as_slice()
        .iter()
        .all(|word| words.has(word.as_str()))
}

// Whether two lists have the same words, however often and in whatever order.
fn is_same_set(one: &Words, other: &Words) -> bool
    ensures { result ≡ is_same_set one.now other.now }
{
    has_all(other, one) && has_all(one, other)
}

// The place of the first of these sets that is the set of these names.
fn place_of(sets: &[Words], names: &Words) -> Option<usize>
    ensures value { result ≡ set_among sets.now names.now }
    ensures within { IfSome result (λ place. place < length sets.now) }
{
    sets.iter().position(|set| is_same_set(set, names))
}

/// The number of the first of these sets that is the set of these names, or `None` where none is. A name may stand more
/// than once, and the order is nothing.
pub fn find(sets: &[Words], names: &Words) -> Option<u32>
    requires { length sets.now ≤ 2 ^ 32 }
    ensures { result ≡ set_among sets.now names.now }
{
    let place = place_of(sets, names)?;
    Some(place as u32)
}

/// What is found is the first set that has the same words (`some`), and where nothing is found, no set has them (`none`).
/// The contract is the law; there is nothing to do.
pub fn equal_sets_are_found()
    ensures some { (sets : List (List (List ℕ))) (names : List (List ℕ)) (k : ℕ) → set_among sets names ≡ Some k ↔ IsFirstEqual sets names k }
    ensures none { (sets : List (List (List ℕ))) (names : List (List ℕ)) → set_among sets names ≡ None ↔ All (λ set. ¬ HaveSameWords set names) sets }
{}
