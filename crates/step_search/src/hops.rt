//! The steps that a search goes by.

ghost use Rattle.std.specs.Prelude.{◌≡◌, ℕ, ◌<◌, IfSome, Some};
ghost use Rattle.std.specs.Bool.{OnTrue, OnFalse};
ghost use Rattle.std.specs.List.{Contains, slice_get};
ghost use Rattle.step_search.specs.Spaces.{Space, IsHeadAt, LeadsBy};

use cost_lists::{CostRow, Narrow};
use search_graph::ArcRow;

/// A hop out of a vertex: to `head`, at `cost`, which has the cost of the head in it.
#[derive(Clone, Copy, Drop)]
pub struct Hop<C> {
    pub head: u32,
    pub cost: C,
}

/// The steps out of each vertex of a space.
///
/// There are two kinds: arcs, which have names of the caller's, and the places of a row, which are counted
/// from 0. A space may have one kind alone.
///
/// A search asks for the name of a vertex's row once, and then for all that leads out of the vertex by that name. So steps
/// whose rows are those of parts can look the vertex's part up once; others needn't tell these calls from the plain ones.
pub trait Steps<C: Narrow> {
    ghost space: { Self → Space C };

    ghost ready: { Self → Type 0 };

    /// Whether a path may begin at `v`.
    fn may_begin(&self, v: u32) -> bool
        requires ready { ready self.now }
        requires vertex { v < (space self.now).vertices }
        ensures yes { OnTrue result ((space self.now).May v) }
        ensures no { OnFalse result (¬ (space self.now).May v) };

    /// The names of the arcs out of `v`.
    fn arcs(&self, v: u32) -> ArcRow<'_>
        requires ready { ready self.now }
        requires vertex { v < (space self.now).vertices }
        ensures named { (i : ℕ) → Contains result i → (space self.now).Name v i }
        ensures all { (i w : ℕ) (s : C) → (space self.now).Arc v i w s → Contains result i };

    /// The hop out of `v` by its arc `i`, or none where that way is closed.
    fn by_arc(&self, v: u32, i: u32) -> Option<Hop<C>>
        requires ready { ready self.now }
        requires vertex { v < (space self.now).vertices }
        requires named { (space self.now).Name v i }
        ensures some { IfSome result (λ h. (space self.now).Arc v i h.head h.cost) }
        ensures all { (w : ℕ) (s : C) → (space self.now).Arc v i w s → result ≡ Some (record { head = w; cost = s }) };

    /// Where the places of the row out of `v` lead.
    fn heads(&self, v: u32) -> &[u32]
        requires ready { ready self.now }
        requires vertex { v < (space self.now).vertices }
        ensures { result.now ≡ (space self.now).heads v };

    /// What the places of the row out of `v` cost, with their heads; none where that way is closed. It may be shorter
    /// than the list of heads, which then has closed places at its end.
    fn costs(&self, v: u32) -> CostRow<'_, C>
        requires ready { ready self.now }
        requires vertex { v < (space self.now).vertices }
        ensures some { (j : ℕ) (s : C) → slice_get result j ≡ Some (Some s) → (space self.now).Costs v j s }
        ensures all { (j : ℕ) (s : C) → (space self.now).Costs v j s → slice_get result j ≡ Some (Some s) };

    /// A name of the row out of `v`: rows of one name have the same heads. It is the number of a level and a number within
    /// that, both counted from 0 without wide gaps, since who keeps something by row has a list of each level's rows.
    fn row(&self, v: u32) -> (u32, u32)
        requires ready { ready self.now }
        requires vertex { v < (space self.now).vertices }
        ensures name { result ≡ (space self.now).row v }
        ensures same { (u : ℕ) → (space self.now).row u ≡ (space self.now).row v → (space self.now).heads u ≡ (space self.now).heads v };

    /// The names of the arcs out of `v`, as `arcs` gives them, to one who knows the name of its row. Arcs along which no
    /// way is open may be left out.
    fn arcs_named(&self, v: u32, row: (u32, u32)) -> ArcRow<'_>
        requires ready { ready self.now }
        requires vertex { v < (space self.now).vertices }
        requires row { row ≡ (space self.now).row v }
        ensures named { (i : ℕ) → Contains result i → (space self.now).Name v i }
        ensures all { (i w : ℕ) (s : C) → (space self.now).Arc v i w s → Contains result i }
    {
        let _ = row;
        self.arcs(v)
    }

    /// The hop out of `v` by its arc `i`, as `by_arc` gives it, to one who knows the name of its row.
    fn by_arc_named(&self, v: u32, row: (u32, u32), i: u32) -> Option<Hop<C>>
        requires ready { ready self.now }
        requires vertex { v < (space self.now).vertices }
        requires row { row ≡ (space self.now).row v }
        requires named { (space self.now).Name v i }
        ensures some { IfSome result (λ h. (space self.now).Arc v i h.head h.cost) }
        ensures all { (w : ℕ) (s : C) → (space self.now).Arc v i w s → result ≡ Some (record { head = w; cost = s }) }
    {
        let _ = row;
        self.by_arc(v, i)
    }

    /// The names of the arcs out of `v`, where it is the head at this place of the rows of this name and nothing but arcs leads
    /// out of it. Then the row out of `v` has that name too, and a search that comes to `v` by such a row goes on along these
    /// arcs at once, and doesn't queue it. The answer may be none anywhere.
    fn leads_on(&self, row: (u32, u32), place: usize, v: u32) -> Option<ArcRow<'_>>
        requires ready { ready self.now }
        requires vertex { v < (space self.now).vertices }
        requires row { (u : ℕ) × (u < (space self.now).vertices) × ((space self.now).row u ≡ row) }
        ensures { IfSome result (λ arcs. IsHeadAt (space self.now) row place v → LeadsBy (space self.now) row v arcs) }
    {
        let _ = row;
        let _ = place;
        let _ = v;
        None
    }

    /// Where the places of the row out of `v` lead, as `heads` gives it, to one who knows the row's name.
    fn heads_named(&self, v: u32, row: (u32, u32)) -> &[u32]
        requires ready { ready self.now }
        requires vertex { v < (space self.now).vertices }
        requires row { row ≡ (space self.now).row v }
        ensures { result.now ≡ (space self.now).heads v }
    {
        let _ = row;
        self.heads(v)
    }

    /// What the places of the row out of `v` cost, as `costs` gives it, to one who knows the row's name.
    fn costs_named(&self, v: u32, row: (u32, u32)) -> CostRow<'_, C>
        requires ready { ready self.now }
        requires vertex { v < (space self.now).vertices }
        requires row { row ≡ (space self.now).row v }
        ensures some { (j : ℕ) (s : C) → slice_get result j ≡ Some (Some s) → (space self.now).Costs v j s }
        ensures all { (j : ℕ) (s : C) → (space self.now).Costs v j s → slice_get result j ≡ Some (Some s) }
    {
        let _ = row;
        self.costs(v)
    }
}
