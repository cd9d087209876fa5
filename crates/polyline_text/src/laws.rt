//! How encoding and decoding go together, and reading with the grammar.
ghost use Rattle.std.specs.Prelude.{ℕ, List};
ghost use Rattle.road_base.specs.declared.coordinates.Point.{Point};
ghost use Rattle.polyline_text.specs.Decoding.{decoded};
ghost use Rattle.polyline_text.specs.Grammar.{Path};
ghost use Rattle.polyline_text.specs.GrammarLaw.{IsOfGrammar, IsRead};
ghost use Rattle.polyline_text.specs.RoundTrip.{GivesBackPoints, GivesBackRounded};

/// What is encoded is the text of the points, for every list of points: with 6 digits of the points
/// themselves, with 5 digits of the points whose coordinates are rounded to ten microdegrees. So
/// decoding, which answers the points of every text that has any, gives them back. The contract is
/// the law; there is nothing to do.
pub fn decoding_undoes_encoding()
    ensures six { (points : List Point) → GivesBackPoints points }
    ensures five { (points : List Point) → GivesBackRounded points }
{}

/// What reading from the left gives for a text is what the grammar has of it, and points that the grammar has are
/// what reading gives. So a text has one list of points at most, and none where it has a fault. The contract is the
/// law; there is nothing to do.
pub fn reading_is_the_grammar()
    ensures of_grammar { (digits : ℕ) (bytes : List ℕ) → IsOfGrammar digits bytes (decoded digits bytes) }
    ensures all { (digits : ℕ) (bytes : List ℕ) (points : Path) → IsRead digits bytes points }
{}
