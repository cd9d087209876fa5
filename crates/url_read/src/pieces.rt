//! The pieces of a path.

ghost use Rattle.std.specs.Prelude.{◌≡◌, Some, None, MatchOption, ◌||◌};
ghost use Rattle.url_read.specs.Target.{pieces_of, is_empty, without_json};

use option_values::cut;

// The pieces of a path that a request is read from, none of them empty.
#[derive(Clone, Copy, Drop)]
pub(crate) struct Pieces<'a> {
    pub(crate) service: &'a str,
    pub(crate) version: &'a str,
    pub(crate) coordinates: &'a str,
}

// The pieces of a path, None where there aren't four nonempty ones, each behind a slash.
pub(crate) fn pieces_of(path: &str) -> Option<Pieces<'_>>
    ensures { MatchOption result (pieces_of path.now ≡ None) (λ pieces. pieces_of path.now ≡ Some (record { service = pieces.service.now; version = pieces.version.now; coordinates = pieces.coordinates.now })) }
{
    let (front, rest) = cut(path, '/')?;
    let (service, rest) = cut(rest, '/')?;
    let (version, rest) = cut(rest, '/')?;
    let (profile, coordinates) = cut(rest, '/')?;
    if cut(coordinates, '/').is_some() {
        return None;
    }
    if !front.is_empty()
        || service.is_empty()
        || version.is_empty()
        || profile.is_empty()
        || coordinates.is_empty()
    {
        return None;
    }
    Some(Pieces {
        service,
        version,
        coordinates,
    })
}

// Coordinates without the `.json` at their end, if there is one.
pub(crate) fn without_json(coordinates: &str) -> &str
    ensures { result.now ≡ without_json coordinates.now }
{
    coordinates.strip_suffix(".json").unwrap_or(coordinates)
}
