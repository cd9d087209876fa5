//! Answers to requests for the nearest places.

ghost use Rattle.std.specs.Prelude.{◌≡◌, IfOk, IfErr, map};
ghost use Rattle.snap_index.specs.Ends.{all_ends};
ghost use Rattle.url_read.specs.Request.{IsFitting};
ghost use Rattle.url_read.specs.declared.requests.Service.TheVariants.{Nearest};
ghost use Rattle.reply_core.specs.Answers.{SaysNearest, status_of};
ghost use Rattle.reply_core.specs.Faults.{IsFoundFault};
ghost use Rattle.reply_core.specs.Lacks.{IsRecent};

use crate::answers::{Answer, Places, Walks};
use crate::asked_places::asked_at;
use crate::lacks::FoundFault;
use customized::Under;
use refusal_texts::{Code, Lack};
use reply_texts::nearest_text;
use road_base::{Place, Text};
use snap_index::{Grid, Snapped, nearest};
use std::alloc::{AllocError, Global};
use url_read::{NearestOptions, Request};

// The answer with the nearest places of the one coordinate, or that it has no place.
pub(crate) fn nearest_answer(
    alloc: Global,
    under: &Under<'_>,
    number: u32,
    grid: &Grid,
    request: &Request,
    own: &NearestOptions,
) -> Result<Answer, FoundFault>
    requires grid { grid.now ≡ all_ends under.now.road.network.segments }
    requires fitting { IsFitting request.now }
    requires recent { IsRecent number request.now }
    requires service { request.now.service ≡ Nearest own.now }
    ensures says { IfOk result (SaysNearest under.now.road number request.now own.now) }
    ensures status { IfOk result (λ answer. answer.status ≡ status_of answer.code) }
    ensures err { IfErr result (IsFoundFault under.now.road number request.now) }
{
    let (coordinate, filter) = asked_at(request, 0);
    let found = nearest(
        alloc,
        under.network(),
        grid,
        under.base(),
        coordinate,
        own.number,
        filter,
    )?;
    if found.is_empty() {
        return Err(FoundFault::Lacks(Lack::Segment(0)));
    }
    let places = places_in(alloc, &found)?;
    let text = nearest_text(alloc, under.network(), number, coordinate, &places)?;
    Ok(Answer {
        code: Code::Ok,
        status: 200,
        places: Places::of(places),
        walks: Walks::of(Vec::new(alloc)),
        text: Text::of(text),
    })
}

// The places that were found.
fn places_in(alloc: Global, found: &[Snapped]) -> Result<Vec<Place>, AllocError>
    ensures { IfOk result (λ places. places.items ≡ map (λ one. one.place) found.now) }
{
    let mut places = Vec::with_capacity(alloc, found.len())?;
    for one in found {
        places.push(one.place)?;
    }
    Ok(places)
}
