//! Answers to requests for a table.

ghost use Rattle.std.specs.Prelude.{◌≡◌, ℕ, Some, IfOk, IfErr, length};
ghost use Rattle.std.specs.List.{slice_get};
ghost use Rattle.road_places.specs.Places.{IsPlaceOn};
ghost use Rattle.snap_index.specs.Ends.{all_ends};
ghost use Rattle.option_values.specs.Entries.{AreThere};
ghost use Rattle.url_read.specs.Request.{IsFitting};
ghost use Rattle.url_read.specs.declared.requests.Service.TheVariants.{Table};
ghost use Rattle.reply_core.specs.Answers.{SaysTable, status_of};
ghost use Rattle.reply_core.specs.Asked.{chosen_from};
ghost use Rattle.reply_core.specs.Faults.{IsFoundFault};
ghost use Rattle.reply_core.specs.Lacks.{IsRecent};

use crate::answers::{Answer, Places, Walks};
use crate::asked_places::places_of;
use crate::chosen_ends::chosen_from;
use crate::lacks::FoundFault;
use customized::Under;
use refusal_texts::Code;
use reply_texts::{Stops, table_text};
use road_base::{Place, Point, Text};
use road_walks::cost_rows;
use snap_index::Grid;
use std::alloc::{AllocError, Global};
use std::thread::Threads;
use url_read::{Chosen, Request, TableOptions};

// The answer with what a least walk from each source to each destination costs, or the first coordinate that has no
// place.
pub(crate) fn table_answer(
    rt: &(impl Threads + Sync),
    alloc: Global,
    under: &Under<'_>,
    number: u32,
    grid: &Grid,
    request: &Request,
    own: &TableOptions,
) -> Result<Answer, FoundFault>
    requires grid { grid.now ≡ all_ends under.now.road.network.segments }
    requires fitting { IsFitting request.now }
    requires recent { IsRecent number request.now }
    requires service { request.now.service ≡ Table own.now }
    ensures says { IfOk result (SaysTable under.now.road number request.now own.now) }
    ensures status { IfOk result (λ answer. answer.status ≡ status_of answer.code) }
    ensures err { IfErr result (IsFoundFault under.now.road number request.now) }
{
    // a vertex is twice a segment, and fits its type
    let network = under.network();
    prove!(network.segments() < 1 << 30);
    let places = places_of(alloc, under, grid, request)?;
    let sources = ends_of(alloc, &own.sources, request, &places)?;
    let destinations = ends_of(alloc, &own.destinations, request, &places)?;
    let rows = cost_rows(rt, alloc, under, &sources.places, &destinations.places)?;
    let text = table_text(
        alloc,
        network,
        number,
        request,
        own.annotations,
        rows.as_slice(),
        &Stops {
            coordinates: &sources.coordinates,
            places: &sources.places,
        },
        &Stops {
            coordinates: &destinations.coordinates,
            places: &destinations.places,
        },
    )?;
    Ok(Answer {
        code: Code::Ok,
        status: 200,
        places: Places::of(places),
        walks: Walks::of(Vec::new(alloc)),
        text: Text::of(text),
    })
}

// The chosen coordinates of a request, and their places.
struct Ends {
    coordinates: Vec<Point>,
    places: Vec<Place>,
}

impl Drop for Ends {
    fn drop(self) {
        let Ends {
            coordinates: _coordinates,
            places: _places,
        } = self;
    }
}

// Those that are chosen of the coordinates of a request, which have these places.
fn ends_of(
    alloc: Global,
    which: &Chosen,
    request: &Request,
    places: &[Place],
) -> Result<Ends, AllocError>
    requires there { AreThere (length request.now.points) which.now }
    requires one_each { length places.now ≡ length request.now.points }
    ensures coordinates { IfOk result (λ ends. ends.coordinates.items ≡ chosen_from which.now request.now.points) }
    ensures places { IfOk result (λ ends. ends.places.items ≡ chosen_from which.now places.now) }
{
    let coordinates = chosen_from(alloc, which, request.points.as_slice())?;
    let places = chosen_from(alloc, which, places)?;
    Ok(Ends {
        coordinates,
        places,
    })
}
