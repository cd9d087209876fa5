//! Answers to requests.

ghost use Rattle.std.specs.Prelude.{◌≡◌, IfOk, IfErr, string_bytes};
ghost use Rattle.json_text.specs.Values.{JsonValue, compact_text};
ghost use Rattle.snap_index.specs.Ends.{all_ends};
ghost use Rattle.url_read.specs.Request.{IsFitting};
ghost use Rattle.reply_core.specs.Answers.{IsReply, Refuses, SaysFound, status_of};
ghost use Rattle.reply_core.specs.Faults.{IsFoundFault};
ghost use Rattle.reply_core.specs.Lacks.{IsRecent};

use crate::answers::{Answer, Places, ReplyFault, Walks};
use crate::lacks::FoundFault;
use crate::nearest_answers::nearest_answer;
use crate::route_answers::route_answer;
use crate::table_answers::table_answer;
use crate::trip_answers::trip_answer;
use customized::Under;
use refusal_texts::{Code, Lack, lack_text};
use road_base::Text;
use snap_index::Grid;
use std::alloc::Global;
use std::thread::Threads;
use url_read::{Request, Service};

/// The answer to a request under a metric of this number: what its service is asked for, or what is lacking.
pub(crate) fn request_answer(
    rt: &(impl Threads + Sync),
    alloc: Global,
    under: &Under<'_>,
    number: u32,
    grid: &Grid,
    request: &Request,
) -> Result<Answer, ReplyFault>
    requires grid { grid.now ≡ all_ends under.now.road.network.segments }
    requires fitting { IsFitting request.now }
    ensures says { IfOk result (IsReply under.now.road number request.now) }
    ensures status { IfOk result (λ answer. answer.status ≡ status_of answer.code) }
{
    match recent_answer(rt, alloc, under, number, grid, request) {
        Ok(answer) => Ok(answer),
        Err(FoundFault::Lacks(lack)) => {
            let text = lack_text(alloc, number, lack)?;
            Ok(refusal(alloc, lack.code(), text))
        }
        Err(FoundFault::Memory) => Err(ReplyFault::Memory),
    }
}

// The answer with what a request asks for under a metric of this number, which is recent enough, or what is lacking.
fn recent_answer(
    rt: &(impl Threads + Sync),
    alloc: Global,
    under: &Under<'_>,
    number: u32,
    grid: &Grid,
    request: &Request,
) -> Result<Answer, FoundFault>
    requires grid { grid.now ≡ all_ends under.now.road.network.segments }
    requires fitting { IsFitting request.now }
    ensures says { IfOk result (SaysFound under.now.road number request.now request.now.service) }
    ensures status { IfOk result (λ answer. answer.status ≡ status_of answer.code) }
    ensures err { IfErr result (IsFoundFault under.now.road number request.now) }
{
    if request.since > number {
        return Err(FoundFault::Lacks(Lack::Ahead(request.since)));
    }
    found_answer(rt, alloc, under, number, grid, request)
}

// The same of a request whose metric is recent enough.
fn found_answer(
    rt: &(impl Threads + Sync),
    alloc: Global,
    under: &Under<'_>,
    number: u32,
    grid: &Grid,
    request: &Request,
) -> Result<Answer, FoundFault>
    requires grid { grid.now ≡ all_ends under.now.road.network.segments }
    requires fitting { IsFitting request.now }
    requires recent { IsRecent number request.now }
    ensures says { IfOk result (SaysFound under.now.road number request.now request.now.service) }
    ensures status { IfOk result (λ answer. answer.status ≡ status_of answer.code) }
    ensures err { IfErr result (IsFoundFault under.now.road number request.now) }
{
    match &request.service {
        Service::Route(own) => route_answer(rt, alloc, under, number, grid, request, own),
        Service::Table(own) => table_answer(rt, alloc, under, number, grid, request, own),
        Service::Nearest(own) => nearest_answer(alloc, under, number, grid, request, own),
        Service::Trip(own) => trip_answer(rt, alloc, under, number, grid, request, own),
    }
}

/// An answer without places and walks.
pub(crate) fn refusal(alloc: Global, code: Code, text: String) -> Answer
    ensures says { (value : JsonValue) → string_bytes text ≡ compact_text value → Refuses result code value }
    ensures status { result.status ≡ status_of result.code }
{
    Answer {
        code,
        status: status_of(code),
        places: Places::of(Vec::new(alloc)),
        walks: Walks::of(Vec::new(alloc)),
        text: Text::of(text),
    }
}

// The status of an answer of this code.
fn status_of(code: Code) -> u32
    ensures { result ≡ status_of code }
{
    match code {
        Code::Ok => 200,
        _ => 400,
    }
}
