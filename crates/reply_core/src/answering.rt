//! Answers to targets and to lines.

ghost use Rattle.std.specs.Prelude.{◌≡◌, IfOk, option_map};
ghost use Rattle.snap_index.specs.Ends.{all_ends};
ghost use Rattle.reply_core.specs.Answers.{IsAnswer, IsLineAnswer, Refuses, code_of, status_of};
ghost use Rattle.reply_core.specs.Request.{target_of};
ghost use Rattle.refusal_texts.specs.Refusals.{bad_request_value, refusal_value};
ghost use Rattle.refusal_texts.specs.declared.reply_codes.Code.TheVariants as code;

use crate::answers::{Answer, ReplyFault};
use crate::excluding_answers::excluding_answer;
use crate::request_answers::refusal;
use customized::Metric;
use metric_publish::Held;
use refusal_texts::{Code, bad_request_text, refusal_text};
use snap_index::Grid;
use std::alloc::{AllocError, Global};
use std::thread::Threads;
use url_read::{Refusal, RefusalCode, RequestFault, request};

/// How many bytes a line may have.
const LONGEST_LINE: usize = 8192;

/// The answer to a target under what was published: a refusal with status 400 for a target that is no request,
/// for a request that excludes classes of ways which are no set of the profile, or under the metric for those who
/// avoid them for a request that asks for a higher number, for the first coordinate that has no place, for the first leg of a
/// route that has no permitted walk or, where its legs are to be one walk, behind which none reaches, or where each trip has
/// such a leg, the first that applies; else, with status 200, a least route, a table of what least walks cost, its rows side
/// by side in threads, the nearest places, or the best trip. The grid is that of the metric's network.
///
/// It answers `Memory` only where memory runs out.
pub fn answer(
    rt: &(impl Threads + Sync),
    alloc: Global,
    held: &Held<Metric>,
    grid: &Grid,
    target: &[u8],
) -> Result<Answer, ReplyFault>
    requires { grid.now ≡ all_ends held.now.value.road.network.segments }
    ensures says { IfOk result (IsAnswer held.now.value.road held.now.number target.now) }
    ensures status { IfOk result (λ answer. answer.status ≡ status_of answer.code) }
{
    target_answer(rt, alloc, held.value(), held.number(), grid, target)
}

/// The answer to a line, which stands without its newline: `answer`'s to the target of a line `GET TARGET` that
/// is text of at most 8192 bytes, blanks in the target included. Any other line is refused with `BadRequest`
/// and status 400.
///
/// It answers `Memory` only where memory runs out.
pub fn line_answer(
    rt: &(impl Threads + Sync),
    alloc: Global,
    held: &Held<Metric>,
    grid: &Grid,
    line: &[u8],
) -> Result<Answer, ReplyFault>
    requires { grid.now ≡ all_ends held.now.value.road.network.segments }
    ensures says { IfOk result (IsLineAnswer held.now.value.road held.now.number line.now) }
    ensures status { IfOk result (λ answer. answer.status ≡ status_of answer.code) }
{
    match target_in(line) {
        Some(target) => answer(rt, alloc, held, grid, target),
        None => Ok(bad_request(alloc)?),
    }
}

// The answer to a target under a metric of this number.
fn target_answer(
    rt: &(impl Threads + Sync),
    alloc: Global,
    metric: &Metric,
    number: u32,
    grid: &Grid,
    target: &[u8],
) -> Result<Answer, ReplyFault>
    requires { grid.now ≡ all_ends metric.now.road.network.segments }
    ensures says { IfOk result (IsAnswer metric.now.road number target.now) }
    ensures status { IfOk result (λ answer. answer.status ≡ status_of answer.code) }
{
    match request(alloc, target) {
        Ok(request) => excluding_answer(rt, alloc, metric, number, grid, &request),
        Err(RequestFault::Refused(refusal)) => Ok(refused(alloc, refusal)?),
        Err(RequestFault::Memory) => Err(ReplyFault::Memory),
    }
}

// The target that a line asks for, or None where the line is of another form.
fn target_in(line: &[u8]) -> Option<&[u8]>
    ensures { option_map (λ target. target.now) result ≡ target_of line.now }
{
    if line.len() > LONGEST_LINE || std::str::from_utf8(line).is_err() {
        return None;
    }
    line.strip_prefix(b"GET ")
}

// The target is refused.
fn refused(alloc: Global, refused: Refusal) -> Result<Answer, AllocError>
    ensures says { IfOk result (λ answer. Refuses answer (code_of refused.code) (refusal_value (code_of refused.code) refused.message)) }
    ensures status { IfOk result (λ answer. answer.status ≡ status_of answer.code) }
{
    let code = code_of(refused.code);
    let text = refusal_text(alloc, code, refused.message.as_str())?;
    Ok(refusal(alloc, code, text))
}

// The code of the answer to a target that is refused.
fn code_of(kind: RefusalCode) -> Code
    ensures { result ≡ code_of kind }
{
    match kind {
        RefusalCode::InvalidUrl => Code::InvalidUrl,
        RefusalCode::InvalidService => Code::InvalidService,
        RefusalCode::InvalidVersion => Code::InvalidVersion,
        RefusalCode::InvalidOptions => Code::InvalidOptions,
        RefusalCode::InvalidQuery => Code::InvalidQuery,
        RefusalCode::InvalidValue => Code::InvalidValue,
        RefusalCode::TooBig => Code::TooBig,
    }
}

// The line is of no form.
fn bad_request(alloc: Global) -> Result<Answer, AllocError>
    ensures says { IfOk result (λ answer. Refuses answer code.BadRequest bad_request_value) }
    ensures status { IfOk result (λ answer. answer.status ≡ status_of answer.code) }
{
    let text = String::from_str(alloc, bad_request_text())?;
    Ok(refusal(alloc, Code::BadRequest, text))
}
