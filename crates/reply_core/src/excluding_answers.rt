//! Answers to requests, for those who avoid the classes of ways that a request excludes.

ghost use Rattle.std.specs.Prelude.{◌≡◌, IfOk, codes};
ghost use Rattle.class_sets.specs.Sets.{set_among};
ghost use Rattle.refusal_texts.specs.Refusals.{refusal_value};
ghost use Rattle.refusal_texts.specs.declared.reply_codes.Code.TheVariants as code;
ghost use Rattle.snap_index.specs.Ends.{all_ends};
ghost use Rattle.url_read.specs.Request.{IsFitting};
ghost use Rattle.reply_core.specs.Answers.{IsReplyExcluding, Refuses, status_of};

use crate::answers::{Answer, ReplyFault};
use crate::request_answers::{refusal, request_answer};
use class_sets::find;
use customized::Metric;
use refusal_texts::{Code, refusal_text};
use road_base::Words;
use snap_index::Grid;
use std::alloc::{AllocError, Global};
use std::thread::Threads;
use url_read::Request;
use way_profile::Profile;

/// The answer to a request under a metric of this number, as those have it who avoid the set of classes that the
/// request excludes, or all where it excludes none; or that there is no such set.
pub(crate) fn excluding_answer(
    rt: &(impl Threads + Sync),
    alloc: Global,
    metric: &Metric,
    number: u32,
    grid: &Grid,
    request: &Request,
) -> Result<Answer, ReplyFault>
    requires grid { grid.now ≡ all_ends metric.now.road.network.segments }
    requires fitting { IsFitting request.now }
    ensures says { IfOk result (IsReplyExcluding metric.now.road number request.now request.now.exclude) }
    ensures status { IfOk result (λ answer. answer.status ≡ status_of answer.code) }
{
    let Some(names) = &request.exclude else {
        let under = metric.under(None);
        return request_answer(rt, alloc, &under, number, grid, request);
    };
    match set_of(metric.network().profile(), names)? {
        Some(set) => {
            let under = metric.under(Some(set));
            request_answer(rt, alloc, &under, number, grid, request)
        }
        None => Ok(no_set(alloc)?),
    }
}

// The number of the set of a profile that has these names. A profile of more sets than a number can tell finds no
// memory, as no metric of it does.
fn set_of(profile: &Profile, names: &Words) -> Result<Option<u32>, AllocError>
    ensures { IfOk result (λ set. set ≡ set_among profile.now.excludable names.now) }
{
    let sets = profile.excludable();
    let Ok(_count) = u32::try_from(sets.len()) else {
        return Err(AllocError);
    };
    Ok(find(sets, names))
}

// The classes that are excluded are no set of the profile.
fn no_set(alloc: Global) -> Result<Answer, AllocError>
    ensures says { IfOk result (λ answer. Refuses answer code.InvalidValue (refusal_value code.InvalidValue (codes "exclude"))) }
    ensures status { IfOk result (λ answer. answer.status ≡ status_of answer.code) }
{
    let text = refusal_text(alloc, Code::InvalidValue, "exclude")?;
    Ok(refusal(alloc, Code::InvalidValue, text))
}
