//! What became of a request, as replies say it: codes, what a request lacks under a metric, and the texts of replies
//! without a result, in the form of OSRM's HTTP API, version 1.
//!
//! [`lack_text`] and [`refusal_text`] write these whole; [`bad_request_text`] and [`busy_text`] never change. A reply
//! with a result begins by [`begin_version_reply`]. To be read in this order: `specs/Codes`, `Refusals`.
//!
//! Which reply is due is not known here, nor what results say.
#![tactic(auto)]

mod lacks;
mod refusals;
mod reply_codes;

pub use lacks::Lack;
pub use refusals::{bad_request_text, begin_version_reply, busy_text, lack_text, refusal_text};
pub use reply_codes::Code;
