//! Query connections: HTTP requests for routes, and the replies to them. Control connections: requests for new
//! metrics and to stop.
//!
//! [`serve_connection`] serves one connection from its first byte to its end, over any connection, however its
//! input is cut into pieces, and over any seat of a board: each request is answered under the publication that
//! stands last when it is answered. What answers a target stands behind the trait [`Answering`], and
//! [`serve_with`] is the same over any of these.
//!
//! `specs/QueryRule` has the rule of one exchange, `specs/Sessions` what a whole connection is, and
//! `specs/Transcripts` what is left of one that is finished.
//!
//! [`serve_control`] serves one control connection likewise, over any desk of a board. What carries out its requests
//! stands behind the trait [`Controlling`], and [`control_with`] is the same over any of these. `specs/ControlRule`
//! has the rule of one exchange, `specs/ControlSessions` what a whole connection is, and which list of publications
//! finished ones lead to.
//!
//! On both kinds of connection the cut of the input into requests is the only one ([`inputs_have_one_cut`]), and where
//! nothing fails the input alone tells which requests are answered and how the connection ends
//! ([`inputs_tell_their_ends`]). `specs/HeadRules` has what the head of a request tells on each kind, and both laws are
//! over that (`specs/CutLaws`, `specs/EndLaws`).
#![tactic(auto)]

mod answering;
mod control_connections;
mod control_requests;
mod control_serving;
mod controlling;
mod laws;
mod route_connections;
mod serving;

pub use answering::{Answering, Said};
pub use control_connections::serve_control;
pub use control_serving::{ControlEnded, control_with};
pub use controlling::Controlling;
pub use http_session::Ended;
pub use laws::{inputs_have_one_cut, inputs_tell_their_ends};
pub use route_connections::serve_connection;
pub use serving::serve_with;
