//! What carries out control requests.

ghost use Rattle.std.specs.Prelude.{◌≡◌, IfOk, OnErr};
ghost use Rattle.std.specs.Thread.{IsSync};
ghost use Rattle.control_port.specs.Asking.{IsBodyOf};
ghost use Rattle.route_server.specs.ControlRule.{ControlSays, IsCarriedOut};

use control_port::ControlHead;
use metric_publish::{Kindred, Publishing};
use std::alloc::{AllocError, Global};
use std::thread::Threads;

/// What carries out control requests on a desk.
pub trait Controlling<V: Kindred> {
    /// Which status and body are said of a request with its body, and which list of publications stands then.
    ghost controls: { Self → ControlSays V };

    /// What it may publish.
    ghost makes: { Self → V → Type 0 };

    /// Carries out a request with its body, and makes the whole reply. It answers an error only where memory runs
    /// out, and then the list is as before: all its room is taken before the list changes. It may start threads, and
    /// wait by the handle where the desk does.
    fn control<R: Threads + Sync, P: Publishing<V, R>>(
        &self,
        rt: &R,
        alloc: Global,
        desk: &mut P,
        request: ControlHead,
        body: &[u8],
        close: bool,
    ) -> Result<Vec<u8>, AllocError>
        requires shared { IsSync R.row }
        requires body { IsBodyOf request body.now }
        requires makes { (x : V) → makes self.now x → P.kin desk.old x }
        ensures controlled { IfOk result (λ reply. IsCarriedOut (controls self.now) (P.list desk.old) (P.list desk.new) request body.now close reply.items) }
        ensures busy { OnErr result (P.list desk.new ≡ P.list desk.old) }
        ensures kin_stays { (x : V) → P.kin desk.old x → P.kin desk.new x };
}
