//! What answers a target.

ghost use Rattle.std.specs.Prelude.{◌≡◌, ℕ, List, IsTrue, IfOk};
ghost use Rattle.http_head.specs.Replies.{is_status};

use metric_publish::Held;
use road_base::Text;
use std::alloc::{AllocError, Global};

/// The status and the body of a reply.
pub struct Said {
    /// 200, 400 or 503
    pub status: u32,
    pub body: Text,
}

impl Drop for Said {
    fn drop(self) {
        let Said {
            status: _status,
            body: _body,
        } = self;
    }
}

/// What answers targets under a publication.
pub trait Answering<V: Drop> {
    /// The values under which it answers.
    ghost fits: { Self → V → Type 0 };

    /// Which status and body are said of a target, under a value that was published under a number.
    ghost says: { V → ℕ → List ℕ → ℕ → List ℕ → Type 0 };

    /// Answers a target. It answers an error only where memory runs out.
    fn answer(&self, alloc: Global, held: &Held<V>, target: &[u8]) -> Result<Said, AllocError>
        requires { fits self.now held.now.value }
        ensures says { IfOk result (λ s. says held.now.value held.now.number target.now s.status s.body) }
        ensures status { IfOk result (λ s. IsTrue (is_status s.status)) };
}
