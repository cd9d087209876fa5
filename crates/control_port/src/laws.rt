//! Laws of what control requests do, for readers.

ghost use Rattle.std.specs.Prelude.{◌≡◌, ℕ, List};
ghost use Rattle.customized.specs.Framing.{RoadsView};
ghost use Rattle.control_port.specs.Controlling.{Board, IsControlled};
ghost use Rattle.control_port.specs.ManyControls.{Answered, AreControlled, GrewFromScratch};
ghost use Rattle.control_port.specs.declared.asking.ControlHead.{ControlHead};
ghost use Rattle.control_port.specs.declared.controlled.Controlled.{Controlled};

/// A request with its body has one answer, and one list of publications stands after it. So each answer comes exactly
/// where the rule gives it. The contract is the law; there is nothing to do.
pub fn requests_have_one_answer()
    ensures { (roads : RoadsView) (before : Board) (request : ControlHead) (body : List ℕ) (a b : Controlled) (x y : Board) →
        IsControlled roads before request body a x → IsControlled roads before request body b y → (a ≡ b) × (x ≡ y) }
{}

/// After any requests, accepted or not, the list of publications has grown by those of the accepted ones alone, one for
/// one and in their order: each is the metric that its own request's files make from the profile, whatever was
/// published before, under the next number, and that number was answered. The contract is the law; there is nothing
/// to do.
pub fn publications_are_from_scratch()
    ensures { (roads : RoadsView) (before : Board) (all : List Answered) (after : Board) →
        AreControlled roads before all after → GrewFromScratch roads before all after }
{}
