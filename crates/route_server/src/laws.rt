//! Laws of the inputs of connections, for readers.

ghost use Rattle.std.specs.Prelude.{ℕ, List};
ghost use Rattle.customized.specs.Exact.{Customized};
ghost use Rattle.customized.specs.Framing.{RoadsView};
ghost use Rattle.http_session.specs.Exchanges.{Exchange};
ghost use Rattle.http_session.specs.declared.ended.Ended.{Ended};
ghost use Rattle.route_server.specs.ControlEnds.{ControlEndSame, exchanges_of};
ghost use Rattle.route_server.specs.ControlRule.{DeskState};
ghost use Rattle.route_server.specs.CutLaws.{AreSameRequests};
ghost use Rattle.route_server.specs.EndLaws.{EndSame};
ghost use Rattle.route_server.specs.RoadLaws.{IsControlCut, IsQueryCut, RoadRun, RouteRun};
ghost use Rattle.route_server.specs.Seats.{SeatState};
ghost use Rattle.route_server.specs.declared.control_serving.ControlEnded.{ControlEnded};

/// The cut of an input into requests is the only one: of a query connection's into heads, and of a control connection's
/// into heads and the bodies that they announce. Two lists of exchanges over the same bytes, behind which no whole
/// request is left, have the same heads and bodies, one by one, whatever the boards, the roads and the replies. The
/// contract is the law; there is nothing to do.
pub fn inputs_have_one_cut()
    ensures query { (bytes : List ℕ) (xs ys : List (Exchange (SeatState Customized))) →
        IsQueryCut bytes xs → IsQueryCut bytes ys → AreSameRequests xs ys }
    ensures control { (roads others : RoadsView) (bytes : List ℕ) (xs ys : List (Exchange (DeskState Customized))) →
        IsControlCut roads bytes xs → IsControlCut others bytes ys → AreSameRequests xs ys }
{}

/// The input alone tells which requests are answered and how the connection ends, where nothing fails. Two connections
/// with the same input that both end without a fault have the same requests, one by one, whatever the boards, the roads
/// and the replies, and however the input came in pieces. And they end the same, but
///
/// - where the input ends on bytes that no bytes make a head of, and that end inside a target or have more than 64
///   fields: there `CutShort` or `HeadBad` is the parser's choice;
/// - where the last request is a stop: there it is `Closed` in place of `Stopped` if there was no memory for it.
///
/// The contract is the law; there is nothing to do.
pub fn inputs_tell_their_ends()
    ensures query { (input : List ℕ) (how other : Ended) (one : RouteRun input how) (two : RouteRun input other) →
        EndSame how other × AreSameRequests one.run.session.exchanges two.run.session.exchanges }
    ensures control { (roads others : RoadsView) (input : List ℕ) (how other : ControlEnded) (one : RoadRun roads input how) (two : RoadRun others input other) →
        ControlEndSame how (exchanges_of one) other (exchanges_of two) × AreSameRequests (exchanges_of one) (exchanges_of two) }
{}
