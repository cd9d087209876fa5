//! A law of how a run to serve ends, for readers.

ghost use Rattle.command_words.specs.Commands.{Serving};
ghost use Rattle.road_io.specs.DoorOpening.{DoorsView};
ghost use Rattle.road_io.specs.Outside.{Outside};
ghost use Rattle.serve_command.specs.SteadyLaws.{NeverOutside};

/// Where files, output and doors never fail, as `SteadyFiles`, `SteadySink` and `SteadyDoors`, no run to serve ends with
/// status 1. The contract is the law; there is nothing to do.
pub fn steady_runs_never_end_for_the_outside()
    ensures { (words : Serving) (before after : Outside) (doors now : DoorsView) → NeverOutside words before after doors now }
{}
