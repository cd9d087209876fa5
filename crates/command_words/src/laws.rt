//! Laws of the definitions, for readers.

ghost use Rattle.std.specs.Prelude.{◌≡◌, List, [], IsSome, Some};
ghost use Rattle.clap.specs.Words.{Text, fault_of};
ghost use Rattle.command_words.specs.CommandLine.{road_router};
ghost use Rattle.command_words.specs.Commands.{Command, HasNumbers, command_of};

/// Words that `clap` takes make a command; so words make none exactly where it refuses them.
pub fn taken_words_make_a_command()
    ensures { (words : List Text) → fault_of road_router words ≡ [] → IsSome (command_of words) }
{}

/// Words that make a command which serves make one with 1 to 64 workers; one over a generated town has a number from 2
/// to 1000.
pub fn made_commands_have_their_numbers()
    ensures { (words : List Text) (command : Command) → command_of words ≡ Some command → HasNumbers command }
{}
