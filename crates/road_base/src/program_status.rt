//! How the program ends.

ghost use Rattle.std.specs.Prelude.{◌≡◌};
ghost use Rattle.road_base.specs.StatusCode.{code_of};

/// How the program ends.
#[derive(Clone, Copy, Debug, PartialEq, Eq)]
pub enum Status {
    /// All was done and written.
    Ok,
    /// The input, the output, a file or a door failed.
    Outside,
    /// The words of the command line name no command.
    Words,
    /// The map, the settings, a traffic file or a limit refuses.
    Refused,
    /// There was no memory outside of a single answer.
    Memory,
}

impl Status {
    /// The exit status that the operating system is told: 0 where all was done, and 1 to 4 for what
    /// stopped the program.
    pub fn exit_code(self) -> u8
        ensures { result ≡ code_of self }
    {
        match self {
            Status::Ok => 0,
            Status::Outside => 1,
            Status::Words => 2,
            Status::Refused => 3,
            Status::Memory => 4,
        }
    }
}
