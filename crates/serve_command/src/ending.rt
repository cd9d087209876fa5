//! What is done once serving has ended: the doors go back, and the last lines are printed.

ghost use Rattle.std.specs.Prelude.{◌≡◌, ◌+◌, ◌-◌, ◌<◌, ◌≤◌, ◌++◌, ◌↔◌, IsTrue, OnOk, OnErr, codes, length, map};
ghost use Rattle.std.specs.Fmt.{decimal};
ghost use Rattle.std.specs.Io.KnownBytes.{Appends};
ghost use Rattle.road_io.specs.DoorOpening.{BackGives, door_set, faults_of};
ghost use Rattle.road_io.specs.Faults.{HasCause};
ghost use Rattle.road_io.specs.Told.{AppendsFront};
ghost use Rattle.serve_command.specs.InnerEnds.{EndsLines};
ghost use Rattle.serve_command.specs.ServeEnding.{last_lines};

use door_workers::Served;
use program_ends::{end_exhausted, put_line};
use road_base::Status;
use road_io::{Closer, DoorSet, Doors, Failed, Opened, Sink, any_fault};

/// What serving came to, once its doors are back.
#[derive(Clone, Copy, Debug)]
pub struct Told {
    /// How many connections were finished.
    pub connections: u64,
    /// The number of the last publication.
    pub metric: u32,
    /// That a seat's last Enter found no memory.
    pub short: bool,
    /// That a door has counted a fault.
    pub rose: bool,
}

/// Gives the doors back that were served.
pub fn take_back<N: Doors>(doors: &mut N, served: Served<N::Door, N::Closer>) -> Told
    requires out { length served.doors.queries.items + 1 ≤ (N.Doors.view doors.old).out }
    ensures back { BackGives (N.Doors.view doors.old) (door_set (map N.Door.view served.doors.queries.items) (N.Door.view served.doors.control)) (N.Doors.view doors.new) }
    ensures numbers { (result.connections ≡ served.connections) × (result.metric ≡ served.metric) }
    ensures short { result.short ≡ served.short }
    ensures rose { IsTrue result.rose ↔ (0 < faults_of (door_set (map N.Door.view served.doors.queries.items) (N.Door.view served.doors.control))) }
{
    let Served {
        connections,
        metric,
        doors: DoorSet { queries, control },
        closer,
        short,
    } = served;
    let rose = any_fault(&queries, &control);
    doors.back(queries, control);
    if let Some(closer) = closer {
        closer.close();
    }
    Told {
        connections,
        metric,
        short,
        rose,
    }
}

/// Gives the doors back as they were opened.
pub fn hand_back<N: Doors>(doors: &mut N, opened: Opened<N::Door, N::Closer>)
    requires out { length opened.queries.items + 1 ≤ (N.Doors.view doors.old).out }
    ensures { BackGives (N.Doors.view doors.old) (door_set (map N.Door.view opened.queries.items) (N.Door.view opened.control)) (N.Doors.view doors.new) }
{
    let Opened {
        queries,
        control,
        closer,
    } = opened;
    closer.close();
    doors.back(queries, control);
}

// Puts the last two lines.
fn put_numbers<O: Sink>(output: &mut O, connections: u64, metric: u32) -> Result<(), Failed>
    ensures all { OnOk result (Appends (O.view output.old).written (O.view output.new).written (last_lines connections metric)) }
    ensures part { OnErr result (AppendsFront (O.view output.old).written (O.view output.new).written (last_lines connections metric)) }
    ensures cause { HasCause (O.view output.old).faults (O.view output.new).faults result }
{
    let mut digits = itoa::Buffer::new();
    put_line(output, b"connections ", digits.format(connections))?;
    put_line(output, b"metric ", digits.format(metric))
}

/// Puts the last lines, and says how the run ended.
pub fn end_served<O: Sink>(output: &mut O, told: Told) -> Status
    ensures { EndsLines told.short told.rose (last_lines told.connections told.metric) result (O.view output.old) (O.view output.new) }
{
    match put_numbers(output, told.connections, told.metric) {
        Ok(()) if told.short => end_exhausted(output),
        Ok(()) if told.rose => Status::Outside,
        Ok(()) => Status::Ok,
        Err(_) if told.short => Status::Memory,
        Err(_) => Status::Outside,
    }
}
