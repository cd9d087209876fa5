//! All that the program does, over what is handed in.

ghost use Rattle.std.specs.Prelude.{◌≡◌, ◌⊎◌, map, string_bytes};
ghost use Rattle.road_io.specs.Faults.{FilesRose, InputRose, OutputRose, Rose};
ghost use Rattle.road_io.specs.Outside.{outside};
ghost use Rattle.road_io.specs.Views.{InputView};
ghost use Rattle.command_words.specs.Commands.{command_of};
ghost use Rattle.map_loading.specs.Counting.{check_text};
ghost use Rattle.map_loading.specs.Loading.{load_of};
ghost use Rattle.road_run.specs.AskEnding.{EndsAsk};
ghost use Rattle.road_run.specs.CheckEnding.{EndsCheck};
ghost use Rattle.road_run.specs.Ending.{EndsRun};
ghost use Rattle.road_run.specs.InnerEnds.{EndsCountOver, EndsFrom, EndsOver};
ghost use Rattle.road_run.specs.TownEnding.{EndsPut};

use crate::towns::{drill, town};
use command_words::{Words, WordsFault, read_words};
use line_session::{Published, Stop, answer_lines};
use map_loading::{LoadFault, Loaded, check_text, load};
use program_ends::{close, end_exhausted, end_refused, end_unread, read_both};
use road_base::Status;
use road_io::{Door, Doors, FileFault, Files, Gate, Sink, Source, put_all};
use serve_command::serve;
use std::alloc::Global;
use std::net::{Net, TcpListener, TcpStream};
use std::sync::Wait;
use std::thread::Threads;

/// The usage line.
pub const USAGE: &[u8] =
    b"usage: road_router check OPL SETTINGS | ask OPL SETTINGS | serve OPL SETTINGS --listen A --control B [--workers N] [--segment-speed-file F] [--turn-penalty-file F] | town N | drill N\n";

/// The line for an input of 2^63 bytes or more.
const LONG: &[u8] = b"input too long\n";

// Answers the lines of the input from a publication on, and puts the line on which that ends.
fn answer<R: Threads + Sync, F: Files, I: Source, O: Sink>(
    rt: &R,
    alloc: Global,
    published: &mut Published,
    files: &mut F,
    input: &mut I,
    output: &mut O,
) -> Status
    ensures { EndsFrom result published.old (outside (F.view files.old) (I.view input.old) (O.view output.old))
        (outside (F.view files.new) (I.view input.new) (O.view output.new)) }
{
    match answer_lines(rt, alloc, published, files, input, output) {
        Ok(()) => Status::Ok,
        Err(Stop::Input) => Status::Outside,
        Err(Stop::Output) => Status::Outside,
        Err(Stop::File(name)) => end_unread(output, name.as_str(), FileFault::Failed),
        Err(Stop::TooLong) => {
            close(output, LONG);
            Status::Refused
        }
        Err(Stop::Memory) => end_exhausted(output),
    }
}

// Answers lines over a map and settings that were read, or refuses them.
fn ask_over<R: Threads + Sync, F: Files, I: Source, O: Sink>(
    rt: &R,
    alloc: Global,
    map: Vec<u8>,
    settings: &[u8],
    files: &mut F,
    input: &mut I,
    output: &mut O,
) -> Status
    ensures { EndsOver result (load_of map.items settings.now) (outside (F.view files.old) (I.view input.old) (O.view output.old))
        (outside (F.view files.new) (I.view input.new) (O.view output.new)) }
{
    match load(alloc, map, settings) {
        Ok(loaded) => match Published::opening(rt, alloc, loaded.network) {
            Ok(mut published) => answer(rt, alloc, &mut published, files, input, output),
            Err(_) => end_exhausted(output),
        },
        Err(LoadFault::Refused(line)) => end_refused(output, line),
        Err(LoadFault::Memory) => end_exhausted(output),
    }
}

/// Answers the lines of the input over the map and the settings in the files of these names, which are
/// read first, in this order; then those are read that traffic lines name. Metrics are customized in
/// threads. It waits for nobody but the outside.
pub fn ask<R: Threads + Sync, F: Files, I: Source, O: Sink>(
    rt: &R,
    alloc: Global,
    map: &str,
    settings: &str,
    files: &mut F,
    input: &mut I,
    output: &mut O,
) -> Status
    ensures ends { EndsAsk result (outside (F.view files.old) (I.view input.old) (O.view output.old))
        (outside (F.view files.new) (I.view input.new) (O.view output.new)) map.now settings.now }
{
    match read_both(alloc, map, settings, files) {
        Ok((map, settings)) => {
            ask_over(rt, alloc, map, settings.as_slice(), files, input, output)
        }
        Err(unread) => end_unread(output, unread.name, unread.fault),
    }
}

// Puts the counts of what was loaded.
fn put_counts<O: Sink>(alloc: Global, loaded: &Loaded, output: &mut O) -> Status
    ensures { EndsPut result (check_text loaded.now.objects loaded.now.network) (O.view output.old) (O.view output.new) }
{
    let Ok(text) = check_text(alloc, loaded.objects, &loaded.network) else {
        return end_exhausted(output);
    };
    match put_all(output, text.as_bytes()) {
        Ok(()) => Status::Ok,
        Err(_) => Status::Outside,
    }
}

// Counts over a map and settings that were read, or refuses them.
fn check_over<O: Sink>(alloc: Global, map: Vec<u8>, settings: &[u8], output: &mut O) -> Status
    ensures { EndsCountOver result map.items settings.now (O.view output.old) (O.view output.new) }
{
    match load(alloc, map, settings) {
        Ok(loaded) => put_counts(alloc, &loaded, output),
        Err(LoadFault::Refused(line)) => end_refused(output, line),
        Err(LoadFault::Memory) => end_exhausted(output),
    }
}

/// Puts how many objects there are in the map in the file of the first name, and what its network is for
/// the vehicle of the settings in the second: eight lines, and two more where the settings have sets of classes that
/// a request may exclude. The files are read first, in this order. It waits for nobody but the outside.
pub fn check<F: Files, O: Sink>(
    alloc: Global,
    map: &str,
    settings: &str,
    files: &mut F,
    output: &mut O,
) -> Status
    ensures ends { (input : InputView) → EndsCheck result (outside (F.view files.old) input (O.view output.old))
        (outside (F.view files.new) input (O.view output.new)) map.now settings.now }
{
    match read_both(alloc, map, settings, files) {
        Ok((map, settings)) => check_over(alloc, map, settings.as_slice(), output),
        Err(unread) => end_unread(output, unread.name, unread.fault),
    }
}

/// All that the program does: reads the words, does what they ask for over what is handed in, and answers
/// how it ended. The words stand without the program's name.
///
/// There are five commands, `check`, `ask`, `serve`, `town` and `drill`. Doors and gate are touched by `serve` alone,
/// which may wait.
pub fn run<
    F: Files,
    I: Source,
    O: Sink,
    N: Doors,
    G: Gate + Sync,
    R: Threads + Wait + Net<Listener = TcpListener, Stream = TcpStream> + Sync,
>(
    rt: &R,
    alloc: Global,
    words: &[String],
    files: &mut F,
    input: &mut I,
    output: &mut O,
    doors: &mut N,
    gate: &G,
) -> Status
where
    N::Door: Send,
    <N::Door as Door>::Conn: Send,
    ensures ends { EndsRun (command_of (map string_bytes words.now)) result (outside (F.view files.old) (I.view input.old) (O.view output.old))
        (outside (F.view files.new) (I.view input.new) (O.view output.new)) (N.Doors.view doors.old) (N.Doors.view doors.new) }
    ensures outside { result ≡ Status.Outside → FilesRose (F.view files.old) (F.view files.new) ⊎ (InputRose (I.view input.old) (I.view input.new) ⊎ (OutputRose (O.view output.old) (O.view output.new) ⊎ Rose (N.Doors.view doors.old).faults (N.Doors.view doors.new).faults)) }
{
    match read_words(alloc, words) {
        Ok(Words::Check(map, settings)) => check(alloc, map, settings, files, output),
        Ok(Words::Ask(map, settings)) => ask(rt, alloc, map, settings, files, input, output),
        Ok(Words::Serve(what)) => serve(rt, alloc, &what, files, output, doors, gate),
        Ok(Words::Town(n)) => town(alloc, n, output),
        Ok(Words::Drill(n)) => drill(rt, alloc, n, output),
        Err(WordsFault::Unknown) => {
            close(output, USAGE);
            Status::Words
        }
        Err(WordsFault::Memory) => end_exhausted(output),
    }
}
