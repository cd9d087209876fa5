//! The words of the command line.

ghost use Rattle.std.specs.Prelude.{◌≡◌, ◌≢◌, Some, IfOk, IfErr, map, option_map, string_bytes};
ghost use Rattle.std.specs.Option.{option_and_then};
ghost use Rattle.clap.specs.Words.{FailsBy, fault_of, found_of, kind_of, rows_of, subcommand_of, subcommand_rows_of};
ghost use Rattle.command_words.specs.CommandLine.{road_router};
ghost use Rattle.command_words.specs.Commands.{HasNumbers, command_of, command_in, command_over, command_seen, number_in, serving_in, serving_of, serving_seen};
ghost use Rattle.command_words.specs.WordsCause.{IsWordsFault};

use crate::command_lines::command_line;
use clap::ArgMatches;
use clap::error::ErrorKind;
use std::alloc::Global;
use thiserror::Error;

/// What `serve` is told.
#[derive(Clone, Copy, Debug, PartialEq, Eq)]
pub struct ServeWords<'a> {
    /// The name of the file of the map.
    pub map: &'a str,
    /// The name of the file of the settings.
    pub settings: &'a str,
    /// The address at which queries come in.
    pub listen: &'a str,
    /// The address at which the metric is changed and the server stopped.
    pub control: &'a str,
    /// How many connections are answered at a time: 1 to 64.
    pub workers: u32,
    /// The name of the file of the speed rows of the start.
    pub speeds: Option<&'a str>,
    /// The name of the file of the turn rows of the start.
    pub turns: Option<&'a str>,
}

/// What the words ask for.
#[derive(Clone, Copy, Debug, PartialEq, Eq)]
pub enum Words<'a> {
    /// To count what is in the map in the file of the first name, with the settings in the second.
    Check(&'a str, &'a str),
    /// To answer lines over the map and the settings in the files of these names.
    Ask(&'a str, &'a str),
    /// To serve the map at two addresses.
    Serve(ServeWords<'a>),
    /// To write the generated town of this number, from 2 to 1000.
    Town(u32),
    /// To drill on the generated town of this number, from 2 to 1000.
    Drill(u32),
}

/// Why the words were not read.
#[derive(Clone, Copy, Debug, PartialEq, Eq, Error)]
pub enum WordsFault {
    /// They make no command; a call for help is none either.
    #[error("the words make no command")]
    Unknown,
    /// Memory ran out.
    #[error("out of memory")]
    Memory,
}

// How `clap` reads the words.
fn matches_of<'a>(alloc: Global, words: &'a [String]) -> Result<ArgMatches<'a>, clap::Error>
    ensures fails { FailsBy (fault_of road_router (map string_bytes words.entry.now)) result }
    ensures matches { IfOk result (λ m. subcommand_rows_of m ≡ subcommand_of road_router (map string_bytes words.entry.now)) }
{
    let command = command_line(alloc)?;
    command.try_get_matches_from(words)
}

// The command of this name over these files, if there is one.
fn command_over<'a>(
    name: &str,
    map: Option<&'a str>,
    settings: Option<&'a str>,
) -> Option<Words<'a>>
    ensures { option_map command_seen result ≡ command_over name.now (option_map (λ s. s.now) map.entry) (option_map (λ s. s.now) settings.entry) }
{
    let (Some(map), Some(settings)) = (map, settings) else {
        return None;
    };
    match name {
        "check" => Some(Words::Check(map, settings)),
        "ask" => Some(Words::Ask(map, settings)),
        _ => None,
    }
}

// What serves where each of these is there.
fn serving_of<'a>(
    map: Option<&'a str>,
    settings: Option<&'a str>,
    listen: Option<&'a str>,
    control: Option<&'a str>,
    workers: Option<u32>,
    speeds: Option<&'a str>,
    turns: Option<&'a str>,
) -> Option<ServeWords<'a>>
    ensures { option_map serving_seen result ≡ serving_of (option_map (λ s. s.now) map.entry) (option_map (λ s. s.now) settings.entry)
        (option_map (λ s. s.now) listen.entry) (option_map (λ s. s.now) control.entry) workers
        (option_map (λ s. s.now) speeds.entry) (option_map (λ s. s.now) turns.entry) }
{
    Some(ServeWords {
        map: map?,
        settings: settings?,
        listen: listen?,
        control: control?,
        workers: workers?,
        speeds,
        turns,
    })
}

// The number that the matches tell of for an argument, if they do.
fn number_in(values: &ArgMatches<'_>, name: &str) -> Option<u32>
    ensures { result ≡ number_in name.now (rows_of (found_of values.now)) }
{
    values.get_one::<u32>(name)
}

// What the matches of `serve` say, if they say enough.
fn serving_in<'a>(values: &ArgMatches<'a>) -> Option<ServeWords<'a>>
    ensures { option_map serving_seen result ≡ serving_in (rows_of (found_of values.now)) }
{
    serving_of(
        values.get_str("opl"),
        values.get_str("settings"),
        values.get_str("listen"),
        values.get_str("control"),
        number_in(values, "workers"),
        values.get_str("segment-speed-file"),
        values.get_str("turn-penalty-file"),
    )
}

// The command of this name with these values, if there is one.
fn command_named<'a>(name: &str, values: &ArgMatches<'a>) -> Option<Words<'a>>
    ensures { option_map command_seen result ≡ command_in name.now (rows_of (found_of values.now)) }
{
    if name == "serve" {
        Some(Words::Serve(serving_in(values)?))
    } else if name == "town" {
        Some(Words::Town(number_in(values, "n")?))
    } else if name == "drill" {
        Some(Words::Drill(number_in(values, "n")?))
    } else {
        command_over(name, values.get_str("opl"), values.get_str("settings"))
    }
}

// What the matches ask for.
fn command_in<'a>(matches: &ArgMatches<'a>) -> Option<Words<'a>>
    ensures { option_map command_seen result ≡ option_and_then (λ p. command_in p.0 p.1) (subcommand_rows_of matches.now) }
{
    match matches.subcommand() {
        Some((name, values)) => command_named(name, values),
        None => None,
    }
}

/// Reads the words, which stand without the program's name: `clap` takes `check OPL SETTINGS`,
/// `ask OPL SETTINGS` and `serve OPL SETTINGS --listen A --control B`, which may have `--workers N` (a
/// number from 1 to 64, else 4), `--segment-speed-file F` and `--turn-penalty-file F` beside it, and
/// `town N` and `drill N` (a number from 2 to 1000). What it does not take, and only that, is `Unknown`, a
/// call for help too.
pub fn read_words<'a>(alloc: Global, words: &'a [String]) -> Result<Words<'a>, WordsFault>
    ensures read { IfOk result (λ w. command_of (map string_bytes words.entry.now) ≡ Some (command_seen w)) }
    ensures numbers { IfOk result (λ w. HasNumbers (command_seen w)) }
    ensures unknown { IfErr result (IsWordsFault (map string_bytes words.entry.now)) }
{
    let matches = match matches_of(alloc, words) {
        Ok(matches) => matches,
        Err(error) => return Err(fault_of_error(&error)),
    };
    match command_in(&matches) {
        Some(command) => Ok(command),
        // Where `clap` takes the words, they name a command.
        None => unreachable!(),
    }
}

// What an error of `clap` is to the words.
fn fault_of_error(error: &clap::Error) -> WordsFault
    ensures { result ≡ WordsFault.Unknown → kind_of error.now ≢ ErrorKind.OutOfMemory }
{
    match error.kind() {
        ErrorKind::OutOfMemory => WordsFault::Memory,
        _ => WordsFault::Unknown,
    }
}
