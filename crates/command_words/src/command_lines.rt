//! The command line, as `clap` takes it.

ghost use Rattle.std.specs.Prelude.{◌≡◌, codes, false, IfOk};
ghost use Rattle.clap.specs.Words.{app_of, rule_of, with_rule, with_subcommand};
ghost use Rattle.clap.specs.declared.builder.command.Command.TheViews.{out-Command};
ghost use Rattle.command_words.specs.CommandLine.{addresses_app, file_rule, files_app, files_router, maps_router, needed_rule, number_rule, option_rule, plain_app, road_router, serve_app, town_app, workers_rule};

use clap::{Arg, ArgAction, Command, value_parser};
use std::alloc::{AllocError, Global};

// A file, which must be named.
fn file<'a>(alloc: Global, name: &'a str) -> Arg<'a>
    ensures rule { rule_of result ≡ file_rule name.entry.now }
    ensures local { result.global ≡ false }
{
    Arg::new(alloc, name).required(true).action(ArgAction::Set)
}

// An option of this name with a value.
fn option<'a>(alloc: Global, name: &'a str) -> Arg<'a>
    ensures rule { rule_of result ≡ option_rule name.entry.now }
    ensures local { result.global ≡ false }
{
    Arg::new(alloc, name).long(name).action(ArgAction::Set)
}

// The same, which must be given.
fn needed<'a>(alloc: Global, name: &'a str) -> Arg<'a>
    ensures rule { rule_of result ≡ needed_rule name.entry.now }
    ensures local { result.global ≡ false }
{
    option(alloc, name).required(true)
}

// The option for how many workers there are.
fn workers<'a>(alloc: Global) -> Arg<'a>
    ensures rule { rule_of result ≡ workers_rule }
    ensures local { result.global ≡ false }
{
    option(alloc, "workers")
        .default_value("4")
        .value_parser(value_parser!(u32).range(1..=64))
}

// The command that takes this argument as well.
fn taking<'a>(command: Command<'a>, arg: Arg<'a>) -> Result<Command<'a>, AllocError>
    requires command_local { (out-Command command).has_globals ≡ false }
    requires arg_local { arg.global ≡ false }
    ensures app { IfOk result (λ c. app_of c ≡ with_rule (app_of command.entry) (rule_of arg.entry)) }
    ensures local { IfOk result (λ c. (out-Command c).has_globals ≡ false) }
{
    command.arg(arg)
}

// The command that has this one below it as well.
fn above<'a>(command: Command<'a>, below: Command<'a>) -> Result<Command<'a>, AllocError>
    requires local { (out-Command command).has_globals ≡ false }
    requires below_local { (out-Command below).has_globals ≡ false }
    ensures app { IfOk result (λ c. app_of c ≡ with_subcommand (app_of command.entry) (app_of below.entry).top) }
    ensures local { IfOk result (λ c. (out-Command c).has_globals ≡ false) }
{
    command.subcommand(below)
}

// A command of this name over a map and settings, by the names of their files.
fn over_files<'a>(alloc: Global, name: &'a str) -> Result<Command<'a>, AllocError>
    ensures app { IfOk result (λ c. app_of c ≡ files_app name.entry.now) }
    ensures local { IfOk result (λ c. (out-Command c).has_globals ≡ false) }
{
    let command = taking(Command::new(alloc, name), file(alloc, "opl"))?;
    taking(command, file(alloc, "settings"))
}

// The command that serves at two addresses.
fn at_addresses<'a>(alloc: Global) -> Result<Command<'a>, AllocError>
    ensures app { IfOk result (λ c. app_of c ≡ addresses_app) }
    ensures local { IfOk result (λ c. (out-Command c).has_globals ≡ false) }
{
    let command = taking(over_files(alloc, "serve")?, needed(alloc, "listen"))?;
    taking(command, needed(alloc, "control"))
}

// The same where it may be told how many workers there are.
fn with_workers<'a>(alloc: Global) -> Result<Command<'a>, AllocError>
    ensures app { IfOk result (λ c. app_of c ≡ with_rule addresses_app workers_rule) }
    ensures local { IfOk result (λ c. (out-Command c).has_globals ≡ false) }
{
    taking(at_addresses(alloc)?, workers(alloc))
}

// The same with all that it may be told.
fn serving<'a>(alloc: Global) -> Result<Command<'a>, AllocError>
    ensures app { IfOk result (λ c. app_of c ≡ serve_app) }
    ensures local { IfOk result (λ c. (out-Command c).has_globals ≡ false) }
{
    let command = taking(with_workers(alloc)?, option(alloc, "segment-speed-file"))?;
    taking(command, option(alloc, "turn-penalty-file"))
}

// The number of a town, which must be given.
fn number<'a>(alloc: Global) -> Arg<'a>
    ensures rule { rule_of result ≡ number_rule }
    ensures local { result.global ≡ false }
{
    file(alloc, "n").value_parser(value_parser!(u32).range(2..=1000))
}

// A command of this name over a generated town.
fn over_town<'a>(alloc: Global, name: &'a str) -> Result<Command<'a>, AllocError>
    ensures app { IfOk result (λ c. app_of c ≡ town_app name.entry.now) }
    ensures local { IfOk result (λ c. (out-Command c).has_globals ≡ false) }
{
    taking(Command::new(alloc, name), number(alloc))
}

// The program's command, before what it does stands below it.
fn plain<'a>(alloc: Global) -> Command<'a>
    ensures app { app_of result ≡ plain_app }
    ensures local { (out-Command result).has_globals ≡ false }
{
    Command::new(alloc, "road_router")
        .no_binary_name(true)
        .disable_help_flag(true)
        .disable_help_subcommand(true)
        .subcommand_required(true)
}

// The program's command with the first of the commands over lines.
fn over_check<'a>(alloc: Global) -> Result<Command<'a>, AllocError>
    ensures app { IfOk result (λ c. app_of c ≡ with_subcommand plain_app (files_app (codes "check")).top) }
    ensures local { IfOk result (λ c. (out-Command c).has_globals ≡ false) }
{
    above(plain(alloc), over_files(alloc, "check")?)
}

// The commands over lines.
fn over_lines<'a>(alloc: Global) -> Result<Command<'a>, AllocError>
    ensures app { IfOk result (λ c. app_of c ≡ files_router) }
    ensures local { IfOk result (λ c. (out-Command c).has_globals ≡ false) }
{
    above(over_check(alloc)?, over_files(alloc, "ask")?)
}

// The commands over a map and settings.
fn over_maps<'a>(alloc: Global) -> Result<Command<'a>, AllocError>
    ensures app { IfOk result (λ c. app_of c ≡ maps_router) }
    ensures local { IfOk result (λ c. (out-Command c).has_globals ≡ false) }
{
    above(over_lines(alloc)?, serving(alloc)?)
}

// The same with the town that is written.
fn over_town_written<'a>(alloc: Global) -> Result<Command<'a>, AllocError>
    ensures app { IfOk result (λ c. app_of c ≡ with_subcommand maps_router (town_app (codes "town")).top) }
    ensures local { IfOk result (λ c. (out-Command c).has_globals ≡ false) }
{
    above(over_maps(alloc)?, over_town(alloc, "town")?)
}

/// The command line of the program, without the program's name.
pub fn command_line<'a>(alloc: Global) -> Result<Command<'a>, AllocError>
    ensures app { IfOk result (λ c. app_of c ≡ road_router) }
    ensures local { IfOk result (λ c. (out-Command c).has_globals ≡ false) }
{
    above(over_town_written(alloc)?, over_town(alloc, "drill")?)
}
