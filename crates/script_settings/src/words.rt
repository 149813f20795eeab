//! The command line, by clap.

ghost use Rattle.std.specs.Prelude.{◌≡◌, IfOk, IfErr, OnOk, map};
ghost use Rattle.clap.specs.Words.{found_of, rows_of, app_of, with_rule, FailsBy};
ghost use Rattle.script_settings.specs.CommandLine.{flag_rule, option_rule, matches_in, faults_in, is_set, IsSetTo};
ghost use Rattle.script_settings.specs.Settings.{Sets, IsAlone, IsBeside, IsFaultIn, IsFaultOf};

use crate::command_line::CommandLine;
use crate::fault::Fault;
use crate::queues::queues;
use clap::{Arg, ArgAction, ArgMatches, Command, Error};
use service_model_types::limits::DEFAULT_CAPACITY;
use service_model_types::settings::Settings;
use std::alloc::{AllocError, Global};

const ABOUT: &str =
    "Serves a workflow service's calls: a JSON line in, a reply line out. Version 0.1.0.";

/// The version of this repository, as CHANGELOG has it.
const VERSION: &str = "0.1.0";

const SHARDS: &str = "How many shards keep the workflows: 1 to 64, 1 by default";

const PASSES: &str = "How many lanes serve the lines at the same time: 1 to 256, 1 by default";

const SERVICE: &str = "The service's number, part of each run id: 0 to 2^48 - 1, 1 by default";

const QUEUES: &str =
    "The names of the task queues, with commas between them: 1 to 64, main by default";

const CAPACITY: &str = "How many hints wait in a task queue at most: 1 to 65536, 1024 by default";

const RETENTION: &str =
    "For how many milliseconds a closed workflow is kept: 0 to 10^12, 0 (for ever) by default";

const LOAD: &str =
    "The folder that is opened from: a journal, snapshots shard-00.snap and so on, or records";

const SAVE: &str = "The folder that the records are saved in at the end; it may be the one loaded";

const SNAPSHOT: &str =
    "The folder that a snapshot of each shard is written to at the end: shard-00.snap and so on";

const JOURNAL: &str =
    "The folder of the journal: opened from, and synced before each batch of replies";

const TRACE: &str =
    "Prints all steps of all shards in one order after the last reply; without --load";

const FILE: &str = "The file whose lines are served; standard input by default";

/// One more option with a value: what it is, its range and its default.
#[tactic(auto, unfolding(crate::specs::CommandLine::option_rule))]
fn with_option<'a>(
    alloc: Global,
    command: Command<'a>,
    name: &'a str,
    help: &'a str,
) -> Result<Command<'a>, AllocError>
    ensures { IfOk result (λ r.
        app_of r ≡ with_rule (app_of command.entry) (option_rule name.entry.now)) }
{
    command.arg(Arg::new(alloc, name).long(name).help(help))
}

/// One more option without a value: what it is.
#[tactic(auto, unfolding(crate::specs::CommandLine::option_rule, crate::specs::CommandLine::flag_rule))]
fn with_flag<'a>(
    alloc: Global,
    command: Command<'a>,
    name: &'a str,
    help: &'a str,
) -> Result<Command<'a>, AllocError>
    ensures { IfOk result (λ r.
        app_of r ≡ with_rule (app_of command.entry) (flag_rule name.entry.now)) }
{
    let flag = Arg::new(alloc, name).long(name).help(help);
    command.arg(flag.action(ArgAction::SetTrue))
}

/// The words, matched with the command's options.
fn matched<'a>(alloc: Global, words: &'a [&'a str]) -> Result<ArgMatches<'a>, Error>
    ensures rows { IfOk result (λ m.
        rows_of (found_of m) ≡ matches_in (map (λ w. w.now) words.entry.now)) }
    ensures fails { FailsBy (faults_in (map (λ w. w.now) words.entry.now)) result }
{
    let command = Command::new(alloc, "wfserve").about(ABOUT).version(VERSION);
    let command = with_option(alloc, command, "shards", SHARDS)?;
    let command = with_option(alloc, command, "passes", PASSES)?;
    let command = with_option(alloc, command, "service", SERVICE)?;
    let command = with_option(alloc, command, "queues", QUEUES)?;
    let command = with_option(alloc, command, "capacity", CAPACITY)?;
    let command = with_option(alloc, command, "retention", RETENTION)?;
    let command = with_option(alloc, command, "load", LOAD)?;
    let command = with_option(alloc, command, "save", SAVE)?;
    let command = with_option(alloc, command, "snapshot", SNAPSHOT)?;
    let command = with_option(alloc, command, "journal", JOURNAL)?;
    let command = with_flag(alloc, command, "trace", TRACE)?;
    let command = command.arg(Arg::new(alloc, "FILE").help(FILE))?;
    command.try_get_matches_from(words)
}

/// The number given to an option, or its default.
fn number(matches: &ArgMatches<'_>, name: &'static str, default: u64) -> Result<u64, Fault>
    ensures set { IfOk result (IsSetTo default name.entry.now (rows_of (found_of matches.now))) }
    ensures fault { IfErr result (IsFaultOf name.entry.now (rows_of (found_of matches.now))) }
{
    let Some(text) = matches.get_str(name) else {
        return Ok(default);
    };
    match text.parse::<u64>() {
        Ok(number) => Ok(number),
        Err(_) => Err(Fault::Number(name)),
    }
}

/// Whether an option without a value was given.
fn flag(matches: &ArgMatches<'_>, name: &'static str) -> bool
    ensures { result ≡ is_set name.entry.now (rows_of (found_of matches.now)) }
{
    match matches.get_str(name) {
        Some(text) => text == "true",
        None => false,
    }
}

/// Beside a journal nothing is loaded or written elsewhere, and no history is printed.
fn check_beside(
    journal: Option<&str>,
    load: Option<&str>,
    save: Option<&str>,
    snapshot: Option<&str>,
    trace: bool,
) -> Result<(), Fault>
    ensures alone { OnOk result
        (IsAlone journal.entry load.entry save.entry snapshot.entry trace) }
    ensures fault { IfErr result
        (IsBeside journal.entry load.entry save.entry snapshot.entry trace) }
{
    if journal.is_none() {
        return Ok(());
    }
    if load.is_some() {
        return Err(Fault::Journal("load"));
    }
    if save.is_some() {
        return Err(Fault::Journal("save"));
    }
    if snapshot.is_some() {
        return Err(Fault::Journal("snapshot"));
    }
    if trace {
        return Err(Fault::Journal("trace"));
    }
    Ok(())
}

/// What the words give; the first of them is the program's name.
///
/// Ranges are looked at when the service is opened, and not here; nor is any file or folder.
pub fn settings_of<'a>(alloc: Global, words: &'a [&'a str]) -> Result<CommandLine<'a>, Fault>
    ensures sets { IfOk result (Sets (map (λ w. w.now) words.entry.now)) }
    ensures fault { IfErr result (IsFaultIn (map (λ w. w.now) words.entry.now)) }
{
    let matches = match matched(alloc, words) {
        Ok(matches) => matches,
        Err(error) => return Err(Fault::Words(error)),
    };
    let shards = number(&matches, "shards", 1)?;
    let passes = number(&matches, "passes", 1)?;
    let service = number(&matches, "service", 1)?;
    let queues = queues(alloc, &matches)?;
    let capacity = number(&matches, "capacity", DEFAULT_CAPACITY)?;
    let retention = number(&matches, "retention", 0)?;
    let settings = Settings {
        shards,
        passes,
        service,
        queues,
        capacity,
        retention,
    };
    let load = matches.get_str("load");
    let trace = flag(&matches, "trace");
    if trace && load.is_some() {
        return Err(Fault::Trace);
    }
    let save = matches.get_str("save");
    let journal = matches.get_str("journal");
    let snapshot = matches.get_str("snapshot");
    check_beside(journal, load, save, snapshot, trace)?;
    Ok(CommandLine {
        settings,
        file: matches.get_str("FILE"),
        load,
        save,
        snapshot,
        journal,
        trace,
    })
}
