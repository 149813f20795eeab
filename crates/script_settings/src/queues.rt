//! The names of the task queues, as the command line gives them.

ghost use Rattle.std.specs.Prelude.{◌≡◌, Any, List, length, IfOk, IfErr, map};
ghost use Rattle.clap.specs.Words.{Row, found_of, rows_of};
ghost use Rattle.wf_event_values.specs.Limits.{IsIdLength};
ghost use Rattle.wf_event_values.specs.declared.refusal.Refusal.TheVariants as refusal;
ghost use Rattle.script_settings.specs.Queues.{AreSetTo, IsCutAtCommas};
ghost use Rattle.script_settings.specs.Settings.{IsQueuesFault};

use crate::fault::Fault;
use clap::{ArgMatches, Error};
use service_model_types::settings::main_queue;
use std::alloc::{AllocError, Global};
use wf_event_values::{Field, Id, Items, Refusal};

/// The parts of a text between its commas.
fn parts_of<'a>(alloc: Global, text: &'a str) -> Result<Vec<&'a str>, AllocError>
    ensures { IfOk result (λ parts.
        IsCutAtCommas text.entry.now (map (λ part. part.now) parts.items)) }
{
    text.split(',').collect(alloc)
}

/// The parts as names.
///
/// # Errors
/// `InvalidArgument` where one is empty or longer than 255 bytes; `NoMemory`.
fn names_of(alloc: Global, parts: &[&str]) -> Result<Items<Id>, Refusal>
    ensures names { IfOk result (λ names. names ≡ map (λ part. part.now) parts.now) }
    ensures other { IfErr result (λ e.
        ¬ (e ≡ refusal.NoMemory) → Any (λ part. ¬ (IsIdLength (length part.now))) parts.now) }
{
    let mut names = Vec::new(alloc);
    for part in parts {
        names.push(Id::new(alloc, Field::Queues, part)?)?;
    }
    Ok(Items::from_vec(names))
}

/// Out of memory, which is told in clap's words.
fn memory(error: AllocError) -> Fault
    ensures { (rows : List Row) → IsQueuesFault rows result }
{
    Fault::Words(Error::from(error))
}

/// The names given to `--queues`, or `main` alone.
///
/// # Errors
/// `Queues` where one is empty or longer than 255 bytes. That they differ, and how many there may be,
/// is looked at when the service is opened.
pub(crate) fn queues(alloc: Global, matches: &ArgMatches<'_>) -> Result<Items<Id>, Fault>
    ensures set { IfOk result (λ names. AreSetTo (rows_of (found_of matches.now)) names) }
    ensures fault { IfErr result (IsQueuesFault (rows_of (found_of matches.now))) }
{
    let Some(text) = matches.get_str("queues") else {
        return match main_queue(alloc) {
            Ok(names) => Ok(names),
            Err(error) => Err(memory(error)),
        };
    };
    let parts = match parts_of(alloc, text) {
        Ok(parts) => parts,
        Err(error) => return Err(memory(error)),
    };
    match names_of(alloc, &parts) {
        Ok(names) => Ok(names),
        Err(Refusal::InvalidArgument(_)) => Err(Fault::Queues),
        Err(_) => Err(memory(AllocError)),
    }
}
