//! What is in use of a class, by the ids that the worker gave.

ghost use Rattle.std.specs.Prelude.{◌≡◌, ◌==◌, ◌++◌, ◌∷◌, [], List, None, not, filter, option_map, true, IfOk, OnOk};
ghost use Rattle.indexmap.specs.IndexSet.{contains_text};
ghost use Rattle.mutable_state.specs.Readers.{UsedRow};
ghost use Rattle.task_completion.specs.Judging.{event_named};
ghost use Rattle.task_completion.specs.NameCovers.{Covers, Covered};

use crate::rows::event_named;
use indexmap::IndexSet;
use mutable_state::Used;
use std::alloc::{AllocError, Global};
use std::marker::Model;
use wf_event_values::Id;

/// What is in use of a class, in the order in which it was opened.
pub struct NamedRows<'a> {
    rows: Vec<Used<'a>>,
    /// The ids of all rows, and perhaps of some that went, where they were collected: what has none of
    /// them is found to be free without a walk.
    names: Option<IndexSet<String>>,
}

impl<'a> Drop for NamedRows<'a> {
    fn drop(self) {
        let NamedRows { rows: _, names: _ } = self;
    }
}

impl<'a> Model for NamedRows<'a> {
    ghost use Rattle.std.specs.Prelude.{List, option_map};
    ghost use Rattle.indexmap.specs.IndexSet.{contains_text};
    ghost use Rattle.mutable_state.specs.Readers.{UsedRow};
    ghost use Rattle.task_completion.specs.NameCovers.{Covered};

    ghost Value = { List UsedRow };

    ghost view = { λ n. n.rows.items };

    ghost invariant = { λ n. Covered (option_map (λ s. contains_text s) n.names) n.rows.items };
}

impl<'a> NamedRows<'a> {
    /// What is in use, with no names collected yet.
    pub fn new(rows: Vec<Used<'a>>) -> NamedRows<'a>
        ensures { result ≡ rows.entry.items }
    {
        NamedRows { rows, names: None }
    }

    /// What is in use, in the order in which it was opened.
    pub fn rows(&self) -> &[Used<'a>]
        ensures { result.now ≡ self.now }
    {
        self.rows.as_slice()
    }

    /// Collects the ids, so that it takes no walk to find that one is free.
    pub fn collect_names(&mut self, alloc: Global) -> Result<(), AllocError>
        ensures { self.new ≡ self.old }
    {
        let names = names_of(alloc, self.rows.as_slice())?;
        self.names = Some(names);
        Ok(())
    }

    /// The first row under a worker's id, by its event.
    pub fn event_named(&self, name: &Id) -> Option<u64>
        ensures { result ≡ event_named name.now self.now }
    {
        if self.is_free(name) {
            return None;
        }
        event_named(self.rows.as_slice(), name)
    }

    /// Whether the names that were collected show that none is this one.
    fn is_free(&self, name: &Id) -> bool
        ensures { result ≡ true → event_named name.now self.now ≡ None }
    {
        match &self.names {
            Some(names) => !names.contains(name.as_str()),
            None => false,
        }
    }

    /// One more row, after all others.
    pub fn push(&mut self, row: Used<'a>) -> Result<(), AllocError>
        ensures { OnOk result (self.new ≡ self.old ++ row.entry ∷ []) }
    {
        note_name(&mut self.names, &row)?;
        self.rows.push(row)?;
        Ok(())
    }

    /// Takes the row of an event away.
    pub fn remove(&mut self, event: u64)
        ensures { self.new ≡ filter (λ (r : UsedRow). not (r.event == event)) self.old }
    {
        self.rows.retain(|row| row.event() != event);
    }
}

/// The ids of some rows.
fn names_of(alloc: Global, rows: &[Used]) -> Result<IndexSet<String>, AllocError>
    ensures { IfOk result (λ names. Covers (contains_text names) rows.now) }
{
    let mut names = IndexSet::new(alloc);
    for row in rows {
        add_name(&mut names, row)?;
    }
    Ok(names)
}

/// Adds the id of a row, where it has one.
fn add_name(names: &mut IndexSet<String>, row: &Used) -> Result<(), AllocError>
    ensures kept { (rows : List UsedRow) → Covers (contains_text names.old) rows →
        Covers (contains_text names.new) rows }
    ensures more { OnOk result ((rows : List UsedRow) → Covers (contains_text names.old) rows →
        Covers (contains_text names.new) (rows ++ row.now ∷ [])) }
{
    let Some(name) = row.name() else {
        return Ok(());
    };
    names.insert(name.clone()?.into_string())?;
    Ok(())
}

/// Adds it where names were collected.
fn note_name(names: &mut Option<IndexSet<String>>, row: &Used) -> Result<(), AllocError>
    ensures kept { (rows : List UsedRow) →
        Covered (option_map (λ s. contains_text s) names.old) rows →
        Covered (option_map (λ s. contains_text s) names.new) rows }
    ensures more { OnOk result ((rows : List UsedRow) →
        Covered (option_map (λ s. contains_text s) names.old) rows →
        Covered (option_map (λ s. contains_text s) names.new) (rows ++ row.now ∷ [])) }
{
    match names {
        Some(names) => add_name(names, row),
        None => Ok(()),
    }
}
