//! Whether two runs are the same but for their events.

ghost use Rattle.std.specs.Prelude.{◌≡◌, option_copied, string_bytes, IfOk, IsTrue};
ghost use Rattle.mutable_state.specs.RunView.{texts};
ghost use Rattle.mutable_state.specs.Rows.{living};
ghost use Rattle.mutable_state.specs.Whole.{copied};

use crate::in_use::InUse;
use crate::notes::Notes;
use crate::open::Open;
use crate::requests::Requests;
use crate::rows::Row;
use crate::run::Run;
use service_model_types::journal::CancelRequest;
use service_model_types::phase::{ActivityPhase, TaskPhase};
use std::alloc::{AllocError, Global};
use wf_event_values::{CancelSource, Id, Moment, Status, Text};

impl Run {
    /// Whether two runs are the same in all but their events, those of the history and those that are
    /// buffered. Where these are the same too, the runs are.
    ///
    /// # Errors
    /// Where memory was refused.
    pub fn is_same_beside_events(&self, alloc: Global, other: &Run) -> Result<bool, AllocError>
        ensures { IfOk result (λ same. IsTrue same
            → self.now.state.shown ≡ other.now.state.shown
            → self.now.state.held ≡ other.now.state.held
            → self.now.state ≡ other.now.state) }
    {
        if !is_same_status(self.status, other.status)
            || !is_same_task(self.task.phase, other.task.phase)
        {
            return Ok(false);
        }
        if !is_same_id(self.request_id.as_ref(), other.request_id.as_ref())
            || !self.requests.is_same(&other.requests)
        {
            return Ok(false);
        }
        self.in_use.is_same(alloc, &other.in_use)
    }
}

impl Requests {
    /// Whether two remember the same.
    fn is_same(&self, other: &Requests) -> bool
        ensures signals { IsTrue result → self.now.signals ≡ other.now.signals }
        ensures cancel { IsTrue result → self.now.cancel ≡ other.now.cancel }
    {
        are_same_texts(self.signals(), other.signals())
            && is_same_cancel(self.last_cancel(), other.last_cancel())
    }
}

impl InUse {
    /// Whether the same is in use in two runs.
    fn is_same(&self, alloc: Global, other: &InUse) -> Result<bool, AllocError>
        ensures { IfOk result (λ same. IsTrue same → self.now.rows ≡ other.now.rows) }
    {
        let ours = opens_in(alloc, self.rows())?;
        let theirs = opens_in(alloc, other.rows())?;
        Ok(are_same(ours.as_slice(), theirs.as_slice()))
    }
}

/// What is in some rows.
fn opens_in(alloc: Global, rows: &[Row]) -> Result<Vec<&Open>, AllocError>
    ensures { IfOk result (λ opens. copied opens.items ≡ living rows.now) }
{
    let mut opens = Vec::new(alloc);
    for row in rows {
        if let Some(open) = &row.kept {
            opens.push(open)?;
        }
    }
    Ok(opens)
}

/// Whether two lists of what is in use are the same.
fn are_same(ours: &[&Open], theirs: &[&Open]) -> bool
    ensures { IsTrue result → copied ours.now ≡ copied theirs.now }
{
    if ours.len() != theirs.len() {
        return false;
    }
    for index in 0..ours.len() {
        if !is_same(ours[index], theirs[index]) {
            return false;
        }
    }
    true
}

/// Whether two lists of texts are the same.
fn are_same_texts(ours: &[String], theirs: &[String]) -> bool
    ensures { IsTrue result → texts ours.now ≡ texts theirs.now }
{
    if ours.len() != theirs.len() {
        return false;
    }
    for index in 0..ours.len() {
        if !is_same_string(&ours[index], &theirs[index]) {
            return false;
        }
    }
    true
}

fn is_same_string(one: &String, other: &String) -> bool
    ensures { IsTrue result → string_bytes one.now ≡ string_bytes other.now }
{
    one == other
}

/// Whether two things in use are the same.
fn is_same(one: &Open, other: &Open) -> bool
    ensures { IsTrue result → one.now ≡ other.now }
{
    one.opener == other.opener
        && one.is_settled == other.is_settled
        && are_same_notes(&one.notes, &other.notes)
}

/// Whether the same is noted of two activities.
fn are_same_notes(one: &Notes, other: &Notes) -> bool
    ensures { IsTrue result → one.now ≡ other.now }
{
    if !is_same_activity(one.phase, other.phase) || one.attempt != other.attempt {
        return false;
    }
    if one.cancel_requested != other.cancel_requested
        || !is_same_text(one.details.as_ref(), other.details.as_ref())
    {
        return false;
    }
    is_same_moment(one.ready, other.ready)
        && is_same_moment(one.taken, other.taken)
        && is_same_moment(one.sign_of_life, other.sign_of_life)
        && is_same_moment(one.ended, other.ended)
}

fn is_same_status(one: Status, other: Status) -> bool
    ensures { IsTrue result → one ≡ other }
{
    match (one, other) {
        (Status::Running, Status::Running)
        | (Status::Completed, Status::Completed)
        | (Status::Failed, Status::Failed)
        | (Status::Canceled, Status::Canceled)
        | (Status::Terminated, Status::Terminated)
        | (Status::ContinuedAsNew, Status::ContinuedAsNew)
        | (Status::TimedOut, Status::TimedOut) => true,
        _ => false,
    }
}

fn is_same_task(one: TaskPhase, other: TaskPhase) -> bool
    ensures { IsTrue result → one ≡ other }
{
    match (one, other) {
        (TaskPhase::None, TaskPhase::None)
        | (TaskPhase::Scheduled, TaskPhase::Scheduled)
        | (TaskPhase::Started, TaskPhase::Started) => true,
        _ => false,
    }
}

fn is_same_activity(one: ActivityPhase, other: ActivityPhase) -> bool
    ensures { IsTrue result → one ≡ other }
{
    match (one, other) {
        (ActivityPhase::Queued, ActivityPhase::Queued)
        | (ActivityPhase::Running, ActivityPhase::Running)
        | (ActivityPhase::Waiting, ActivityPhase::Waiting) => true,
        _ => false,
    }
}

fn is_same_source(one: CancelSource, other: CancelSource) -> bool
    ensures { IsTrue result → one ≡ other }
{
    match (one, other) {
        (CancelSource::Client, CancelSource::Client)
        | (CancelSource::Parent, CancelSource::Parent)
        | (CancelSource::External, CancelSource::External) => true,
        _ => false,
    }
}

fn is_same_cancel(one: Option<&CancelRequest>, other: Option<&CancelRequest>) -> bool
    ensures { IsTrue result → option_copied one.entry ≡ option_copied other.entry }
{
    match (one, other) {
        (Some(one), Some(other)) => {
            is_same_source(one.by_whom, other.by_whom)
                && is_same_id(one.request_id.as_ref(), other.request_id.as_ref())
        }
        (None, None) => true,
        _ => false,
    }
}

fn is_same_id(one: Option<&Id>, other: Option<&Id>) -> bool
    ensures { IsTrue result → option_copied one.entry ≡ option_copied other.entry }
{
    match (one, other) {
        (Some(one), Some(other)) => one == other,
        (None, None) => true,
        _ => false,
    }
}

fn is_same_text(one: Option<&Text>, other: Option<&Text>) -> bool
    ensures { IsTrue result → option_copied one.entry ≡ option_copied other.entry }
{
    match (one, other) {
        (Some(one), Some(other)) => one == other,
        (None, None) => true,
        _ => false,
    }
}

fn is_same_moment(one: Option<Moment>, other: Option<Moment>) -> bool
    ensures { IsTrue result → one ≡ other }
{
    match (one, other) {
        (Some(one), Some(other)) => one.millis() == other.millis(),
        (None, None) => true,
        _ => false,
    }
}
