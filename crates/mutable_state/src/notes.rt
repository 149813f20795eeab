//! What notes say about an activity.

ghost use Rattle.std.specs.Prelude.{◌≡◌, IfOk};
ghost use Rattle.service_model.specs.Completion.{is_running_phase};
ghost use Rattle.mutable_state.specs.Noted.{MayAdd, no_notes, noted};

use service_model_types::journal::Note;
use service_model_types::phase::ActivityPhase;
use std::alloc::AllocError;
use wf_event_values::{Moment, Text};

/// What the notes on an activity say, and whether it was asked to cancel.
pub struct Notes {
    pub phase: ActivityPhase,
    /// Counts from 1.
    pub attempt: u32,
    /// When the attempt was last queued again.
    pub ready: Option<Moment>,
    /// When an attempt was last taken.
    pub taken: Option<Moment>,
    /// When an attempt was last taken or sent a heartbeat.
    pub sign_of_life: Option<Moment>,
    /// When an attempt last ended that is to be followed by another.
    pub ended: Option<Moment>,
    /// The details of the last heartbeat.
    pub details: Option<Text>,
    pub cancel_requested: bool,
}

impl Drop for Notes {
    fn drop(self) {
        let Notes {
            phase: _,
            attempt: _,
            ready: _,
            taken: _,
            sign_of_life: _,
            ended: _,
            details: _,
            cancel_requested: _,
        } = self;
    }
}

impl Notes {
    /// Before the first note.
    pub fn new() -> Notes
        ensures { result ≡ no_notes }
    {
        Notes {
            phase: ActivityPhase::Queued,
            attempt: 1,
            ready: None,
            taken: None,
            sign_of_life: None,
            ended: None,
            details: None,
            cancel_requested: false,
        }
    }

    /// Whether a worker has an attempt.
    pub fn is_running(&self) -> bool
        ensures { result ≡ is_running_phase self.now.phase }
    {
        matches!(self.phase, ActivityPhase::Running)
    }

    /// The same notes, with details of their own.
    pub fn copy(&self) -> Result<Notes, AllocError>
        ensures { IfOk result (λ notes. notes ≡ self.now) }
    {
        Ok(Notes {
            phase: self.phase,
            attempt: self.attempt,
            ready: self.ready,
            taken: self.taken,
            sign_of_life: self.sign_of_life,
            ended: self.ended,
            details: self.copy_details()?,
            cancel_requested: self.cancel_requested,
        })
    }

    /// A copy of the last heartbeat's details.
    pub fn copy_details(&self) -> Result<Option<Text>, AllocError>
        ensures { IfOk result (λ details. details ≡ self.now.details) }
    {
        match &self.details {
            Some(details) => Ok(Some(details.clone()?)),
            None => Ok(None),
        }
    }

    /// One more note, made at this moment.
    pub fn add(&mut self, at: Moment, note: Note)
        requires { MayAdd note self.old }
        ensures { self.new ≡ noted at note self.old }
    {
        match &note {
            Note::Taken => {
                self.phase = ActivityPhase::Running;
                self.taken = Some(at);
                self.sign_of_life = Some(at);
            }
            Note::Ended => {
                self.phase = ActivityPhase::Waiting;
                self.attempt += 1;
                self.ended = Some(at);
            }
            Note::Ready => {
                self.phase = ActivityPhase::Queued;
                self.ready = Some(at);
            }
            Note::Beat(_) => {
                self.sign_of_life = Some(at);
                self.details = note.into_details();
            }
        }
    }
}
