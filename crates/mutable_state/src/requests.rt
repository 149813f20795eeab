//! The requests that a run remembers.

ghost use Rattle.std.specs.Prelude.{◌≡◌, ◌+◌, ◌≤◌, ◌++◌, ◌||◌, [], None, false, is_some, option_copied, option_to_list, IfOk, OnOk};
ghost use Rattle.service_model.specs.Journal.{first_some};
ghost use Rattle.service_model.specs.Signals.{was_signaled};
ghost use Rattle.indexmap.specs.IndexSet.{spare};
ghost use Rattle.mutable_state.specs.Rooms.{one_if};
ghost use Rattle.mutable_state.specs.RunView.{texts};

use indexmap::IndexSet;
use service_model_types::journal::CancelRequest;
use std::alloc::{AllocError, Global};
use std::marker::Model;
use wf_event_values::Id;

/// What is remembered where there is something.
pub(crate) struct Remembered {
    signals: IndexSet<String>,
    cancel: Option<CancelRequest>,
}

impl Drop for Remembered {
    fn drop(self) {
        let Remembered {
            signals: _,
            cancel: _,
        } = self;
    }
}

/// The request ids of a run's signals, in their order, and the last request to cancel it, also where
/// that is buffered. Most runs have none, which takes no memory.
pub struct Requests {
    kept: Option<Box<Remembered>>,
    alloc: Global,
}

impl Drop for Requests {
    fn drop(self) {
        let Requests { kept: _, alloc: _ } = self;
    }
}

impl Model for Requests {
    ghost use Rattle.std.specs.Prelude.{[], None};
    ghost use Rattle.std.specs.Option.{option_map_or};
    ghost use Rattle.indexmap.specs.IndexSet.{spare};
    ghost use Rattle.mutable_state.specs.RunView.{RequestsView, texts};

    ghost Value = { RequestsView };

    ghost view = { λ r. record {
      signals = texts (option_map_or (λ b. b.value.signals.keys) r.kept []);
      cancel = option_map_or (λ b. b.value.cancel) r.kept None;
      room = option_map_or (λ b. spare b.value.signals) r.kept 0;
    } };
}

impl Requests {
    /// None.
    pub(crate) fn none(alloc: Global) -> Requests
        ensures signals { result.signals ≡ [] }
        ensures cancel { result.cancel ≡ None }
    {
        Requests { kept: None, alloc }
    }

    /// Makes room for so many more.
    pub(crate) fn reserve(&mut self, additional: usize) -> Result<(), AllocError>
        ensures signals { self.new.signals ≡ self.old.signals }
        ensures cancel { self.new.cancel ≡ self.old.cancel }
        ensures ok { OnOk result (additional ≤ self.new.room) }
    {
        if let Some(kept) = &mut self.kept {
            return kept.signals.reserve(additional);
        }
        if additional > 0 {
            let signals = IndexSet::with_capacity(self.alloc, additional)?;
            let nothing = Remembered {
                signals,
                cancel: None,
            };
            self.kept = Some(Box::new(self.alloc, nothing)?);
        }
        Ok(())
    }

    /// Remembers the request id of a signal, which no signal bore before, and a request to cancel.
    pub(crate) fn remember(&mut self, signal: Option<Id>, cancel: Option<CancelRequest>)
        requires room { one_if (is_some signal || is_some cancel) ≤ self.old.room }
        requires first { was_signaled self.old.signals signal ≡ false }
        ensures signals { self.new.signals ≡ self.old.signals ++ option_to_list signal }
        ensures cancel { self.new.cancel ≡ first_some cancel self.old.cancel }
        ensures room { self.old.room
            ≤ self.new.room + one_if (is_some signal || is_some cancel) }
    {
        if let Some(kept) = &mut self.kept {
            remember(&mut kept.signals, signal);
            keep(&mut kept.cancel, cancel);
        }
    }

    /// Whether a signal bore this one.
    pub(crate) fn has(&self, request: &Option<Id>) -> bool
        ensures { result ≡ was_signaled self.now.signals request.now }
    {
        match &self.kept {
            Some(kept) => has(&kept.signals, request),
            None => false,
        }
    }

    /// A copy of the last request to cancel the run.
    pub(crate) fn cancel(&self) -> Result<Option<CancelRequest>, AllocError>
        ensures { IfOk result (λ cancel. cancel ≡ self.now.cancel) }
    {
        let Some(kept) = &self.kept else {
            return Ok(None);
        };
        match &kept.cancel {
            Some(request) => Ok(Some(request.copied()?)),
            None => Ok(None),
        }
    }

    /// The request ids of signals, in their order.
    pub(crate) fn signals(&self) -> &[String]
        ensures { texts result.now ≡ self.now.signals }
    {
        match &self.kept {
            Some(kept) => kept.signals.as_slice(),
            None => &[],
        }
    }

    /// The last request to cancel the run.
    pub(crate) fn last_cancel(&self) -> Option<&CancelRequest>
        ensures { option_copied result ≡ self.now.cancel }
    {
        match &self.kept {
            Some(kept) => kept.cancel.as_ref(),
            None => None,
        }
    }

    /// Gives the room up, where nothing is remembered.
    pub(crate) fn give_back(&mut self)
        ensures signals { self.new.signals ≡ self.old.signals }
        ensures cancel { self.new.cancel ≡ self.old.cancel }
    {
        if let Some(kept) = &self.kept {
            if kept.signals.len() == 0 && kept.cancel.is_none() {
                self.kept = None;
            }
        }
    }
}

fn remember(signals: &mut IndexSet<String>, request: Option<Id>)
    requires room { one_if (is_some request) ≤ spare signals.old }
    requires first { was_signaled (texts signals.old.keys) request ≡ false }
    ensures keys { texts signals.new.keys ≡ texts signals.old.keys ++ option_to_list request }
    ensures room { spare signals.old ≤ spare signals.new + one_if (is_some request) }
{
    if let Some(request) = request {
        let _ = signals.insert(request.into_string()).unwrap();
    }
}

fn has(signals: &IndexSet<String>, request: &Option<Id>) -> bool
    ensures { result ≡ was_signaled (texts signals.now.keys) request.now }
{
    match request {
        Some(request) => signals.contains(request.as_str()),
        None => false,
    }
}

/// Keeps the last request to cancel a run.
fn keep(kept: &mut Option<CancelRequest>, request: Option<CancelRequest>)
    ensures { kept.new ≡ first_some request kept.old }
{
    if request.is_some() {
        *kept = request;
    }
}
