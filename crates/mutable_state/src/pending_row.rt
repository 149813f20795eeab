//! What is pending in a run, by what opened it.

ghost use Rattle.std.specs.Prelude.{◌≡◌, ◌==◌, find, option_map};
ghost use Rattle.wf_event.specs.declared.event.Event.{Event as AnEvent};
ghost use Rattle.wf_event.specs.declared.role.Class.TheVariants.{Activity as an_activity};
ghost use Rattle.service_model.specs.RunState.{pending};
ghost use Rattle.service_model.specs.Tasks.{pending_row};
ghost use Rattle.mutable_state.specs.PendingRows.{said, opening_event, activity_said, kept_pending, HasNothingClosed};

use crate::in_use::InUse;
use crate::notes::Notes;
use crate::run::Run;
use buffered::History;
use wf_event::{Event, Opener};

/// A thing that is pending: the event that opened it, and what is noted of it, where it is an
/// activity. A run in tables lends both. One that keeps no such rows makes them for whoever asks.
#[derive(Drop)]
pub enum PendingRow<'a> {
    Lent {
        event: &'a Event,
        notes: &'a Notes,
    },
    Made {
        event: Box<Event>,
        notes: Box<Notes>,
    },
}

impl<'a> PendingRow<'a> {
    /// The event that opened it.
    pub fn event(&self) -> &Event
        ensures { result.now ≡ (said self.now).event }
    {
        match self {
            PendingRow::Lent { event, notes: _ } => event,
            PendingRow::Made { event, notes: _ } => &**event,
        }
    }

    /// What is noted of it.
    pub fn notes(&self) -> &Notes
        ensures { result.now ≡ (said self.now).notes }
    {
        match self {
            PendingRow::Lent { event: _, notes } => notes,
            PendingRow::Made { event: _, notes } => &**notes,
        }
    }
}

impl Run {
    /// What is pending of what this opened. In a run that has closed nothing is.
    pub fn pending_row(&self, opener: Opener) -> Option<PendingRow<'_>>
        ensures found { option_map opening_event result
            ≡ find (λ (e : AnEvent). e.id == opener.event)
            (pending opener.class self.now.state) }
        ensures noted { opener.class ≡ an_activity →
            option_map activity_said result ≡ pending_row self.now.state opener.event }
        ensures closed { HasNothingClosed self.now.state }
    {
        kept_pending(&self.in_use, &self.history, opener)
    }
}

/// The thing that this opened, where it is kept and no event that settles it is buffered.
fn kept_pending<'a>(
    in_use: &'a InUse,
    history: &'a History,
    opener: Opener,
) -> Option<PendingRow<'a>>
    ensures { option_map said result
        ≡ kept_pending history.now.lists.events in_use.now.rows opener }
{
    let row = in_use.find(opener)?;
    if row.is_settled {
        return None;
    }
    let event = history.event(opener.event)?;
    Some(PendingRow::Lent {
        event,
        notes: &row.notes,
    })
}
