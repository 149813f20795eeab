//! A snapshot that is written line by line, and restored as it is written.

ghost use Rattle.std.specs.Prelude.{◌≡◌, ◌+◌, true, IfErr, IfOk, OnOk, string_bytes};
ghost use Rattle.snapshot_pieces.specs.Reading.{is_whole};
ghost use Rattle.snapshot_pieces.specs.declared.piece.Piece.TheVariants as piece;
ghost use Rattle.shard_snapshot.specs.Laid.{Laid, end_laid, has_counts, laid_first};
ghost use Rattle.shard_snapshot.specs.Restored.{IsLaid};
ghost use Rattle.shard_snapshot.specs.SoFar.{IsNextFault, Puts};
ghost use Rattle.shard_snapshot.specs.Texts.{IsSnapshot};
ghost use Rattle.shard_snapshot.specs.Written.{AreFirst, Starts};
ghost use Rattle.shard_store.specs.ShardView.{IsSetup};

use crate::damage::Damage;
use crate::fault::RestoreFault;
use crate::restoring::{Restoring, has_counts};
use crate::text::fault_of;
use mutable_state_keeper::KeepsRun;
use service_model_types::content::Setup;
use shard_store::Store;
use snapshot_pieces::{
    CountedPiece, EndPiece, Head, Piece, add_counted_line, add_event_line, add_piece_line,
    is_whole, known_counted, known_piece,
};
use std::alloc::{AllocError, Global};
use std::marker::Model;
use wf_event::Event;
use wf_event_values::Moment;
use wire_record_events::known_event;

/// The lines of a snapshot so far, and the shard that they restore: what a line says is laid as the line is
/// written. So a text that was written to its end is that of the shard that it comes with.
pub struct Writing<T: KeepsRun> {
    setup: Setup,
    text: String,
    count: u64,
    shard: Restoring<T>,
    /// Whether the shard is what the lines lay. It isn't after a fault.
    is_whole: bool,
}

impl<T: KeepsRun> Drop for Writing<T> {
    fn drop(self) {
        let Writing {
            setup: _,
            text: _,
            count: _,
            shard: _,
            is_whole: _,
        } = self;
    }
}

impl<T: KeepsRun> Model for Writing<T> {
    ghost use Rattle.std.specs.Prelude.{◌≡◌, true, string_bytes};
    ghost use Rattle.shard_snapshot.specs.Written.{IsWritten, WritingView};

    ghost Value = { WritingView };

    ghost view = { λ a. record {
      setup = a.setup;
      text = string_bytes a.text;
      count = a.count;
      shard = a.shard;
      is_whole = a.is_whole;
    } };

    ghost invariant = { λ a. a.is_whole ≡ true
        → IsWritten a.setup (string_bytes a.text) a.count a.shard };
}

impl<T: KeepsRun> Writing<T> {
    /// The first two lines, of a shard that was opened with this and has counted so much.
    ///
    /// # Errors
    /// `Count` of line 2 where there isn't a count for each shard; `Memory`.
    pub fn start(
        alloc: Global,
        setup: &Setup,
        counted: CountedPiece,
    ) -> Result<Writing<T>, RestoreFault>
        requires { IsSetup setup.now }
        ensures ok { IfOk result (λ lines. Starts setup.now counted lines) }
        ensures err { IfErr result (IsNextFault 1 (laid_first setup.now counted)) }
    {
        if !has_counts(setup, &counted) {
            return Err(RestoreFault::Damaged(2, Damage::Count));
        }
        let text = first_lines(alloc, setup, &counted)?;
        match Restoring::begin(alloc, copy_of(setup)?, counted) {
            Ok(shard) => Ok(Writing {
                setup: copy_of(setup)?,
                text,
                count: 2,
                shard,
                is_whole: true,
            }),
            Err(damage) => Err(fault_of(damage, 1)),
        }
    }

    /// The allocator that the lines are made with.
    pub fn alloc(&self) -> Global {
        self.shard.store.alloc()
    }

    /// One more line, of a piece between the first two and the last.
    ///
    /// # Errors
    /// Why it lays nothing. What was written is of no more use then.
    pub fn write(&mut self, piece: Piece) -> Result<(), RestoreFault>
        ensures lays { self.old.is_whole ≡ true → is_whole piece ≡ true →
            Puts result self.old.shard self.new.shard self.old.count piece }
        ensures whole { OnOk result ((self.old.is_whole ≡ true) × (self.new.is_whole ≡ true)) }
        ensures count { OnOk result (self.new.count ≡ self.old.count + 1) }
    {
        if self.count >= u64::MAX - 1 {
            return Err(RestoreFault::Memory);
        }
        if !self.is_whole || !is_whole(&piece) {
            return Err(RestoreFault::Damaged(self.count + 1, Damage::Order));
        }
        self.is_whole = false;
        known_piece(&piece);
        add_piece_line(self.alloc(), &mut self.text, &piece)?;
        match self.shard.put(piece) {
            Ok(()) => {}
            Err(damage) => return Err(fault_of(damage, self.count)),
        }
        self.count += 1;
        self.is_whole = true;
        Ok(())
    }

    /// One more line, of an event, as [`Writing::write`].
    ///
    /// # Errors
    /// As there.
    pub fn write_event(&mut self, event: &Event) -> Result<(), RestoreFault>
        ensures lays { self.old.is_whole ≡ true →
            Puts result self.old.shard self.new.shard self.old.count (piece.Event event.now) }
        ensures whole { OnOk result ((self.old.is_whole ≡ true) × (self.new.is_whole ≡ true)) }
        ensures count { OnOk result (self.new.count ≡ self.old.count + 1) }
    {
        if self.count >= u64::MAX - 1 {
            return Err(RestoreFault::Memory);
        }
        if !self.is_whole {
            return Err(RestoreFault::Damaged(self.count + 1, Damage::Order));
        }
        self.is_whole = false;
        known_event(event);
        add_event_line(self.alloc(), &mut self.text, event)?;
        match self.shard.put_event(event.clone()?) {
            Ok(()) => {}
            Err(damage) => return Err(fault_of(damage, self.count)),
        }
        self.count += 1;
        self.is_whole = true;
        Ok(())
    }

    /// The text, once its last line is written, and the shard that it restores. That line has the moment
    /// of the shard's last step.
    ///
    /// # Errors
    /// Why there is no such shard.
    pub fn finish(self, last: Moment) -> Result<(String, Store<T>), RestoreFault>
        ensures ok { IfOk result (λ r. IsSnapshot r.1.setup (string_bytes r.0) r.1) }
        ensures err { IfErr result (λ e. self.is_whole ≡ true → (l : Laid) → IsLaid self.shard l →
            IsNextFault self.count (end_laid l (record { last = last; lines = self.count })) e) }
    {
        if self.count >= u64::MAX - 1 {
            return Err(RestoreFault::Memory);
        }
        if !self.is_whole {
            return Err(RestoreFault::Damaged(self.count + 1, Damage::Order));
        }
        let alloc = self.alloc();
        let Writing {
            setup: _,
            mut text,
            count,
            shard,
            is_whole: _,
        } = self;
        let end = EndPiece { last, lines: count };
        let piece = Piece::End(end);
        known_piece(&piece);
        add_piece_line(alloc, &mut text, &piece)?;
        match shard.end(&end) {
            Ok(store) => Ok((text, store)),
            Err(damage) => Err(fault_of(damage, count)),
        }
    }
}

/// The lines of the head, and of what was counted.
fn first_lines(alloc: Global, setup: &Setup, counted: &CountedPiece) -> Result<String, AllocError>
    requires { has_counts setup.now counted.now ≡ true }
    ensures { IfOk result (λ text. AreFirst setup.now counted.now (string_bytes text)) }
{
    let head = Piece::Head(Head {
        service: setup.service,
        shard: setup.shard,
        shards: setup.shards,
        retention: setup.retention,
    });
    let mut text = String::new(alloc);
    known_piece(&head);
    add_piece_line(alloc, &mut text, &head)?;
    known_counted(counted);
    add_counted_line(alloc, &mut text, counted)?;
    Ok(text)
}

/// A copy of what a shard was opened with.
fn copy_of(setup: &Setup) -> Result<Setup, AllocError>
    ensures { IfOk result (λ copy. copy ≡ setup.now) }
{
    Ok(Setup {
        service: setup.service,
        shard: setup.shard,
        shards: setup.shards,
        queues: setup.queues.clone()?,
        retention: setup.retention,
    })
}
