//! That a piece that there is, is within the limits of its types, and what the types don't say.

ghost use Rattle.std.specs.List.{AllByRecursion};
ghost use Rattle.std.specs.Prelude.{◌≡◌, ◌≤◌, length, true};
ghost use Rattle.wire_record_commands.specs.Limits.{IsNumber};
ghost use Rattle.snapshot_pieces.specs.Limits.{IsCounted, IsDispatch, IsEnd, IsHead, IsHint, IsNote, IsNotePiece, IsPiece, IsTransferPiece};
ghost use Rattle.snapshot_pieces.specs.Reading.{is_whole};

use crate::piece::{CountedPiece, EndPiece, Head, NotePiece, Piece, TransferPiece};
use service_model_types::content::Dispatch;
use service_model_types::journal::Note;
use service_model_types::request::Hint;
use wire_record_commands::{known_id, known_text};
use wire_record_events::known_event;
use wire_record_transfers::known_transfer;

fn known_number(_number: u64)
    ensures { IsNumber _number }
{}

fn known_numbers(numbers: &[u64])
    ensures { AllByRecursion IsNumber numbers.now }
{
    for number in numbers {
        known_number(*number);
    }
}

fn known_head(head: &Head)
    ensures { IsHead head.now }
{
    let _service = head.service;
    let _shard = head.shard;
    let _shards = head.shards;
    let _retention = head.retention.millis();
}

fn known_note(note: &Note)
    ensures { IsNote note.now }
{
    match note {
        Note::Taken => {}
        Note::Ended => {}
        Note::Ready => {}
        Note::Beat(details) => known_text(details),
    }
}

fn known_notes(note: &NotePiece)
    requires { 1 ≤ note.now.times }
    ensures { IsNotePiece note.now }
{
    let _activity = note.activity;
    let _at = note.at.millis();
    known_note(&note.note);
    let _times = note.times;
}

/// That what was counted is within the limits of its types, where each shard has both counts.
pub fn known_counted(counted: &CountedPiece)
    requires { length counted.now.accepted ≡ length counted.now.acknowledged }
    ensures { IsCounted counted.now }
{
    let _dispatched = counted.dispatched;
    known_numbers(counted.accepted.as_slice());
    known_numbers(counted.acknowledged.as_slice());
}

fn known_hint(hint: Hint)
    ensures { IsHint hint }
{
    let _shard = hint.shard;
    let _run = hint.run;
    let _event = hint.event;
    let _attempt = hint.attempt;
}

fn known_dispatch(dispatch: &Dispatch)
    ensures { IsDispatch dispatch.now }
{
    known_id(&dispatch.queue);
    known_hint(dispatch.hint);
}

fn known_waiting(waiting: &TransferPiece)
    ensures { IsTransferPiece waiting.now }
{
    let _to = waiting.to;
    known_transfer(&waiting.transfer);
}

fn known_end(end: &EndPiece)
    ensures { IsEnd end.now }
{
    let _last = end.last.millis();
    let _lines = end.lines;
}

/// What the types alone don't say: whether a note was made, and whether each shard has two counts.
pub fn is_whole(piece: &Piece) -> bool
    ensures { result ≡ is_whole piece.now }
{
    match piece {
        Piece::Note(note) => note.times >= 1,
        Piece::Counted(counted) => {
            counted.accepted.as_slice().len() == counted.acknowledged.as_slice().len()
        }
        _ => true,
    }
}

/// That a piece that there is and that is whole, is within the limits of its types.
pub fn known_piece(piece: &Piece)
    requires { is_whole piece.now ≡ true }
    ensures { IsPiece piece.now }
{
    match piece {
        Piece::Head(head) => known_head(head),
        Piece::Gone(places) => known_number(*places),
        Piece::Event(event) => known_event(event),
        Piece::Request(id) => known_id(id),
        Piece::Note(note) => known_notes(note),
        Piece::Counted(counted) => known_counted(counted),
        Piece::Dispatch(dispatch) => known_dispatch(dispatch),
        Piece::Transfer(waiting) => known_waiting(waiting),
        Piece::End(end) => known_end(end),
    }
}
