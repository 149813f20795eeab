//! What pieces say, written with every key.

ghost use Rattle.std.specs.Prelude.{◌≡◌, OnOk, codes};
ghost use Rattle.json.specs.Token.{begin_object, end_object, key};
ghost use Rattle.serde_json.specs.Data.{array};
ghost use Rattle.serde_json.specs.View.{items_of};
ghost use Rattle.service_model_types.specs.Notes.{details_of};
ghost use Rattle.wire_pages.specs.Pages.{sheet_of, add, add_member, add_value};
ghost use Rattle.wire_record_rows.specs.Rows.{add_row, add_rows, if_text, object_of};
ghost use Rattle.snapshot_pieces.specs.Trees.{both_counts, both_rows, counted_rows, dispatch_rows, end_rows, head_rows, note_rows, piece_tree};
ghost use Rattle.snapshot_pieces.specs.declared.piece.Piece.TheVariants as piece;

use crate::kinds::note_kind;
use crate::piece::{CountedPiece, EndPiece, Head, NotePiece};
use service_model_types::content::Dispatch;
use service_model_types::journal::Note;
use service_model_types::transfer::Transfer;
use std::alloc::AllocError;
use wf_event_values::Id;
use wire_pages::Page;
use wire_record_transfers::put_transfer;

/// Begins an object whose one member is an object.
fn begin_under(page: &mut Page, name: &str) -> Result<(), AllocError>
    ensures { OnOk result (sheet_of page.new
        ≡ add begin_object (add (key name.now) (add begin_object (sheet_of page.old)))) }
{
    page.begin_object()?;
    page.key(name)?;
    page.begin_object()
}

/// Ends both objects.
fn end_both(page: &mut Page) -> Result<(), AllocError>
    ensures { OnOk result (sheet_of page.new
        ≡ add end_object (add end_object (sheet_of page.old))) }
{
    page.end_object()?;
    page.end_object()
}

#[tactic(auto, unfolding(wire_record_rows::specs::Rows::add_row, wire_record_rows::specs::Rows::add_rows, crate::specs::Trees::head_rows))]
fn put_head_rows(page: &mut Page, head: &Head) -> Result<(), AllocError>
    ensures { OnOk result (sheet_of page.new
        ≡ add_rows (head_rows head.now) (sheet_of page.old)) }
{
    page.number("retention", head.retention.millis())?;
    page.number("service", head.service)?;
    page.number("shard", u64::from(head.shard))?;
    page.number("shards", u64::from(head.shards))
}

pub(crate) fn put_head(page: &mut Page, head: &Head) -> Result<(), AllocError>
    ensures { OnOk result (sheet_of page.new
        ≡ add_value (piece_tree (piece.Head head.now)) (sheet_of page.old)) }
{
    begin_under(page, "head")?;
    put_head_rows(page, head)?;
    end_both(page)
}

pub(crate) fn put_gone(page: &mut Page, places: u64) -> Result<(), AllocError>
    ensures { OnOk result (sheet_of page.new
        ≡ add_value (piece_tree (piece.Gone places)) (sheet_of page.old)) }
{
    page.begin_object()?;
    page.number("gone", places)?;
    page.end_object()
}

pub(crate) fn put_request(page: &mut Page, id: &Id) -> Result<(), AllocError>
    ensures { OnOk result (sheet_of page.new
        ≡ add_value (piece_tree (piece.Request id.now)) (sheet_of page.old)) }
{
    page.begin_object()?;
    page.text("request_id", id.as_str())?;
    page.end_object()
}

/// The details of a heartbeat, where it is one.
#[tactic(auto, unfolding(wire_record_rows::specs::Rows::add_row))]
fn put_details(page: &mut Page, note: &Note) -> Result<(), AllocError>
    ensures { OnOk result (sheet_of page.new
        ≡ add_row (if_text (codes "details") (details_of note.now)) (sheet_of page.old)) }
{
    match note {
        Note::Beat(details) => page.text("details", details.as_str()),
        _ => Ok(()),
    }
}

#[tactic(auto, unfolding(wire_record_rows::specs::Rows::add_row, wire_record_rows::specs::Rows::add_rows, crate::specs::Trees::note_rows))]
fn put_note_rows(page: &mut Page, note: &NotePiece) -> Result<(), AllocError>
    ensures { OnOk result (sheet_of page.new
        ≡ add_rows (note_rows note.now) (sheet_of page.old)) }
{
    page.number("activity", note.activity)?;
    page.number("at", note.at.millis())?;
    put_details(page, &note.note)?;
    page.text("kind", note_kind(&note.note).name())?;
    page.number("times", u64::from(note.times))
}

pub(crate) fn put_note(page: &mut Page, note: &NotePiece) -> Result<(), AllocError>
    ensures { OnOk result (sheet_of page.new
        ≡ add_value (piece_tree (piece.Note note.now)) (sheet_of page.old)) }
{
    begin_under(page, "note")?;
    put_note_rows(page, note)?;
    end_both(page)
}

/// Both counts of a shard, an item of a list.
fn put_both(page: &mut Page, accepted: u64, acknowledged: u64) -> Result<(), AllocError>
    ensures { OnOk result (sheet_of page.new
        ≡ add_value (object_of (both_rows accepted acknowledged)) (sheet_of page.old)) }
{
    page.begin_object()?;
    page.number("accepted", accepted)?;
    page.number("acknowledged", acknowledged)?;
    page.end_object()
}

/// Both counts of each shard.
#[tactic(auto, unfolding(wire_pages::specs::Pages::add_items, wire_pages::specs::Pages::add_member))]
fn put_counts(page: &mut Page, accepted: &[u64], acknowledged: &[u64]) -> Result<(), AllocError>
    ensures { OnOk result (sheet_of page.new ≡ add_member (codes "transfers")
        (array (items_of (both_counts accepted.now acknowledged.now))) (sheet_of page.old)) }
{
    page.key("transfers")?;
    page.begin_array()?;
    for (taken, told) in accepted.iter().zip(acknowledged) {
        put_both(page, *taken, *told)?;
    }
    page.end_array()
}

#[tactic(auto, unfolding(wire_record_rows::specs::Rows::add_row, wire_record_rows::specs::Rows::add_rows, crate::specs::Trees::counted_rows))]
fn put_counted_rows(page: &mut Page, counted: &CountedPiece) -> Result<(), AllocError>
    ensures { OnOk result (sheet_of page.new
        ≡ add_rows (counted_rows counted.now) (sheet_of page.old)) }
{
    page.number("dispatched", counted.dispatched)?;
    put_counts(
        page,
        counted.accepted.as_slice(),
        counted.acknowledged.as_slice(),
    )
}

pub(crate) fn put_counted(page: &mut Page, counted: &CountedPiece) -> Result<(), AllocError>
    ensures { OnOk result (sheet_of page.new
        ≡ add_value (piece_tree (piece.Counted counted.now)) (sheet_of page.old)) }
{
    begin_under(page, "counted")?;
    put_counted_rows(page, counted)?;
    end_both(page)
}

#[tactic(auto, unfolding(wire_record_rows::specs::Rows::add_row, wire_record_rows::specs::Rows::add_rows, crate::specs::Trees::dispatch_rows))]
fn put_dispatch_rows(page: &mut Page, dispatch: &Dispatch) -> Result<(), AllocError>
    ensures { OnOk result (sheet_of page.new
        ≡ add_rows (dispatch_rows dispatch.now) (sheet_of page.old)) }
{
    page.number("attempt", u64::from(dispatch.hint.attempt))?;
    page.number("event", dispatch.hint.event)?;
    page.text("kind", dispatch.hint.kind.name())?;
    page.text("queue", dispatch.queue.as_str())?;
    page.number("run", dispatch.hint.run)?;
    page.number("shard", u64::from(dispatch.hint.shard))
}

pub(crate) fn put_dispatch(page: &mut Page, dispatch: &Dispatch) -> Result<(), AllocError>
    ensures { OnOk result (sheet_of page.new
        ≡ add_value (piece_tree (piece.Dispatch dispatch.now)) (sheet_of page.old)) }
{
    begin_under(page, "dispatch")?;
    put_dispatch_rows(page, dispatch)?;
    end_both(page)
}

pub(crate) fn put_waiting(page: &mut Page, to: u16, transfer: &Transfer) -> Result<(), AllocError>
    ensures { OnOk result (sheet_of page.new ≡ add_value
        (piece_tree (piece.Transfer (record { to = to; transfer = transfer.now })))
        (sheet_of page.old)) }
{
    page.begin_object()?;
    page.number("to", u64::from(to))?;
    put_transfer(page, transfer)?;
    page.end_object()
}

#[tactic(auto, unfolding(wire_record_rows::specs::Rows::add_row, wire_record_rows::specs::Rows::add_rows, crate::specs::Trees::end_rows))]
fn put_end_rows(page: &mut Page, end: &EndPiece) -> Result<(), AllocError>
    ensures { OnOk result (sheet_of page.new
        ≡ add_rows (end_rows end.now) (sheet_of page.old)) }
{
    page.number("last", end.last.millis())?;
    page.number("lines", end.lines)
}

pub(crate) fn put_end(page: &mut Page, end: &EndPiece) -> Result<(), AllocError>
    ensures { OnOk result (sheet_of page.new
        ≡ add_value (piece_tree (piece.End end.now)) (sheet_of page.old)) }
{
    begin_under(page, "end")?;
    put_end_rows(page, end)?;
    end_both(page)
}
