//! Lines of pieces, added to a text. Where memory is refused, that text is lost.

ghost use Rattle.std.specs.Prelude.{◌≡◌, ◌++◌, ◌∷◌, [], OnOk, string_bytes};
ghost use Rattle.wire_pages.specs.Pages.{sheet_of, blank};
ghost use Rattle.snapshot_pieces.specs.Trees.{line_of, piece_text};
ghost use Rattle.snapshot_pieces.specs.declared.piece.Piece.TheVariants as piece;

use crate::piece::{CountedPiece, EndPiece, Head, NotePiece, Piece};
use crate::put::{
    put_counted, put_dispatch, put_end, put_gone, put_head, put_note, put_request, put_waiting,
};
use service_model_types::content::Dispatch;
use service_model_types::transfer::Transfer;
use std::alloc::{AllocError, Global};
use std::mem;
use wf_event::Event;
use wf_event_values::Id;
use wire_events::put_event;
use wire_pages::Page;

/// A page after the text, which is taken.
fn page_after(alloc: Global, text: &mut String) -> Page
    ensures { sheet_of result ≡ blank (string_bytes text.old) }
{
    let before = mem::replace(text, String::new(alloc));
    Page::new(alloc, before)
}

fn add_head(alloc: Global, text: &mut String, head: &Head) -> Result<(), AllocError>
    ensures { OnOk result (string_bytes text.new
        ≡ string_bytes text.old ++ piece_text (piece.Head head.now)) }
{
    let mut page = page_after(alloc, text);
    put_head(&mut page, head)?;
    *text = page.into_text();
    Ok(())
}

fn add_gone(alloc: Global, text: &mut String, places: u64) -> Result<(), AllocError>
    ensures { OnOk result (string_bytes text.new
        ≡ string_bytes text.old ++ piece_text (piece.Gone places)) }
{
    let mut page = page_after(alloc, text);
    put_gone(&mut page, places)?;
    *text = page.into_text();
    Ok(())
}

#[tactic(auto, unfolding(crate::specs::Trees::piece_tree))]
fn add_event(alloc: Global, text: &mut String, event: &Event) -> Result<(), AllocError>
    ensures { OnOk result (string_bytes text.new
        ≡ string_bytes text.old ++ piece_text (piece.Event event.now)) }
{
    let mut page = page_after(alloc, text);
    put_event(&mut page, event)?;
    *text = page.into_text();
    Ok(())
}

fn add_request(alloc: Global, text: &mut String, id: &Id) -> Result<(), AllocError>
    ensures { OnOk result (string_bytes text.new
        ≡ string_bytes text.old ++ piece_text (piece.Request id.now)) }
{
    let mut page = page_after(alloc, text);
    put_request(&mut page, id)?;
    *text = page.into_text();
    Ok(())
}

fn add_note(alloc: Global, text: &mut String, note: &NotePiece) -> Result<(), AllocError>
    ensures { OnOk result (string_bytes text.new
        ≡ string_bytes text.old ++ piece_text (piece.Note note.now)) }
{
    let mut page = page_after(alloc, text);
    put_note(&mut page, note)?;
    *text = page.into_text();
    Ok(())
}

fn add_counted(alloc: Global, text: &mut String, counted: &CountedPiece) -> Result<(), AllocError>
    ensures { OnOk result (string_bytes text.new
        ≡ string_bytes text.old ++ piece_text (piece.Counted counted.now)) }
{
    let mut page = page_after(alloc, text);
    put_counted(&mut page, counted)?;
    *text = page.into_text();
    Ok(())
}

fn add_dispatch(alloc: Global, text: &mut String, dispatch: &Dispatch) -> Result<(), AllocError>
    ensures { OnOk result (string_bytes text.new
        ≡ string_bytes text.old ++ piece_text (piece.Dispatch dispatch.now)) }
{
    let mut page = page_after(alloc, text);
    put_dispatch(&mut page, dispatch)?;
    *text = page.into_text();
    Ok(())
}

fn add_transfer(
    alloc: Global,
    text: &mut String,
    to: u16,
    transfer: &Transfer,
) -> Result<(), AllocError>
    ensures { OnOk result (string_bytes text.new ≡ string_bytes text.old
        ++ piece_text (piece.Transfer (record { to = to; transfer = transfer.now }))) }
{
    let mut page = page_after(alloc, text);
    put_waiting(&mut page, to, transfer)?;
    *text = page.into_text();
    Ok(())
}

fn add_end(alloc: Global, text: &mut String, end: &EndPiece) -> Result<(), AllocError>
    ensures { OnOk result (string_bytes text.new
        ≡ string_bytes text.old ++ piece_text (piece.End end.now)) }
{
    let mut page = page_after(alloc, text);
    put_end(&mut page, end)?;
    *text = page.into_text();
    Ok(())
}

/// Adds a piece's text.
pub(crate) fn add_piece(alloc: Global, text: &mut String, piece: &Piece) -> Result<(), AllocError>
    ensures { OnOk result (string_bytes text.new
        ≡ string_bytes text.old ++ piece_text piece.now) }
{
    match piece {
        Piece::Head(head) => add_head(alloc, text, head),
        Piece::Gone(places) => add_gone(alloc, text, *places),
        Piece::Event(event) => add_event(alloc, text, event),
        Piece::Request(id) => add_request(alloc, text, id),
        Piece::Note(note) => add_note(alloc, text, note),
        Piece::Counted(counted) => add_counted(alloc, text, counted),
        Piece::Dispatch(dispatch) => add_dispatch(alloc, text, dispatch),
        Piece::Transfer(waiting) => add_transfer(alloc, text, waiting.to, &waiting.transfer),
        Piece::End(end) => add_end(alloc, text, end),
    }
}

/// Adds a piece's line, with its line feed.
pub fn add_piece_line(alloc: Global, text: &mut String, piece: &Piece) -> Result<(), AllocError>
    ensures { OnOk result (string_bytes text.new ≡ string_bytes text.old ++ line_of piece.now) }
{
    add_piece(alloc, text, piece)?;
    text.push('\n')
}

/// Adds an event's line, with its line feed.
pub fn add_event_line(alloc: Global, text: &mut String, event: &Event) -> Result<(), AllocError>
    ensures { OnOk result (string_bytes text.new
        ≡ string_bytes text.old ++ line_of (piece.Event event.now)) }
{
    add_event(alloc, text, event)?;
    text.push('\n')
}

/// Adds the line of what was counted, with its line feed.
pub fn add_counted_line(
    alloc: Global,
    text: &mut String,
    counted: &CountedPiece,
) -> Result<(), AllocError>
    ensures { OnOk result (string_bytes text.new
        ≡ string_bytes text.old ++ line_of (piece.Counted counted.now)) }
{
    add_counted(alloc, text, counted)?;
    text.push('\n')
}

/// Adds the line of a dispatch that waits, with its line feed.
pub fn add_dispatch_line(
    alloc: Global,
    text: &mut String,
    dispatch: &Dispatch,
) -> Result<(), AllocError>
    ensures { OnOk result (string_bytes text.new
        ≡ string_bytes text.old ++ line_of (piece.Dispatch dispatch.now)) }
{
    add_dispatch(alloc, text, dispatch)?;
    text.push('\n')
}

/// Adds the line of a transfer that waits, with its line feed.
pub fn add_transfer_line(
    alloc: Global,
    text: &mut String,
    to: u16,
    transfer: &Transfer,
) -> Result<(), AllocError>
    ensures { OnOk result (string_bytes text.new ≡ string_bytes text.old
        ++ line_of (piece.Transfer (record { to = to; transfer = transfer.now }))) }
{
    add_transfer(alloc, text, to, transfer)?;
    text.push('\n')
}
