//! The lines of a shard's snapshot: each says one piece of it, and is read as that piece again.
#![tactic(auto)]

ghost use Rattle.std.specs.Prelude.{◌≡◌, List, [], ◌∷◌, ◌++◌, ℕ, Option, Some, false, flat_map};
ghost use Rattle.std.specs.Io.KnownBytes.{Consumes};
ghost use Rattle.std.specs.List.{AllByRecursion};
ghost use Rattle.wf_event.specs.declared.event.Event.{Event};
ghost use Rattle.wire_record_events.specs.Trees.{event_text};
ghost use Rattle.wire_record_rows.specs.Plain.{has_feed};
ghost use Rattle.snapshot_pieces.specs.Limits.{IsPiece};
ghost use Rattle.snapshot_pieces.specs.Lines.{EndsThere, HasRead, TakesPiece};
ghost use Rattle.snapshot_pieces.specs.Reading.{piece_named};
ghost use Rattle.snapshot_pieces.specs.Trees.{line_of, piece_text};
ghost use Rattle.snapshot_pieces.specs.declared.piece.Piece.{Piece};
ghost use Rattle.snapshot_pieces.specs.declared.piece.Piece.TheVariants as piece;

mod kinds;
mod known;
mod lines;
mod piece;
mod put;
mod reading;
mod values;
mod writing;

pub use known::{is_whole, known_counted, known_piece};
pub use lines::{Ahead, PieceFault, next_piece};
pub use piece::{CountedPiece, EndPiece, Head, NotePiece, Piece, TransferPiece};
pub use reading::read_piece;
pub use writing::{
    add_counted_line, add_dispatch_line, add_event_line, add_piece_line, add_transfer_line,
};

/// The text that a piece is written as is read as the piece.
pub fn pieces_are_read_again()
    ensures { (p : Piece) → IsPiece p → piece_named (piece_text p) ≡ Some p }
{}

/// No text is that of two pieces.
pub fn texts_are_of_one_piece()
    ensures { (text : List ℕ) (p q : Piece) → IsPiece p → IsPiece q
        → text ≡ piece_text p → text ≡ piece_text q → p ≡ q }
{}

/// A piece's text is one line.
pub fn pieces_are_one_line()
    ensures { (p : Piece) → IsPiece p → has_feed (piece_text p) ≡ false }
{}

/// An event's text is the one that histories show.
pub fn events_are_as_in_histories()
    ensures { (e : Event) → piece_text (piece.Event e) ≡ event_text e }
{}

/// No text is that of the lines of two lists of pieces.
pub fn texts_are_of_one_list()
    ensures { (ps qs : List Piece) → AllByRecursion IsPiece ps → AllByRecursion IsPiece qs
        → flat_map line_of ps ≡ flat_map line_of qs → ps ≡ qs }
{}

/// What is read piece by piece, up to the end, is the text of these pieces' lines.
pub fn pieces_are_read_one_after_another()
    ensures begun { (u : Option (List ℕ)) → HasRead u u [] [] }
    ensures more { (u u' u'' : Option (List ℕ)) (ahead ahead' : List ℕ) (ps : List Piece)
        (p : Piece) → HasRead u u' ahead ps → TakesPiece u' u'' ahead ahead' p
        → HasRead u u'' ahead' (ps ++ p ∷ []) }
    ensures all { (u u' u'' : Option (List ℕ)) (ahead : List ℕ) (ps : List Piece)
        → HasRead u u' ahead ps → EndsThere u' u'' ahead → Consumes u u'' (flat_map line_of ps) }
{}
