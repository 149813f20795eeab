//! Pieces that are read from an input, line by line.

ghost use Rattle.std.specs.Prelude.{◌≡◌, ◌≤◌, ◌++◌, [], List, ℕ, false, IsTrue, IfOk, IfErr, IfSome, IfNone, None};
ghost use Rattle.std.specs.Io.KnownBytes.{IsAtEnd};
ghost use Rattle.wire_lines.specs.Pending.{has_feed};
ghost use Rattle.snapshot_pieces.specs.Limits.{IsPiece};
ghost use Rattle.snapshot_pieces.specs.Lines.{EndsThere, IsFault, IsLineFault, ReadsMore, TakesPiece};
ghost use Rattle.snapshot_pieces.specs.Trees.{line_of};
ghost use Rattle.snapshot_pieces.specs.declared.lines.PieceFault.TheVariants.{Cut, Memory};

use crate::piece::Piece;
use crate::reading::piece_by_text;
use json::Scratch;
use std::alloc::{AllocError, Global};
use std::io::{self, Read};
use std::marker::Model;
use wire_counted::{Counted, read_some};
use wire_lines::cut;

/// Why no piece is read.
#[derive(Drop)]
pub enum PieceFault {
    Memory,
    Read(io::Error),
    /// The next line is the text of no piece.
    NoPiece,
    /// The input ends within a line.
    Cut,
}

impl From<AllocError> for PieceFault {
    ghost from_gives = { λ _ e. e ≡ Memory };

    fn from(_error: AllocError) -> PieceFault {
        PieceFault::Memory
    }
}

/// What was read of an input, and is not taken yet.
#[derive(Drop)]
pub struct Ahead {
    /// A line so far.
    line: Vec<u8>,
    /// What comes after it, between two places.
    chunk: Vec<u8>,
    from: usize,
    to: usize,
    /// The window through which lines are read.
    scratch: Scratch,
}

impl Model for Ahead {
    ghost use Rattle.std.specs.Prelude.{◌≡◌, ◌≤◌, ◌<◌, ◌++◌, List, ℕ, false, drop, take, vec_len};
    ghost use Rattle.wire_lines.specs.Pending.{has_feed};

    ghost Value = { List ℕ };

    ghost view = { λ a. a.line.items ++ drop a.from (take a.to a.chunk.items) };

    ghost invariant = { λ a. (has_feed a.line.items ≡ false) × (a.from ≤ a.to)
        × (a.to ≤ vec_len a.chunk) × (0 < vec_len a.chunk) };
}

impl Ahead {
    /// Nothing, before an input is read.
    pub fn new(alloc: Global) -> Result<Ahead, AllocError>
        ensures { IfOk result (λ a. a ≡ []) }
    {
        let chunk = vec![in alloc; 0; 8192]?;
        let line = Vec::new(alloc);
        Ok(Ahead {
            line,
            chunk,
            from: 0,
            to: 0,
            scratch: Scratch::new(alloc),
        })
    }

    /// Takes the first line, where one ends in what was read.
    fn take_line(&mut self, alloc: Global) -> Result<Option<Piece>, PieceFault>
        ensures piece { IfOk result (λ o. IfSome o (λ p.
            IsPiece p × (self.old ≡ line_of p ++ self.new))) }
        ensures none { IfOk result (λ o. IfNone o
            ((self.new ≡ self.old) × (has_feed self.new ≡ false))) }
        ensures fault { IfErr result (λ e. IsLineFault e self.old) }
    {
        let Some((part, _)) = cut(self.chunk[..self.to].split_at(self.from).1) else {
            return Ok(None);
        };
        let length = part.len();
        self.line.extend_from_slice(part)?;
        let Some(piece) = piece_by_text(alloc, &mut self.scratch, self.line.as_slice())? else {
            return Err(PieceFault::NoPiece);
        };
        self.line.clear();
        self.from += length + 1;
        Ok(Some(piece))
    }

    /// Reads what is there. True at the end of the input.
    fn read_more<R: Read>(&mut self, reader: &mut Counted<R>) -> Result<bool, PieceFault>
        requires { has_feed self.old ≡ false }
        ensures more { IfOk result (λ done. ReadsMore (R.remaining reader.old.inner)
            (R.remaining reader.new.inner) self.old self.new) }
        ensures end { IfOk result (λ done. IsTrue done
            → IsAtEnd (R.remaining reader.new.inner) × (self.new ≡ self.old)) }
        ensures fault { IfErr result (λ e. IsFault e (R.remaining reader.old.inner)
            (R.remaining reader.new.inner) self.old reader.old.failures reader.new.failures) }
        ensures grows { reader.old.failures ≤ reader.new.failures }
    {
        let rest = self.chunk[..self.to].split_at(self.from).1;
        self.line.extend_from_slice(rest)?;
        self.from = 0;
        self.to = 0;
        let count = match read_some(reader, &mut self.chunk) {
            Ok(count) => count,
            Err(error) => return Err(PieceFault::Read(error)),
        };
        self.to = count;
        Ok(count == 0)
    }

    /// No piece, where all was taken.
    fn end(&self) -> Result<Option<Piece>, PieceFault>
        ensures none { IfOk result (λ o. (o ≡ None) × (self.now ≡ [])) }
        ensures cut { IfErr result (λ e. (e ≡ Cut) × (self.now ≡ [] → ⊥)) }
    {
        if self.line.len() > 0 {
            return Err(PieceFault::Cut);
        }
        if self.to > self.from {
            return Err(PieceFault::Cut);
        }
        Ok(None)
    }
}

/// The next piece of an input, or none at its end. The piece's line is just what was taken: first
/// what was read ahead, and then what was read in this call. After a fault it isn't known what was
/// taken.
pub fn next_piece<R: Read>(
    alloc: Global,
    reader: &mut Counted<R>,
    ahead: &mut Ahead,
) -> Result<Option<Piece>, PieceFault>
    ensures piece { IfOk result (λ o. IfSome o (TakesPiece (R.remaining reader.old.inner)
        (R.remaining reader.new.inner) ahead.old ahead.new)) }
    ensures end { IfOk result (λ o. IfNone o (EndsThere (R.remaining reader.old.inner)
        (R.remaining reader.new.inner) ahead.old)) }
    ensures fault { IfErr result (λ e. IsFault e (R.remaining reader.old.inner)
        (R.remaining reader.new.inner) ahead.old reader.old.failures reader.new.failures) }
    ensures grows { reader.old.failures ≤ reader.new.failures }
{
    for _ in 0..u64::MAX {
        if let Some(piece) = ahead.take_line(alloc)? {
            return Ok(Some(piece));
        }
        if ahead.read_more(reader)? {
            return ahead.end();
        }
    }
    Err(PieceFault::Memory)
}
