//! A shard restored from the text of its snapshot.

ghost use Rattle.std.specs.Prelude.{◌≡◌, ◌≤◌, ◌<◌, ◌+◌, ◌^◌, [], option_copied, IfErr, IfOk, OnOk};
ghost use Rattle.shard_snapshot.specs.SoFar.{Finishes, IsPieceFault, IsSoFar, IsTailFault, Puts, end_in, fault_of};
ghost use Rattle.shard_snapshot.specs.Stages.{is_head};
ghost use Rattle.shard_snapshot.specs.Texts.{IsRestoreFault, IsSnapshot, IsTextFault, Restores};
ghost use Rattle.shard_store.specs.ShardView.{IsSetup};
ghost use Rattle.snapshot_pieces.specs.Lines.{EndsThere, TakesPiece};

use crate::damage::Damage;
use crate::fault::RestoreFault;
use crate::restoring::Restoring;
use mutable_state_keeper::KeepsRun;
use service_model_types::content::Setup;
use shard_store::Store;
use snapshot_pieces::{Ahead, EndPiece, Head, Piece, PieceFault, next_piece};
use std::alloc::Global;
use std::io::Read;
use wire_counted::Counted;

/// Restores a shard from the text of its snapshot, which is read to its end. The shard stands for the
/// content that the text spells.
///
/// # Errors
/// Where memory was refused, where the reader failed, and else for the first line that is damaged.
pub fn restore<T: KeepsRun, R: Read>(
    alloc: Global,
    setup: Setup,
    reader: &mut Counted<R>,
) -> Result<Store<T>, RestoreFault>
    requires { IsSetup setup }
    ensures restored { IfOk result (λ store. Restores setup
        (R.remaining reader.old.inner) (R.remaining reader.new.inner) store) }
    ensures fault { IfErr result (λ e. IsRestoreFault setup e
        (R.remaining reader.old.inner) (R.remaining reader.new.inner)
        reader.old.failures reader.new.failures) }
{
    let mut ahead = Ahead::new(alloc)?;
    let mut shard = begin(alloc, setup, reader, &mut ahead)?;
    for count in 2..u64::MAX - 1 {
        let piece = piece_behind(alloc, reader, &mut ahead, count)?;
        if let Some(end) = end_in(&piece) {
            let store = finish(shard, end, count)?;
            no_more(alloc, reader, &mut ahead, count + 1)?;
            return Ok(store);
        }
        put(&mut shard, piece, count)?;
    }
    Err(RestoreFault::Memory)
}

/// Restores a shard from the whole text of its snapshot, as [`restore`] does.
///
/// # Errors
/// As [`restore`]. A text in memory is always read.
pub fn restore_text<T: KeepsRun>(
    alloc: Global,
    setup: Setup,
    text: &[u8],
) -> Result<Store<T>, RestoreFault>
    requires { IsSetup setup }
    ensures restored { IfOk result (λ store. IsSnapshot setup text.now store) }
    ensures fault { IfErr result (λ e. IsTextFault setup e text.now) }
{
    let mut reader = Counted::new(text);
    restore(alloc, setup, &mut reader)
}

/// The first two pieces: the head, and what was counted.
fn begin<T: KeepsRun, R: Read>(
    alloc: Global,
    setup: Setup,
    reader: &mut Counted<R>,
    ahead: &mut Ahead,
) -> Result<Restoring<T>, RestoreFault>
    requires setup { IsSetup setup }
    requires nothing { ahead.old ≡ [] }
    ensures so_far { IfOk result (λ shard. IsSoFar setup (R.remaining reader.old.inner)
        (R.remaining reader.new.inner) ahead.new 2 shard) }
    ensures fault { IfErr result (λ e. IsRestoreFault setup e
        (R.remaining reader.old.inner) (R.remaining reader.new.inner)
        reader.old.failures reader.new.failures) }
    ensures grows { reader.old.failures ≤ reader.new.failures }
{
    let Piece::Head(head) = piece_behind(alloc, reader, ahead, 0)? else {
        return Err(RestoreFault::Damaged(1, Damage::Order));
    };
    if !is_head(&setup, &head) {
        return Err(RestoreFault::Damaged(1, Damage::Settings));
    }
    let Piece::Counted(counted) = piece_behind(alloc, reader, ahead, 1)? else {
        return Err(RestoreFault::Damaged(2, Damage::Order));
    };
    match Restoring::begin(alloc, setup, counted) {
        Ok(shard) => Ok(shard),
        Err(damage) => Err(fault_of(damage, 1)),
    }
}

/// The next piece, after so many.
fn piece_behind<R: Read>(
    alloc: Global,
    reader: &mut Counted<R>,
    ahead: &mut Ahead,
    count: u64,
) -> Result<Piece, RestoreFault>
    requires { count + 1 < 2 ^ 64 }
    ensures piece { IfOk result (λ p. TakesPiece (R.remaining reader.old.inner)
        (R.remaining reader.new.inner) ahead.old ahead.new p) }
    ensures fault { IfErr result (λ e. IsPieceFault e count (R.remaining reader.old.inner)
        (R.remaining reader.new.inner) ahead.old reader.old.failures reader.new.failures) }
    ensures grows { reader.old.failures ≤ reader.new.failures }
{
    match next_piece(alloc, reader, ahead) {
        Ok(Some(piece)) => Ok(piece),
        Ok(None) => Err(RestoreFault::Damaged(count + 1, Damage::Cut)),
        Err(PieceFault::Memory) => Err(RestoreFault::Memory),
        Err(PieceFault::Read(error)) => Err(RestoreFault::Read(error)),
        Err(PieceFault::NoPiece) => Err(RestoreFault::Damaged(count + 1, Damage::NoPiece)),
        Err(PieceFault::Cut) => Err(RestoreFault::Damaged(count + 1, Damage::Cut)),
    }
}

/// Nothing, where the input has no piece after so many.
fn no_more<R: Read>(
    alloc: Global,
    reader: &mut Counted<R>,
    ahead: &mut Ahead,
    count: u64,
) -> Result<(), RestoreFault>
    requires { count + 1 < 2 ^ 64 }
    ensures ends { OnOk result (EndsThere (R.remaining reader.old.inner)
        (R.remaining reader.new.inner) ahead.old) }
    ensures fault { IfErr result (λ e. IsTailFault e count (R.remaining reader.old.inner)
        (R.remaining reader.new.inner) ahead.old reader.old.failures reader.new.failures) }
{
    match next_piece(alloc, reader, ahead) {
        Ok(None) => Ok(()),
        Ok(Some(_)) => Err(RestoreFault::Damaged(count + 1, Damage::Order)),
        Err(PieceFault::Memory) => Err(RestoreFault::Memory),
        Err(PieceFault::Read(error)) => Err(RestoreFault::Read(error)),
        Err(PieceFault::NoPiece) => Err(RestoreFault::Damaged(count + 1, Damage::NoPiece)),
        Err(PieceFault::Cut) => Err(RestoreFault::Damaged(count + 1, Damage::Cut)),
    }
}

/// The end that a piece is.
fn end_in(piece: &Piece) -> Option<&EndPiece>
    ensures { option_copied result ≡ end_in piece.now }
{
    match piece {
        Piece::End(end) => Some(end),
        _ => None,
    }
}

/// The shard at its end, after so many pieces.
fn finish<T: KeepsRun>(
    shard: Restoring<T>,
    end: &EndPiece,
    count: u64,
) -> Result<Store<T>, RestoreFault>
    requires { count + 1 < 2 ^ 64 }
    ensures { Finishes result shard count end.now }
{
    if end.lines != count {
        return Err(RestoreFault::Damaged(count + 1, Damage::Lines));
    }
    match shard.end(end) {
        Ok(store) => Ok(store),
        Err(damage) => Err(fault_of(damage, count)),
    }
}

/// Lays a piece after so many.
fn put<T: KeepsRun>(shard: &mut Restoring<T>, piece: Piece, count: u64) -> Result<(), RestoreFault>
    requires { count + 1 < 2 ^ 64 }
    ensures { Puts result shard.old shard.new count piece }
{
    match shard.put(piece) {
        Ok(()) => Ok(()),
        Err(damage) => Err(fault_of(damage, count)),
    }
}

/// The fault of a piece that lays nothing, after so many.
pub(crate) fn fault_of(damage: Damage, count: u64) -> RestoreFault
    requires { count + 1 < 2 ^ 64 }
    ensures { result ≡ fault_of count damage }
{
    match damage {
        Damage::NoMemory => RestoreFault::Memory,
        damage => RestoreFault::Damaged(count + 1, damage),
    }
}

/// Whether a head is that of a shard with this setup.
fn is_head(setup: &Setup, head: &Head) -> bool
    ensures { result ≡ is_head setup.now head.now }
{
    head.service == setup.service
        && head.shard == setup.shard
        && head.shards == setup.shards
        && head.retention.millis() == setup.retention.millis()
}
