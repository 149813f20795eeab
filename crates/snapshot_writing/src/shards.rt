//! The lines of a shard: its head, what was counted, its runs, what waits, and the end.

ghost use Rattle.std.specs.Prelude.{◌≡◌, ◌<◌, IfOk, string_bytes};
ghost use Rattle.shard_issued.specs.Outstanding.{IsCaughtUp};
ghost use Rattle.shard_snapshot.specs.Texts.{IsSnapshot};

use crate::fault::SnapshotFault;
use crate::runs::add_run;
use mutable_state_keeper::{KeepsRun, TellsRun};
use service_model_types::content::Dispatch;
use service_model_types::transfer::Transfer;
use shard_snapshot::Writing;
use shard_store::Store;
use snapshot_pieces::{CountedPiece, Piece, TransferPiece};
use std::alloc::{AllocError, Global};
use transfer::copied;
use wf_event_values::Items;

/// How many transfers each shard acknowledged.
fn acknowledged<T: KeepsRun>(alloc: Global, store: &Store<T>) -> Result<Vec<u64>, AllocError>
    requires { IsCaughtUp store.now.changed }
{
    let mut counts = Vec::new(alloc);
    for to in 0..store.setup().shards {
        counts.push(store.acknowledged_by(to))?;
    }
    Ok(counts)
}

/// The head, and what was counted.
fn begin<T: KeepsRun>(alloc: Global, store: &Store<T>) -> Result<Writing<T>, SnapshotFault>
    requires { IsCaughtUp store.now.changed }
{
    let mut accepted = Vec::new(alloc);
    accepted.extend_from_slice(store.accepted())?;
    let counted = CountedPiece {
        dispatched: store.counted_dispatches(),
        accepted: Items::from_vec(accepted),
        acknowledged: Items::from_vec(acknowledged(alloc, store)?),
    };
    Ok(Writing::start(alloc, store.setup(), counted)?)
}

/// Places of so many runs that were deleted, if of any.
fn add_gone<T: KeepsRun>(lines: &mut Writing<T>, places: u64) -> Result<(), SnapshotFault> {
    if places > 0 {
        lines.write(Piece::Gone(places))?;
    }
    Ok(())
}

/// The runs, in the order of their places.
fn add_runs<T: TellsRun>(lines: &mut Writing<T>, store: &Store<T>) -> Result<(), SnapshotFault> {
    let mut gone: u64 = 0;
    for index in 0..store.count() {
        match store.run_at(index) {
            Some(run) => {
                add_gone(lines, gone)?;
                gone = 0;
                add_run(lines, run)?;
            }
            None => gone = gone.saturating_add(1),
        }
    }
    add_gone(lines, gone)
}

/// The dispatches that wait.
fn add_dispatches<T: KeepsRun>(
    lines: &mut Writing<T>,
    store: &Store<T>,
) -> Result<(), SnapshotFault>
    requires { IsCaughtUp store.now.changed }
{
    for index in 0..store.waiting_dispatches() {
        if let Some(dispatch) = store.dispatch_at(index) {
            lines.write(Piece::Dispatch(Dispatch {
                queue: dispatch.queue.clone()?,
                hint: dispatch.hint,
            }))?;
        }
    }
    Ok(())
}

/// The transfers to a shard that it did not acknowledge.
fn add_transfers_to<T: KeepsRun>(
    lines: &mut Writing<T>,
    store: &Store<T>,
    to: u16,
) -> Result<(), SnapshotFault>
    requires caught_up { IsCaughtUp store.now.changed }
    requires there { to < store.now.setup.shards }
{
    let mut number = store.acknowledged_by(to);
    for index in 0..usize::MAX {
        let Some(content) = store.transfer_at(to, index) else {
            break;
        };
        number = number.saturating_add(1);
        let transfer = Transfer {
            from: store.setup().shard,
            number,
            content: copied(content)?,
        };
        lines.write(Piece::Transfer(TransferPiece { to, transfer }))?;
    }
    Ok(())
}

/// Those to all shards.
fn add_transfers<T: KeepsRun>(lines: &mut Writing<T>, store: &Store<T>) -> Result<(), SnapshotFault>
    requires { IsCaughtUp store.now.changed }
{
    for to in 0..store.setup().shards {
        add_transfers_to(lines, store, to)?;
    }
    Ok(())
}

/// The lines of a shard that is caught up, and the shard that they restore.
pub(crate) fn written<T: TellsRun>(
    alloc: Global,
    store: &Store<T>,
) -> Result<(String, Store<T>), SnapshotFault>
    requires { IsCaughtUp store.now.changed }
    ensures { IfOk result (λ r. IsSnapshot r.1.setup (string_bytes r.0) r.1) }
{
    let mut lines = begin(alloc, store)?;
    add_runs(&mut lines, store)?;
    add_dispatches(&mut lines, store)?;
    add_transfers(&mut lines, store)?;
    Ok(lines.finish(store.last())?)
}
