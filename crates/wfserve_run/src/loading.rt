//! The shards of a service from the files of their snapshots.

ghost use Rattle.std.specs.Prelude.{◌<◌, IfOk, IfSome, map};
ghost use Rattle.checkpoints.specs.Restored.{AreRestored, IsRestored, SpellInOrder, text_of};

use crate::fault::Fault;
use crate::paths::snapshot_path;
use crate::records::{at_path, read_synced};
use checkpoint_text::SnapshotFile;
use checkpoints::{Checkpointed, LoadFault, Restored, restore_shard, stand_in_order};
use journal_frames::check_of;
use script::ScriptFault;
use service_model_types::limits::MOST_SHARDS;
use service_model_types::settings::Settings;
use shard_snapshot::Damage;
use std::alloc::{AllocError, AllocGlobal, Global};
use std::fs;
use std::rt::Files;

/// What is wrong with a line that is damaged so.
fn text_of(damage: Damage) -> &'static str {
    match damage {
        Damage::Order => "a line of its kind may not stand there",
        Damage::Count => "there is not a count for each shard",
        Damage::Fact => "it does not fit its run",
        Damage::Run =>
            "the run before it does not fit the others of its workflow ID, or the last moment",
        Damage::Issue => "it is another shard's, or not the next one",
        Damage::Settings => "the snapshot is of other settings: --service, --shards or --retention",
        Damage::Lines => "the snapshot has another number of lines",
        Damage::NoPiece => "it is no line of a snapshot",
        Damage::Cut => "the snapshot ends early",
        Damage::NoMemory => "out of memory",
    }
}

/// The fault of a snapshot that gives no shard.
pub(crate) fn load_fault(path: String, fault: LoadFault) -> Fault {
    match fault {
        LoadFault::Memory => Fault::Memory(AllocError),
        LoadFault::Damaged(line, damage) => Fault::BadSnapshot {
            path,
            line,
            damage: text_of(damage),
        },
        LoadFault::Queue => Fault::LeftOutQueue { path },
        LoadFault::Settings => Fault::BadSnapshot {
            path,
            line: 1,
            damage: text_of(Damage::Settings),
        },
    }
}

/// The folder with the snapshots of a service's shards.
#[derive(Clone, Copy)]
pub(crate) struct Snapshots<'a> {
    pub(crate) folder: &'a str,
    /// What each file has to be, where a checkpoint says it.
    pub(crate) files: Option<&'a [SnapshotFile]>,
}

/// Whether a file has just these bytes.
fn is_just(alloc: Global, file: &SnapshotFile, text: &[u8]) -> Result<bool, AllocError> {
    let check = check_of(alloc, text)?;
    Ok(text.len() as u64 == file.bytes && check.as_slice() == file.check.as_bytes())
}

/// Whether the text of a shard's snapshot is what the checkpoint says, where there is one.
fn is_expected(
    alloc: Global,
    from: Snapshots<'_>,
    shard: u64,
    text: &[u8],
) -> Result<bool, AllocError> {
    let Some(files) = from.files else {
        return Ok(true);
    };
    match files.get(shard as usize) {
        Some(file) => is_just(alloc, file, text),
        None => Ok(false),
    }
}

/// The shard that its snapshot restores. One that a checkpoint names is on the system's disk then.
fn load_one<S: Checkpointed, H: Files + AllocGlobal>(
    rt: &H,
    from: Snapshots<'_>,
    settings: &Settings,
    shard: u64,
) -> Result<Restored<S>, Fault>
    requires { shard < 100 }
    ensures { IfOk result (λ r. IsRestored S.stands settings.now shard r) }
{
    let alloc = rt.alloc();
    let path = snapshot_path(alloc, from.folder, shard)?;
    let text = match from.files {
        Some(_) => read_synced(rt, path.as_str())?,
        None => at_path(path.as_str(), alloc, fs::read(rt, path.as_str()))?,
    };
    if !is_expected(alloc, from, shard, &text)? {
        return Err(Fault::OtherSnapshot { path });
    }
    match restore_shard(alloc, settings, shard, &text) {
        Ok(shard) => Ok(shard),
        Err(fault) => Err(load_fault(path, fault)),
    }
}

/// The service's shards, as the snapshots in a folder restore them; none where these are not of one moment.
pub(crate) fn load_all<S: Checkpointed, H: Files + AllocGlobal>(
    rt: &H,
    from: Snapshots<'_>,
    settings: &Settings,
) -> Result<Option<Vec<Restored<S>>>, Fault>
    ensures restored { IfOk result (λ found. IfSome found (λ shards.
        AreRestored S.stands settings.now shards.items)) }
    ensures ordered { IfOk result (λ found. IfSome found (λ shards.
        SpellInOrder settings.now (map text_of shards.items))) }
{
    if settings.shards > MOST_SHARDS {
        return Err(Fault::Script(ScriptFault::Setting("shards")));
    }
    let mut shards = Vec::new(rt.alloc());
    for shard in 0..settings.shards {
        let loaded = load_one(rt, from, settings, shard)?;
        shards.push(loaded)?;
    }
    let told = stand_in_order(rt.alloc(), shards.as_slice())?;
    if !told {
        return Ok(None);
    }
    Ok(Some(shards))
}
