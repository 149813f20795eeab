//! The names of what transfers say.

ghost use Rattle.std.specs.Prelude.{◌≡◌};
ghost use Rattle.wire_record_transfers.specs.Names.{child_status_name, child_status_named, child_status_of, external_kind_name, external_kind_named, external_kind_of, kind_of, transfer_kind_name, transfer_kind_named, transfer_kind_of};

use service_model_types::transfer::{ChildStatus, ExternalKind, TransferContent};
use std::alloc::Global;
use std::marker::Model;
use wf_event_values::{Field, Refusal};
use wire_fields::FieldValue;
use wire_trees::Tree;

/// The kinds of transfer.
#[derive(Clone, Copy)]
pub(crate) enum TransferKind {
    StartChild,
    ChildStarted,
    ChildStartFailed,
    ChildClosed,
    CloseChild,
    SignalExternal,
    CancelExternal,
    ExternalDone,
}

pub(crate) fn kind_of(content: &TransferContent) -> TransferKind
    ensures { result ≡ kind_of content.now }
{
    match content {
        TransferContent::StartChild(_) => TransferKind::StartChild,
        TransferContent::ChildStarted(_) => TransferKind::ChildStarted,
        TransferContent::ChildStartFailed(_) => TransferKind::ChildStartFailed,
        TransferContent::ChildClosed(_) => TransferKind::ChildClosed,
        TransferContent::CloseChild(_) => TransferKind::CloseChild,
        TransferContent::SignalExternal(_) => TransferKind::SignalExternal,
        TransferContent::CancelExternal(_) => TransferKind::CancelExternal,
        TransferContent::ExternalDone(_) => TransferKind::ExternalDone,
    }
}

impl TransferKind {
    pub(crate) fn name(self) -> &'static str
        ensures { result.now ≡ transfer_kind_name self }
    {
        match self {
            TransferKind::StartChild => "start_child",
            TransferKind::ChildStarted => "child_started",
            TransferKind::ChildStartFailed => "child_start_failed",
            TransferKind::ChildClosed => "child_closed",
            TransferKind::CloseChild => "close_child",
            TransferKind::SignalExternal => "signal_external",
            TransferKind::CancelExternal => "cancel_external",
            TransferKind::ExternalDone => "external_done",
        }
    }
}

fn transfer_kind_named(name: &str) -> Option<TransferKind>
    ensures { result ≡ transfer_kind_named name.now }
{
    match name {
        "start_child" => Some(TransferKind::StartChild),
        "child_started" => Some(TransferKind::ChildStarted),
        "child_start_failed" => Some(TransferKind::ChildStartFailed),
        "child_closed" => Some(TransferKind::ChildClosed),
        "close_child" => Some(TransferKind::CloseChild),
        "signal_external" => Some(TransferKind::SignalExternal),
        "cancel_external" => Some(TransferKind::CancelExternal),
        "external_done" => Some(TransferKind::ExternalDone),
        _ => None,
    }
}

impl FieldValue for TransferKind {
    ghost value_of = { transfer_kind_of };

    fn from_value<V: Tree>(
        _alloc: Global,
        field: Field,
        value: &V,
    ) -> Result<TransferKind, Refusal> {
        value
            .text()
            .and_then(transfer_kind_named)
            .ok_or(Refusal::InvalidArgument(field))
    }
}

pub(crate) fn child_status_name(status: ChildStatus) -> &'static str
    ensures { result.now ≡ child_status_name status }
{
    match status {
        ChildStatus::Completed => "Completed",
        ChildStatus::Failed => "Failed",
        ChildStatus::Canceled => "Canceled",
        ChildStatus::TimedOut => "TimedOut",
        ChildStatus::Terminated => "Terminated",
    }
}

fn child_status_named(name: &str) -> Option<ChildStatus>
    ensures { result ≡ child_status_named name.now }
{
    match name {
        "Completed" => Some(ChildStatus::Completed),
        "Failed" => Some(ChildStatus::Failed),
        "Canceled" => Some(ChildStatus::Canceled),
        "TimedOut" => Some(ChildStatus::TimedOut),
        "Terminated" => Some(ChildStatus::Terminated),
        _ => None,
    }
}

/// How a child closed, as a key's value.
#[derive(Drop)]
pub(crate) struct AStatus {
    pub(crate) status: ChildStatus,
}

impl Model for AStatus {
    ghost use Rattle.service_model_types.specs.declared.transfer.ChildStatus.{ChildStatus};

    ghost Value = { ChildStatus };

    ghost view = { λ v. v.status };
}

impl FieldValue for AStatus {
    ghost value_of = { child_status_of };

    fn from_value<V: Tree>(_alloc: Global, field: Field, value: &V) -> Result<AStatus, Refusal> {
        let Some(text) = value.text() else {
            return Err(Refusal::InvalidArgument(field));
        };
        match child_status_named(text) {
            Some(status) => Ok(AStatus { status }),
            None => Err(Refusal::InvalidArgument(field)),
        }
    }
}

pub(crate) fn external_kind_name(kind: ExternalKind) -> &'static str
    ensures { result.now ≡ external_kind_name kind }
{
    match kind {
        ExternalKind::Signal => "signal",
        ExternalKind::Cancel => "cancel",
    }
}

fn external_kind_named(name: &str) -> Option<ExternalKind>
    ensures { result ≡ external_kind_named name.now }
{
    match name {
        "signal" => Some(ExternalKind::Signal),
        "cancel" => Some(ExternalKind::Cancel),
        _ => None,
    }
}

/// Which external request is answered, as a key's value.
#[derive(Drop)]
pub(crate) struct AnExternal {
    pub(crate) kind: ExternalKind,
}

impl Model for AnExternal {
    ghost use Rattle.service_model_types.specs.declared.transfer.ExternalKind.{ExternalKind};

    ghost Value = { ExternalKind };

    ghost view = { λ v. v.kind };
}

impl FieldValue for AnExternal {
    ghost value_of = { external_kind_of };

    fn from_value<V: Tree>(_alloc: Global, field: Field, value: &V) -> Result<AnExternal, Refusal> {
        let Some(text) = value.text() else {
            return Err(Refusal::InvalidArgument(field));
        };
        match external_kind_named(text) {
            Some(kind) => Ok(AnExternal { kind }),
            None => Err(Refusal::InvalidArgument(field)),
        }
    }
}
