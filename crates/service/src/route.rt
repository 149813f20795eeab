//! To which shard a request goes, and which requests go to none.

ghost use Rattle.std.specs.Prelude.{◌≡◌, ◌<◌, IfOk};
ghost use Rattle.service_model_types.specs.Homes.{home_said};
ghost use Rattle.service.specs.Contents.{commands_refusal, ends_refusal, home_refusal, is_token, refusal_of, refusal_of_step, shard_at, shard_of_id, shard_refusal, slot_of_step, token_refusal};
ghost use Rattle.service.specs.Routes.{routed};

use crate::service::Service;
use service_model_types::call::StepCall;
use service_model_types::home::Home;
use service_model_types::limits::MOST_COMMANDS;
use service_model_types::request::{Operation, Request, TakenTask};
use service_model_types::routing::hash_of;
use service_model_types::settings::Settings;
use shard_gate::ShardObject;
use wf_event_values::{Field, Id, Refusal};

/// The slot to which a request goes, or as what it is refused before any shard is entered.
pub(crate) type Route = Result<usize, Refusal>;

impl<S: ShardObject> Service<S> {
    ghost use Rattle.service.specs.Services.{settings_of, shard_of_request};

    /// Where a request goes: to its shard's slot; or nowhere, since its token names no task (which is
    /// looked at first), it names no shard, or it has too many commands.
    pub(crate) fn route(&self, request: &Request) -> Route
        requires { 0 < (settings_of self.now).shards }
        ensures route { result ≡ routed (refusal_of (settings_of self.now) request.now.operation)
            (shard_of_request self.now request.now) }
        ensures there { IfOk result (λ slot. slot < (settings_of self.now).shards) }
    {
        let operation = &request.operation;
        let home = home_route(&self.settings, operation.home());
        match (home, commands_refusal(operation)) {
            (Ok(_), Some(refusal)) => Err(refusal),
            (home, _) => home,
        }
    }

    /// Where a call of one step goes.
    pub(crate) fn route_of_step(&self, call: &StepCall) -> Route
        requires { 0 < (settings_of self.now).shards }
        ensures route { result ≡ routed (refusal_of_step (settings_of self.now) call.now)
            (slot_of_step (settings_of self.now) call.now) }
        ensures there { IfOk result (λ slot. slot < (settings_of self.now).shards) }
    {
        match call {
            StepCall::Request(request) => self.route(request.request()),
            StepCall::StartTask(start) => shard_route(&self.settings, start.hint.shard),
            StepCall::TimerTurn(turn) => shard_route(&self.settings, turn.shard),
        }
    }
}

/// Where an operation goes by what it names its shard by: that shard has to be there. What names none is
/// served for a call that does.
fn home_route(settings: &Settings, home: Home<'_>) -> Route
    requires { 0 < settings.now.shards }
    ensures route { result ≡ routed (home_refusal settings.now (home_said home.entry))
        (shard_at settings.now (home_said home.entry)) }
    ensures there { IfOk result (λ slot. slot < settings.now.shards) }
{
    match home {
        Home::Workflow(id) => Ok(shard_of_id(settings, id)),
        Home::Token(task) => token_route(settings, &task),
        Home::Part => Err(Refusal::InvalidArgument(Field::Shard)),
    }
}

/// To the slot of the shard that a token names, where it may name a task.
fn token_route(settings: &Settings, task: &TakenTask) -> Route
    ensures route { result ≡ routed (token_refusal settings.now task.now) task.now.shard }
    ensures there { IfOk result (λ slot. slot < settings.now.shards) }
{
    if is_token(settings, task) {
        Ok(usize::from(task.shard))
    } else {
        Err(Refusal::InvalidToken)
    }
}

/// To the slot of a shard that is named, which has to be there.
pub(crate) fn shard_route(settings: &Settings, shard: u16) -> Route
    ensures route { result ≡ routed (shard_refusal settings.now shard) shard }
    ensures there { IfOk result (λ slot. slot < settings.now.shards) }
{
    if u64::from(shard) < settings.shards {
        Ok(usize::from(shard))
    } else {
        Err(Refusal::InvalidArgument(Field::Shard))
    }
}

/// The shard of a workflow ID: its hash modulo the number of shards.
pub(crate) fn shard_of_id(settings: &Settings, id: &Id) -> usize
    requires { 0 < settings.now.shards }
    ensures shard { result ≡ shard_of_id settings.now id.now }
    ensures there { result < settings.now.shards }
{
    let hash = hash_of(id.as_str().as_bytes());
    (u64::from(hash) % settings.shards) as usize
}

/// The shards that a transfer turn names have to be there, first the one that sends.
pub(crate) fn ends_refusal(settings: &Settings, from: u16, to: u16) -> Option<Refusal>
    ensures { result ≡ ends_refusal settings.now from to }
{
    if u64::from(from) >= settings.shards {
        return Some(Refusal::InvalidArgument(Field::From));
    }
    if u64::from(to) >= settings.shards {
        return Some(Refusal::InvalidArgument(Field::To));
    }
    None
}

/// Whether a token may name the task: its shard is there, and its run, event and attempt count
/// from 1.
fn is_token(settings: &Settings, task: &TakenTask) -> bool
    ensures { result ≡ is_token settings.now task.now }
{
    u64::from(task.shard) < settings.shards && task.run >= 1 && task.event >= 1 && task.attempt >= 1
}

/// A completion has at most so many commands as a step takes.
fn commands_refusal(operation: &Operation) -> Option<Refusal>
    ensures { result ≡ commands_refusal operation.now }
{
    let Operation::CompleteWorkflowTask(asked) = operation else {
        return None;
    };
    if asked.commands.as_slice().len() > MOST_COMMANDS {
        Some(Refusal::InvalidArgument(Field::Commands))
    } else {
        None
    }
}
