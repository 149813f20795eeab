//! The sequential service as a plain program: a shard whose runs are kept by their journals alone
//! serves a whole record, and then answers. Slow, and meant for tests.
#![tactic(auto)]

ghost use Rattle.std.specs.Prelude.{◌≡◌, [], IfOk, OnOk};
ghost use Rattle.service_model_types.specs.declared.content.Content.{Content};
ghost use Rattle.service_model.specs.Service.{after, answer, replay};
ghost use Rattle.shard.specs.Standing.{StandsFor};
ghost use Rattle.shard.specs.View.{IsSetup};

use gate::Object;
use mutable_state_keeper::KeepsRun;
use service_model_journal::JournalRun;
use service_model_types::answer::Reply;
use service_model_types::content::Setup;
use service_model_types::request::Request;
use shard::Shard;
use std::alloc::{AllocError, Global};
use step_record::Entry;

/// What a shard of this setup answers to the request after it has served a record, as a gate or a
/// service gives it when it closes. All is found in whole journals.
///
/// # Errors
/// Where memory was refused.
pub fn answer(
    alloc: Global,
    setup: Setup,
    record: &[Entry<Request>],
    request: &Request,
) -> Result<Reply, AllocError>
    requires { IsSetup setup }
    ensures { IfOk result (λ reply. reply ≡ answer (replay setup record.now) request.now) }
{
    let shard = Shard::<JournalRun>::new(alloc, setup)?;
    answer_by(shard, record, request)
}

/// What a shard answers that has served nothing before the record, whatever keeps its runs.
fn answer_by<T: KeepsRun>(
    mut shard: Shard<T>,
    record: &[Entry<Request>],
    request: &Request,
) -> Result<Reply, AllocError>
    requires { StandsFor shard (replay shard.setup []) }
    ensures { IfOk result (λ reply. reply ≡ answer (replay shard.setup record.now) request.now) }
{
    for earlier in record {
        let _ = serve(&mut shard, &earlier.request)?;
    }
    serve(&mut shard, request)
}

/// Serves a request. What the shard stood for says what it answers, and what it stands for then.
fn serve<T: KeepsRun>(shard: &mut Shard<T>, request: &Request) -> Result<Reply, AllocError>
    requires { (S : Content) × StandsFor shard.old S }
    ensures reply { (S : Content) → StandsFor shard.old S →
        IfOk result (λ reply. reply ≡ answer S request.now) }
    ensures stands { (S : Content) → StandsFor shard.old S →
        OnOk result (StandsFor shard.new (after S request.now)) }
{
    let plan = Object::prepare(shard, request)?;
    Ok(Object::commit(shard, plan))
}
