//! A line as what it asks of a service.
//!
//! Rules: L2, L3, L5.

ghost use Rattle.std.specs.Prelude.{◌≡◌};
ghost use Rattle.wf_event_values.specs.Gives.{Gives};
ghost use Rattle.wire_requests.specs.Calls.{is_barrier, lane_in, lane_call_of, asked_of_object, asked_of_line};

use crate::op::Op;
use crate::operations::call_of;
use json::Scratch;
use serde_json::Value;
use service_model_types::call::Call;
use service_model_types::settings::Settings;
use std::alloc::Global;
use wf_event_values::{Field, Moment, Refusal};
use wire_fields::{or_default, required};
use wire_trees::{Tree, Unread, borrowed_value};

/// A call, and the lane in which it is served.
pub struct LaneCall {
    pub lane: u8,
    pub call: Call,
}

impl Drop for LaneCall {
    fn drop(self) {
        let LaneCall { lane: _, call: _ } = self;
    }
}

impl LaneCall {
    /// The call, without its lane.
    pub fn into_call(self) -> Call
        ensures { result ≡ self.call }
    {
        let LaneCall { lane: _, call } = self;
        call
    }
}

/// What a line asks for.
#[derive(Drop)]
pub enum Asked {
    /// That every lane answers what it was asked before any goes on.
    Barrier,
    /// A call.
    Call(LaneCall),
}

/// Whether an object is a barrier: its `barrier` is true, whatever else it has.
fn is_barrier<V: Tree>(line: &V) -> bool
    ensures { result ≡ is_barrier (V.stands_for line.now) }
{
    match line.member("barrier") {
        Some(value) => value.truth() == Some(true),
        None => false,
    }
}

/// The lane that a number names.
fn lane_in(settings: &Settings, number: u64) -> Result<u8, Refusal>
    ensures { result ≡ lane_in settings.now number }
{
    match u8::try_from(number) {
        Ok(lane) if number < settings.passes => Ok(lane),
        _ => Err(Refusal::InvalidArgument(Field::Lane)),
    }
}

/// The lane of an object, and what it asks for.
#[tactic(auto, unfolding(crate::specs::Calls::lane_call_of))]
fn lane_call_of<V: Tree>(alloc: Global, settings: &Settings, line: &V) -> Result<LaneCall, Refusal>
    ensures { Gives result (lane_call_of settings.now (V.stands_for line.now)) }
{
    let lane = lane_in(settings, or_default(alloc, line, Field::Lane, 0)?)?;
    let op: Op = required(alloc, line, Field::Op)?;
    let at = or_default(alloc, line, Field::At, Moment::zero())?;
    let call = call_of(alloc, settings, op, at, line)?;
    Ok(LaneCall { lane, call })
}

fn asked_of_object<V: Tree>(alloc: Global, settings: &Settings, line: &V) -> Result<Asked, Refusal>
    ensures { Gives result (asked_of_object settings.now (V.stands_for line.now)) }
{
    if is_barrier(line) {
        return Ok(Asked::Barrier);
    }
    let call = lane_call_of(alloc, settings, line)?;
    Ok(Asked::Call(call))
}

/// What a line asks for, or the line's first fault.
///
/// An object whose `barrier` is true is a barrier. In others faults are looked for in this order: a
/// line that is no JSON object, `lane`, `op`, `at`, and then the fields of the operation, as the
/// definitions list them. A field that is missing without a default, of a wrong kind or out of its
/// range is an invalid argument under that field's name; a `run` that is a text but no run id is
/// `NotFound`; a `token` that is a text but no token, of another kind of task than the operation's
/// or of a shard that is not there is `InvalidToken`. A `shard` that is not there is an invalid
/// argument. More than 10,000 `commands` are an invalid argument; of fewer the first faulty one
/// counts, under the name of its own first faulty field. Keys that no field bears are ignored.
pub fn read_line(alloc: Global, settings: &Settings, line: &str) -> Result<Asked, Refusal>
    ensures { Gives result (asked_of_line settings.now line.now) }
{
    match Value::from_str(alloc, line) {
        Ok(tree) if tree.is_object() => asked_of_object(alloc, settings, &tree),
        Err(error) if error.is_memory() => Err(Refusal::NoMemory),
        _ => Err(Refusal::InvalidArgument(Field::Json)),
    }
}

/// Reads lines as `read_line` does, in memory that it keeps from line to line.
#[derive(Drop)]
pub struct LineReader {
    scratch: Scratch,
}

impl LineReader {
    /// A reader whose window takes no memory yet.
    pub fn new(alloc: Global) -> LineReader {
        LineReader {
            scratch: Scratch::new(alloc),
        }
    }

    /// What a line asks for, or the line's first fault.
    pub fn read(&mut self, alloc: Global, settings: &Settings, line: &str) -> Result<Asked, Refusal>
        ensures { Gives result (asked_of_line settings.now line.now) }
    {
        match borrowed_value(alloc, line, &mut self.scratch) {
            Ok(tree) if tree.has_members() => asked_of_object(alloc, settings, &tree),
            Err(Unread::NoMemory) => Err(Refusal::NoMemory),
            _ => read_line(alloc, settings, line),
        }
    }
}
