//! The replies of lines that were served, in their order.

ghost use Rattle.std.specs.Prelude.{◌≡◌, ◌+◌, ◌<◌, ◌≤◌, ◌^◌, List, [], ◌∷◌, Some, Err, length, map, slice_get, IfOk, IfErr, OnOk, OnErr};
ghost use Rattle.std.specs.Io.KnownBytes.{Appends};
ghost use Rattle.wire_counted.specs.Written.{AppendsBeginning};
ghost use Rattle.script.specs.Endings.{IsWriteFault};
ghost use Rattle.script.specs.Serving.{text_of};
ghost use Rattle.lanes.specs.Answers.{LineReply};
ghost use Rattle.lanes.specs.Lanes.{AllLeft, calls_of, passes_of};
ghost use Rattle.lanes.specs.Numbers.{AreNumbered, IsNext, IsNextIn};
ghost use Rattle.lanes.specs.Printed.{Begun, BegunIn, Printed, PrintedIn, PrintedOne};

use crate::lane::Lane;
use crate::place::Place;
use script::ScriptFault;
use service::ShardObject;
use service_model_types::answer::Reply;
use std::alloc::Global;
use std::io::Write;
use wf_event_values::{Field, Refusal};
use wire_counted::{Counted, write_whole};
use wire_replies::reply_text;

/// Writes the line of a reply.
fn print_reply<W: Write>(
    alloc: Global,
    number: u64,
    reply: &Reply,
    writer: &mut Counted<W>,
) -> Result<(), ScriptFault>
    ensures printed { OnOk result (Appends (W.contents writer.old.inner)
        (W.contents writer.new.inner) (text_of number (Some reply.now))) }
    ensures begun { OnErr result (AppendsBeginning (W.contents writer.old.inner)
        (W.contents writer.new.inner) (text_of number (Some reply.now))) }
    ensures grows { writer.old.failures ≤ writer.new.failures }
    ensures fault { IfErr result (λ e. IsWriteFault e writer.old.failures writer.new.failures) }
{
    let text = reply_text(alloc, number, reply)?;
    print_line(text.as_bytes(), writer)?;
    Ok(())
}

/// Writes a line.
fn print_line<W: Write>(line: &[u8], writer: &mut Counted<W>) -> Result<(), ScriptFault>
    ensures printed { OnOk result (Appends (W.contents writer.old.inner)
        (W.contents writer.new.inner) line.now) }
    ensures begun { OnErr result (AppendsBeginning (W.contents writer.old.inner)
        (W.contents writer.new.inner) line.now) }
    ensures grows { writer.old.failures ≤ writer.new.failures }
    ensures fault { IfErr result (λ e. IsWriteFault e writer.old.failures writer.new.failures) }
{
    if let Err(error) = write_whole(writer, line) {
        return Err(ScriptFault::Write(error));
    }
    Ok(())
}

/// Writes the line of a refusal. Its reply takes room on the stack, for which no other line pays.
#[inline(never)]
fn print_refusal<W: Write>(
    alloc: Global,
    number: u64,
    refusal: Refusal,
    writer: &mut Counted<W>,
) -> Result<(), ScriptFault>
    ensures printed { OnOk result (Appends (W.contents writer.old.inner)
        (W.contents writer.new.inner) (text_of number (Some (Err refusal)))) }
    ensures begun { OnErr result (AppendsBeginning (W.contents writer.old.inner)
        (W.contents writer.new.inner) (text_of number (Some (Err refusal)))) }
    ensures grows { writer.old.failures ≤ writer.new.failures }
    ensures fault { IfErr result (λ e. IsWriteFault e writer.old.failures writer.new.failures) }
{
    let reply: Reply = Err(refusal);
    print_reply(alloc, number, &reply, writer)?;
    Ok(())
}

/// Writes the next reply of a lane, and says whether it is a refusal. A lane that is not there is an
/// invalid argument.
///
/// The reply's line was made under the number of its own line.
///
/// # Errors
/// There is no reply where memory ran out in the lane.
fn print_in<S: ShardObject, W: Write>(
    alloc: Global,
    lanes: &mut [Lane<S>],
    number: u64,
    lane: usize,
    writer: &mut Counted<W>,
) -> Result<bool, ScriptFault>
    ensures passes { passes_of lanes.new ≡ passes_of lanes.old }
    ensures calls { map calls_of lanes.new ≡ map calls_of lanes.old }
    ensures printed { IfOk result (λ refused.
        (rss : List (List LineReply)) → AllLeft lanes.old rss → IsNextIn lane number rss
        → PrintedIn number lane (slice_get rss lane) rss lanes.new refused
        (W.contents writer.old.inner) (W.contents writer.new.inner)) }
    ensures begun { OnErr result
        ((rss : List (List LineReply)) → AllLeft lanes.old rss → IsNextIn lane number rss
        → BegunIn number lane rss (W.contents writer.old.inner) (W.contents writer.new.inner)) }
    ensures grows { writer.old.failures ≤ writer.new.failures }
    ensures fault { IfErr result (λ e. IsWriteFault e writer.old.failures writer.new.failures) }
{
    if lane >= lanes.len() {
        print_refusal(alloc, number, Refusal::InvalidArgument(Field::Lane), writer)?;
        return Ok(true);
    }
    let Some(at) = lanes[lane].take() else {
        return Err(ScriptFault::Memory);
    };
    let answer = lanes[lane].answer(at);
    print_line(lanes[lane].line(at), writer)?;
    Ok(answer.refused)
}

/// Writes the reply line of a line, and says whether it is a refusal.
fn print_one<S: ShardObject, W: Write>(
    alloc: Global,
    lanes: &mut [Lane<S>],
    number: u64,
    place: Place,
    writer: &mut Counted<W>,
) -> Result<bool, ScriptFault>
    ensures passes { passes_of lanes.new ≡ passes_of lanes.old }
    ensures calls { map calls_of lanes.new ≡ map calls_of lanes.old }
    ensures printed { IfOk result (λ refused.
        (rss : List (List LineReply)) → AllLeft lanes.old rss → IsNext place number rss
        → PrintedOne number place rss lanes.new refused
        (W.contents writer.old.inner) (W.contents writer.new.inner)) }
    ensures begun { OnErr result
        ((rss : List (List LineReply)) → AllLeft lanes.old rss → IsNext place number rss
        → Begun number (place ∷ []) rss
        (W.contents writer.old.inner) (W.contents writer.new.inner)) }
    ensures grows { writer.old.failures ≤ writer.new.failures }
    ensures fault { IfErr result (λ e. IsWriteFault e writer.old.failures writer.new.failures) }
{
    match place {
        Place::Barrier => Ok(false),
        Place::Refused(refusal) => {
            print_refusal(alloc, number, refusal, writer)?;
            Ok(true)
        }
        Place::InLane(lane) => {
            let refused = print_in(alloc, lanes, number, usize::from(lane), writer)?;
            Ok(refused)
        }
    }
}

/// Writes the reply lines of lines that are numbered from this one on, and says whether one of them is
/// a refusal.
pub(crate) fn print<S: ShardObject, W: Write>(
    alloc: Global,
    lanes: &mut [Lane<S>],
    first: u64,
    places: &[Place],
    writer: &mut Counted<W>,
) -> Result<bool, ScriptFault>
    requires { first + length places.now < 2 ^ 64 }
    ensures passes { passes_of lanes.new ≡ passes_of lanes.old }
    ensures calls { map calls_of lanes.new ≡ map calls_of lanes.old }
    ensures printed { IfOk result (λ refused.
        (rss : List (List LineReply)) → AllLeft lanes.old rss → AreNumbered first places.now rss
        → Printed first places.now rss lanes.new refused
        (W.contents writer.old.inner) (W.contents writer.new.inner)) }
    ensures begun { OnErr result
        ((rss : List (List LineReply)) → AllLeft lanes.old rss → AreNumbered first places.now rss
        → Begun first places.now rss
        (W.contents writer.old.inner) (W.contents writer.new.inner)) }
    ensures grows { writer.old.failures ≤ writer.new.failures }
    ensures fault { IfErr result (λ e. IsWriteFault e writer.old.failures writer.new.failures) }
{
    let mut refused = false;
    let mut number = first;
    for place in places {
        refused |= print_one(alloc, lanes, number, *place, writer)?;
        number += 1;
    }
    Ok(refused)
}
