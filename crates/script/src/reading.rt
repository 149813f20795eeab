//! What a line asks.

ghost use Rattle.wf_event_values.specs.Gives.{Gives};
ghost use Rattle.script.specs.Asked.{asked};

use crate::line::Line;
use service_model_types::settings::Settings;
use std::alloc::Global;
use wf_event_values::{Field, Refusal};
use wire_requests::{Asked, LineReader};

/// What a line asks for. A line that is too long, or whose bytes are no UTF-8, is refused here; what is
/// text is read as JSON.
pub fn asked(
    reader: &mut LineReader,
    alloc: Global,
    settings: &Settings,
    line: &Line,
) -> Result<Asked, Refusal>
    ensures { Gives result (asked settings.now line.now) }
{
    let Some(bytes) = line.bytes() else {
        return Err(Refusal::InvalidArgument(Field::Line));
    };
    match str::from_utf8(bytes) {
        Ok(text) => reader.read(alloc, settings, text),
        Err(_) => Err(Refusal::InvalidArgument(Field::Json)),
    }
}
