//! The texts of run ids.

ghost use Rattle.std.specs.Prelude.{◌≡◌, ◌↔◌, Ok, length};
ghost use Rattle.std.specs.Option.{ok_or};
ghost use Rattle.wf_event_values.specs.declared.refusal.Refusal.TheVariants.{NotFound};
ghost use Rattle.wf_event_values.specs.Run.{Run, IsRun};
ghost use Rattle.task_token.specs.RunTexts.{run_bytes, run_in, run_text, run_named};

use uuid::Uuid;
use wf_event_values::{Refusal, RunId};

/// How many bytes a run id's text has.
pub const RUN_TEXT_LENGTH: usize = 36;

/// The UUID's first half before the service's number and the shard are set: version 8 and no more.
const HIGH_HALF: u64 = 0x8000;

/// The UUID's second half before the ordinal is set: the variant of RFC 9562 and no more.
const LOW_HALF: u64 = 0x8000_0000_0000_0000;

fn uuid_of(run: RunId) -> Uuid
    ensures { result ≡ run_bytes run }
{
    let high = run.service() * 65536 + (HIGH_HALF + u64::from(run.shard()));
    let low = LOW_HALF + run.ordinal();
    let [a, b, c, d, e, f, g, h] = high.to_be_bytes();
    let [i, j, k, l, m, n, o, p] = low.to_be_bytes();
    Uuid::from_bytes([a, b, c, d, e, f, g, h, i, j, k, l, m, n, o, p])
}

/// The run whose numbers stand in a UUID, whatever its version and variant are.
fn run_in(uuid: Uuid) -> RunId
    requires { length uuid ≡ 16 }
    ensures { result ≡ run_in uuid }
{
    let [a, b, c, d, e, f, g, h, i, j, k, l, m, n, o, p] = uuid.into_bytes();
    let high = u64::from_be_bytes([a, b, c, d, e, f, g, h]);
    let low = u64::from_be_bytes([i, j, k, l, m, n, o, p]);
    RunId::new(
        high / 65536,
        (high % 4096) as u16,
        low % 4_611_686_018_427_387_904,
    )
}

/// The run whose text this is.
fn run_named(text: &str) -> Option<RunId>
    ensures { result ≡ run_named text.now }
{
    let Ok(uuid) = Uuid::try_parse(text) else {
        return None;
    };
    let run = run_in(uuid);
    // A UUID has other spellings, and other versions: only the text that `write` gives is the run's.
    let mut buffer = Uuid::encode_buffer();
    if uuid_of(run).hyphenated().encode_lower(&mut buffer) == text {
        Some(run)
    } else {
        None
    }
}

/// A run id's text, and back.
///
/// The text is that of a UUID of version 8 (RFC 9562) in lower case with hyphens, 36 bytes: 48 bits
/// of service number, 4 bits of version, 12 bits of shard, 2 bits of variant, 62 bits of run
/// ordinal.
pub trait RunText: Sized {
    ghost use Rattle.std.specs.Prelude.{List, ℕ, Option};

    /// The text of a value.
    ghost text_of: { Self → List ℕ };

    /// The value whose text this is.
    ghost named: { List ℕ → Option Self };

    /// The value's text, written into the buffer.
    fn write<'b>(&self, buffer: &'b mut [u8; RUN_TEXT_LENGTH]) -> &'b str
        ensures { result.now ≡ text_of self.now };

    /// The value whose text this is; every other text is `NotFound`.
    fn read(text: &str) -> Result<Self, Refusal>
        ensures { result ≡ ok_or (named text.now) NotFound };
}

impl RunText for RunId {
    ghost text_of = { run_text };

    ghost named = { run_named };

    /// The run id's text, written into the buffer.
    fn write<'b>(&self, buffer: &'b mut [u8; RUN_TEXT_LENGTH]) -> &'b str
        ensures { result.now ≡ run_text self.now }
    {
        uuid_of(*self).hyphenated().encode_lower(buffer)
    }

    /// The run id whose text this is, whatever service, shard and ordinal it names; every other
    /// text is `NotFound`.
    fn read(text: &str) -> Result<RunId, Refusal>
        ensures value { result ≡ ok_or (run_named text.now) NotFound }
        ensures exact { (r : Run) → IsRun r → (result ≡ Ok r) ↔ (text.now ≡ run_text r) }
    {
        run_named(text).ok_or(Refusal::NotFound)
    }
}
