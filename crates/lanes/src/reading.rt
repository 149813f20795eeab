//! Lines that are read in several threads.

ghost use Rattle.std.specs.Prelude.{◌≡◌, ℕ, ◌<◌, List, ◌++◌, [], ◌∷◌, length, get_or, OnOk, IfSome, IfNone};
ghost use Rattle.wf_event_values.specs.Gives.{Gives};
ghost use Rattle.service_model_types.specs.declared.settings.Settings.{Settings};
ghost use Rattle.script.specs.Asked.{asked};
ghost use Rattle.script.specs.Lines.{Line};
ghost use Rattle.lanes.specs.Found.{AllGiven, AreRead, EndsLines, HasRead, IsGiven, lines_in, parts_of};
ghost use Rattle.lanes.specs.Sorted.{IsSorted};
ghost use Rattle.lanes.specs.declared.reading.Reader.{Reader};

use crate::room::make_room;
use crate::sorted::Sorted;
use script::{Line, asked, cut};
use service_model_types::settings::Settings;
use std::alloc::{AllocError, Global};
use std::collections::VecDeque;
use std::thread;
use std::thread::Threads;
use wf_event_values::Refusal;
use wire_requests::{Asked, LineReader};

/// The most readers that there are: more than most machines have cores, so that a core that is done
/// finds one that waits.
const MOST: usize = 8;

/// Fewer bytes are no work for a thread of its own.
pub(crate) const SHORT: usize = 16_384;

/// Some lines of a text, and what each was found to be. Its memory is used again for the next ones.
///
/// Lines are sorted by their lanes up to the first barrier, or the first of a lane that isn't there;
/// those from there on wait in their order.
#[derive(Drop)]
pub(crate) struct Reader {
    reader: LineReader,
    line: Line,
    /// Where its lines stand in the text that all readers share.
    from: usize,
    to: usize,
    pub(crate) sorted: Sorted,
    found: VecDeque<Result<Asked, Refusal>>,
    /// Whether memory ran out.
    pub(crate) failed: bool,
}

impl Reader {
    fn new(alloc: Global, lanes: usize) -> Result<Reader, AllocError> {
        let sorted = Sorted::new(alloc, lanes)?;
        Ok(Reader {
            reader: LineReader::new(alloc),
            line: Line::new(alloc),
            from: 0,
            to: 0,
            sorted,
            found: VecDeque::new(alloc),
            failed: false,
        })
    }

    /// It is to read what stands from here to there.
    fn give(&mut self, from: usize, to: usize)
        ensures from { self.new.from ≡ from }
        ensures to { self.new.to ≡ to }
    {
        self.from = from;
        self.to = to;
    }

    /// What the first line of those that wait was found to be.
    pub(crate) fn next(&mut self) -> Option<Result<Asked, Refusal>>
        ensures some { IfSome result (λ f. self.old.found.items ≡ f ∷ self.new.found.items) }
        ensures none { IfNone result (self.old.found.items ≡ []) }
    {
        self.found.pop_front()
    }

    /// Reads the lines of its part of the text.
    fn read(&mut self, alloc: Global, settings: &Settings, text: &[u8])
        requires { IsGiven text.now self.old }
        ensures { HasRead settings.now text.now self.old self.new }
    {
        make_room(alloc);
        self.sorted.clear();
        self.found.clear();
        let read = read_lines(
            &mut self.reader,
            &mut self.line,
            &mut self.sorted,
            &mut self.found,
            alloc,
            settings,
            &text[self.from..self.to],
        );
        self.failed = read.is_err();
    }
}

/// A line more, of which this was found.
fn keep(
    sorted: &mut Sorted,
    found: &mut VecDeque<Result<Asked, Refusal>>,
    one: Result<Asked, Refusal>,
) -> Result<(), AllocError>
    ensures { OnOk result ((K : Settings) (lines : List Line) (line : Line)
        → Gives one (asked K line) → AreRead K sorted.old found.old.items lines
        → AreRead K sorted.new found.new.items (lines ++ line ∷ [])) }
{
    if found.len() == 0 && sorted.takes(&one) {
        sorted.add(one)?;
        return Ok(());
    }
    found.push_back(one)?;
    Ok(())
}

/// What each line was found to be that ends in the text.
fn read_lines(
    reader: &mut LineReader,
    line: &mut Line,
    sorted: &mut Sorted,
    found: &mut VecDeque<Result<Asked, Refusal>>,
    alloc: Global,
    settings: &Settings,
    text: &[u8],
) -> Result<(), AllocError>
    requires sorted { IsSorted [] sorted.old }
    requires found { found.old.items ≡ [] }
    ensures { OnOk result (AreRead settings.now sorted.new found.new.items (lines_in text.now)) }
{
    let mut rest = text;
    while let Some((part, behind)) = cut(rest) {
        line.clear(alloc);
        line.extend(part)?;
        keep(sorted, found, asked(reader, alloc, settings, line))?;
        rest = behind;
    }
    Ok(())
}

/// Readers for so many lanes.
pub(crate) fn readers_for(alloc: Global, lanes: usize) -> Result<Vec<Reader>, AllocError> {
    let mut readers = Vec::new(alloc);
    for _ in 0..lanes.min(MOST) {
        readers.push(Reader::new(alloc, lanes)?)?;
    }
    Ok(readers)
}

/// The text up to the first line feed at this place or after it, and what stands after that.
fn part_at(text: &[u8], least: usize) -> (&[u8], &[u8])
    ensures parts { text.now ≡ result.0.now ++ result.1.now }
    ensures ends { EndsLines result.0.now }
{
    let front = least.min(text.len());
    match cut(&text[front..]) {
        Some((part, _)) => text.split_at(front + part.len() + 1),
        None => text.split_at(0),
    }
}

/// Shares a text out among readers, whole lines to each. It gives what is left.
pub(crate) fn give_all<'a>(readers: &mut [Reader], text: &'a [u8]) -> &'a [u8]
    ensures parts { text.now ≡ parts_of text.now readers.new ++ result.now }
    ensures given { AllGiven text.now readers.new }
{
    let count = readers.len();
    let shares = count.min(text.len() / SHORT + 1);
    let mut rest = text;
    for k in 0..count {
        let left = if k < shares { shares - k } else { 1 };
        let share = (rest.len() / left).saturating_sub(1);
        let (_, behind) = part_at(rest, share);
        readers[k].give(text.len() - rest.len(), text.len() - behind.len());
        rest = behind;
    }
    rest
}

/// Lets all readers read their parts of a text at the same time, each in a thread of its own.
pub(crate) fn read_all<R: Threads + Sync>(
    rt: &R,
    alloc: Global,
    settings: &Settings,
    readers: &mut [Reader],
    text: &[u8],
)
    requires { AllGiven text.now readers.old }
    ensures count { length readers.new ≡ length readers.old }
    ensures read { (k : ℕ) (d : Reader) → k < length readers.old
        → HasRead settings.now text.now (get_or readers.old k d) (get_or readers.new k d) }
{
    let threads = readers.len();
    if threads > 0 {
        thread::for_each_mut(
            rt,
            readers,
            threads,
            &|_, reader: &mut Reader|
                requires { IsGiven text.now reader.now }
                ensures { HasRead settings.entry.now text.entry.now
                    reader.entry.now reader.exit.now }
            { reader.read(alloc, settings, text) },
        );
    }
}
