//! Reads a JSON value whose texts are slices of the text.
//!
//! The reader of all JSON clears its window anew for each text, and copies every key and text, which
//! takes longer than all else that is done with a line. Texts, whole numbers that are written as
//! their plain digits, truth values and nulls, and arrays and objects of them, are read here, through
//! a window that is kept from text to text. Whatever else a text is, is left to that reader, and so
//! is every fault.

ghost use Rattle.std.specs.Prelude.{◌≡◌, [], ◌∷◌, ◌++◌, IfOk, IfSome, Some};
ghost use Rattle.std.specs.Bool.{OnTrue};
ghost use Rattle.json.specs.Reads.{token_of};
ghost use Rattle.serde_json.specs.Data.{unsigned};
ghost use Rattle.serde_json.specs.Read.{number_of, read};
ghost use Rattle.wire_trees.specs.Borrowed.{AllMarked, data_of, members_of};
ghost use Rattle.wire_trees.specs.Reading.{AreItems, AreMembers, BeginsPlainly, IsScalar, IsValue, in_list, in_object};

use crate::borrowed::BorrowedValue;
use crate::lengths::mark;
use json::{Reader, Scratch, Token};
use std::alloc::{AllocError, Global};

/// How deep a value may be nested, as for the reader of all JSON.
const DEEPEST: usize = 127;

/// For how many members an object has room at first: most lines have no more.
const MEMBERS: usize = 8;

/// Why a text was not read.
#[derive(Clone, Copy, Debug, Drop)]
pub enum Unread {
    /// It is no value that is read here.
    Other,
    NoMemory,
}

impl From<AllocError> for Unread {
    fn from(_error: AllocError) -> Unread {
        Unread::NoMemory
    }
}

/// Adds an item at the end of a list.
fn add<T: Drop>(list: &mut Vec<T>, item: T) -> Result<(), Unread>
    ensures { IfOk result (λ _. list.new.items ≡ list.old.items ++ item ∷ []) }
{
    match list.push(item) {
        Ok(()) => Ok(()),
        Err(_) => Err(Unread::NoMemory),
    }
}

/// Whether a text begins as the plain digits of a number do: no sign stands first, and a zero only
/// where nothing follows.
#[inline(always)]
fn begins_plainly(text: &[u8]) -> bool
    ensures { OnTrue result (BeginsPlainly text.now) }
{
    if text.len() == 0 {
        return false;
    }
    let first = text[0];
    first != b'+' && (first != b'0' || text.len() == 1)
}

/// A number that is written as its plain digits.
#[inline(never)]
fn number(text: &str) -> Option<u64>
    ensures { IfSome result (λ n. number_of text.now ≡ Some (unsigned n)) }
{
    if begins_plainly(text.as_bytes()) {
        text.parse().ok()
    } else {
        None
    }
}

/// The value that a token is, where it opens nothing.
#[inline(always)]
fn scalar<'a>(token: Token<'a>) -> Result<BorrowedValue<'a>, Unread>
    ensures { IfOk result (IsScalar (token_of token.entry)) }
{
    match token {
        Token::String(text) => Ok(BorrowedValue::Text(text)),
        Token::Number(text) => match number(text) {
            Some(number) => Ok(BorrowedValue::Number(number)),
            None => Err(Unread::Other),
        },
        Token::Bool(truth) => Ok(BorrowedValue::Truth(truth)),
        Token::Null => Ok(BorrowedValue::Null),
        _ => Err(Unread::Other),
    }
}

/// Reads a value, nested so deep at most. Most values open nothing, so this is inlined where they
/// are read, and only what is nested is a call.
#[cycle(value)]
#[inline(always)]
fn value<'a>(
    alloc: Global,
    reader: &mut Reader<'a>,
    depth: usize,
) -> Result<BorrowedValue<'a>, Unread>
    ensures { IfOk result (λ v. IsValue depth reader.old v reader.new) }
{
    let Some(token) = reader.next() else {
        return Err(Unread::Other);
    };
    match token {
        Token::BeginArray => list(alloc, reader, depth),
        Token::BeginObject => object(alloc, reader, depth),
        _ => scalar(token),
    }
}

/// Reads an array after the bracket that opens it.
#[cycle(value)]
#[inline(never)]
fn list<'a>(
    alloc: Global,
    reader: &mut Reader<'a>,
    depth: usize,
) -> Result<BorrowedValue<'a>, Unread>
    ensures { IfOk result (λ v. IsValue depth (in_list reader.old) v reader.new) }
{
    if depth == 0 {
        return Err(Unread::Other);
    }
    let found = items(alloc, reader, depth - 1)?;
    Ok(BorrowedValue::Array(found))
}

/// Reads an object after the brace that opens it.
#[cycle(value)]
#[inline(never)]
fn object<'a>(
    alloc: Global,
    reader: &mut Reader<'a>,
    depth: usize,
) -> Result<BorrowedValue<'a>, Unread>
    ensures { IfOk result (λ v. IsValue depth (in_object reader.old) v reader.new) }
{
    if depth == 0 {
        return Err(Unread::Other);
    }
    let (lengths, found) = members(alloc, reader, depth - 1)?;
    Ok(BorrowedValue::Object(lengths, found))
}

/// Reads an array's items up to its closing bracket.
#[cycle(value)]
fn items<'a>(
    alloc: Global,
    reader: &mut Reader<'a>,
    depth: usize,
) -> Result<Vec<BorrowedValue<'a>>, Unread>
    ensures { IfOk result (λ vs. AreItems depth reader.old vs.items reader.new) }
{
    let mut found = Vec::new(alloc);
    'items: while !reader.take_end_array() {
        let item = value(alloc, reader, depth)?;
        add(&mut found, item)?;
    }
    Ok(found)
}

/// Reads an object's members up to its closing brace, with the lengths of their names.
#[cycle(value)]
fn members<'a>(
    alloc: Global,
    reader: &mut Reader<'a>,
    depth: usize,
) -> Result<(u32, Vec<(&'a str, BorrowedValue<'a>)>), Unread>
    ensures { IfOk result (λ r. AreMembers depth reader.old (members_of r.1.items) reader.new
        × AllMarked r.0 r.1.items) }
{
    let mut found = Vec::with_capacity(alloc, MEMBERS)?;
    let mut lengths = 0;
    'members: loop {
        let key = match reader.next_key() {
            Ok(Some(key)) => key,
            Ok(None) => return Ok((lengths, found)),
            Err(_) => return Err(Unread::Other),
        };
        let member = value(alloc, reader, depth)?;
        add(&mut found, (key, member))?;
        lengths = mark(lengths, key);
    }
}

/// The value that a text is, where it is read here.
pub fn borrowed_value<'a>(
    alloc: Global,
    text: &'a str,
    scratch: &'a mut Scratch,
) -> Result<BorrowedValue<'a>, Unread>
    ensures { IfOk result (λ v. read text.now ≡ Some (data_of v)) }
{
    let mut reader = Reader::new(text, scratch)?;
    let found = value(alloc, &mut reader, DEEPEST)?;
    match reader.next() {
        None => Ok(found),
        Some(_) => Err(Unread::Other),
    }
}
