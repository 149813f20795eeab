//! A JSON value whose texts are slices of the text that it was read from.

ghost use Rattle.std.specs.Prelude.{◌≡◌, bytes_eq, is_some, map, option_and_then, option_map};
ghost use Rattle.serde_json.specs.Find.{as_array, as_bool, as_number, as_object, as_str, as_u64, get, get_member};
ghost use Rattle.serde_json.specs.View.{items_of};
ghost use Rattle.wire_trees.specs.Borrowed.{data_of, marked_of, members_of};

use crate::lengths::is_marked;
use crate::tree::Tree;

/// A JSON value that copies no text. Its numbers are whole, from 0 to 2^64 - 1.
///
/// An object keeps its members as they were written, and which lengths their names have. The last one of a
/// name counts.
#[derive(Drop)]
pub enum BorrowedValue<'a> {
    Null,
    Truth(bool),
    Number(u64),
    Text(&'a str),
    Array(Vec<BorrowedValue<'a>>),
    Object(u32, Vec<(&'a str, BorrowedValue<'a>)>),
}

/// Whether two names are the same. Most that aren't differ in length, which is looked at first.
#[inline(always)]
fn is_same(one: &str, other: &str) -> bool
    ensures { result ≡ bytes_eq one.now other.now }
{
    one.len() == other.len() && one == other
}

/// The last member of that name.
#[inline(always)]
fn last_named<'v, 'a>(
    members: &'v Vec<(&'a str, BorrowedValue<'a>)>,
    name: &str,
) -> Option<&'v BorrowedValue<'a>>
    ensures { option_map (λ v. data_of v.now) result
        ≡ get_member name.now (members_of members.now.items) }
{
    let mut left = members.len();
    while left > 0 {
        left -= 1;
        let member = &members[left];
        if is_same(member.0, name) {
            return Some(&member.1);
        }
    }
    None
}

/// The same, where a name of its length is there.
#[inline(always)]
fn named<'v, 'a>(
    lengths: u32,
    members: &'v Vec<(&'a str, BorrowedValue<'a>)>,
    name: &str,
) -> Option<&'v BorrowedValue<'a>>
    ensures { option_map (λ v. data_of v.now) result
        ≡ get_member name.now (marked_of lengths members.now.items) }
{
    if !is_marked(lengths, name) {
        return None;
    }
    last_named(members, name)
}

impl<'a> Tree for BorrowedValue<'a> {
    ghost stands_for = { data_of };

    #[inline(always)]
    fn member(&self, name: &str) -> Option<&BorrowedValue<'a>> {
        match self {
            BorrowedValue::Object(lengths, members) => named(*lengths, members, name),
            _ => None,
        }
    }

    fn text(&self) -> Option<&str> {
        match self {
            BorrowedValue::Text(text) => Some(*text),
            _ => None,
        }
    }

    fn whole_number(&self) -> Option<u64> {
        match self {
            BorrowedValue::Number(number) => Some(*number),
            _ => None,
        }
    }

    fn truth(&self) -> Option<bool> {
        match self {
            BorrowedValue::Truth(truth) => Some(*truth),
            _ => None,
        }
    }

    fn values(&self) -> Option<&[BorrowedValue<'a>]> {
        match self {
            BorrowedValue::Array(values) => Some(values.as_slice()),
            _ => None,
        }
    }

    fn has_members(&self) -> bool {
        matches!(self, BorrowedValue::Object(_, _))
    }
}
