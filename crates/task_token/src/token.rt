//! Task tokens and their texts.

ghost use Rattle.std.specs.Prelude.{◌≡◌, ◌≤◌, None, Some, IfOk, ◌≢◌, bytes_eq, length, string_bytes, MatchResult, take, drop};
ghost use Rattle.std.specs.Int.{w16, w32, w64, from_be_bytes};
ghost use Rattle.wf_event_values.specs.declared.refusal.Refusal.TheVariants.{InvalidToken, NoMemory};
ghost use Rattle.task_token.specs.TokenTexts.{token_bytes, kind_byte, kind_in, token_in, token_text, token_named, any_token_named, has_bytes, if_bytes, if_its_bytes, NamedExactly, AnyNamedExactly};

use base64::DecodeAllocError;
use base64::engine::general_purpose::STANDARD;
use std::alloc::{AllocError, Global};
use wf_event_values::{Refusal, TaskKind};

/// Which attempt of which task: what a worker hands back with the task's outcome.
#[derive(Clone, Copy)]
pub struct TaskToken {
    pub kind: TaskKind,
    /// The run's shard.
    pub shard: u16,
    /// The run's ordinal in its shard, from 1.
    pub run: u64,
    /// The id of the event that scheduled the task, from 1.
    pub event: u64,
    /// From 1.
    pub attempt: u32,
}

/// How many bytes a token's text has.
pub const TOKEN_TEXT_LENGTH: usize = 32;

/// The only version of tokens so far: a token's first byte.
const VERSION: u8 = 1;

fn kind_byte(kind: TaskKind) -> u8
    ensures { result ≡ kind_byte kind }
{
    match kind {
        TaskKind::Workflow => 1,
        TaskKind::Activity => 2,
    }
}

fn kind_in(byte: u8) -> TaskKind
    ensures { result ≡ kind_in byte }
{
    if byte == 1 {
        TaskKind::Workflow
    } else {
        TaskKind::Activity
    }
}

fn bytes_of(token: &TaskToken) -> [u8; 24]
    ensures { result ≡ token_bytes token.now }
{
    let kind = kind_byte(token.kind);
    let [a, b] = token.shard.to_be_bytes();
    let [c, d, e, f, g, h, i, j] = token.run.to_be_bytes();
    let [k, l, m, n, o, p, q, r] = token.event.to_be_bytes();
    let [s, t, u, v] = token.attempt.to_be_bytes();
    [
        VERSION, kind, a, b, c, d, e, f, g, h, i, j, k, l, m, n, o, p, q, r, s, t, u, v,
    ]
}

/// The number in the first two bytes, and the bytes after them.
fn split_u16(bytes: &[u8]) -> (u16, &[u8])
    requires { 2 ≤ length bytes.now }
    ensures number { result.0 ≡ from_be_bytes w16 (take 2 bytes.now) }
    ensures rest { result.1.now ≡ drop 2 bytes.now }
{
    let (front, rest) = bytes.split_at(2);
    (u16::from_be_bytes([front[0], front[1]]), rest)
}

/// The number in the first four bytes, and the bytes after them.
fn split_u32(bytes: &[u8]) -> (u32, &[u8])
    requires { 4 ≤ length bytes.now }
    ensures number { result.0 ≡ from_be_bytes w32 (take 4 bytes.now) }
    ensures rest { result.1.now ≡ drop 4 bytes.now }
{
    let (front, rest) = bytes.split_at(4);
    let number = u32::from_be_bytes([front[0], front[1], front[2], front[3]]);
    (number, rest)
}

/// The number in the first eight bytes, and the bytes after them.
fn split_u64(bytes: &[u8]) -> (u64, &[u8])
    requires { 8 ≤ length bytes.now }
    ensures number { result.0 ≡ from_be_bytes w64 (take 8 bytes.now) }
    ensures rest { result.1.now ≡ drop 8 bytes.now }
{
    let (front, rest) = bytes.split_at(8);
    let number = u64::from_be_bytes([
        front[0], front[1], front[2], front[3], front[4], front[5], front[6], front[7],
    ]);
    (number, rest)
}

/// The token whose numbers stand in 24 bytes, whatever their version is.
fn token_in(bytes: &[u8]) -> TaskToken
    requires { length bytes.now ≡ 24 }
    ensures { result ≡ token_in bytes.now }
{
    let kind = kind_in(bytes[1]);
    let (_, rest) = bytes.split_at(2);
    let (shard, rest) = split_u16(rest);
    let (run, rest) = split_u64(rest);
    let (event, rest) = split_u64(rest);
    let (attempt, _) = split_u32(rest);
    TaskToken {
        kind,
        shard,
        run,
        event,
        attempt,
    }
}

/// Whether these are the token's bytes.
fn are_bytes_of(token: &TaskToken, bytes: &[u8]) -> bool
    ensures { result ≡ bytes_eq (token_bytes token.now) bytes.now }
{
    bytes_of(token).as_slice() == bytes
}

/// Whether these are the token's bytes, and its run, event and attempt count from 1.
fn has_bytes(token: &TaskToken, bytes: &[u8]) -> bool
    ensures { result ≡ has_bytes token.now bytes.now }
{
    are_bytes_of(token, bytes) && (token.run >= 1 && (token.event >= 1 && token.attempt >= 1))
}

/// The token whose bytes these are.
fn token_of(bytes: &[u8]) -> Option<TaskToken>
    ensures { result ≡ if_bytes bytes.now (token_in bytes.now) }
{
    if bytes.len() != 24 {
        return None;
    }
    let token = token_in(bytes);
    if has_bytes(&token, bytes) {
        Some(token)
    } else {
        None
    }
}

/// The token whose text this is, where the text is as long as that of a token.
#[tactic(auto, unfolding(crate::specs::TokenTexts::token_named))]
fn token_named_at_length(text: &str) -> Option<TaskToken>
    requires { length text.now ≡ 32 }
    ensures { result ≡ token_named text.now }
{
    let mut bytes = [0; 24];
    match STANDARD.decode_slice_unchecked(text.as_bytes(), &mut bytes) {
        Ok(length) => token_of(&bytes[..length]),
        Err(_) => None,
    }
}

/// The token whose text this is.
#[tactic(auto, unfolding(crate::specs::TokenTexts::token_named))]
fn token_named(alloc: Global, text: &str) -> Result<Option<TaskToken>, AllocError>
    ensures { IfOk result (λ o. o ≡ token_named text.now) }
{
    if text.len() == TOKEN_TEXT_LENGTH {
        return Ok(token_named_at_length(text));
    }
    match STANDARD.decode(alloc, text.as_bytes()) {
        Ok(bytes) => Ok(token_of(&bytes)),
        Err(DecodeAllocError::DecodeError(_)) => Ok(None),
        Err(DecodeAllocError::OutOfMemory) => Err(AllocError),
    }
}

/// The token of any numbers whose bytes these are.
fn any_token_of(bytes: &[u8]) -> Option<TaskToken>
    ensures { result ≡ if_its_bytes bytes.now (token_in bytes.now) }
{
    if bytes.len() != 24 {
        return None;
    }
    let token = token_in(bytes);
    if are_bytes_of(&token, bytes) {
        Some(token)
    } else {
        None
    }
}

/// The token of any numbers whose text this is.
#[tactic(auto, unfolding(crate::specs::TokenTexts::any_token_named))]
fn any_token_named(alloc: Global, text: &str) -> Result<Option<TaskToken>, AllocError>
    ensures { IfOk result (λ o. o ≡ any_token_named text.now) }
{
    let encoded = text.as_bytes();
    match STANDARD.decode(alloc, encoded) {
        Ok(bytes) => Ok(any_token_of(&bytes)),
        Err(DecodeAllocError::DecodeError(_)) => Ok(None),
        Err(DecodeAllocError::OutOfMemory) => Err(AllocError),
    }
}

impl TaskToken {
    /// The token's text: its 24 bytes in base64 (RFC 4648, the standard alphabet, no padding), 32
    /// characters.
    ///
    /// The bytes are the version 1, the kind (1 for workflow, 2 for activity), and then shard, run,
    /// event and attempt, each with its high byte first.
    pub fn write(&self, alloc: Global) -> Result<String, AllocError>
        ensures { IfOk result (λ s. string_bytes s ≡ token_text self.now) }
    {
        STANDARD.encode(alloc, &bytes_of(self))
    }

    /// The token's text, as `write` gives it, written into the buffer.
    pub fn write_in<'b>(&self, buffer: &'b mut [u8; TOKEN_TEXT_LENGTH]) -> &'b str
        ensures { result.now ≡ token_text self.now }
    {
        let Ok(_) = STANDARD.encode_slice(&bytes_of(self), buffer) else {
            unreachable!();
        };
        let Ok(text) = str::from_utf8(buffer) else {
            unreachable!();
        };
        text
    }

    /// The token whose text this is.
    ///
    /// Every other text is `InvalidToken`, also that of a token whose run, event or attempt is 0.
    pub fn read(alloc: Global, text: &str) -> Result<TaskToken, Refusal>
        ensures value { MatchResult result (λ t. token_named text.now ≡ Some t)
            (λ e. e ≢ NoMemory → (e ≡ InvalidToken) × (token_named text.now ≡ None)) }
        ensures exact { NamedExactly text.now (token_named text.now) }
    {
        token_named(alloc, text)?.ok_or(Refusal::InvalidToken)
    }

    /// The token whose text this is, also one whose run, event or attempt is 0. There is none for
    /// every other text.
    pub fn decode(alloc: Global, text: &str) -> Result<Option<TaskToken>, AllocError>
        ensures value { IfOk result (λ o. o ≡ any_token_named text.now) }
        ensures exact { AnyNamedExactly text.now (any_token_named text.now) }
    {
        any_token_named(alloc, text)
    }
}
