//! A line as it comes in, by parts.

ghost use Rattle.std.specs.Prelude.{◌≡◌, [], Some, OnOk, option_map};
ghost use Rattle.script.specs.Pending.{grown, is_empty_line};

use std::alloc::{AllocError, Global};
use std::marker::Model;

/// The most bytes that a line may have, its line feed not counted.
pub const LINE_LIMIT: usize = 1_048_576;

/// A line so far: its bytes, or nothing once they are more than a line may have.
#[derive(Drop)]
pub struct Line {
    bytes: Option<Vec<u8>>,
}

impl Model for Line {
    ghost use Rattle.std.specs.Prelude.{List, ℕ, Option, option_map};

    ghost Value = { Option (List ℕ) };

    ghost view = { λ l. option_map (λ v. v.items) l.bytes };
}

impl Line {
    /// A line of no bytes so far.
    pub fn new(alloc: Global) -> Line
        ensures { result ≡ Some [] }
    {
        Line {
            bytes: Some(Vec::new(alloc)),
        }
    }

    /// More bytes. A line that grows past the limit gives its memory up.
    pub fn extend(&mut self, part: &[u8]) -> Result<(), AllocError>
        ensures { OnOk result (self.new ≡ grown self.old part.now) }
    {
        if part.is_empty() {
            return Ok(());
        }
        let Some(bytes) = &mut self.bytes else {
            return Ok(());
        };
        if bytes.len() + part.len() > LINE_LIMIT {
            self.bytes = None;
            return Ok(());
        }
        bytes.extend_from_slice(part)?;
        Ok(())
    }

    /// Begins the next line, in the memory of this one.
    pub fn clear(&mut self, alloc: Global)
        ensures { self.new ≡ Some [] }
    {
        match &mut self.bytes {
            Some(bytes) => bytes.clear(),
            None => self.bytes = Some(Vec::new(alloc)),
        }
    }

    /// Whether it has no byte so far.
    pub fn is_empty(&self) -> bool
        ensures { result ≡ is_empty_line self.now }
    {
        match &self.bytes {
            Some(bytes) => bytes.is_empty(),
            None => false,
        }
    }

    /// The bytes, or nothing where they are too many.
    pub fn bytes(&self) -> Option<&[u8]>
        ensures { option_map (λ b. b.now) result ≡ self.now }
    {
        match &self.bytes {
            Some(bytes) => Some(bytes.as_slice()),
            None => None,
        }
    }
}
