//! Where a reply's line stands.

/// Where the line of a reply stands among others, and whether it is a refusal's.
#[derive(Clone, Copy)]
pub(crate) struct Answer {
    pub(crate) start: usize,
    pub(crate) end: usize,
    pub(crate) refused: bool,
}
