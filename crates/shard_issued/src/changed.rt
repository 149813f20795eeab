//! Which runs a step changed.

ghost use Rattle.std.specs.Prelude.{◌≡◌};
ghost use Rattle.shard_issued.specs.Outstanding.{unchanged};

/// The places of the runs that the last step changed, where what is kept of them was not looked up
/// since.
#[derive(Clone, Copy)]
pub struct Changed {
    /// The run to which it added.
    pub grown: Option<usize>,
    /// The run that it made.
    pub made: Option<usize>,
}

impl Changed {
    /// A step that changed no run.
    pub fn none() -> Changed
        ensures { result ≡ unchanged }
    {
        Changed {
            grown: None,
            made: None,
        }
    }
}
