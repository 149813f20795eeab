//! Why words are no settings.

ghost use Rattle.std.specs.Prelude.{◌≡◌};
ghost use Rattle.script_settings.specs.Settings.{asks_version};

use clap::error::ErrorKind;
use thiserror::Error;

/// Why words are no settings.
#[derive(Debug, Drop, Error)]
pub enum Fault {
    /// The words are not such as the command takes, or ask for its help or its version, or memory
    /// ran out. The text is clap's.
    #[error(transparent)]
    Words(clap::Error),
    /// The text given to this option is no whole number below 2^64.
    #[error("--{0} takes a whole number")]
    Number(&'static str),
    /// A name among those given to `--queues` is empty, or longer than 255 bytes.
    #[error("--queues takes names of 1 to 255 bytes, separated by commas")]
    Queues,
    /// Both `--trace` and `--load` were given.
    #[error("--trace prints a history from its first step on, so it takes no --load")]
    Trace,
    /// `--journal` was given, and this option beside it.
    #[error("--journal keeps all records in its folder, so it takes no --{0}")]
    Journal(&'static str),
}

impl Fault {
    /// Whether the words ask for the version, which the text then is.
    pub fn asks_version(&self) -> bool
        ensures { result ≡ asks_version self.now }
    {
        match self {
            Fault::Words(error) => matches!(error.kind(), ErrorKind::DisplayVersion),
            _ => false,
        }
    }
}
