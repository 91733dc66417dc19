//! The reason that the program stops before its end.
ghost use Rattle.std.specs.Prelude.{◌≡◌};
ghost use Rattle.cli.specs.declared.fault.Fault.TheVariants as fault;
ghost use Rattle.cli.specs.Devices.{fault_of};

use cc_io::IoError;
use std::alloc::AllocError;
use thiserror::Error;

/// The reason that the program stopped before its end. Its text is the line that is then on standard error.
#[derive(Clone, Copy, Debug, Error)]
pub enum Fault {
    /// An allocation failed.
    #[error("cheri-cap: out of memory")]
    Memory,
    /// The file to be read could not be opened.
    #[error("cheri-cap: cannot open")]
    Open,
    /// A read failed.
    #[error("cheri-cap: read failed")]
    Read,
    /// A write failed.
    #[error("cheri-cap: write failed")]
    Write,
}

impl From<IoError> for Fault {
    ghost from_gives = { λ error result. result ≡ fault_of error };

    fn from(error: IoError) -> Fault {
        match error {
            IoError::Read => Fault::Read,
            IoError::Write => Fault::Write,
        }
    }
}

impl From<AllocError> for Fault {
    ghost from_gives = { λ error result. result ≡ fault.Memory };

    fn from(_: AllocError) -> Fault {
        Fault::Memory
    }
}
