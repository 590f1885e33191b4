//! The reasons why a command gave no answer.

use std::alloc::AllocError;
use std::io::Write;
use thiserror::Error;

/// The reason why a command gave no answer.
#[derive(Clone, Copy, Debug, PartialEq, Eq, Error)]
pub enum Fault {
    /// Memory was refused.
    #[error("out of memory")]
    Memory,
    /// The input could not be read to its end.
    #[error("the input cannot be read")]
    Read,
    /// The output could not be written.
    #[error("the output cannot be written")]
    Write,
}

impl Fault {
    /// Writes a note that says what failed. A note that cannot be written is lost.
    pub fn write_note<N: Write>(self, notes: &mut N) {
        let note = match self {
            Fault::Memory => "rustsec_audit: out of memory\n",
            Fault::Read => "rustsec_audit: the input cannot be read\n",
            Fault::Write => "rustsec_audit: the output cannot be written\n",
        };
        let _ = notes.write_all(note.as_bytes());
    }
}

impl From<AllocError> for Fault {
    ghost use Rattle.std.specs.Prelude.{◌≡◌};
    ghost use Rattle.rustsec_commands.specs.declared.fault.Fault.TheVariants as fault;

    ghost from_gives = { λ _ e. e ≡ fault.Memory };

    fn from(_: AllocError) -> Fault {
        Fault::Memory
    }
}
