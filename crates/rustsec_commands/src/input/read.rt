//! Reads all that a reader has left, and says which fault its error is.

ghost use Rattle.rustsec_commands.specs.declared.fault.Fault.TheVariants as fault;
ghost use Rattle.std.specs.IoError.{error_kind};
ghost use Rattle.std.specs.Prelude.{◌≡◌, ◌≢◌, IfErr, IfOk, IfSome};

use crate::fault::Fault;
use rustsec_files::reading::bytes_of;
use std::alloc::Global;
use std::io::{self, ErrorKind, Read};

/// Returns the fault for an error of a reader: `Memory` if its kind says that memory ran out, else `Read`.
fn fault_of(error: &io::Error) -> Fault
    ensures memory { error_kind error.now ≡ ErrorKind.OutOfMemory → result ≡ fault.Memory }
    ensures read { error_kind error.now ≢ ErrorKind.OutOfMemory → result ≡ fault.Read }
{
    if error.kind() == ErrorKind::OutOfMemory {
        Fault::Memory
    } else {
        Fault::Read
    }
}

/// Reads all that a reader has left, in at most 2^32 reads. A read that was interrupted is tried again.
///
/// # Errors
///
/// `Memory` if the bytes do not fit in memory, or if the reader's error says that memory ran out. Else `Read`: for any
/// other error of the reader, or if it has not ended after the last read.
pub fn read_all<R: Read>(alloc: Global, input: &mut R) -> Result<Vec<u8>, Fault>
    ensures all { IfOk result (λ v. IfSome (R.remaining input.old) (λ bytes. v.items ≡ bytes)) }
    ensures err { IfErr result (λ e. e ≢ fault.Write) }
{
    match bytes_of(alloc, input) {
        Ok(bytes) => Ok(bytes),
        Err(error) => Err(fault_of(&error)),
    }
}
