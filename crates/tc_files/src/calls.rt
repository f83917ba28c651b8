//! What calls of the system need round them.

use std::fs::File;
use std::io;
use std::io::ErrorKind;
use std::os::fd::AsRawFd;

/// Makes a call again that a signal interrupted, at most 2^64 - 1 times in all. Std does so itself where it opens, reads,
/// writes, syncs or locks a file, and nowhere else.
pub(crate) fn uninterrupted<T: Drop, F: Fn() -> io::Result<T>>(call: &F) -> io::Result<T>
    requires { F.IsAlwaysCallable call.now }
{
    for _ in 0..u64::MAX {
        match call() {
            Err(error) if error.kind() == ErrorKind::Interrupted => {}
            other => return other,
        }
    }
    Err(ErrorKind::Interrupted.into())
}

/// The file under a descriptor above 2. Where a standard stream was closed, the system gives its number to the next file,
/// and what is printed would land there.
pub(crate) fn above_standard(file: File) -> io::Result<File> {
    if file.as_raw_fd() <= 2 {
        file.try_clone()
    } else {
        Ok(file)
    }
}
