//! The segments in front of a base, which go for good. No clause says which files go. It looks at no byte.
use mi_recovery::{JournalFailure, JournalFault, JournalFiles, segment_path};
use std::alloc::Global;
use std::io::ErrorKind;

/// Whether the segment of this number is there.
fn is_there<P: JournalFiles>(
    alloc: Global,
    files: &P,
    path: &str,
    number: u64,
) -> Result<bool, JournalFault> {
    let Ok(name) = segment_path(alloc, path, number) else {
        return Err(JournalFault::from(JournalFailure::Memory));
    };
    match files.open_there(name.as_str()) {
        Ok(file) => Ok(file.is_some()),
        Err(error) => Err(JournalFault::of(JournalFailure::File, error)),
    }
}

/// Takes the segment of this number away. Another rebase, whose base has its name, may have done that.
fn remove<P: JournalFiles>(
    alloc: Global,
    files: &P,
    path: &str,
    number: u64,
) -> Result<(), JournalFault> {
    let Ok(name) = segment_path(alloc, path, number) else {
        return Err(JournalFault::from(JournalFailure::Memory));
    };
    match files.remove(name.as_str()) {
        Ok(()) => Ok(()),
        Err(error) => match error.kind() {
            ErrorKind::NotFound => Ok(()),
            _ => Err(JournalFault::of(JournalFailure::Write, error)),
        },
    }
}

/// The number of the first of those segments that stand without a gap up to this one.
fn first_there<P: JournalFiles>(
    alloc: Global,
    files: &P,
    path: &str,
    last: u64,
) -> Result<u64, JournalFault> {
    for back in 1..last {
        if !is_there(alloc, files, path, last - back)? {
            return Ok(last - back + 1);
        }
    }
    Ok(1)
}

/// Takes away the segments up to this one that are there without a gap, the oldest first: so those that are left stand without a gap, and a later rebase
/// finds them.
pub(crate) fn remove_up_to<P: JournalFiles>(
    alloc: Global,
    files: &P,
    path: &str,
    last: u64,
) -> Result<(), JournalFault> {
    if last == 0 || !is_there(alloc, files, path, last)? {
        return Ok(());
    }
    let first = first_there(alloc, files, path, last)?;
    for number in first..last {
        remove(alloc, files, path, number)?;
    }
    remove(alloc, files, path, last)
}
