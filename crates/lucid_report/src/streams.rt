//! The standard streams of a command.
use std::fs;
use std::fs::File;

// The null device, where there is one.
fn null_device(rt: &HostRuntime) -> Option<File> {
    fs::open(rt, "/dev/null").ok()
}

/// The null device under the numbers of those standard streams that were closed when the command began, and under others that are free.
/// While it is open, no file gets the number of such a stream, to be read or written in its place.
pub fn closed_streams(rt: &HostRuntime) -> [Option<File>; 3] {
    [null_device(rt), null_device(rt), null_device(rt)]
}
