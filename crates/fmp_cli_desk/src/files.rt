//! Folders and files that are made.
use crate::desk::Desk;
use crate::ending::Ending;
use std::alloc::{AllocError, Global};
use std::io;

/// The path of the trace of this name in a folder.
fn path_of(alloc: Global, folder: &str, name: &str) -> Result<String, AllocError> {
    format!(in alloc; "{folder}/{name}.trace")
}

/// What became of a file or a folder at a path that was to be made.
fn made(alloc: Global, path: &str, making: io::Result<()>) -> Result<(), Ending> {
    match making {
        Ok(()) => Ok(()),
        Err(error) => Err(Ending::Unmade(error, String::from_str(alloc, path)?)),
    }
}

/// Makes the folder at a path, if there is none.
pub fn folder_made<D: Desk>(desk: &D, folder: &str) -> Result<(), Ending> {
    made(desk.alloc(), folder, desk.make_folder(folder))
}

/// Writes a text into the file at a path, which is made where there is none.
pub fn file_put<D: Desk>(desk: &D, path: &str, text: &[u8]) -> Result<(), Ending> {
    made(desk.alloc(), path, desk.put_file(path, text))
}

/// Writes a trace into the file of this name in a folder, which is made where there is none.
pub fn trace_put<D: Desk>(desk: &D, folder: &str, name: &str, trace: &[u8]) -> Result<(), Ending> {
    let path = path_of(desk.alloc(), folder, name)?;
    file_put(desk, path.as_str(), trace)
}
