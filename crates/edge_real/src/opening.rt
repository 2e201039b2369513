// Opens files by their paths, and makes the folders on the way so that their names last.
use crate::fault::{SystemCall, SystemFault};
use crate::system::{Folders, OpenedFile};
use std::alloc::Global;
use std::io;
use std::io::ErrorKind;

// What a call gave, or its fault.
pub fn told<T: Drop>(call: SystemCall, given: io::Result<T>) -> Result<T, SystemFault> {
    match given {
        Ok(value) => Ok(value),
        Err(error) => Err(SystemFault { call, error }),
    }
}

// The folder that these first bytes of a path name, where they end at the end of a name.
fn folder_before(path: &str, end: usize) -> Option<&str> {
    match path.split_at_checked(end) {
        Some((front, rest))
            if !front.ends_with('/') && (rest.is_empty() || rest.starts_with('/')) => {
            Some(front)
        }
        _ => None,
    }
}

/// The folder in which a path stands.
pub fn parent(path: &str) -> &str {
    match path.rsplit_once('/') {
        None => ".",
        Some(("", _)) => "/",
        Some((parent, _)) => parent,
    }
}

// Makes a folder whose parent is there. Where it was missing the parent is synced, so that its name lasts.
fn make_folder<S: Folders>(system: &mut S, path: &str) -> Result<(), SystemFault> {
    if told(SystemCall::MakeFolder, system.make_folder(path))? {
        told(SystemCall::SyncFolder, system.sync_folder(parent(path)))?;
    }
    Ok(())
}

/// Makes a folder and those above it where they are missing, so that their names last.
pub fn make_folders<S: Folders>(system: &mut S, path: &str) -> Result<(), SystemFault> {
    match make_folder(system, path) {
        Ok(()) => return Ok(()),
        Err(fault) if fault.error.kind() == ErrorKind::NotFound => {}
        Err(fault) => return Err(fault),
    }
    for end in 1..=path.len() {
        if let Some(folder) = folder_before(path, end) {
            make_folder(system, folder)?;
        }
    }
    Ok(())
}

/// Opens a file and locks it. No sync is made for its name, which need not last.
pub fn open_locked<S: Folders>(
    alloc: Global,
    system: &mut S,
    folder: &str,
) -> Result<S::File, SystemFault> {
    let path = told(SystemCall::Path, path_of(alloc, folder, LOCK_NAME))?;
    let mut file = told(SystemCall::Open, system.open_file(&path))?;
    told(SystemCall::Lock, file.lock())?;
    Ok(file)
}

/// The file that is locked while a folder is open. No topic has this name.
pub const LOCK_NAME: &str = "lock~";

/// The path of a name in a folder.
pub fn path_of(alloc: Global, folder: &str, name: &str) -> io::Result<String> {
    Ok(format!(in alloc; "{folder}/{name}")?)
}

// A text of its own.
fn copy(alloc: Global, text: &str) -> io::Result<String> {
    Ok(format!(in alloc; "{text}")?)
}

/// Opens the file of a name below a folder. What is missing on its way is made, and each folder is synced from the
/// given one to the file's, so that the name lasts.
pub fn open_below<S: Folders>(
    alloc: Global,
    system: &mut S,
    folder: &str,
    name: &str,
) -> Result<S::File, SystemFault> {
    let mut rest = name;
    let mut above = told(SystemCall::Path, copy(alloc, folder))?;
    while let Some((word, behind)) = rest.split_once('/') {
        let path = told(SystemCall::Path, path_of(alloc, &above, word))?;
        told(SystemCall::MakeFolder, system.make_folder(&path))?;
        told(SystemCall::SyncFolder, system.sync_folder(&above))?;
        above = path;
        rest = behind;
    }
    let path = told(SystemCall::Path, path_of(alloc, &above, rest))?;
    let file = told(SystemCall::Open, system.open_file(&path))?;
    told(SystemCall::SyncFolder, system.sync_folder(&above))?;
    Ok(file)
}
