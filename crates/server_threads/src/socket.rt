//! The socket of a tree. At any moment at most one server listens on it, and none but its owner can
//! connect.
use server_rules::{FileIdentity, says_abandoned};
use std::alloc::Global;
use std::fs::{self, DirBuilder, File, Permissions};
use std::io::{self, ErrorKind};
use std::net::Net;
use std::os::unix::fs::{DirBuilderExt, FileTypeExt, MetadataExt, PermissionsExt};
use std::os::unix::net::{UnixListener, UnixStream};
use std::rt::Files;

/// The rights of a socket: its owner's alone.
const SOCKET_MODE: u32 = 0o600;

/// The rights of the folder in which it is made.
const FOLDER_MODE: u32 = 0o700;

/// The most tries to make and lock the folder. A try fails where the server that had the folder
/// before has just removed it.
const TRIES: u32 = 100;

/// The file of a socket that a server has made.
#[derive(Clone, Copy, Debug)]
pub struct SocketFile {
    identity: FileIdentity,
}

impl SocketFile {
    /// Removes the file at this path, if it is still this one: another server may have put its own
    /// there. Call it while the listener is open: as long as it is, the system gives the inode
    /// number of its socket to no other file.
    pub fn remove<R: Files>(&self, rt: &R, path: &str) {
        if let Ok(found) = fs::symlink_metadata(rt, path) {
            if self.identity.is_that_of(&FileIdentity::of(&found)) {
                let _ = fs::remove_file(rt, path);
            }
        }
    }
}

/// A listener on this path, and the file of its socket. The socket is made in the folder PATH.new,
/// and renamed into place once it listens. The folder is locked meanwhile, and removed afterwards.
/// An abandoned socket at the path is replaced. It is an error where a server lives there or starts
/// at the same time, or where another file is; what is there is left as it is.
pub fn listen<R: Net + Files<File = File>>(
    rt: &R,
    alloc: Global,
    path: &str,
) -> io::Result<(UnixListener, SocketFile)> {
    let folder = format!(in alloc; "{path}.new")?;
    let made = format!(in alloc; "{path}.new/s")?;
    // No other server makes its socket meanwhile.
    let lock = lock_folder(rt, folder.as_str())?;
    // Makes the socket at `made`, in the folder, and renames it to `path`.
    let placed = place(rt, folder.as_str(), made.as_str(), path);
    // A socket that was made and is not in its place goes with its folder.
    if placed.is_err() {
        let _ = fs::remove_file(rt, made.as_str());
    }
    let _ = fs::remove_dir(rt, folder.as_str());
    drop(lock);
    placed
}

// Makes the folder, if it isn't there, and locks it. A lock ends with its process at the latest, so
// a folder that was left behind is taken over.
fn lock_folder<R: Files<File = File>>(rt: &R, folder: &str) -> io::Result<File> {
    for _ in 0..TRIES {
        match DirBuilder::new().mode(FOLDER_MODE).create(rt, folder) {
            Err(error) if error.kind() != ErrorKind::AlreadyExists => return Err(error),
            _ => {}
        }
        // None where the folder is gone by now: it is made again.
        if let Some(lock) = try_lock(rt, folder)? {
            return Ok(lock);
        }
    }
    // The folder was removed or replaced at each try.
    Err(ErrorKind::AddrInUse.into())
}

// Locks the folder; None where it was removed or replaced meanwhile, so that it is to be made
// again. An error where another server has locked it, or where it is no folder with the rights
// 0700.
fn try_lock<R: Files<File = File>>(rt: &R, folder: &str) -> io::Result<Option<File>> {
    let found = match fs::symlink_metadata(rt, folder) {
        Ok(found) => found,
        Err(error) if error.kind() == ErrorKind::NotFound => return Ok(None),
        Err(error) => return Err(error),
    };
    if !found.is_dir() || found.mode() & 0o777 != FOLDER_MODE {
        return Err(ErrorKind::AddrInUse.into());
    }
    let lock = match File::open(rt, folder) {
        Ok(lock) => lock,
        Err(error) if error.kind() == ErrorKind::NotFound => return Ok(None),
        Err(error) => return Err(error),
    };
    // Another server has locked it.
    if lock.try_lock().is_err() {
        return Err(ErrorKind::AddrInUse.into());
    }
    let locked = FileIdentity::of(&lock.metadata()?);
    // The lock counts only if the path still leads to the locked folder.
    match fs::symlink_metadata(rt, folder) {
        Ok(now) if locked.is_that_of(&FileIdentity::of(&now)) => Ok(Some(lock)),
        _ => Ok(None),
    }
}

// Makes the socket in the folder, and renames it into place. `PermissionDenied` where the folder
// belongs to another user.
fn place<R: Net + Files>(
    rt: &R,
    folder: &str,
    made: &str,
    path: &str,
) -> io::Result<(UnixListener, SocketFile)> {
    check_replaceable(rt, path)?;
    let listener = bind(rt, made)?;
    let found = fs::symlink_metadata(rt, made)?;
    // The folder must have the same owner as the socket, which this process has just made.
    if fs::symlink_metadata(rt, folder)?.uid() != found.uid() {
        return Err(ErrorKind::PermissionDenied.into());
    }
    fs::set_permissions(rt, made, Permissions::from_mode(SOCKET_MODE))?;
    fs::rename(rt, made, path)?;
    let identity = FileIdentity::of(&found);
    Ok((listener, SocketFile { identity }))
}

// A listener at this path in the folder. A file that was left there is replaced.
fn bind<R: Net + Files>(rt: &R, made: &str) -> io::Result<UnixListener> {
    match UnixListener::bind(rt, made) {
        Err(error) if error.kind() == ErrorKind::AddrInUse => {
            // A file of an earlier server is there.
            fs::remove_file(rt, made)?;
            UnixListener::bind(rt, made)
        }
        done => done,
    }
}

// An error unless nothing is at this path, or an abandoned socket.
fn check_replaceable<R: Net + Files>(rt: &R, path: &str) -> io::Result<()> {
    let found = match fs::symlink_metadata(rt, path) {
        Ok(found) => found,
        Err(error) if error.kind() == ErrorKind::NotFound => return Ok(()),
        Err(error) => return Err(error),
    };
    if !found.file_type().is_socket() {
        return Err(ErrorKind::AddrInUse.into());
    }
    // A socket is abandoned if nobody answers on it.
    match UnixStream::connect(rt, path) {
        Ok(_living) => Err(ErrorKind::AddrInUse.into()),
        Err(error) if says_abandoned(error.kind()) => Ok(()),
        // This failure doesn't say that nobody listens, so the socket is kept.
        Err(error) => Err(error),
    }
}
