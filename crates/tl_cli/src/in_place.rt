//! Files whose bytes are replaced at once: a new file is written beside the old one and takes its
//! name, so that a failure at any place leaves the old one whole.

use std::fs::{self, File, Metadata, OpenOptions};
use std::io::{self, ErrorKind, Write};
use std::os::unix::fs::{MetadataExt, OpenOptionsExt, chown};

// How many names are tried for a new file.
const NAMES: u32 = 100;

// A new file beside another one, which none but its owner may read yet, and its name. That is not
// the one that the backup is to have.
fn create_beside(rt: &HostRuntime, file: &str, suffix: Option<&str>) -> io::Result<(String, File)> {
    for number in 0..NAMES {
        let end = format!(in rt.alloc(); ".tl-{number}")?;
        if suffix == Some(end.as_str()) {
            continue;
        }
        let name = format!(in rt.alloc(); "{file}{end}")?;
        let mut options = OpenOptions::new();
        options.write(true).create_new(true).mode(0o600);
        match options.open(rt, name.as_str()) {
            Ok(new) => return Ok((name, new)),
            Err(error) if error.kind() == ErrorKind::AlreadyExists => {}
            Err(error) => return Err(error),
        }
    }
    Err(ErrorKind::AlreadyExists.into())
}

// Gives a new file the owner and the mode of the old one, and makes it last. An owner that may not
// be set is not.
fn settle(rt: &HostRuntime, name: &str, file: &mut File, old: &Metadata) -> io::Result<()> {
    let _ = chown(rt, name, Some(old.uid()), Some(old.gid()));
    file.set_permissions(old.permissions())?;
    file.sync_all()
}

// Writes a new file that is to stand in the place of the old one.
fn write_new(
    rt: &HostRuntime,
    name: &str,
    file: File,
    old: &Metadata,
    bytes: &[u8],
) -> io::Result<()> {
    let mut file = file;
    file.write_all(bytes)?;
    settle(rt, name, &mut file, old)
}

// Copies a file to a new one beside it, which then takes the name of its backup.
fn copy_and_rename(
    rt: &HostRuntime,
    name: &str,
    new: File,
    file: &str,
    old: &Metadata,
    backup: &str,
) -> io::Result<()> {
    let mut new = new;
    fs::copy(rt, file, name)?;
    settle(rt, name, &mut new, old)?;
    fs::rename(rt, name, backup)
}

// Keeps the bytes of a file under another name. What had that name is not written to, since it may
// be a link, also to this file: the name is taken from it.
fn back_up(rt: &HostRuntime, file: &str, old: &Metadata, suffix: &str) -> io::Result<()> {
    let backup = format!(in rt.alloc(); "{file}{suffix}")?;
    let (name, new) = create_beside(rt, file, Some(suffix))?;
    let done = copy_and_rename(rt, name.as_str(), new, file, old, backup.as_str());
    if done.is_err() {
        let _ = fs::remove_file(rt, name.as_str());
    }
    done
}

// Writes the new file, keeps the old one under another name if that is asked for, and renames.
fn write_and_rename(
    rt: &HostRuntime,
    name: &str,
    new: File,
    file: &str,
    old: &Metadata,
    suffix: Option<&str>,
    bytes: &[u8],
) -> io::Result<()> {
    write_new(rt, name, new, old, bytes)?;
    if let Some(suffix) = suffix {
        back_up(rt, file, old, suffix)?;
    }
    fs::rename(rt, name, file)
}

/// Replaces the bytes of a file; a link is followed to its file. Mode stays, and so does the owner
/// where that may be set; other names that it has by hard links keep the old bytes. With a suffix
/// the old bytes stay in a file of that name and the suffix; if that name is a link, it is one no
/// more, and what it led to keeps its bytes. What is no regular file is an error, and so is an
/// empty suffix.
/// Where this fails the old file is whole, and no new one is left but the one with the suffix.
pub fn replace(rt: &HostRuntime, file: &str, suffix: Option<&str>, bytes: &[u8]) -> io::Result<()> {
    let file = fs::canonicalize(rt, file)?;
    let file = file.as_str();
    let old = fs::metadata(rt, file)?;
    if !old.is_file() || suffix == Some("") {
        return Err(ErrorKind::InvalidInput.into());
    }
    let (name, new) = create_beside(rt, file, suffix)?;
    let done = write_and_rename(rt, name.as_str(), new, file, &old, suffix, bytes);
    if done.is_err() {
        let _ = fs::remove_file(rt, name.as_str());
    }
    done
}
