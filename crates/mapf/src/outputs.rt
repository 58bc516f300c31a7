//! The two files that `solve` writes, opened so that no file of the user is overwritten by mistake: if PLAN or CERT is
//! the same regular file as MAP, SCEN or each other, under whatever paths, nothing is solved and every file stays as it
//! was. Devices and pipes are not regular files, and are never refused.
//!
//! 1. MAP and SCEN are open.
//! 2. What is at the paths of PLAN and CERT is compared with MAP, SCEN and each other. Nothing has been opened for
//!    writing by then.
//! 3. PLAN is opened, and created if it didn't exist, but not emptied; and then CERT.
//! 4. The open files are compared in the same way: the system may not have reported what is at a path, and if nothing
//!    existed at either path, both may lead to one new file. What was created is removed again.
//! 5. PLAN is emptied, and then CERT. If CERT couldn't be opened, PLAN is emptied all the same.

ghost use Rattle.std.specs.Prelude.{OnOk};
ghost use Rattle.mapf.specs.Files.{AreDistinctFiles};

use mapf_app::{Fault, Output};
use std::fs::{File, Metadata, OpenOptions};
use std::os::unix::fs::MetadataExt;
use std::rt::Files;
use std::{fs, io};

/// A regular file, whatever path leads to it: the number of its device, and its number there.
#[derive(Clone, Copy, Debug, PartialEq, Eq)]
pub struct Identity {
    device: u64,
    number: u64,
}

/// A file that an argument names: the name of the argument, the path, and the regular file that the path leads to.
#[derive(Clone, Copy)]
pub struct Place<'a> {
    pub argument: &'a str,
    pub path: &'a str,
    pub file: Option<Identity>,
}

/// Two paths of the same regular file, one of them of an output.
#[derive(Clone, Copy)]
pub struct OneFile<'a> {
    pub first: Place<'a>,
    pub second: Place<'a>,
}

/// Why nothing was solved.
#[derive(Clone, Copy)]
pub enum Unsolved<'a> {
    Fault(Fault),
    /// An output is an input, or both outputs are one file.
    OneFile(OneFile<'a>),
}

impl<'a> From<Fault> for Unsolved<'a> {
    fn from(fault: Fault) -> Unsolved<'a> {
        Unsolved::Fault(fault)
    }
}

impl<'a> From<OneFile<'a>> for Unsolved<'a> {
    fn from(one: OneFile<'a>) -> Unsolved<'a> {
        Unsolved::OneFile(one)
    }
}

/// The two files, open and empty.
#[derive(Drop)]
pub struct Outputs {
    pub plan: File,
    pub cert: File,
}

/// Returns the identity of an open file, None if it isn't a regular file.
pub fn identity_of(file: &File) -> io::Result<Option<Identity>> {
    Ok(regular(&file.metadata()?))
}

fn regular(found: &Metadata) -> Option<Identity> {
    if !found.is_file() {
        return None;
    }
    Some(Identity {
        device: found.dev(),
        number: found.ino(),
    })
}

// Refuses an output that is the same file as the other.
fn apart<'a>(output: Place<'a>, other: Place<'a>) -> Result<(), OneFile<'a>>
    ensures { OnOk result (AreDistinctFiles output.entry.file other.entry.file) }
{
    match (output.file, other.file) {
        (Some(written), Some(another)) if written == another => Err(OneFile {
            first: other,
            second: output,
        }),
        _ => Ok(()),
    }
}

// Refuses an output that is an input, and two outputs that are one file.
fn all_apart<'a>(
    map: Place<'a>,
    scen: Place<'a>,
    plan: Place<'a>,
    cert: Place<'a>,
) -> Result<(), OneFile<'a>>
    ensures { OnOk result
        (AreDistinctFiles plan.entry.file map.entry.file × AreDistinctFiles plan.entry.file scen.entry.file
        × AreDistinctFiles cert.entry.file map.entry.file × AreDistinctFiles cert.entry.file scen.entry.file
        × AreDistinctFiles cert.entry.file plan.entry.file) }
{
    apart(plan, map)?;
    apart(plan, scen)?;
    apart(cert, map)?;
    apart(cert, scen)?;
    apart(cert, plan)
}

// Returns the place of an output before it is opened, and whether nothing exists there. If the system doesn't report
// it, the file is compared once it is open.
fn standing<'a>(rt: &HostRuntime, argument: &'a str, path: &'a str) -> (Place<'a>, bool) {
    let (file, is_missing) = match fs::metadata(rt, path) {
        Ok(found) => (regular(&found), false),
        Err(error) => (None, error.kind() == io::ErrorKind::NotFound),
    };
    let place = Place {
        argument,
        path,
        file,
    };
    (place, is_missing)
}

// Opens an output, and creates it if it doesn't exist, but keeps its contents. Returns the same place, with the file
// that was opened.
fn open_as_it_is<'a>(rt: &HostRuntime, place: Place<'a>) -> io::Result<(File, Place<'a>)> {
    let file = OpenOptions::new()
        .write(true)
        .create(true)
        .open(rt, place.path)?;
    let identity = identity_of(&file)?;
    let opened = Place {
        file: identity,
        ..place
    };
    Ok((file, opened))
}

fn empty(file: &File) -> io::Result<()> {
    if file.metadata()?.is_file() {
        file.set_len(0)?;
    }
    Ok(())
}

// Removes a file that was created here. Its path may be a link.
fn remove_made(rt: &HostRuntime, path: &str, was_missing: bool) {
    if !was_missing {
        return;
    }
    if let Ok(place) = fs::canonicalize(rt, path) {
        let _ = fs::remove_file(rt, place);
    }
}

/// Opens the two outputs after the inputs, each empty.
pub fn open<'a>(
    rt: &HostRuntime,
    map: Place<'a>,
    scen: Place<'a>,
    plan: &'a str,
    cert: &'a str,
) -> Result<Outputs, Unsolved<'a>> {
    let (plan, plan_missing) = standing(rt, "PLAN", plan);
    let (cert, cert_missing) = standing(rt, "CERT", cert);
    all_apart(map, scen, plan, cert)?;
    let Ok((plan_file, plan)) = open_as_it_is(rt, plan) else {
        return Err(Unsolved::Fault(Fault::F5(Output::Plan)));
    };
    let opened = open_as_it_is(rt, cert);
    let cert = match &opened {
        Ok((_, place)) => *place,
        Err(_) => cert,
    };
    if let Err(one) = all_apart(map, scen, plan, cert) {
        remove_made(rt, plan.path, plan_missing);
        remove_made(rt, cert.path, cert_missing);
        return Err(Unsolved::OneFile(one));
    }
    if empty(&plan_file).is_err() {
        return Err(Unsolved::Fault(Fault::F5(Output::Plan)));
    }
    match opened {
        Ok((file, _)) if empty(&file).is_ok() => Ok(Outputs {
            plan: plan_file,
            cert: file,
        }),
        _ => Err(Unsolved::Fault(Fault::F5(Output::Cert))),
    }
}

/// Makes the system store a file that was written, since a full disk may be reported only then.
pub fn store(file: &File, output: Output) -> Result<(), Fault> {
    match stored(file) {
        Ok(()) => Ok(()),
        Err(_) => Err(Fault::F5(output)),
    }
}

// Devices and pipes have nothing to store.
fn stored(file: &File) -> io::Result<()> {
    if file.metadata()?.is_file() {
        file.sync_all()?;
    }
    Ok(())
}
