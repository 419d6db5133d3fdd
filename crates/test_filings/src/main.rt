// Writes the name and the sheet of each filing that its arguments name: of the file as it is read, in pieces, and of its bytes, lent whole. Where the
// two sheets are the same, as they should be, it stands once.
#![tactic(auto)]

use sheet::Printed;
use std::env::{Env, FillError};
use std::fs::{File, OpenFile};
use std::io::Read;
use std::{io, str};

// Room for the bytes of a filing, since there is no heap: the longest in data/ has 282,011.
const ROOM: usize = 300_000;

// The sheet of a file's bytes, lent whole.
fn lent_sheet(file: &mut File) -> io::Result<Printed> {
    let mut room = [0u8; ROOM];
    let length = file.metadata()?.len();
    if length > ROOM as u64 {
        return Err(io::Error::from(io::ErrorKind::FileTooLarge));
    }
    let bytes = &mut room[..length as usize];
    file.read_exact(bytes)?;
    Ok(file_run::sheet_of(bytes))
}

// Writes what a file's bytes, lent whole, give, where it is not this sheet.
fn compare(rt: &HostRuntime, name: &str, read: Printed) -> io::Result<()> {
    let Ok(mut file) = File::open(rt, name) else {
        return println!(rt; "cannot be opened again");
    };
    let Ok(lent) = lent_sheet(&mut file) else {
        return println!(rt; "cannot be lent whole");
    };
    if lent.as_bytes() == read.as_bytes() {
        return Ok(());
    }
    println!(rt; "lent whole:")?;
    file_run::write(&mut rt.stdout(), lent)
}

// Writes a file's name and its sheet.
fn sheet_of(rt: &HostRuntime, name: &str) -> io::Result<()> {
    println!(rt; "{name}")?;
    let Ok(mut file) = File::open(rt, name) else {
        return eprintln!(rt; "{name}: cannot be opened");
    };
    let Ok(filed) = file_run::run(&mut file) else {
        return eprintln!(rt; "{name}: cannot be read");
    };
    if file_run::write(&mut rt.stdout(), filed.printed).is_err() {
        return eprintln!(rt; "{name}: its sheet cannot be written");
    }
    compare(rt, name, filed.printed)
}

// The sheet of the filing that an argument names; false where there is no argument of this number.
fn named(rt: &HostRuntime, i: usize) -> io::Result<bool> {
    let mut name = [0u8; 4096];
    let n = match rt.arg(i, &mut name) {
        Ok(n) => n,
        Err(FillError::NotPresent) => return Ok(false),
        Err(FillError::TooLong) => return Err(io::Error::from(io::ErrorKind::InvalidInput)),
    };
    let Ok(text) = str::from_utf8(&name[..n]) else {
        return Err(io::Error::from(io::ErrorKind::InvalidInput));
    };
    sheet_of(rt, text)?;
    Ok(true)
}

fn main(rt: HostRuntime) -> io::Result<()> {
    // by their numbers: `env::args` gives each as a `String`, and there is no heap
    for i in 1..usize::MAX {
        if !named(&rt, i)? {
            break;
        }
    }
    Ok(())
}
