//! The worked rows: command lines, scripts and what they are answered, worked out by hand, as texts that data/FORM.txt explains. The program reads the
//! files that its words name, runs each row through `brin_main` over a disk in memory, and tells the first line that differs, or how many rows hold.
#![tactic(auto)]

mod answer;
mod bytes;
mod calls;
mod difference;
mod directive;
mod disks;
mod looks;
mod orders;
mod phrases;
mod reading;
mod row;
mod rows;
mod text;

use crate::difference::Difference;
use crate::reading::read_rows;
use crate::row::Row;
use crate::rows::check_row;
use std::alloc::Global;
use std::io::Error;
use std::process::ExitCode;
use std::rt::Runtime;
use std::sync::Wait;
use std::thread::Threads;
use std::{env, fs};

/// Checks the rows of a file, and counts them, or tells which one differs.
fn check_file<R: Runtime + Threads + Wait + Sync>(
    rt: &R,
    alloc: Global,
    file: &str,
) -> Result<Option<u64>, Error> {
    let text = fs::read_to_string(rt, file)?;
    match read_rows(alloc, text.as_str()) {
        Ok(rows) => check_rows(rt, alloc, file, rows.as_slice()),
        Err(fault) => {
            println!(rt; "{file}: {fault}")?;
            Ok(None)
        }
    }
}

/// How many rows there are, where each holds.
fn check_rows<R: Runtime + Threads + Wait + Sync>(
    rt: &R,
    alloc: Global,
    file: &str,
    rows: &[Row<'_>],
) -> Result<Option<u64>, Error> {
    for row in rows {
        match check_row(rt, alloc, row) {
            Ok(None) => {}
            Ok(Some(difference)) => {
                tell(rt, file, row.name, &difference)?;
                return Ok(None);
            }
            Err(fault) => {
                println!(rt; "{file}: {}: {fault}", row.name)?;
                return Ok(None);
            }
        }
    }
    Ok(Some(rows.len() as u64))
}

/// Tells what differs.
fn tell(rt: &impl Print, file: &str, name: &str, difference: &Difference) -> Result<(), Error> {
    println!(rt; "{file}: {name}: {}", difference.place.as_str())?;
    println!(rt; "  wanted {}", difference.wanted.as_str())?;
    println!(rt; "  got    {}", difference.got.as_str())
}

/// Checks the files that the words name, and tells how many rows hold, if all do.
fn check_files<R: Runtime + Threads + Wait + Sync>(rt: &R, alloc: Global) -> Result<bool, Error> {
    let mut count = 0u64;
    for file in env::args(rt)?.skip(1) {
        match check_file(rt, alloc, file.as_str())? {
            Some(rows) => count = count.saturating_add(rows),
            None => return Ok(false),
        }
    }
    println!(rt; "{count} rows hold")?;
    Ok(true)
}

fn main(rt: HostRuntime) -> ExitCode {
    match check_files(&rt, rt.alloc()) {
        Ok(true) => ExitCode::SUCCESS,
        Ok(false) => ExitCode::FAILURE,
        Err(error) => {
            let _ = println!(rt; "{error}");
            ExitCode::FAILURE
        }
    }
}
