//! The program: runs a script of session lines over the tables of a store, which stands in a file. The first word of the command line is the file's
//! path. A file that is absent or empty is made as large as the store that the other words make; where they make none, it stays empty. It is locked, so
//! that one run has it at a time. These words, the file, standard input and standard output are handed to `brin_main`, which does all else; its status is
//! the program's, and a status that isn't 0 has a text on standard error. Nobody knows what a file holds, so the clauses of `brin_main` on contents and
//! images say nothing here.
#![tactic(auto)]

mod standard;
mod store_file;

ghost use Rattle.std.specs.Prelude.{◌≡◌, ◌↔◌, None, IfOk};
ghost use Rattle.std.specs.IoError.{error_kind};
ghost use Rattle.brin_app.specs.declared.status.TheConstants.{DONE, MEMORY, USAGE};

use crate::standard::{StandIns, stand_ins};
use crate::store_file::{disk_on, open};
use block_model::Words;
use brin_app::{
    DAMAGED, DISK_FAULT, DONE, MEMORY, NO_STORE, READ_FAULT, Stranger, USAGE, WRITE_FAULT,
    brin_main,
};
use disk_trait::{Disk, FileDisk};
use io_traits::{OpenGate, ReaderSource, WriterSink};
use std::alloc::Global;
use std::io::ErrorKind;
use std::process::ExitCode;
use std::sync::Wait;
use std::thread::Threads;
use std::{env, io};

/// What the program was given: the path of the store's file, and the words behind it.
#[derive(Debug, Drop)]
struct Given {
    path: String,
    words: Words,
}

/// What the program was given, or the status where it can't be had.
fn read_args(rt: &HostRuntime) -> Result<Given, u8> {
    let mut args = env::args(rt).map_err(|error| unread(&error))?.skip(1);
    let Some(path) = args.next() else {
        return Err(USAGE);
    };
    let mut words = Words::new(rt.alloc());
    for word in args {
        words.push(word.as_bytes()).map_err(|_| MEMORY)?;
    }
    Ok(Given { path, words })
}

/// The status of words that can't be had: `env::args` fails for want of memory, and where a word is no text.
fn unread(error: &io::Error) -> u8
    ensures memory { (result ≡ MEMORY) ↔ (error_kind error.now ≡ ErrorKind.OutOfMemory) }
    ensures usage { (result ≡ USAGE) ↔ ¬ (error_kind error.now ≡ ErrorKind.OutOfMemory) }
{
    match error.kind() {
        ErrorKind::OutOfMemory => MEMORY,
        _ => USAGE,
    }
}

/// What is run: the words behind the path, over the disk of its file. What was opened in place of closed standard streams stays open as long.
#[derive(Drop)]
struct Opened {
    words: Words,
    disk: FileDisk,
    _stand_ins: StandIns,
}

/// Opens the file of the first word as a disk, on which no call has failed so far, or answers the status where it can't be had. Before that each standard stream is an
/// open one.
fn open_all(rt: &HostRuntime) -> Result<Opened, u8>
    ensures { IfOk result (λ opened. (⟦<FileDisk as Disk>⟧.told opened.disk).faults ≡ 0) }
{
    let stand_ins = stand_ins(rt)?;
    let given = read_args(rt)?;
    let path = given.path.as_str();
    let file = open(rt, path)?;
    let disk = disk_on(rt, path, file, &given.words)?;
    Ok(Opened {
        words: given.words,
        disk,
        _stand_ins: stand_ins,
    })
}

/// Runs the words over the disk, from standard input to standard output, and answers the status.
fn run_over<R: Threads + Wait + Sync + Input + Print>(rt: &R, alloc: Global, opened: Opened) -> u8
    requires { (⟦<FileDisk as Disk>⟧.told opened.disk).faults ≡ 0 }
{
    let mut source = ReaderSource::on(rt.reader());
    let mut sink = WriterSink::on(io::writer(rt));
    let (status, _) = brin_main::<Stranger, _, _, _, _, _>(
        rt,
        alloc,
        &opened.words,
        opened.disk,
        &mut source,
        &mut sink,
        &OpenGate,
    );
    status
}

/// What is said of a status on standard error. Only `DONE` has no text.
fn text(status: u8) -> Option<&'static str>
    ensures { (result ≡ None) ↔ (status ≡ DONE) }
{
    match status {
        DONE => None,
        USAGE => Some("brin: usage"),
        READ_FAULT => Some("brin: read fault"),
        WRITE_FAULT => Some("brin: write fault"),
        DISK_FAULT => Some("brin: disk fault"),
        MEMORY => Some("brin: out of memory"),
        NO_STORE => Some("brin: no store"),
        DAMAGED => Some("brin: damaged"),
        _ => Some("brin: spent"),
    }
}

fn main(rt: HostRuntime) -> ExitCode {
    let status = match open_all(&rt) {
        Ok(opened) => run_over(&rt, rt.alloc(), opened),
        Err(status) => status,
    };
    if let Some(text) = text(status) {
        let _ = eprintln!(rt; "{text}");
    }
    ExitCode::from(status)
}
