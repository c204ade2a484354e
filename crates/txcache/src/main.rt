//! The program: `txcache node` reads a script on standard input and prints the replies; `txcache report` prints
//! counts of them. `txcache world` runs transactions and prints their replies; `txcache batch` runs jobs in
//! parallel and prints their results.
#![tactic(auto)]

use clap::error::ErrorKind;
use std::fmt::Display;
use std::io;
use std::io::Print;
use std::process::ExitCode;
use txc_script_settings::{Settings, SettingsError};
use txcache_arguments::{WordsError, read_arguments, read_words};
use txcache_run::{OwnFault, RunFault, Status, exit_of, run};

fn main(rt: HostRuntime) -> ExitCode {
    let alloc = rt.alloc();
    let words = match read_words(&rt, alloc) {
        Ok(words) => words,
        Err(error) => return end_by_words(&rt, &error),
    };
    let arguments = match read_arguments(alloc, words.as_slice()) {
        Ok(arguments) => arguments,
        Err(error) => return end_by_arguments(&rt, &error),
    };
    let settings = match Settings::read(alloc, arguments.settings.unwrap_or("")) {
        Ok(settings) => settings,
        Err(error) => return end_by_settings(&rt, &error),
    };
    let mut reader = rt.reader();
    let mut writer = io::writer(&rt);
    let ended = run(
        &rt,
        alloc,
        arguments.script,
        settings,
        &mut reader,
        &mut writer,
    );
    print_fault(&rt, &ended);
    ExitCode::from(exit_of(&ended))
}

/// Prints the error of reading the arguments.
fn end_by_words(rt: &impl Eprint, error: &WordsError) -> ExitCode {
    match error {
        WordsError::NotText(fault) => end(rt, fault, 2),
        WordsError::Memory => end(rt, "memory", 5),
    }
}

/// Prints the error of the command line, or the help that it asks for. Help goes to standard output, all else
/// to standard error.
fn end_by_arguments<R: Print + Eprint>(rt: &R, error: &clap::Error) -> ExitCode {
    if error.kind() == ErrorKind::OutOfMemory {
        return end(rt, "memory", 5);
    }
    if error.exit_code() != 0 {
        let _ = rt.eprint(error);
        return ExitCode::from(2);
    }
    let ended: Result<Status<OwnFault>, RunFault> = match rt.print(error) {
        Ok(()) => Ok(Status::Done),
        Err(_) => Err(RunFault::Write),
    };
    print_fault(rt, &ended);
    ExitCode::from(exit_of(&ended))
}

/// Prints the error of the settings.
fn end_by_settings(rt: &impl Eprint, error: &SettingsError) -> ExitCode {
    if let SettingsError::Memory = error {
        return end(rt, "memory", 5);
    }
    let _ = rt.eprintln(error);
    ExitCode::from(3)
}

/// Prints the error on standard error, and ends the program with this status.
fn end(rt: &impl Eprint, text: impl Display + Drop, status: u8) -> ExitCode {
    let _ = rt.eprintln(text);
    ExitCode::from(status)
}

/// Prints the fault of a malformed line, or the error of the run, on standard error.
fn print_fault(rt: &impl Eprint, ended: &Result<Status<OwnFault>, RunFault>) {
    match ended {
        Ok(Status::Malformed(line)) => {
            let _ = rt.eprintln(line);
        }
        Ok(_) => {}
        Err(fault) => {
            let _ = rt.eprintln(fault);
        }
    }
}
