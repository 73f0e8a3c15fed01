//! What a command ends with, and what a user reads of that.

ghost use Rattle.std.specs.Prelude.{◌≡◌, ◌≤◌};
ghost use Rattle.commands.specs.Statuses.{IsLineStatus, done_status};

use crate::fault::Fault;
use command_line::LineFault;
use std::fmt::Display;
use std::io;
use std::io::Write;

/// Tells a fault in one line, and gives its status.
pub(crate) fn failed<F: Display, E: Write>(fault: &F, errors: &mut E) -> u8
    ensures { result ≡ 1 }
{
    failed_by(fault, None, errors)
}

/// Tells a fault in one line, with the system's number and its text where it gave one, and gives the status.
pub(crate) fn failed_by<F: Display, E: Write>(fault: &F, number: Option<i32>, errors: &mut E) -> u8
    ensures { result ≡ 1 }
{
    let _ = match number {
        None => writeln!(errors, "error: {fault}"),
        Some(number) => {
            let error = io::Error::from_raw_os_error(number);
            writeln!(errors, "error: {fault}: {error}")
        }
    };
    1
}

/// Tells in one line why what a line tells makes no plan, and gives the status of that.
pub(crate) fn unplanned<F: Display, E: Write>(fault: &F, errors: &mut E) -> u8
    ensures { result ≡ 2 }
{
    let _ = writeln!(errors, "error: {fault}");
    2
}

/// The status of what was done; a fault is told.
pub(crate) fn done<T, F: Display, E: Write>(done: &Result<T, F>, errors: &mut E) -> u8
    ensures value { result ≡ done_status done.now }
    ensures most { result ≤ 1 }
{
    match done {
        Ok(_) => 0,
        Err(fault) => failed(fault, errors),
    }
}

/// Prints the text that was asked for, help or the version, and gives the status.
pub(crate) fn shown<T: Display, W: Write, E: Write>(text: &T, output: &mut W, errors: &mut E) -> u8
    ensures { result ≤ 1 }
{
    if write!(output, "{text}").is_ok() && output.flush().is_ok() {
        return 0;
    }
    failed(&Fault::Write, errors)
}

/// Tells why a command line isn't carried out, and gives the status; help that was asked for goes to the output.
pub(crate) fn line_status<W: Write, E: Write>(
    fault: &LineFault,
    output: &mut W,
    errors: &mut E,
) -> u8
    ensures { IsLineStatus fault.now result }
{
    if let LineFault::Memory = fault {
        return failed(fault, errors);
    }
    if fault.is_refusal() {
        let _ = write!(errors, "{fault}");
        return 2;
    }
    shown(fault, output, errors)
}
