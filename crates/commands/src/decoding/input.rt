//! The datagrams of an input, a line each.

ghost use Rattle.std.specs.Prelude.{◌≡◌, Some, IfOk, OnOk};
ghost use Rattle.std.specs.Io.KnownBytes.{Keeps};
ghost use Rattle.commands.specs.DecodedInput.{DecodesInput, DecodesLine, line_fault_text};
ghost use Rattle.commands.specs.Faults.{of_input};

use crate::decoding::datagram::{GREATEST_WORD, decode_digits};
use crate::fault::Fault;
use messages::{Form, InputFault, read_message};
use std::alloc::Global;
use std::error::Error;
use std::fmt;
use std::io::{BufRead, Write};

/// Why a line of the input isn't decoded: its number, counted from 1, and why.
#[derive(Clone, Copy, Debug, PartialEq, Eq)]
pub struct LineFault {
    pub number: u64,
    pub fault: Fault,
}

impl fmt::Display for LineFault {
    ghost output = { λ at. Some (line_fault_text at) };

    fn fmt<W: fmt::Write>(&self, f: &mut fmt::Formatter<W>) -> fmt::Result {
        let LineFault { number, fault } = *self;
        write!(f, "line {number}: {fault}")
    }
}

impl Error for LineFault {}

/// Why a line isn't read, as the program's. A line is cut short nowhere.
fn of_input(fault: InputFault) -> Fault
    ensures { result ≡ of_input fault }
{
    match fault {
        InputFault::TooLong(_, _) => Fault::Hex,
        InputFault::Memory => Fault::Memory,
        InputFault::Read(_) | InputFault::Cut(_) => Fault::Read,
    }
}

/// Reads the line of this number, and prints the frames of the datagram that it spells. Whether there was one.
fn decode_line<R: BufRead, W: Write>(
    alloc: Global,
    number: u64,
    input: &mut R,
    line: &mut Vec<u8>,
    output: &mut W,
) -> Result<bool, Fault>
    ensures { IfOk result (λ any. DecodesLine (R.remaining input.old) (R.remaining input.new) (W.contents output.old) (W.contents output.new) any) }
{
    match read_message(Form::Lines, number, GREATEST_WORD, input, line) {
        Ok(false) => Ok(false),
        Ok(true) => {
            decode_digits(alloc, line, output)?;
            Ok(true)
        }
        Err(fault) => Err(of_input(fault)),
    }
}

/// Prints a line for each frame of the datagrams that the input spells, a line of hexadecimal digits each, in order. The last
/// line may lack its line feed.
///
/// At a fault those of the lines before it are printed: `Hex` where its digits are no even number of at most 131,072, a frame's
/// where their bytes are no datagram, `Read`, `Write` or `Memory`.
#[tactic(auto, using(crate::proofs::DecodedLines::decoded_none, crate::proofs::DecodedLines::decoded_more, crate::proofs::DecodedLines::decoded_all))]
pub fn decode_input<R: BufRead, W: Write>(
    alloc: Global,
    input: &mut R,
    output: &mut W,
) -> Result<(), LineFault>
    ensures done { OnOk result (DecodesInput (R.remaining input.old) (W.contents output.old) (W.contents output.new)) }
{
    let mut line = Vec::new(alloc);
    for number in 1..u64::MAX {
        match decode_line(alloc, number, input, &mut line, output) {
            Ok(true) => {}
            Ok(false) => return flushed(number, output),
            Err(fault) => return Err(LineFault { number, fault }),
        }
    }
    Err(LineFault {
        number: u64::MAX,
        fault: Fault::Input,
    })
}

/// Flushes the output, behind the line before this one.
fn flushed<W: Write>(number: u64, output: &mut W) -> Result<(), LineFault>
    ensures { OnOk result (Keeps (W.contents output.old) (W.contents output.new)) }
{
    if output.flush().is_err() {
        return Err(LineFault {
            number,
            fault: Fault::Write,
        });
    }
    Ok(())
}
