//! The frames of one datagram, as lines.

ghost use Rattle.std.specs.Prelude.{◌≡◌, ◌≢◌, ◌≤◌, ◌%◌, ◌⊎◌, ℕ, List, length, IfErr, IfOk, OnOk};
ghost use Rattle.std.specs.Io.KnownBytes.{Appends, Keeps};
ghost use Rattle.theory.specs.Wire.{SpellsDatagram, Wire};
ghost use Rattle.commands.specs.Decoding.{Explains, SaysFrames, SpellsWord};
ghost use Rattle.commands.specs.FrameLines.{frame_lines};

use crate::decoding::frame_line::FrameLine;
use crate::fault::Fault;
use frames::{check_datagram, read_frame};
use hex::FromHexError;
use std::alloc::Global;
use std::io::Write;

/// The most digits of a word: those of 65,536 bytes.
pub(crate) const GREATEST_WORD: usize = 131_072;

/// Prints a line for each frame of the datagram that the word spells in hexadecimal, in order.
///
/// The word is an even number of digits, large or small, at most 131,072; else the fault is `Hex`. `Memory` comes only for an
/// even number of characters, at most as many. Where its bytes are no datagram, the fault is the datagram's first one. At any
/// fault but `Write` nothing was printed.
pub fn decode<W: Write>(alloc: Global, word: &str, output: &mut W) -> Result<(), Fault>
    ensures done { OnOk result ((frames : List Wire) × SaysFrames word.now frames
        × Appends (W.contents output.old) (W.contents output.new) (frame_lines frames)) }
    ensures fault { IfErr result (λ fault. Explains word.now fault) }
    ensures kept { IfErr result (λ fault. (fault ≡ Fault.Write)
        ⊎ Keeps (W.contents output.old) (W.contents output.new)) }
{
    decode_digits(alloc, word.as_bytes(), output)?;
    output.flush().map_err(|_| Fault::Write)
}

/// The same of these digits, and without the flush.
pub(crate) fn decode_digits<W: Write>(
    alloc: Global,
    digits: &[u8],
    output: &mut W,
) -> Result<(), Fault>
    ensures done { OnOk result ((frames : List Wire) × SaysFrames digits.now frames
        × Appends (W.contents output.old) (W.contents output.new) (frame_lines frames)) }
    ensures fault { IfErr result (λ fault. Explains digits.now fault) }
    ensures kept { IfErr result (λ fault. (fault ≡ Fault.Write)
        ⊎ Keeps (W.contents output.old) (W.contents output.new)) }
{
    let bytes = bytes_of(alloc, digits)?;
    let count = check_datagram(&bytes)?;
    print_frames(&bytes, count, output)
}

/// The bytes that the digits spell, two hexadecimal digits a byte. The fault is `Hex` where it spells none, or want of
/// memory, which is asked for only where its length can be right.
fn bytes_of(alloc: Global, digits: &[u8]) -> Result<Vec<u8>, Fault>
    ensures found { IfOk result (λ bytes. SpellsWord digits.now bytes.items) }
    ensures fault { IfErr result (λ fault. ((fault ≡ Fault.Memory) × (length digits.now ≤ 131072) × (length digits.now % 2 ≢ 1))
        ⊎ ((fault ≡ Fault.Hex) × ((bytes : List ℕ) → SpellsWord digits.now bytes → ⊥))) }
{
    if digits.len() > GREATEST_WORD {
        return Err(Fault::Hex);
    }
    match hex::decode(alloc, digits) {
        Ok(bytes) => Ok(bytes),
        Err(FromHexError::OutOfMemory) => Err(Fault::Memory),
        Err(_) => Err(Fault::Hex),
    }
}

/// Prints a line for each of so many frames, of a datagram that has them.
fn print_frames<W: Write>(datagram: &[u8], count: usize, output: &mut W) -> Result<(), Fault>
    ensures done { (frames : List Wire) → SpellsDatagram frames datagram.now → length frames ≡ count
        → OnOk result (Appends (W.contents output.old) (W.contents output.new) (frame_lines frames)) }
    ensures fault { (frames : List Wire) → SpellsDatagram frames datagram.now → length frames ≡ count
        → IfErr result (λ fault. fault ≡ Fault.Write) }
{
    let mut rest = datagram;
    for _turn in 0..count {
        let (frame, size) = read_frame(rest)?;
        let line = FrameLine(frame);
        writeln!(output, "{line}").map_err(|_| Fault::Write)?;
        rest = &rest[size..];
    }
    Ok(())
}
