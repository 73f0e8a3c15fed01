ghost use Rattle.std.specs.Prelude.{◌≡◌, ℕ, List, IfOk, IfSome, Some, option_map};
ghost use Rattle.script.specs.Language.{SpellsBytes};
ghost use Rattle.script.specs.Values.{hex_of};

use hex::FromHexError;
use std::alloc::{AllocError, Global};

/// The bytes that the digits spell, two digits a byte, at least one byte.
pub fn message_bytes(alloc: Global, digits: &[u8]) -> Result<Option<Vec<u8>>, AllocError>
    ensures { IfOk result (λ found. option_map (λ bytes. bytes.items) found ≡ hex_of digits.now) }
{
    if digits.is_empty() {
        return Ok(None);
    }
    hexadecimal(alloc, digits)
}

/// The bytes that hexadecimal digits spell, two digits a byte, large or small; no digits spell no bytes. There are
/// none where the text is of an odd length or has another byte than a digit.
pub fn hexadecimal(alloc: Global, digits: &[u8]) -> Result<Option<Vec<u8>>, AllocError>
    // What is read is spelled so.
    ensures found { IfOk result (λ found. IfSome found (λ bytes. SpellsBytes digits.now bytes.items)) }
    // What is spelled so is read, unless memory runs out.
    ensures only { (bytes : List ℕ) → SpellsBytes digits.now bytes
        → IfOk result (λ found. option_map (λ read. read.items) found ≡ Some bytes) }
{
    match hex::decode(alloc, digits) {
        Ok(bytes) => Ok(Some(bytes)),
        Err(FromHexError::OutOfMemory) => Err(AllocError),
        Err(_) => Ok(None),
    }
}
