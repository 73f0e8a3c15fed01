//! A word of a block, and its bytes.

use crate::Block;
use std::marker::{Send, Sync};
use std::test::*;

/// A word whose eight bytes are 1 to 8, the first one least.
const WORD: u64 = 0x0807_0605_0403_0201;

/// Three words of zeros but for `WORD` in their middle.
const BYTES: [u8; 24] = [
    0, 0, 0, 0, 0, 0, 0, 0, 1, 2, 3, 4, 5, 6, 7, 8, 0, 0, 0, 0, 0, 0, 0, 0,
];

/// Takes what may be sent to another thread, and be read from several.
fn take_shareable<T: Send + Sync>(_value: &T) {}

#[test]
fn word_is_read_where_its_bytes_were_written(rt: HostRuntime) -> Result<(), Fail> {
    let mut block = Block::new(rt.alloc(), 24)?;
    block.bytes_mut().copy_from_slice(&BYTES);
    assert_eq!(rt; block.word(0), 0);
    assert_eq!(rt; block.word(1), WORD);
    assert_eq!(rt; block.word(2), 0);
    Ok(())
}

#[test]
fn set_word_writes_its_bytes_and_no_others(rt: HostRuntime) -> Result<(), Fail> {
    let mut block = Block::new(rt.alloc(), 24)?;
    assert_eq!(rt; block.len(), 24);
    assert!(rt; !block.is_empty());
    block.set_word(1, WORD);
    take_shareable(&block);
    assert_eq!(rt; block.bytes(), &BYTES[..]);
    Ok(())
}
