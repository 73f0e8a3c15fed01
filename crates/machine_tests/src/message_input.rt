use messages::{Form, InputFault, read_message, write_message};
use std::alloc::Global;
use std::test::Fail;

/// Reads every message of the input in one form, and writes it in the other.
fn turned(
    alloc: Global,
    from: Form,
    greatest: usize,
    mut input: &[u8],
    to: Form,
) -> Result<Vec<u8>, InputFault> {
    let mut output = Vec::new(alloc);
    let mut message = Vec::new(alloc);
    for number in 1..100 {
        if !read_message(from, number, greatest, &mut input, &mut message)? {
            break;
        }
        if write_message(to, message.as_slice(), &mut output).is_err() {
            return Err(InputFault::Memory);
        }
    }
    Ok(output)
}

#[test]
fn lines_as_blocks(rt: HostRuntime) -> Result<(), Fail> {
    let blocks = turned(rt.alloc(), Form::Lines, 4, b"one\r\n\nat", Form::Blocks)?;
    assert_eq!(rt;
        blocks.as_slice(),
        b"\x04\0\0\0one\r\0\0\0\0\x02\0\0\0at".as_slice()
    );
    Ok(())
}

#[test]
fn blocks_as_lines(rt: HostRuntime) -> Result<(), Fail> {
    let lines = turned(
        rt.alloc(),
        Form::Blocks,
        3,
        b"\x03\0\0\0one\0\0\0\0",
        Form::Lines,
    )?;
    assert_eq!(rt; lines.as_slice(), b"one\n\n".as_slice());
    Ok(())
}

#[test]
fn faults(rt: HostRuntime) -> Result<(), Fail> {
    let long = turned(rt.alloc(), Form::Lines, 3, b"one\nfour\n", Form::Lines);
    assert_eq!(rt; long.err(), Some(InputFault::TooLong(2, 3)));
    let cut = turned(rt.alloc(), Form::Blocks, 3, b"\x03\0\0\0on", Form::Lines);
    assert_eq!(rt; cut.err(), Some(InputFault::Cut(1)));
    Ok(())
}
