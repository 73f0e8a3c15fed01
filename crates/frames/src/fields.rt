ghost use Rattle.std.specs.Prelude.{◌≡◌, ◌+◌, ◌≤◌, ◌++◌, length, take, drop};
ghost use Rattle.std.specs.Int.{w16, w32, to_le_bytes};
ghost use Rattle.theory.specs.Wire.{le32, le64};
ghost use Rattle.frames.specs.Fields as field;

use byteorder::{ByteOrder, LittleEndian};

pub fn u16_at(bytes: &[u8], place: usize) -> u16
    requires { place + 2 ≤ length bytes.now }
    ensures { result ≡ field.u16_at bytes.now place }
{
    LittleEndian::read_u16(&bytes[place..])
}

pub fn u32_at(bytes: &[u8], place: usize) -> u32
    requires { place + 4 ≤ length bytes.now }
    ensures { result ≡ field.u32_at bytes.now place }
{
    LittleEndian::read_u32(&bytes[place..])
}

pub fn i32_at(bytes: &[u8], place: usize) -> i32
    requires { place + 4 ≤ length bytes.now }
    ensures { result ≡ field.i32_at bytes.now place }
{
    LittleEndian::read_i32(&bytes[place..])
}

pub fn i64_at(bytes: &[u8], place: usize) -> i64
    requires { place + 8 ≤ length bytes.now }
    ensures { result ≡ field.i64_at bytes.now place }
{
    LittleEndian::read_i64(&bytes[place..])
}

pub fn put_u16(bytes: &mut [u8], place: usize, value: u16)
    requires { place + 2 ≤ length bytes.old }
    ensures { bytes.new ≡ take place bytes.old ++ (to_le_bytes w16 value ++ drop (place + 2) bytes.old) }
{
    LittleEndian::write_u16(&mut bytes[place..], value);
}

pub fn put_u32(bytes: &mut [u8], place: usize, value: u32)
    requires { place + 4 ≤ length bytes.old }
    ensures { bytes.new ≡ take place bytes.old ++ (to_le_bytes w32 value ++ drop (place + 4) bytes.old) }
{
    LittleEndian::write_u32(&mut bytes[place..], value);
}

pub fn put_i32(bytes: &mut [u8], place: usize, value: i32)
    requires { place + 4 ≤ length bytes.old }
    ensures { bytes.new ≡ take place bytes.old ++ (le32 value ++ drop (place + 4) bytes.old) }
{
    LittleEndian::write_i32(&mut bytes[place..], value);
}

pub fn put_i64(bytes: &mut [u8], place: usize, value: i64)
    requires { place + 8 ≤ length bytes.old }
    ensures { bytes.new ≡ take place bytes.old ++ (le64 value ++ drop (place + 8) bytes.old) }
{
    LittleEndian::write_i64(&mut bytes[place..], value);
}
