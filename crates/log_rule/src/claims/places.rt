//! Where the control words of a log stand in its table, by the places that the rule gives them.

ghost use Rattle.std.specs.Prelude.{◌≡◌, ◌<◌};
ghost use Rattle.theory.specs.Words.{tail_word};
ghost use Rattle.log_rule.specs.Claims.Packs.{tail_place};

/// How far apart control words are, in words: a cache line.
pub const LINE: usize = 16;

/// The place of the active count among the words of the table. That of the limit is 0.
pub const COUNT: usize = 16;

/// That of the first raw tail; each further one is a line behind.
const TAILS: usize = 32;

/// That of the first consumer's position; each further one is a line behind.
pub const CONSUMERS: usize = 80;

/// That of the first word behind the control words.
pub const DATA: usize = 208;

/// The place of the raw tail of a count's partition.
pub fn place_of(count: u32) -> usize
    ensures is { result ≡ tail_place count }
    ensures low { result < 208 }
{
    (count % 3) as usize * LINE + TAILS
}

/// A raw tail: the id in the high 32 bits, the offset in the low 32.
pub fn packed(id: i32, offset: u32) -> u64
    ensures { result ≡ tail_word id offset }
{
    u64::from(id.cast_unsigned()) << 32 | u64::from(offset)
}
