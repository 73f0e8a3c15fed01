//! What the word of a raw tail says.

ghost use Rattle.std.specs.Prelude.{◌≡◌, ◌+◌, ◌-◌, ◌*◌, ◌^◌, ◌<◌, ◌↔◌, IsTrue, min};
ghost use Rattle.theory.specs.Position.{id_of};
ghost use Rattle.theory.specs.Words.{id_before, id_in, offset_in};
ghost use Rattle.publication.specs.Steps.{count_in, shown_position};

use position::Geometry;

/// The id in a raw tail.
fn term_id(word: u64) -> i32
    ensures { result ≡ id_in word }
{
    ((word >> 32) as u32).cast_signed()
}

/// The offset in a raw tail.
pub fn term_offset(word: u64) -> u32
    ensures { result ≡ offset_in word }
{
    (word % (1 << 32)) as u32
}

/// The count of a raw tail's id.
pub(crate) fn term_count(geometry: &Geometry, word: u64) -> u32
    ensures { result ≡ count_in geometry.now word }
{
    let count = term_id(word).wrapping_sub(geometry.initial_term_id());
    count.cast_unsigned()
}

/// Whether a raw tail has the id of the term with this count.
pub(crate) fn is_of(geometry: &Geometry, word: u64, count: u32) -> bool
    requires { count < 2 ^ 31 }
    ensures { IsTrue result ↔ (id_in word ≡ id_of geometry.now count) }
{
    term_id(word) == geometry.id_of(count)
}

/// Whether a raw tail has the id of the term two before this count's, which the next term's partition shows until its
/// turn.
pub(crate) fn is_two_before(geometry: &Geometry, word: u64, count: u32) -> bool
    requires { count < 2 ^ 31 }
    ensures { IsTrue result ↔ (id_in word ≡ id_before geometry.now count 2) }
{
    term_id(word) == geometry.id_of(count).wrapping_sub(2)
}

/// The position that a raw tail shows, or 0 where its partition isn't used yet.
pub fn position_shown(geometry: &Geometry, word: u64) -> u64
    ensures { result ≡ shown_position geometry.now word }
{
    let count = term_count(geometry, word);
    if count >= 1 << 31 {
        return 0;
    }
    position_at(
        geometry,
        count,
        term_offset(word).min(geometry.term_length()),
    )
}

/// How many bytes an addition takes, by the tail that it found: all, or what is left of the term.
pub fn taken(geometry: &Geometry, word: u64, covered: u32) -> u32
    ensures { result ≡ min covered (geometry.now.term_length - offset_in word) }
{
    covered.min(geometry.term_length().saturating_sub(term_offset(word)))
}

/// The position of an offset in the term with this count.
pub(crate) fn position_at(geometry: &Geometry, count: u32, offset: u32) -> u64
    requires { count < 2 ^ 31 }
    ensures { result ≡ count * geometry.now.term_length + offset }
{
    u64::from(count) * u64::from(geometry.term_length()) + u64::from(offset)
}
