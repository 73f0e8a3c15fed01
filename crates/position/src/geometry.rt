ghost use Rattle.std.specs.Prelude.{◌≡◌, ◌+◌, ◌*◌, ◌/◌, ◌%◌, ◌≤◌, ◌<◌, ◌^◌, ◌↔◌, pos, IsTrue, IsOk, IfOk, IsErrOf};
ghost use Rattle.theory.specs.Position.{IsTermLength, IsMtu, IsGeometry, max_position, max_payload, max_message, framed_length, position_of, id_of, place_of};
ghost use Rattle.theory.specs.Position as shape;
ghost use Rattle.theory.specs.Image.{IsWindow};

use crate::fault::GeometryError;
use crate::lengths::{align32, split_by};
use std::marker::Model;

/// The shape of a stream: its term length, its MTU and the id of its first term.
#[derive(Clone, Copy, Debug, PartialEq, Eq)]
pub struct Geometry {
    term_length: u32,
    mtu: u32,
    initial_term_id: i32,
}

/// Where a position stands: the id of its term and the offset in it, in bytes.
#[derive(Clone, Copy, Debug, PartialEq, Eq)]
pub struct Place {
    pub term_id: i32,
    /// From 0 to the term length; the term length itself only for the greatest position.
    pub offset: u32,
}

impl Model for Geometry {
    ghost Value = { shape.Geometry };

    ghost view = { λ g. record { term_length = g.term_length; mtu = g.mtu; initial_term_id = g.initial_term_id } };

    ghost invariant = { λ g. IsGeometry (record { term_length = g.term_length; mtu = g.mtu; initial_term_id = g.initial_term_id }) };

    ghost inverse = { λ g. record { term_length = g.term_length; mtu = g.mtu; initial_term_id = g.initial_term_id } };
}

fn is_term_length(length: u32) -> bool
    ensures { IsTrue result ↔ IsTermLength length }
{
    (65_536..=16_777_216).contains(&length) && length.next_power_of_two() == length
}

fn is_mtu(term_length: u32, mtu: u32) -> bool
    ensures { IsTrue result ↔ IsMtu term_length mtu }
{
    mtu.is_multiple_of(32) && (256..=65_504).contains(&mtu) && mtu <= term_length / 8
}

impl Geometry {
    /// A geometry, if its parts are in range; the term length is judged first.
    pub fn new(term_length: u32, mtu: u32, initial_term_id: i32) -> Result<Geometry, GeometryError>
        ensures made { IfOk result (λ g. g ≡ record { term_length = term_length; mtu = mtu; initial_term_id = initial_term_id }) }
        ensures legal { IfOk result IsGeometry }
        ensures accepted { IsTermLength term_length → IsMtu term_length mtu → IsOk result }
        ensures bad_term_length { IsErrOf result GeometryError.TermLength ↔ (¬ IsTermLength term_length) }
        ensures bad_mtu { IsErrOf result GeometryError.Mtu ↔ (IsTermLength term_length × (¬ IsMtu term_length mtu)) }
    {
        if !is_term_length(term_length) {
            return Err(GeometryError::TermLength);
        }
        if !is_mtu(term_length, mtu) {
            return Err(GeometryError::Mtu);
        }
        Ok(Geometry {
            term_length,
            mtu,
            initial_term_id,
        })
    }

    /// The bytes of a term: a power of two from 65,536 to 16,777,216.
    pub fn term_length(&self) -> u32
        ensures value { result ≡ self.now.term_length }
        ensures legal { IsGeometry self.now }
        ensures whole { result % 65536 ≡ 0 }
    {
        self.term_length
    }

    /// The most bytes of one datagram: a multiple of 32 from 256 to 65,504.
    pub fn mtu(&self) -> u32
        ensures value { result ≡ self.now.mtu }
        ensures legal { IsGeometry self.now }
    {
        self.mtu
    }

    /// Whether a receiver may have a window of so many bytes: a multiple of 32 from the MTU to half a term.
    pub fn is_window(&self, window: u32) -> bool
        ensures { IsTrue result ↔ IsWindow self.now.term_length self.now.mtu window }
    {
        window.is_multiple_of(32) && window >= self.mtu && window <= self.term_length / 2
    }

    /// The id of the first term.
    pub fn initial_term_id(&self) -> i32
        ensures value { result ≡ self.now.initial_term_id }
        ensures legal { IsGeometry self.now }
    {
        self.initial_term_id
    }

    /// The id of the term with this count, below 2^31.
    pub fn id_of(&self, count: u32) -> i32
        requires { count < 2 ^ 31 }
        ensures { result ≡ id_of self.now count }
    {
        self.initial_term_id.wrapping_add(count.cast_signed())
    }

    /// The end of the last term, which no stream passes.
    pub fn max_position(&self) -> u64
        ensures value { result ≡ max_position self.now }
        ensures legal { IsGeometry self.now }
    {
        u64::from(self.term_length) << 31
    }

    /// The position at which the term of a position begins.
    pub fn term_start(&self, position: u64) -> u64
        requires { position < max_position self.now }
        ensures value { result ≡ position / self.now.term_length * self.now.term_length }
        ensures begun { result ≤ position }
        ensures goes_on { position < result + self.now.term_length }
        ensures in_stream { result + self.now.term_length ≤ max_position self.now }
        ensures unit { result % 32 ≡ 0 }
        ensures whole { result % self.now.term_length ≡ 0 }
    {
        let (_, offset) = split_by(position, self.term_length);
        position - u64::from(offset)
    }

    /// The most payload bytes of one frame.
    pub fn max_payload(&self) -> u32
        ensures value { result ≡ max_payload self.now }
        ensures legal { IsGeometry self.now }
    {
        self.mtu - 32
    }

    /// The most bytes of one message: an eighth of a term.
    pub fn max_message(&self) -> u32
        ensures value { result ≡ max_message self.now }
        ensures legal { IsGeometry self.now }
    {
        (self.term_length / 8).min(16_777_216)
    }

    /// The bytes of the stream that a message of `length` bytes covers, cut into frames and aligned.
    pub fn framed_length(&self, length: u32) -> u32
        requires { length ≤ max_message self.now }
        ensures { result ≡ framed_length self.now length }
    {
        let payload = self.max_payload();
        if length <= payload {
            return align32(length + 32);
        }
        let rest = length % payload;
        let full = length / payload * self.mtu;
        if rest == 0 {
            full
        } else {
            full + align32(rest + 32)
        }
    }

    /// The position that a term id and an offset name. It is negative for a term before the first one, counted as ids
    /// wrap, and whatever the offset is, it is added.
    pub fn position(&self, term_id: i32, offset: i32) -> i64
        ensures { result ≡ position_of self.now term_id offset }
    {
        let count = term_id.wrapping_sub(self.initial_term_id);
        i64::from(count) * i64::from(self.term_length) + i64::from(offset)
    }

    /// Where a position stands. The greatest one is named by the last term and the term length.
    pub fn term_of(&self, position: u64) -> Place
        requires { position ≤ max_position self.now }
        ensures term_id { result.term_id ≡ id_of self.now (place_of self.now position).count }
        ensures offset { result.offset ≡ (place_of self.now position).offset }
        ensures low { result.offset ≤ self.now.term_length }
        ensures unit { position % 32 ≡ 0 → result.offset % 32 ≡ 0 }
        ensures legal { IsGeometry self.now }
    {
        let (count, offset) = if position == self.max_position() {
            (i32::MAX, self.term_length)
        } else {
            let (count, offset) = split_by(position, self.term_length);
            (count as i32, offset)
        };
        Place {
            term_id: self.initial_term_id.wrapping_add(count),
            offset,
        }
    }
}
