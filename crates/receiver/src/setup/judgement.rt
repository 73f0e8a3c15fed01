ghost use Rattle.std.specs.Prelude.{◌≡◌, IfOk, IfErr, IfSome, IfNone, IsTrue, ◌↔◌, ◌<◌, ◌%◌, ◌^◌, ◌-◌, ◌⊎◌, ℕ, pos, ◌<ℤ◌};
ghost use Rattle.theory.specs.Position.{Geometry as Shape, IsGeometry};
ghost use Rattle.theory.specs.Setup.{NamesGeometry, NamesPosition, OpensAt, HasSetupFault};
ghost use Rattle.frames.specs.Frames.{setup_of};
ghost use Rattle.receiver.specs.SetupFaults.{fault_of};

use crate::setup::fault::SetupError;
use frames::Setup;
use position::Geometry;

/// The geometry and the position that a SETUP names, for a receiver with this window, in bytes. It answers the first
/// thing that is wrong with it: the geometry, then the position, then the window.
pub fn judge(setup: &Setup, window: u32) -> Result<(Geometry, u64), SetupError>
    ensures opens { IfOk result (λ r. OpensAt (setup_of setup.now) window r.0 r.1) }
    ensures fault { IfErr result (λ e. HasSetupFault (setup_of setup.now) window (fault_of e)) }
{
    let geometry = geometry_of(setup).ok_or(SetupError::Geometry)?;
    let position = position_of(&geometry, setup).ok_or(SetupError::Position)?;
    if !geometry.is_window(window) {
        return Err(SetupError::Window);
    }
    Ok((geometry, position))
}

fn geometry_of(setup: &Setup) -> Option<Geometry>
    ensures named { IfSome result (NamesGeometry (setup_of setup.now)) }
    ensures none { IfNone result ((g : Shape) → NamesGeometry (setup_of setup.now) g → ⊥) }
{
    let Some(term_length) = unsigned(setup.term_length) else {
        return None;
    };
    let Some(mtu) = unsigned(setup.mtu) else {
        return None;
    };
    Geometry::new(term_length, mtu, setup.initial_term_id).ok()
}

/// The position: its count from 0, its offset a multiple of 32 below the term length, or equal to it at the greatest
/// position.
fn position_of(geometry: &Geometry, setup: &Setup) -> Option<u64>
    requires { NamesGeometry (setup_of setup.now) geometry.now }
    ensures named { IfSome result (NamesPosition (setup_of setup.now) geometry.now) }
    ensures none { IfNone result ((p : ℕ) → NamesPosition (setup_of setup.now) geometry.now p → ⊥) }
{
    let Some(count) = unsigned(setup.active_term_id.wrapping_sub(setup.initial_term_id)) else {
        return None;
    };
    let Some(offset) = unsigned(setup.term_offset) else {
        return None;
    };
    let length = geometry.term_length();
    if !is_place(offset, count, length) {
        return None;
    }
    Some(u64::from(count) * u64::from(length) + u64::from(offset))
}

/// A number that isn't negative.
fn unsigned(number: i32) -> Option<u32>
    ensures some { IfSome result (λ n. number ≡ pos n) }
    ensures none { IfNone result (number <ℤ pos 0) }
{
    u32::try_from(number).ok()
}

/// Whether an offset is a multiple of 32 below the term length, or equal to it in the last term.
fn is_place(offset: u32, count: u32, length: u32) -> bool
    ensures { IsTrue result ↔ ((offset % 32 ≡ 0) × ((offset < length) ⊎ ((offset ≡ length) × (count ≡ 2 ^ 31 - 1)))) }
{
    let is_last_end = offset == length && count == i32::MAX as u32;
    offset.is_multiple_of(32) && (offset < length || is_last_end)
}
