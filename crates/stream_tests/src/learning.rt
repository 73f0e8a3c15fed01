//! A reader that is told what was published.

use block::Block;
use position::Geometry;
use publication::offer;
use shared_log::{OnLog, Parts, clean_and_limit, learn, next, open, set_connected};
use std::test::Fail;

/// A frame that a reader was told is found at the first look.
#[test]
#[tactic(auto, using(crate::proofs::Each::offered_idle))]
fn what_is_learned_is_found(rt: HostRuntime) -> Result<(), Fail> {
    let mut block = Block::new(rt.alloc(), 1_408)?;
    let geometry = Geometry::new(65_536, 1_408, 7)?;
    let (log, parts) = open(rt.alloc(), geometry, 1, 1001, 0, 1)?;
    let Parts {
        publishers,
        mut readers,
        mut keeper,
    } = parts;
    let mut publishers = Vec::from_array(rt.alloc(), publishers)?;
    let mut publisher = publishers.remove(0);
    let mut reader = readers.remove(0);
    set_connected(&log, &mut keeper, true);
    clean_and_limit(&log, &mut keeper);
    if offer(&mut OnLog::new(&log), &mut publisher, b"hello").is_err() {
        return Err("the offer is refused".into());
    }
    learn(&log, &mut reader, &mut publisher);
    assert!(rt; next(&log, &mut reader, &mut block).is_some());
    Ok(())
}
