use loss_injector::{Injector, Rates, RatesError, Verdict, decide};
use std::alloc::{AllocError, Global};
use std::test::*;

/// Words, and what becomes of a datagram by each.
const VERDICTS: [(u32, Verdict); 7] = [
    (99, Verdict::Drop),
    (100, Verdict::Repeat),
    (149, Verdict::Repeat),
    (150, Verdict::Hold),
    (199, Verdict::Hold),
    (200, Verdict::Pass),
    (1099, Verdict::Drop),
];

#[test]
fn verdicts(rt: HostRuntime) -> Result<(), Fail> {
    let rates = Rates::new(100, 50, 50)?;
    for (word, verdict) in &VERDICTS {
        assert!(rt; decide(*word, &rates) == *verdict);
    }
    Ok(())
}

#[test]
fn no_rates(rt: HostRuntime) {
    assert!(rt; Rates::new(500, 500, 1) == Err(RatesError));
    assert!(rt; RatesError.text() == "E1 rates");
}

/// Words in order, and how many datagrams are given out by each.
const GIVEN: [(u32, usize); 6] = [(150, 0), (150, 2), (160, 0), (0, 0), (100, 3), (999, 1)];

/// How many datagrams are given out where one more came.
fn given_by(alloc: Global, injector: &mut Injector, word: u32) -> Result<usize, AllocError> {
    let datagram = Vec::from_slice(alloc, b"abc")?;
    Ok(injector.push(datagram, word)?.len())
}

#[test]
fn given(rt: HostRuntime) -> Result<(), Fail> {
    let mut injector = Injector::new(rt.alloc(), Rates::new(100, 50, 50)?);
    for (word, count) in &GIVEN {
        assert!(rt; given_by(rt.alloc(), &mut injector, *word)? == *count);
    }
    Ok(())
}
