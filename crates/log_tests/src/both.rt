//! The same commands on the plain state of a log and on the log that threads share.

ghost use Rattle.std.specs.Prelude.{IfOk};
ghost use Rattle.log_tests.specs.Agreements.{IsSameBut};

use crate::plain_log::PlainLog;
use crate::plain_log::agreement::{run_on_both, runs_agree};
use one_hand::{ClaimAnswer, ClaimCommand, LogHand};
use position::Geometry;
use rand_core::utils::NextWord;
use rand_pcg::Pcg32;
use std::alloc::{AllocError, Global};
use std::process::Abort;
use std::test::*;

/// How many runs there are, and how many commands each has.
const SEEDS: u64 = 100;

const COMMANDS: usize = 60;

/// A plain log, and a log that threads share, connected and with its limit raised once.
fn open_both(alloc: Global, geometry: Geometry, start: u64) -> Result<(PlainLog, LogHand), Fail>
    ensures { IfOk result (λ r. IsSameBut r.0 r.1) }
{
    let mut shared = LogHand::open(alloc, geometry, 1, 1001, start, 1)?;
    shared.set_connected(true);
    let _ = shared.clean_and_limit();
    let plain = PlainLog::open(alloc, geometry, 1, 1001, start)?;
    Ok((plain, shared))
}

/// A command of some publisher.
fn draw_command(alloc: Global, draws: &mut Pcg32) -> Result<ClaimCommand, AllocError> {
    let publisher = draws.next_word() % 9;
    let size = draws.next_word() % 1500;
    match draws.next_word() % 6 {
        0 => Ok(ClaimCommand::Claim {
            publisher,
            size: size % 16,
        }),
        1 => Ok(ClaimCommand::Commit {
            publisher,
            payload: vec![in alloc; 7; (size % 16) as usize]?,
        }),
        2 => Ok(ClaimCommand::Abort { publisher }),
        _ => Ok(ClaimCommand::Offer {
            publisher,
            message: vec![in alloc; 9; (4 * size) as usize]?,
        }),
    }
}

/// Runs drawn commands on both. The answer is how often a message or a claim was accepted.
fn run_drawn<R: Abort>(rt: &R, alloc: Global, seed: u64) -> Result<usize, Fail> {
    let mut draws = Pcg32::new(seed, 0);
    let geometry = Geometry::new(65_536, 1408, 7)?;
    let start = 32 * u64::from(draws.next_word() % 4096);
    let mut commands = Vec::new(alloc);
    for _ in 0..COMMANDS {
        commands.push(draw_command(alloc, &mut draws)?)?;
    }
    let (mut plain, mut shared) = open_both(alloc, geometry, start)?;
    let answers = run_on_both(alloc, &mut plain, &mut shared, &commands);
    let (of_plain, of_shared) = answers?;
    assert!(rt; of_plain.as_slice() == of_shared.as_slice());
    let accepted = of_plain.iter().filter(|answer| matches!(
        answer,
        ClaimAnswer::Ends(_) | ClaimAnswer::Begins { .. }
    ));
    Ok(accepted.count())
}

/// Both answer alike.
#[test]
fn drawn_commands(rt: HostRuntime) -> Result<(), Fail> {
    let mut accepted: usize = 0;
    for seed in 0..SEEDS {
        accepted = accepted.saturating_add(run_drawn(&rt, rt.alloc(), seed)?);
    }
    assert!(rt; accepted > 1000, "{accepted} were accepted");
    Ok(())
}

/// Publishers that aren't there, and a payload that isn't as long as its claim, on both.
#[test]
fn unfit_commands(rt: HostRuntime) -> Result<(), Fail> {
    let alloc = rt.alloc();
    let payload = vec![in alloc; 98; 99]?;
    let commands = [
        ClaimCommand::Claim {
            publisher: 8,
            size: 3,
        },
        ClaimCommand::Abort { publisher: 8 },
        ClaimCommand::Offer {
            publisher: 8,
            message: Vec::new(alloc),
        },
        ClaimCommand::Commit {
            publisher: 4_294_967_295,
            payload: Vec::new(alloc),
        },
        ClaimCommand::Claim {
            publisher: 1,
            size: 100,
        },
        ClaimCommand::Commit {
            publisher: 1,
            payload,
        },
        ClaimCommand::Commit {
            publisher: 1,
            payload: vec![in alloc; 98; 100]?,
        },
    ];
    let claimed = ClaimAnswer::Begins {
        start: 32,
        end: 192,
    };
    let unfit = ClaimAnswer::Unfit;
    let expected = [
        unfit,
        unfit,
        unfit,
        unfit,
        claimed,
        unfit,
        ClaimAnswer::Ends(192),
    ];
    runs_agree();
    let (mut plain, mut shared) = open_both(alloc, Geometry::new(65_536, 1408, 7)?, 32)?;
    let (of_plain, of_shared) = run_on_both(alloc, &mut plain, &mut shared, &commands)?;
    assert!(rt; of_plain.as_slice() == expected.as_slice());
    assert!(rt; of_shared.as_slice() == expected.as_slice());
    Ok(())
}
