//! What a publisher does for C.

ghost use Rattle.std.specs.declared.option.Option.TheVariants.{Some};
ghost use Rattle.pechvang.specs.Publishing.{Aborts, Claims, Commits, Offers, Shares, WritesPart};

use crate::codes::{CLAIM_OPEN, DONE, EMPTY_HANDLE, NO_CLAIM, WRONG_HANDLE};
use crate::handle::{Handle, put, take};
use crate::held::Pass;
use std::alloc::Global;
use std::mem::replace;

fn offer_by(pass: &mut Pass, message: &[u8], position: &mut u64) -> i32
    ensures { Offers (Some pass.old) message.now position.old result position.new (Some pass.new) }
{
    match pass {
        Pass::Publisher(publisher) => match publisher.offer(message) {
            Ok(end) => {
                *position = end;
                DONE
            }
            Err(fault) => fault.code(),
        },
        Pass::Claim(_) => CLAIM_OPEN,
        Pass::Nothing
        | Pass::Opened(_)
        | Pass::Reader(_)
        | Pass::Messages(_)
        | Pass::Keeper(_)
        | Pass::Subscriber(_)
        | Pass::Sender(_) => WRONG_HANDLE,
    }
}

/// Offers a message. Where the answer is 0, the position behind it is written.
#[unsafe(no_mangle)]
pub extern "C" fn pv_offer(
    alloc: Global,
    publisher: &mut Handle,
    message: &[u8],
    position: &mut u64,
) -> i32
    ensures { Offers publisher.old.held message.now position.old result position.new publisher.new.held }
{
    let Some(mut pass) = take(alloc, publisher) else {
        return EMPTY_HANDLE;
    };
    let code = offer_by(&mut pass, message, position);
    put(publisher, pass);
    code
}

fn claim_by(pass: &mut Pass, size: usize, start: &mut u64) -> i32
    ensures { Claims (Some pass.old) size start.old result start.new (Some pass.new) }
{
    match replace(pass, Pass::Nothing) {
        Pass::Publisher(publisher) => match publisher.claim(size) {
            Ok(claim) => {
                *start = claim.start();
                *pass = Pass::Claim(claim);
                DONE
            }
            Err((fault, publisher)) => {
                *pass = Pass::Publisher(publisher);
                fault.code()
            }
        },
        Pass::Claim(claim) => {
            *pass = Pass::Claim(claim);
            CLAIM_OPEN
        }
        other => {
            *pass = other;
            WRONG_HANDLE
        }
    }
}

/// Claims a range for a message of so many bytes, zeros at first. Where the answer is 0, the position at which it begins
/// is written, and the claim is open until it is committed or aborted, or the handle is freed.
#[unsafe(no_mangle)]
pub extern "C" fn pv_claim(
    alloc: Global,
    publisher: &mut Handle,
    size: usize,
    start: &mut u64,
) -> i32
    ensures { Claims publisher.old.held size start.old result start.new publisher.new.held }
{
    let Some(mut pass) = take(alloc, publisher) else {
        return EMPTY_HANDLE;
    };
    let code = claim_by(&mut pass, size, start);
    put(publisher, pass);
    code
}

fn write_by(pass: &mut Pass, offset: usize, part: &[u8]) -> i32
    ensures { WritesPart (Some pass.old) offset part.now result (Some pass.new) }
{
    match pass {
        Pass::Claim(claim) => match claim.write(offset, part) {
            Ok(()) => DONE,
            Err(fault) => fault.code(),
        },
        Pass::Publisher(_) => NO_CLAIM,
        Pass::Nothing
        | Pass::Opened(_)
        | Pass::Reader(_)
        | Pass::Messages(_)
        | Pass::Keeper(_)
        | Pass::Subscriber(_)
        | Pass::Sender(_) => WRONG_HANDLE,
    }
}

/// Writes bytes into the message of the open claim, from an offset on.
#[unsafe(no_mangle)]
pub extern "C" fn pv_claim_write(
    alloc: Global,
    publisher: &mut Handle,
    offset: usize,
    part: &[u8],
) -> i32
    ensures { WritesPart publisher.old.held offset part.now result publisher.new.held }
{
    let Some(mut pass) = take(alloc, publisher) else {
        return EMPTY_HANDLE;
    };
    let code = write_by(&mut pass, offset, part);
    put(publisher, pass);
    code
}

fn commit_by(pass: &mut Pass, position: &mut u64) -> i32
    ensures { Commits (Some pass.old) position.old result position.new (Some pass.new) }
{
    match replace(pass, Pass::Nothing) {
        Pass::Claim(claim) => {
            let (publisher, end) = claim.commit();
            *position = end;
            *pass = Pass::Publisher(publisher);
            DONE
        }
        Pass::Publisher(publisher) => {
            *pass = Pass::Publisher(publisher);
            NO_CLAIM
        }
        other => {
            *pass = other;
            WRONG_HANDLE
        }
    }
}

/// Commits the open claim with its message. The position behind it is written.
#[unsafe(no_mangle)]
pub extern "C" fn pv_commit(alloc: Global, publisher: &mut Handle, position: &mut u64) -> i32
    ensures { Commits publisher.old.held position.old result position.new publisher.new.held }
{
    let Some(mut pass) = take(alloc, publisher) else {
        return EMPTY_HANDLE;
    };
    let code = commit_by(&mut pass, position);
    put(publisher, pass);
    code
}

fn abort_by(pass: &mut Pass, position: &mut u64) -> i32
    ensures { Aborts (Some pass.old) position.old result position.new (Some pass.new) }
{
    match replace(pass, Pass::Nothing) {
        Pass::Claim(claim) => {
            let (publisher, end) = claim.abort();
            *position = end;
            *pass = Pass::Publisher(publisher);
            DONE
        }
        Pass::Publisher(publisher) => {
            *pass = Pass::Publisher(publisher);
            NO_CLAIM
        }
        other => {
            *pass = other;
            WRONG_HANDLE
        }
    }
}

/// Makes the open claim a padding of the same range. The position behind it is written.
#[unsafe(no_mangle)]
pub extern "C" fn pv_abort(alloc: Global, publisher: &mut Handle, position: &mut u64) -> i32
    ensures { Aborts publisher.old.held position.old result position.new publisher.new.held }
{
    let Some(mut pass) = take(alloc, publisher) else {
        return EMPTY_HANDLE;
    };
    let code = abort_by(&mut pass, position);
    put(publisher, pass);
    code
}

fn share_by(pass: &mut Pass, share: &mut u64) -> i32
    ensures { Shares (Some pass.old) share.old result share.new (Some pass.new) }
{
    match pass {
        Pass::Publisher(publisher) => {
            *share = publisher.share();
            DONE
        }
        Pass::Claim(_) => CLAIM_OPEN,
        Pass::Nothing
        | Pass::Opened(_)
        | Pass::Reader(_)
        | Pass::Messages(_)
        | Pass::Keeper(_)
        | Pass::Subscriber(_)
        | Pass::Sender(_) => WRONG_HANDLE,
    }
}

/// How many bytes all claims of the publisher cover, which is written.
#[unsafe(no_mangle)]
pub extern "C" fn pv_share(alloc: Global, publisher: &mut Handle, share: &mut u64) -> i32
    ensures { Shares publisher.old.held share.old result share.new publisher.new.held }
{
    let Some(mut pass) = take(alloc, publisher) else {
        return EMPTY_HANDLE;
    };
    let code = share_by(&mut pass, share);
    put(publisher, pass);
    code
}
