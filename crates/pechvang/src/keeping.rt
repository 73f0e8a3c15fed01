//! What a keeper does for C.

ghost use Rattle.std.specs.declared.option.Option.TheVariants.{Some};
ghost use Rattle.pechvang.specs.Keeping.{CleansTo, Closes, Connects, Joins};

use crate::codes::{DONE, EMPTY_HANDLE, NO_MEMORY, WRONG_HANDLE};
use crate::handle::{Handle, put, put_new, take};
use crate::held::Pass;
use std::alloc::Global;

fn clean_by(pass: &mut Pass, limit: &mut u64) -> i32
    ensures { CleansTo (Some pass.old) limit.old result limit.new (Some pass.new) }
{
    match pass {
        Pass::Keeper(keeper) => {
            *limit = keeper.clean_and_limit();
            DONE
        }
        Pass::Nothing
        | Pass::Opened(_)
        | Pass::Publisher(_)
        | Pass::Claim(_)
        | Pass::Reader(_)
        | Pass::Messages(_)
        | Pass::Subscriber(_)
        | Pass::Sender(_) => WRONG_HANDLE,
    }
}

/// Cleans what is a term or more below the least reader, and raises the limit, which is written.
#[unsafe(no_mangle)]
pub extern "C" fn pv_clean_and_limit(alloc: Global, keeper: &mut Handle, limit: &mut u64) -> i32
    ensures { CleansTo keeper.old.held limit.old result limit.new keeper.new.held }
{
    let Some(mut pass) = take(alloc, keeper) else {
        return EMPTY_HANDLE;
    };
    let code = clean_by(&mut pass, limit);
    put(keeper, pass);
    code
}

fn connect_by(pass: &mut Pass, connected: bool) -> i32
    ensures { Connects connected (Some pass.old) result (Some pass.new) }
{
    match pass {
        Pass::Keeper(keeper) => {
            keeper.set_connected(connected);
            DONE
        }
        Pass::Nothing
        | Pass::Opened(_)
        | Pass::Publisher(_)
        | Pass::Claim(_)
        | Pass::Reader(_)
        | Pass::Messages(_)
        | Pass::Subscriber(_)
        | Pass::Sender(_) => WRONG_HANDLE,
    }
}

/// Says whether somebody receives the stream.
#[unsafe(no_mangle)]
pub extern "C" fn pv_set_connected(alloc: Global, keeper: &mut Handle, connected: bool) -> i32
    ensures { Connects connected keeper.old.held result keeper.new.held }
{
    let Some(mut pass) = take(alloc, keeper) else {
        return EMPTY_HANDLE;
    };
    let code = connect_by(&mut pass, connected);
    put(keeper, pass);
    code
}

fn close_by(pass: &mut Pass) -> i32
    ensures { Closes (Some pass.old) result (Some pass.new) }
{
    match pass {
        Pass::Keeper(keeper) => {
            keeper.set_closed();
            DONE
        }
        Pass::Nothing
        | Pass::Opened(_)
        | Pass::Publisher(_)
        | Pass::Claim(_)
        | Pass::Reader(_)
        | Pass::Messages(_)
        | Pass::Subscriber(_)
        | Pass::Sender(_) => WRONG_HANDLE,
    }
}

/// Closes the log, for good.
#[unsafe(no_mangle)]
pub extern "C" fn pv_set_closed(alloc: Global, keeper: &mut Handle) -> i32
    ensures { Closes keeper.old.held result keeper.new.held }
{
    let Some(mut pass) = take(alloc, keeper) else {
        return EMPTY_HANDLE;
    };
    let code = close_by(&mut pass);
    put(keeper, pass);
    code
}

fn join_by(alloc: Global, pass: &mut Pass, reader: &mut Handle) -> i32
    ensures { Joins (Some pass.old) reader.old.held result (Some pass.new) reader.new.held }
{
    match pass {
        Pass::Keeper(keeper) => {
            let Ok(room) = Box::new(alloc, Pass::Nothing) else {
                return NO_MEMORY;
            };
            match keeper.join() {
                Ok(joined) => {
                    put_new(reader, room, Pass::Reader(joined));
                    DONE
                }
                Err(fault) => fault.code(),
            }
        }
        Pass::Nothing
        | Pass::Opened(_)
        | Pass::Publisher(_)
        | Pass::Claim(_)
        | Pass::Reader(_)
        | Pass::Messages(_)
        | Pass::Subscriber(_)
        | Pass::Sender(_) => WRONG_HANDLE,
    }
}

/// Opens a reader, with the least number that nobody has, at the least position of those that are there. Where the answer
/// is 0, the second handle holds it.
#[unsafe(no_mangle)]
pub extern "C" fn pv_join(alloc: Global, keeper: &mut Handle, reader: &mut Handle) -> i32
    ensures { Joins keeper.old.held reader.old.held result keeper.new.held reader.new.held }
{
    let Some(mut pass) = take(alloc, keeper) else {
        return EMPTY_HANDLE;
    };
    let code = join_by(alloc, &mut pass, reader);
    put(keeper, pass);
    code
}
