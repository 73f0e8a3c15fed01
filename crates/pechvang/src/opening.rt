//! A log that opens for C, and the passes that are taken from it.

ghost use Rattle.std.specs.declared.option.Option.TheVariants.{Some};
ghost use Rattle.pechvang.specs.Opening.{KeeperTaken, Opens, PublisherTaken, ReaderTaken};

use crate::codes::{DONE, EMPTY_HANDLE, NO_MEMORY, WRONG_HANDLE};
use crate::handle::{Handle, put, put_new, take};
use crate::held::Pass;
use claims::{Config, Opened};
use std::alloc::Global;

/// Opens a log, unconnected, with its limit and its readers at the start. Where the answer is 0, the handle holds it.
#[unsafe(no_mangle)]
pub extern "C" fn pv_open(alloc: Global, config: &Config, log: &mut Handle) -> i32
    ensures { Opens config.now log.old.held result log.new.held }
{
    match Opened::open(alloc, config) {
        Ok(opened) => match Box::new(alloc, Pass::Opened(opened)) {
            Ok(pass) => {
                put(log, pass);
                DONE
            }
            Err(_) => NO_MEMORY,
        },
        Err(fault) => fault.code(),
    }
}

fn take_publisher_by(alloc: Global, pass: &mut Pass, publisher: &mut Handle) -> i32
    ensures { PublisherTaken (Some pass.old) publisher.old.held result (Some pass.new) publisher.new.held }
{
    match pass {
        Pass::Opened(opened) => {
            let Ok(room) = Box::new(alloc, Pass::Nothing) else {
                return NO_MEMORY;
            };
            match opened.take_publisher() {
                Ok(taken) => {
                    put_new(publisher, room, Pass::Publisher(taken));
                    DONE
                }
                Err(fault) => fault.code(),
            }
        }
        Pass::Nothing
        | Pass::Publisher(_)
        | Pass::Claim(_)
        | Pass::Reader(_)
        | Pass::Messages(_)
        | Pass::Keeper(_)
        | Pass::Subscriber(_)
        | Pass::Sender(_) => WRONG_HANDLE,
    }
}

/// Takes the first publisher that nobody took yet. Where the answer is 0, the second handle holds it.
#[unsafe(no_mangle)]
pub extern "C" fn pv_take_publisher(alloc: Global, log: &mut Handle, publisher: &mut Handle) -> i32
    ensures { PublisherTaken log.old.held publisher.old.held result log.new.held publisher.new.held }
{
    let Some(mut pass) = take(alloc, log) else {
        return EMPTY_HANDLE;
    };
    let code = take_publisher_by(alloc, &mut pass, publisher);
    put(log, pass);
    code
}

fn take_reader_by(alloc: Global, pass: &mut Pass, reader: &mut Handle) -> i32
    ensures { ReaderTaken (Some pass.old) reader.old.held result (Some pass.new) reader.new.held }
{
    match pass {
        Pass::Opened(opened) => {
            let Ok(room) = Box::new(alloc, Pass::Nothing) else {
                return NO_MEMORY;
            };
            match opened.take_reader() {
                Ok(taken) => {
                    put_new(reader, room, Pass::Reader(taken));
                    DONE
                }
                Err(fault) => fault.code(),
            }
        }
        Pass::Nothing
        | Pass::Publisher(_)
        | Pass::Claim(_)
        | Pass::Reader(_)
        | Pass::Messages(_)
        | Pass::Keeper(_)
        | Pass::Subscriber(_)
        | Pass::Sender(_) => WRONG_HANDLE,
    }
}

/// Takes the first reader that nobody took yet. Where the answer is 0, the second handle holds it.
#[unsafe(no_mangle)]
pub extern "C" fn pv_take_reader(alloc: Global, log: &mut Handle, reader: &mut Handle) -> i32
    ensures { ReaderTaken log.old.held reader.old.held result log.new.held reader.new.held }
{
    let Some(mut pass) = take(alloc, log) else {
        return EMPTY_HANDLE;
    };
    let code = take_reader_by(alloc, &mut pass, reader);
    put(log, pass);
    code
}

fn take_keeper_by(alloc: Global, pass: &mut Pass, keeper: &mut Handle) -> i32
    ensures { KeeperTaken (Some pass.old) keeper.old.held result (Some pass.new) keeper.new.held }
{
    match pass {
        Pass::Opened(opened) => {
            let Ok(room) = Box::new(alloc, Pass::Nothing) else {
                return NO_MEMORY;
            };
            match opened.take_keeper() {
                Ok(taken) => {
                    put_new(keeper, room, Pass::Keeper(taken));
                    DONE
                }
                Err(fault) => fault.code(),
            }
        }
        Pass::Nothing
        | Pass::Publisher(_)
        | Pass::Claim(_)
        | Pass::Reader(_)
        | Pass::Messages(_)
        | Pass::Keeper(_)
        | Pass::Subscriber(_)
        | Pass::Sender(_) => WRONG_HANDLE,
    }
}

/// Takes the keeper, once. Where the answer is 0, the second handle holds it.
#[unsafe(no_mangle)]
pub extern "C" fn pv_take_keeper(alloc: Global, log: &mut Handle, keeper: &mut Handle) -> i32
    ensures { KeeperTaken log.old.held keeper.old.held result log.new.held keeper.new.held }
{
    let Some(mut pass) = take(alloc, log) else {
        return EMPTY_HANDLE;
    };
    let code = take_keeper_by(alloc, &mut pass, keeper);
    put(log, pass);
    code
}
