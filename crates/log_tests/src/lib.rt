//! Tests of a log that threads share, within a term or two, by what its words show: eight publishers in threads of
//! their own, by a thousand seeds; two that publish in threads, meet and retire; one publisher step by step; and a term
//! that is turned more than once.
//!
//! `PlainLog` is a log as a plain list of what was added, with a row of bytes: connected, its limit half a term above the
//! start, nobody reads it, and nothing of it is cleaned. It opens at each start, but where memory is refused, and answers
//! each offer, claim, commit and abort for good without asking for memory. Two logs whose streams differ in their consumers
//! alone give the same answers to any commands and have the same entries afterwards (`run_on_both`, and the law
//! `runs_agree`); where memory is refused neither has changed.
#![tactic(auto)]

#[cfg(test)]
mod both;
mod claimed;
#[cfg(test)]
mod crowd;
#[cfg(test)]
mod meetings;
mod opening;
mod plain_log;
#[cfg(test)]
mod publishing;
#[cfg(test)]
mod rows;
#[cfg(test)]
mod turns;
mod walk;
