//! The passes of a log that threads share, each with its share of the log: so each can go where it likes, and be kept as
//! long as it is wanted, with nothing beside it. The log is freed with the last of them.
//!
//! A log opens with eight publishers, its readers and its keeper (`Opened`), which are taken one by one. A publisher offers,
//! or claims (`PublisherPass`); with a claim open it is a `ClaimPass`, which is committed or aborted, and is the publisher
//! again; one that is dropped is aborted. A reader reads straight into the caller's bytes (`ReaderPass`). The keeper cleans,
//! raises the limit, connects and closes, and opens further readers (`KeeperPass`).
//!
//! Each call says what the same call of the log says, and that the pass stays one of its log.
pub(crate) mod claiming;
pub(crate) mod fault;
pub(crate) mod keeping;
pub(crate) mod opening;
pub(crate) mod publishing;
pub(crate) mod reading;
pub(crate) mod source;
