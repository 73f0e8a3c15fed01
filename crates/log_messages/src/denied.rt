use shared_log::LogReader;

/// Memory was refused. The reader is as it was.
#[derive(Drop)]
pub struct Denied {
    pub reader: LogReader,
}
