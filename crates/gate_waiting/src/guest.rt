use crate::bytes::Bytes;

/// A connection that is waited for. Times are microseconds of one clock.
#[derive(Drop)]
pub struct Guest {
    /// The number of the connection.
    pub connection: u64,
    /// When it came.
    pub came: u64,
    /// When bytes came on it last, or else when it came.
    pub heard: u64,
    /// The bytes that have come on it, in their order.
    pub bytes: Bytes,
}

/// Why a connection is waited for no longer.
#[derive(Clone, Copy, Debug, PartialEq, Eq)]
pub enum Reason {
    /// Its request is whole.
    Whole,
    /// No more comes on it.
    Ended,
    /// It can't be read.
    Failed,
    /// There is no memory to wait for more.
    NoMemory,
    /// There is no memory for what has come last, and that is lost.
    Lost,
    /// Its patience is over.
    Late,
}

/// A connection that is waited for no longer.
#[derive(Drop)]
pub struct Ready {
    /// The connection, with the bytes that have come.
    pub guest: Guest,
    /// Why.
    pub reason: Reason,
}
