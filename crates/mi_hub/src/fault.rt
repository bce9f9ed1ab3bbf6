//! Why a call of the hub was not done whole. Plain data.

/// Why an event of a connection was not done.
#[derive(Clone, Copy, Debug, PartialEq, Eq, Drop)]
pub enum HubFault {
    /// No such connection is attached; nothing has changed.
    NotAttached,
    /// The connection is attached already; nothing has changed.
    AlreadyAttached,
    /// As many connections as can be are attached; nothing has changed.
    TooMany,
    /// A growth was refused; nothing has changed.
    Memory,
    /// The writer failed; the connection has been cut.
    Write,
}

/// Why serving ended before the end of the input.
#[derive(Clone, Copy, Debug, PartialEq, Eq, Drop)]
pub enum ServeFault {
    /// A read failed.
    Read,
    /// A write failed.
    Write,
    /// A connection could not be accepted.
    Accept,
    /// A growth was refused where a connection was to be attached.
    Memory,
    /// The most reads of one serving call, 2^40, were made.
    Turns,
}
