//! Why bytes are refused.

/// Why bytes are no request: the first of these that holds.
#[derive(Clone, Copy, Debug, PartialEq, Eq)]
pub enum RequestFault {
    /// There aren't 24 bytes.
    Length,
    /// The type is above 3.
    Kind,
}

/// Why bytes are no response: the first of these that holds.
#[derive(Clone, Copy, Debug, PartialEq, Eq)]
pub enum ResponseFault {
    /// There aren't 10 bytes.
    Length,
    /// The type is above 3.
    Kind,
    /// The state is above 2, or isn't 0 in a response that is no ACK.
    State,
}

/// Why bytes are no configuration.
#[derive(Clone, Copy, Debug, PartialEq, Eq)]
pub enum ConfigFault {
    /// There aren't 56 bytes.
    Length,
}
