//! The statuses that programs end with.

/// How a program ended. `as u8` it is the status: the number that the program ends with.
#[derive(Clone, Copy, Debug, PartialEq, Eq)]
pub enum Status {
    /// A request is served.
    Served = 0,
    /// A request's document is refused.
    Refused = 1,
    /// There is no request: by the words, by what `serde_json` reads, or by the value's shape.
    Unusable = 2,
    /// The source failed.
    SourceFault = 3,
    /// The sink failed.
    SinkFault = 4,
    /// Memory ran out.
    NoMemory = 5,
    /// The input is longer than the limit.
    TooLong = 6,
}
