//! How what is told of a log is written.

/// How what is told of a log is written.
#[derive(Clone, Copy, Debug, PartialEq, Eq)]
pub enum Format {
    /// In lines, with a space between fields, and moments by this clock.
    Line(Clock),
    /// In records of comma-separated values (RFC 4180), below the names of the columns.
    Record,
    /// In objects of JSON (RFC 8259), one a line.
    Object,
}

/// How lines tell a moment.
#[derive(Clone, Copy, Debug, PartialEq, Eq)]
pub enum Clock {
    /// As a log does: in seconds since 1 January 1970, in brackets.
    Seconds,
    /// As a date and a time of day in UTC (ISO 8601).
    Utc,
}
