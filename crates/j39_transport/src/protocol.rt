//! The numbers of the transport protocol (J1939-21, 5.10); times in microseconds.

/// The shortest message in packets, in bytes: a shorter one goes in one frame (5.10.1.1).
pub const SHORTEST: usize = 9;

/// The longest message, in bytes: 255 packets of seven (5.10.1.1).
pub const LONGEST: usize = 1785;

/// The group TP.CM.
pub(crate) const TRANSPORT_CONTROL: u32 = 60_416;

/// The group TP.DT.
pub(crate) const TRANSPORT_DATA: u32 = 60_160;

/// The first byte of a request to send (RTS, 5.10.3.1).
pub(crate) const REQUEST_TO_SEND: u8 = 16;

/// The first byte of a clear to send (CTS, 5.10.3.2).
pub(crate) const CLEAR_TO_SEND: u8 = 17;

/// The first byte of an end-of-message acknowledgment (5.10.3.3).
pub(crate) const ACKNOWLEDGMENT: u8 = 19;

/// The first byte of an abort (5.10.3.4).
pub(crate) const CONNECTION_ABORT: u8 = 255;

/// The first byte of a broadcast announce message (BAM, 5.10.3.5).
pub(crate) const BROADCAST_ANNOUNCE: u8 = 32;

/// Of an RTS, as the most packets for one CTS: no limit. A BAM has it in the same place.
pub(crate) const NO_LIMIT: u8 = 0xFF;

/// A byte that says nothing, and one that fills up the last packet.
pub(crate) const FILLER: u8 = 0xFF;

/// The reason of an abort where another source's session is open (5.10.3.4).
pub(crate) const BUSY: u8 = 1;

/// The reason of an abort where there is no memory (5.10.3.4).
pub(crate) const NO_RESOURCES: u8 = 2;

/// The reason of an abort where an answer or a packet is late (5.10.3.4).
pub(crate) const TIMEOUT: u8 = 3;

/// The longest wait of a receiver between two packets: 750 ms (5.10.2.4).
pub(crate) const TIMER_T1: u64 = 750_000;

/// The longest wait of a receiver from a CTS to its first packet: 1,250 ms (5.10.2.4).
pub(crate) const TIMER_T2: u64 = 1_250_000;

/// The longest wait of a sender for an answer: 1,250 ms (5.10.2.4).
pub(crate) const TIMER_T3: u64 = 1_250_000;

/// The longest wait of a sender after a CTS that holds: 1,050 ms (5.10.2.4).
pub(crate) const TIMER_T4: u64 = 1_050_000;

/// The most time between two frames of a broadcast that is put together: 750 ms (5.13.3).
pub(crate) const BROADCAST_LIMIT: u64 = 750_000;

/// The most time between two frames of a directed message that is put together (own).
pub(crate) const DIRECTED_LIMIT: u64 = 1_250_000;

/// The least time between two frames of a broadcast that is sent (own).
pub(crate) const GAP: u64 = 50_000;
