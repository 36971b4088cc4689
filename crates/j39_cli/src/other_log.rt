//! FILEs that are no log of candump.
ghost use Rattle.std.specs.Prelude.{◌≡◌};
ghost use Rattle.j39_cli.specs.OtherLog.{other_log, other_words};

/// What a FILE is that is no log of candump (own).
#[derive(Clone, Copy, Debug)]
pub(crate) enum OtherLog {
    /// Packed by gzip.
    Gzip,
    /// Packed by zstd.
    Zstandard,
    /// Packed by xz.
    Xz,
    /// An ASC log of Vector's tools.
    Asc,
    /// A BLF log of the same.
    Blf,
    /// A TRC log of PEAK's tools.
    Trc,
    /// A measurement of ASAM's form.
    Mdf,
    /// Comma-separated values of SavvyCAN.
    SavvyCan,
    /// A capture of packets (pcap or pcapng).
    Pcap,
}

impl OtherLog {
    /// What a FILE with these first bytes is; `None` where it may be a log.
    pub(crate) fn of(front: &[u8]) -> Option<OtherLog>
        ensures { result ≡ other_log front.now }
    {
        if front.starts_with(b"\x1F\x8B") {
            Some(OtherLog::Gzip)
        } else if front.starts_with(b"\x28\xB5\x2F\xFD") {
            Some(OtherLog::Zstandard)
        } else if front.starts_with(b"\xFD7zXZ\0") {
            Some(OtherLog::Xz)
        } else if front.starts_with(b"date ") {
            Some(OtherLog::Asc)
        } else if front.starts_with(b"LOGG") {
            Some(OtherLog::Blf)
        } else if front.starts_with(b";$FILEVERSION=") {
            Some(OtherLog::Trc)
        } else if front.starts_with(b"MDF     ") {
            Some(OtherLog::Mdf)
        } else if front.starts_with(b"Time Stamp,ID,Extended,") {
            Some(OtherLog::SavvyCan)
        } else if front.starts_with(b"\xD4\xC3\xB2\xA1") {
            Some(OtherLog::Pcap)
        } else if front.starts_with(b"\xA1\xB2\xC3\xD4") {
            Some(OtherLog::Pcap)
        } else if front.starts_with(b"\x0A\x0D\x0D\x0A") {
            Some(OtherLog::Pcap)
        } else {
            None
        }
    }

    /// What it is, and how it becomes a log, as told behind its name.
    pub(crate) fn words(self) -> &'static str
        ensures { result.now ≡ other_words self }
    {
        match self {
            OtherLog::Gzip => " is packed by gzip: zcat unpacks it",
            OtherLog::Zstandard => " is packed by zstd: zstdcat unpacks it",
            OtherLog::Xz => " is packed by xz: xzcat unpacks it",
            OtherLog::Asc => " is an ASC log: can_logconvert turns it into a .log",
            OtherLog::Blf => " is a BLF log: can_logconvert turns it into a .log",
            OtherLog::Trc => " is a TRC log: can_logconvert turns it into a .log",
            OtherLog::Mdf => " is an MDF log: can_logconvert turns it into a .log",
            OtherLog::SavvyCan => " is a CSV log: SavvyCAN saves it as one of candump",
            OtherLog::Pcap => { " is a capture of packets: SavvyCAN saves it as a log of candump" }
        }
    }
}
