//! A second as records and objects have it.
ghost use Rattle.std.specs.Prelude.{◌≡◌, ◌+◌, ◌<◌, ◌≤◌, ◌%◌, ◌^◌, decimal, drop, length};
ghost use Rattle.j39_io.specs.Backwards.{WritesBefore};
ghost use Rattle.j39_io.specs.Printing.{last_digits};
ghost use Rattle.j39_frame.specs.Stamp.{stamp_micros};
ghost use Rattle.j39_reports.specs.Columns.{moment_fields};
ghost use Rattle.j39_reports.specs.EntryObject.{moment_members};
ghost use Rattle.j39_rows.specs.Utc.{second_text, utc_text};

use j39_frame::Stamp;
use j39_io::backwards::{
    byte_before, bytes_before, last_digits_before, number_before, tail_before,
};
use j39_rows::second_text;

/// A second and its texts, kept from message to message: most come within the second of the message before.
#[derive(Clone, Copy)]
pub(crate) struct Second {
    value: u64,
    digits: [u8; 10],
    /// Without leading zeros: the bytes of a block from a place on.
    number: [u8; 16],
    from: usize,
    utc: [u8; 19],
    pub ghost digits_are: { digits ≡ last_digits 10 value },
    pub ghost number_is: { drop from number ≡ decimal value },
    pub ghost inside: { from ≤ 16 },
    pub ghost utc_is: { utc ≡ second_text value },
}

impl Second {
    /// This second after 1 January 1970.
    pub fn new(value: u64) -> Second
        requires { value < 10 ^ 10 }
        ensures { result.value ≡ value }
    {
        let mut digits = [0; 10];
        let _ = last_digits_before(&mut digits, 10, 10, value);
        let mut number = [0; 16];
        let from = number_before(&mut number, 16, value);
        let text = second_text(value);
        let mut utc = [0; 19];
        utc.copy_from_slice(text.as_slice());
        Second {
            value,
            digits,
            number,
            from,
            utc,
        }
    }

    /// Turns to this second.
    #[inline(always)]
    fn turn_to(&mut self, value: u64)
        requires { value < 10 ^ 10 }
        ensures { self.new.value ≡ value }
    {
        if self.value != value {
            self.turn(value);
        }
    }

    /// Makes the texts of this second.
    #[inline(never)]
    fn turn(&mut self, value: u64)
        requires { value < 10 ^ 10 }
        ensures { self.new.value ≡ value }
    {
        *self = Second::new(value);
    }

    /// Writes the seconds of a stamp, a comma, and the same moment in UTC.
    #[inline(always)]
    pub fn moment_before(&mut self, out: &mut [u8], end: usize, stamp: Stamp) -> usize
        requires room { 45 ≤ end }
        requires within { end ≤ length out.old }
        ensures { WritesBefore out.old out.new end result (moment_fields (stamp_micros stamp)) }
    {
        let micros = stamp.micros();
        self.turn_to(micros / 1_000_000);
        let fraction = fraction_of(micros);
        let zone = byte_before(out, end, b'Z');
        let places = bytes_before(out, zone, fraction);
        let later = byte_before(out, places, b'.');
        let utc = bytes_before(out, later, self.utc);
        let comma = byte_before(out, utc, b',');
        let decimals = bytes_before(out, comma, fraction);
        let point = byte_before(out, decimals, b'.');
        bytes_before(out, point, self.digits)
    }

    /// Writes the moment of a stamp as the members of an object.
    #[inline(always)]
    pub fn members_before(&mut self, out: &mut [u8], end: usize, stamp: Stamp) -> usize
        requires room { 82 ≤ end }
        requires within { end ≤ length out.old }
        ensures { WritesBefore out.old out.new end result (moment_members (stamp_micros stamp)) }
    {
        let micros = stamp.micros();
        self.turn_to(micros / 1_000_000);
        let fraction = fraction_of(micros);
        let zone = bytes_before(out, end, *b"Z\"");
        let places = bytes_before(out, zone, fraction);
        let later = byte_before(out, places, b'.');
        let utc = bytes_before(out, later, self.utc);
        let key = bytes_before(out, utc, *b",\"utc\":\"");
        let decimals = bytes_before(out, key, fraction);
        let point = byte_before(out, decimals, b'.');
        let seconds = tail_before(out, point, &self.number, self.from);
        bytes_before(out, seconds, *b"{\"stamp\":")
    }

    /// Writes a moment in UTC.
    #[inline(always)]
    pub fn utc_before(&mut self, out: &mut [u8], end: usize, stamp: Stamp) -> usize
        requires room { 27 ≤ end }
        requires within { end ≤ length out.old }
        ensures written { WritesBefore out.old out.new end result (utc_text (stamp_micros stamp)) }
        ensures starts { result + 27 ≡ end }
    {
        let micros = stamp.micros();
        self.turn_to(micros / 1_000_000);
        let zone = byte_before(out, end, b'Z');
        let (places, _) = last_digits_before(out, zone, 6, micros % 1_000_000);
        let point = byte_before(out, places, b'.');
        bytes_before(out, point, self.utc)
    }
}

/// The six digits behind the point of a stamp's seconds.
#[inline(always)]
fn fraction_of(micros: u64) -> [u8; 6]
    ensures { result ≡ last_digits 6 (micros % 10 ^ 6) }
{
    let mut digits = [0; 6];
    let _ = last_digits_before(&mut digits, 6, 6, micros % 1_000_000);
    digits
}
