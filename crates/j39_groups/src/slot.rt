//! How raw numbers become values.
ghost use Rattle.std.specs.Prelude.{◌≡◌, ◌<◌, ◌+◌, ◌*◌, ◌-◌, ◌^◌, ◌≤◌, unsigned_abs, ℕ, Some, IfSome};

/// How a raw number is read (J1939-71): `value = raw * step + offset`, in units of the last printed place. It is that of one
/// row: of the built-in table, or by [`Slot::of_own_table`] of one's own.
#[derive(Clone, Copy)]
pub struct Slot<'t> {
    pub(crate) step: u64,
    pub(crate) offset: i64,
    pub(crate) places: u8,
    pub(crate) unit: &'t [u8],
}

impl<'t> Slot<'t> {
    ghost use Rattle.std.specs.Prelude.{◌+ℤ◌, ◌-ℤ◌, ◌*ℤ◌, pos, nat_lt};
    ghost use Rattle.j39_groups.specs.Fields.{largest};
    ghost use Rattle.j39_groups.specs.Models.{scale_record};
    ghost use Rattle.j39_groups.specs.Readings.{signed_number};
    ghost use Rattle.j39_groups.specs.Slots.{IsAt};

    /// That of what is no number.
    pub(crate) const NONE: Slot<'static> = Slot {
        step: 0,
        offset: 0,
        places: 0,
        unit: b"",
    };

    /// That of a row in a table of one's own, for a [`Field`](crate::Field), whose `is_sound` says whether it fits there: what one
    /// raw step is worth and the value of the raw number 0, in units of the last printed place, how many decimal places are
    /// printed, and the unit's text, of any bytes. [`slot_of`](crate::slot_of) has those of the built-in table.
    pub fn of_own_table(step: u64, offset: i64, places: u8, unit: &'t [u8]) -> Slot<'t>
        ensures { scale_record result ≡ record { step = pos step; offset = offset; places = places; unit = unit.entry.now } }
    {
        Slot {
            step,
            offset,
            places,
            unit,
        }
    }

    /// What one raw step is worth, in units of the last printed place.
    #[inline]
    pub fn step(self) -> u64
        ensures { pos result ≡ (scale_record self.entry).step }
    {
        self.step
    }

    /// The value of the raw number 0, in units of the last printed place.
    #[inline]
    pub fn offset(self) -> i64
        ensures { result ≡ (scale_record self.entry).offset }
    {
        self.offset
    }

    /// How many decimal places are printed.
    #[inline]
    pub fn places(self) -> u8
        ensures { result ≡ (scale_record self.entry).places }
    {
        self.places
    }

    /// The unit's text; in a table of one's own it may have any bytes.
    #[inline]
    pub fn unit(self) -> &'t [u8]
        ensures { result.now ≡ (scale_record self.entry).unit }
    {
        self.unit
    }

    /// The value of a raw number, in units of the last printed place.
    #[inline(always)]
    pub(crate) fn value(self, raw: u32) -> i64
        requires { self.step * raw + unsigned_abs self.offset < 2 ^ 63 }
        ensures { result ≡ pos raw *ℤ (scale_record self.entry).step +ℤ (scale_record self.entry).offset }
    {
        (u64::from(raw) * self.step) as i64 + self.offset
    }

    /// The value of a number of `count` bits in two's complement, in units of the last printed place.
    pub(crate) fn signed_value(self, raw: u32, count: u8) -> i64
        requires some { 0 < count }
        requires few { count ≤ 32 }
        requires narrow { raw < 2 ^ count }
        requires fits { largest count self < 2 ^ 63 }
        ensures { result ≡ signed_number count raw *ℤ (scale_record self.entry).step +ℤ (scale_record self.entry).offset }
    {
        let half = highest_bit(count);
        if u64::from(raw) < half {
            self.value(raw)
        } else {
            self.value_below(2 * half - u64::from(raw))
        }
    }

    /// The value so many steps below the offset.
    fn value_below(self, steps: u64) -> i64
        requires { self.step * steps + unsigned_abs self.offset < 2 ^ 63 }
        ensures { result ≡ self.entry.offset -ℤ pos (self.entry.step * steps) }
    {
        self.offset - (steps * self.step) as i64
    }

    /// The raw number of a value, where the value stands on a step.
    pub(crate) fn raw(self, value: i64) -> Option<u32>
        requires { 0 < self.step }
        ensures found { IfSome result (λ raw. IsAt (scale_record self.entry) value raw) }
        ensures only { (raw : ℕ) → raw < 2 ^ 32 → IsAt (scale_record self.entry) value raw → result ≡ Some raw }
    {
        let offset = self.offset;
        if value < offset {
            return None;
        }
        steps_in(value.abs_diff(offset), self.step)
    }

    /// Whether the value of each raw number of so many bits fits 64 bits.
    pub(crate) fn fits(self, bits: u8) -> bool
        requires { bits ≤ 32 }
        ensures { result ≡ nat_lt (largest bits self.entry) (2 ^ 63) }
    {
        let most = (1u64 << bits) - 1;
        let Some(product) = self.step.checked_mul(most) else {
            return false;
        };
        let Some(sum) = product.checked_add(self.offset.unsigned_abs()) else {
            return false;
        };
        sum < 1 << 63
    }
}

/// The number of so many bits of which the highest alone is set.
fn highest_bit(count: u8) -> u64
    requires some { 0 < count }
    requires few { count ≤ 32 }
    ensures value { result ≡ 2 ^ (count - 1) }
    ensures fits { result < 2 ^ 32 }
{
    1 << (count - 1)
}

/// How many whole steps a distance is; `None` where it is no whole number of steps, or too many.
fn steps_in(distance: u64, step: u64) -> Option<u32>
    requires { 0 < step }
    ensures found { IfSome result (λ n. n * step ≡ distance) }
    ensures only { (n : ℕ) → n < 2 ^ 32 → n * step ≡ distance → result ≡ Some n }
{
    if distance % step != 0 {
        return None;
    }
    u32::try_from(distance / step).ok()
}
