//! Laws about the definitions, each the contract of a function that does nothing.
ghost use Rattle.std.specs.Prelude.{◌≡◌, ◌≢◌, ◌<◌, ◌^◌, ℕ, ℤ, pos, List, [], Some, false, filter, true, IsSomeAnd};
ghost use Rattle.std.specs.List.{Contains};
ghost use Rattle.j39_groups.specs.Value.{number, reserved, ReadingRecord, SlotRecord, ValueRecord};
ghost use Rattle.j39_groups.specs.Parts.{AreParts, parts_of};
ghost use Rattle.j39_groups.specs.Readings.{HaveSameGroups, bits_meaning, is_among, is_reported_group, is_reported_in, number_meaning, readings_in, readings_of, rows_of_spns, switch_meaning};
ghost use Rattle.j39_groups.specs.Row.{RowRecord, bits_field, number_field, switch_field};
ghost use Rattle.j39_groups.specs.Sightings.{absences_in, absent_in, sightings_in, told_in};
ghost use Rattle.j39_groups.specs.States.{raw_behind};
ghost use Rattle.j39_groups.specs.Slots.{Holds, IsRawOf, slot_of_spn};

/// The parts of a payload are the only parts without `*` that, joined by it, are the payload.
pub fn one_list_of_parts()
    ensures found { (bytes : List ℕ) → AreParts bytes (parts_of bytes) }
    ensures only { (bytes : List ℕ) (parts : List (List ℕ)) → AreParts bytes parts → parts ≡ parts_of bytes }
{}

/// Where a payload holds the raw number of a value, the value is read.
pub fn raw_reads_back()
    ensures { (pgn spn raw : ℕ) (value : ℤ) (bytes : List ℕ) → Holds pgn spn bytes raw → IsRawOf spn value raw
        → IsSomeAnd (slot_of_spn spn) (λ slot.
        Contains (readings_of pgn bytes) (record { spn = spn; value = number value slot })) }
{}

/// A state is that of the raw number which its value was read from: of bits of less than a byte, of a byte unless it is
/// reserved, and of a switch.
pub fn states_are_of_raw_numbers()
    ensures bits { (byte low count step raw : ℕ) (slot : SlotRecord) (value : ValueRecord) → 0 < count → count < 8 → 0 < step
        → slot.step ≡ pos step → raw < 2 ^ count → bits_meaning count slot raw ≡ Some value
        → raw_behind (bits_field byte low count slot) value ≡ Some raw }
    ensures byte { (byte step raw : ℕ) (slot : SlotRecord) (value : ValueRecord) → 0 < step → slot.step ≡ pos step → raw < 256
        → number_meaning 1 slot raw ≡ Some value → value ≢ reserved
        → raw_behind (number_field byte byte slot) value ≡ Some raw }
    ensures switch { (byte low high bits : ℕ) (value : ValueRecord) → switch_meaning bits ≡ Some value
        → raw_behind (switch_field byte low high) value ≡ Some bits }
{}

/// Nothing is read in a group that is not reported.
pub fn other_groups_are_silent()
    ensures { (pgn : ℕ) (bytes : List ℕ) → is_reported_group pgn ≡ false → readings_of pgn bytes ≡ [] }
{}

/// Of what a payload says, the readings and the parameters that are not available are those of the group.
pub fn told_or_absent()
    ensures told { (table : List RowRecord) (pgn : ℕ) (bytes : List ℕ)
        → told_in (sightings_in table pgn bytes) ≡ readings_in table pgn bytes }
    ensures absent { (table : List RowRecord) (pgn : ℕ) (bytes : List ℕ)
        → absent_in (sightings_in table pgn bytes) ≡ absences_in table pgn bytes }
{}

/// What is read, and whether a group is reported, hangs on each group's rows alone.
pub fn groups_alone_count()
    ensures readings { (these those : List RowRecord) → HaveSameGroups these those
        → (pgn : ℕ) (bytes : List ℕ) → readings_in these pgn bytes ≡ readings_in those pgn bytes }
    ensures reported { (these those : List RowRecord) → HaveSameGroups these those
        → (pgn : ℕ) → is_reported_in these pgn ≡ is_reported_in those pgn }
{}

/// What is read by the rows of some parameters is what is read of these parameters, and no group is reported by them
/// alone.
pub fn restricted_reads_less()
    ensures readings { (spns : List ℕ) (table : List RowRecord) (pgn : ℕ) (bytes : List ℕ)
        → readings_in (rows_of_spns spns table) pgn bytes
        ≡ filter (λ reading. is_among spns reading.spn) (readings_in table pgn bytes) }
    ensures reported { (spns : List ℕ) (table : List RowRecord) (pgn : ℕ)
        → is_reported_in (rows_of_spns spns table) pgn ≡ true → is_reported_in table pgn ≡ true }
{}
