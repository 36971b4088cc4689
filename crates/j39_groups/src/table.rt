//! The built-in table: which parameters are read, and where each stands in its group's payload (J1939-71).
ghost use Rattle.std.specs.Prelude.{◌≡◌, ◌≤◌, length, map, true};
ghost use Rattle.std.specs.List.{list_all};
ghost use Rattle.j39_groups.specs.Models.{row_record};
ghost use Rattle.j39_groups.specs.Rows.{are_together, is_built_in, is_row};
ghost use Rattle.j39_groups.specs.Table.{the_table};

use crate::field::Field;
use crate::prepared::{Ending, Prepared};
use crate::row::Row;
use crate::short_text::ShortText;
use crate::slot::Slot;

/// All rows.
pub(crate) fn built_in_rows() -> &'static [Row<'static>]
    ensures table { map row_record result.now ≡ the_table }
    ensures sound { list_all is_row result.now ≡ true }
    ensures built_in { is_built_in result.now ≡ true }
    ensures together { are_together result.now ≡ true }
    ensures few { length result.now ≤ 65536 }
{
    TABLE
}

/// The table of parameters. The rows of a group stand in the order in which they are read.
macro_rules! parameters {
    ($made:ident) => {
        $made![
            // EEC2, electronic engine controller 2
            number(0xF003, b"EEC2", 91, bytes 2 to 2, step 4, offset 0, places 1, Percent, b"accelerator pedal position 1"),
            number(0xF003, b"EEC2", 92, bytes 3 to 3, step 1, offset 0, places 0, Percent, b"percent load at current speed"),
            // EEC1, electronic engine controller 1
            number(0xF004, b"EEC1", 512, bytes 2 to 2, step 1, offset -125, places 0, Percent, b"driver's demand percent torque"),
            number(0xF004, b"EEC1", 513, bytes 3 to 3, step 1, offset -125, places 0, Percent, b"actual percent torque"),
            number(0xF004, b"EEC1", 190, bytes 4 to 5, step 125, offset 0, places 3, Rpm, b"engine speed"),
            // VD, vehicle distance
            number(0xFEE0, b"VD", 244, bytes 1 to 4, step 125, offset 0, places 3, Kilometres, b"trip distance"),
            number(0xFEE0, b"VD", 245, bytes 5 to 8, step 125, offset 0, places 3, Kilometres, b"total distance"),
            // HOURS, engine hours and revolutions
            number(0xFEE5, b"HOURS", 247, bytes 1 to 4, step 5, offset 0, places 2, Hours, b"total engine hours"),
            number(0xFEE5, b"HOURS", 249, bytes 5 to 8, step 1000, offset 0, places 0, Revolutions, b"total engine revolutions"),
            // ET1, engine temperature 1
            number(0xFEEE, b"ET1", 110, bytes 1 to 1, step 1, offset -40, places 0, Celsius, b"coolant temperature"),
            number(0xFEEE, b"ET1", 174, bytes 2 to 2, step 1, offset -40, places 0, Celsius, b"fuel temperature"),
            number(0xFEEE, b"ET1", 175, bytes 3 to 4, step 3125, offset -27300000, places 5, Celsius, b"oil temperature"),
            number(0xFEEE, b"ET1", 176, bytes 5 to 6, step 3125, offset -27300000, places 5, Celsius, b"turbocharger oil temperature"),
            number(0xFEEE, b"ET1", 52, bytes 7 to 7, step 1, offset -40, places 0, Celsius, b"intercooler temperature"),
            // EFL/P1, engine fluid level and pressure 1
            number(0xFEEF, b"EFL/P1", 94, bytes 1 to 1, step 4, offset 0, places 0, Kilopascals, b"fuel delivery pressure"),
            number(0xFEEF, b"EFL/P1", 98, bytes 3 to 3, step 4, offset 0, places 1, Percent, b"oil level"),
            number(0xFEEF, b"EFL/P1", 100, bytes 4 to 4, step 4, offset 0, places 0, Kilopascals, b"oil pressure"),
            number(0xFEEF, b"EFL/P1", 109, bytes 7 to 7, step 2, offset 0, places 0, Kilopascals, b"coolant pressure"),
            number(0xFEEF, b"EFL/P1", 111, bytes 8 to 8, step 4, offset 0, places 1, Percent, b"coolant level"),
            // CCVS, cruise control and vehicle speed
            switch(0xFEF1, b"CCVS", 70, byte 1, bits 3 to 4, b"parking brake switch"),
            number(0xFEF1, b"CCVS", 84, bytes 2 to 3, step 390625, offset 0, places 8, KilometresPerHour, b"wheel-based vehicle speed"),
            switch(0xFEF1, b"CCVS", 595, byte 4, bits 1 to 2, b"cruise control active"),
            switch(0xFEF1, b"CCVS", 597, byte 4, bits 5 to 6, b"brake switch"),
            switch(0xFEF1, b"CCVS", 598, byte 4, bits 7 to 8, b"clutch switch"),
            number(0xFEF1, b"CCVS", 86, bytes 6 to 6, step 1, offset 0, places 0, KilometresPerHour, b"cruise control set speed"),
            // LFE, liquid fuel economy
            number(0xFEF2, b"LFE", 183, bytes 1 to 2, step 5, offset 0, places 2, LitresPerHour, b"fuel rate"),
            number(0xFEF2, b"LFE", 184, bytes 3 to 4, step 1953125, offset 0, places 9, KilometresPerLitre, b"instantaneous fuel economy"),
            // AMB, ambient conditions
            number(0xFEF5, b"AMB", 108, bytes 1 to 1, step 5, offset 0, places 1, Kilopascals, b"barometric pressure"),
            number(0xFEF5, b"AMB", 171, bytes 4 to 5, step 3125, offset -27300000, places 5, Celsius, b"ambient air temperature"),
            number(0xFEF5, b"AMB", 172, bytes 6 to 6, step 1, offset -40, places 0, Celsius, b"air inlet temperature"),
            // IC1, inlet and exhaust conditions 1
            number(0xFEF6, b"IC1", 102, bytes 2 to 2, step 2, offset 0, places 0, Kilopascals, b"boost pressure"),
            number(0xFEF6, b"IC1", 105, bytes 3 to 3, step 1, offset -40, places 0, Celsius, b"intake manifold temperature"),
            number(0xFEF6, b"IC1", 173, bytes 6 to 7, step 3125, offset -27300000, places 5, Celsius, b"exhaust gas temperature"),
            // VEP1, vehicle electrical power 1
            number(0xFEF7, b"VEP1", 168, bytes 5 to 6, step 5, offset 0, places 2, Volts, b"battery potential"),
            // DD, dash display
            number(0xFEFC, b"DD", 96, bytes 2 to 2, step 4, offset 0, places 1, Percent, b"fuel level"),
            // VI, vehicle identification
            text(0xFEEC, b"VI", 237, part 1, b"vehicle identification number"),
            // CI, component identification
            text(0xFEEB, b"CI", 586, part 1, b"make"),
            text(0xFEEB, b"CI", 587, part 2, b"model"),
            text(0xFEEB, b"CI", 588, part 3, b"serial number"),
            text(0xFEEB, b"CI", 233, part 4, b"unit number"),
            // SOFT, software identification (own layout)
            number(0xFEDA, b"SOFT", 965, bytes 1 to 1, step 1, offset 0, places 0, Fields, b"number of software identification fields"),
            texts(0xFEDA, b"SOFT", 234, byte 2, parts 31, b"software identification"),
        ]
    };
}

macro_rules! unit {
    (Percent) => {
        b"%"
    };
    (Rpm) => {
        b"rpm"
    };
    (Kilometres) => {
        b"km"
    };
    (Hours) => {
        b"h"
    };
    (Revolutions) => {
        b"r"
    };
    (Celsius) => {
        b"degC"
    };
    (Kilopascals) => {
        b"kPa"
    };
    (KilometresPerHour) => {
        b"km/h"
    };
    (LitresPerHour) => {
        b"L/h"
    };
    (KilometresPerLitre) => {
        b"km/L"
    };
    (Volts) => {
        b"V"
    };
    (Fields) => {
        b"fields"
    };
}

macro_rules! unit_end {
    (Percent) => {
        ShortText {
            bytes: *b"              %\n",
            from: 13,
        }
    };
    (Rpm) => {
        ShortText {
            bytes: *b"            rpm\n",
            from: 11,
        }
    };
    (Kilometres) => {
        ShortText {
            bytes: *b"             km\n",
            from: 12,
        }
    };
    (Hours) => {
        ShortText {
            bytes: *b"              h\n",
            from: 13,
        }
    };
    (Revolutions) => {
        ShortText {
            bytes: *b"              r\n",
            from: 13,
        }
    };
    (Celsius) => {
        ShortText {
            bytes: *b"           degC\n",
            from: 10,
        }
    };
    (Kilopascals) => {
        ShortText {
            bytes: *b"            kPa\n",
            from: 11,
        }
    };
    (KilometresPerHour) => {
        ShortText {
            bytes: *b"           km/h\n",
            from: 10,
        }
    };
    (LitresPerHour) => {
        ShortText {
            bytes: *b"            L/h\n",
            from: 11,
        }
    };
    (KilometresPerLitre) => {
        ShortText {
            bytes: *b"           km/L\n",
            from: 10,
        }
    };
    (Volts) => {
        ShortText {
            bytes: *b"              V\n",
            from: 13,
        }
    };
    (Fields) => {
        ShortText {
            bytes: *b"         fields\n",
            from: 8,
        }
    };
}

// The digit of a number that counts so many.
macro_rules! digit {
    ($number:literal, $unit:literal) => {
        b'0' + ($number / $unit % 10) as u8
    };
}

// One of three, by how many digits a parameter's number has: one, two or three, as all in this table have.
macro_rules! by_digits {
    ($spn:literal, $one:expr, $two:expr, $three:expr) => {
        if $spn < 10 {
            $one
        } else if $spn < 100 {
            $two
        } else {
            $three
        }
    };
}

// The number of a group, of five digits as all in this table have, and that of a parameter, each with a space behind it.
macro_rules! label {
    ($pgn:literal, $spn:literal) => {
        ShortText {
            bytes: [
                b' ',
                b' ',
                b' ',
                b' ',
                b' ',
                b' ',
                by_digits!($spn, b' ', b' ', digit!($pgn, 10_000)),
                by_digits!($spn, b' ', digit!($pgn, 10_000), digit!($pgn, 1_000)),
                by_digits!($spn, digit!($pgn, 10_000), digit!($pgn, 1_000), digit!($pgn, 100)),
                by_digits!($spn, digit!($pgn, 1_000), digit!($pgn, 100), digit!($pgn, 10)),
                by_digits!($spn, digit!($pgn, 100), digit!($pgn, 10), digit!($pgn, 1)),
                by_digits!($spn, digit!($pgn, 10), digit!($pgn, 1), b' '),
                by_digits!($spn, digit!($pgn, 1), b' ', digit!($spn, 100)),
                by_digits!($spn, b' ', digit!($spn, 10), digit!($spn, 10)),
                digit!($spn, 1),
                b' ',
            ],
            from: by_digits!($spn, 8, 7, 6),
        }
    };
}

macro_rules! number {
    ($pgn:literal, $group:literal, $spn:literal, bytes $first:literal to $last:literal, step $step:literal,
     offset $offset:expr, places $places:literal, $unit:ident, $name:literal) => {
        Row {
            pgn: $pgn,
            spn: $spn,
            prepared: Some(Prepared {
                label: label!($pgn, $spn),
                end: Ending {
                    text: unit_end!($unit),
                    places: $places,
                },
            }),
            field: Field::Number {
                first: $first,
                last: $last,
                scale: Slot {
                    step: $step,
                    offset: $offset,
                    places: $places,
                    unit: unit!($unit),
                },
            },
            group: $group,
            name: $name,
        }
    };
}

macro_rules! switch {
    ($pgn:literal, $group:literal, $spn:literal, byte $byte:literal, bits $low:literal to $high:literal, $name:literal) => {
        Row {
            pgn: $pgn,
            spn: $spn,
            prepared: Some(Prepared {
                label: label!($pgn, $spn),
                end: Ending {
                    text: ShortText {
                        bytes: *b"                ",
                        from: 16,
                    },
                    places: 0,
                },
            }),
            field: Field::Switch {
                byte: $byte,
                low: $low,
                high: $high,
            },
            group: $group,
            name: $name,
        }
    };
}

macro_rules! text {
    ($pgn:literal, $group:literal, $spn:literal, part $part:literal, $name:literal) => {
        Row {
            pgn: $pgn,
            spn: $spn,
            prepared: None,
            field: Field::Text { part: $part },
            group: $group,
            name: $name,
        }
    };
}

macro_rules! texts {
    ($pgn:literal, $group:literal, $spn:literal, byte $byte:literal, parts $count:literal, $name:literal) => {
        Row {
            pgn: $pgn,
            spn: $spn,
            prepared: None,
            field: Field::Texts {
                byte: $byte,
                count: $count,
            },
            group: $group,
            name: $name,
        }
    };
}

macro_rules! rows {
    ($($kind:ident ($($column:tt)*),)*) => {
        &[$($kind!($($column)*)),*]
    };
}

/// All rows.
const TABLE: &[Row<'static>] = parameters!(rows);
