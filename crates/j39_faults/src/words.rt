//! What the failure mode identifiers mean (J1939-73, appendix A).
ghost use Rattle.std.specs.Prelude.{◌≡◌};
ghost use Rattle.j39_faults.specs.Words.{fmi_words};

/// What is wrong, by a failure mode identifier (FMI): 0 to 21 and 31; `reserved` at any other number.
pub fn fmi_words(fmi: u8) -> &'static str
    ensures { result.now ≡ fmi_words fmi }
{
    match fmi {
        0 => "data valid but above normal operational range, most severe level",
        1 => "data valid but below normal operational range, most severe level",
        2 => "data erratic, intermittent or incorrect",
        3 => "voltage above normal, or shorted to high source",
        4 => "voltage below normal, or shorted to low source",
        5 => "current below normal or open circuit",
        6 => "current above normal or grounded circuit",
        7 => "mechanical system not responding or out of adjustment",
        8 => "abnormal frequency or pulse width or period",
        9 => "abnormal update rate",
        10 => "abnormal rate of change",
        11 => "root cause not known",
        12 => "bad intelligent device or component",
        13 => "out of calibration",
        14 => "special instructions",
        15 => "data valid but above normal operating range, least severe level",
        16 => "data valid but above normal operating range, moderately severe level",
        17 => "data valid but below normal operating range, least severe level",
        18 => "data valid but below normal operating range, moderately severe level",
        19 => "received network data in error",
        20 => "data drifted high",
        21 => "data drifted low",
        31 => "condition exists",
        _ => "reserved",
    }
}
