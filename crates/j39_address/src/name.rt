//! NAMEs (J1939-81, 4.1.1).
ghost use Rattle.std.specs.Prelude.{◌≡◌, ◌↔◌, ◌<◌, ◌+◌, ◌*◌, ◌^◌, ℕ, IsSome, IfSome, IsSomeAnd};
ghost use Rattle.byteorder.specs.Endian.{little_bytes};
ghost use Rattle.j39_address.specs.Name.{AreNameFields, fields_of, name_fields, name_raw};

use byteorder::{ByteOrder, LittleEndian};

/// The 64-bit NAME of a controller. The numerically smaller one wins a contest.
#[repr(C)]
#[derive(Clone, Copy, Debug, PartialEq, Eq, PartialOrd, Ord)]
pub struct Name {
    bits: u64,
}

impl Name {
    /// The NAME of these bits.
    pub fn new(raw: u64) -> Name
        ensures { name_raw result ≡ raw }
    {
        Name { bits: raw }
    }

    /// The 64 bits.
    pub fn raw(self) -> u64
        ensures { result ≡ name_raw self }
    {
        self.bits
    }

    /// The eight bytes of the NAME, the low byte first, as a claim carries them.
    pub fn bytes(self) -> [u8; 8]
        ensures { result ≡ little_bytes 8 (name_raw self) }
    {
        let mut bytes = [0; 8];
        LittleEndian::write_u64(&mut bytes, self.raw());
        bytes
    }

    /// Arbitrary address capable: 1 where the controller may claim another address than its preferred
    /// one, else 0.
    pub fn arbitrary(self) -> u8
        ensures { result ≡ (fields_of (name_raw self)).arbitrary }
    {
        (self.raw() >> 63) as u8
    }

    /// The industry group, 0 to 7.
    pub fn industry(self) -> u8
        ensures { result ≡ (fields_of (name_raw self)).industry }
    {
        (self.raw() >> 60 & 7) as u8
    }

    /// The vehicle system instance, 0 to 15.
    pub fn system_instance(self) -> u8
        ensures { result ≡ (fields_of (name_raw self)).system_instance }
    {
        (self.raw() >> 56 & 0xF) as u8
    }

    /// The vehicle system, 0 to 127.
    pub fn system(self) -> u8
        ensures { result ≡ (fields_of (name_raw self)).system }
    {
        (self.raw() >> 49 & 0x7F) as u8
    }

    /// The reserved bit.
    pub fn reserved(self) -> u8
        ensures { result ≡ (fields_of (name_raw self)).reserved }
    {
        (self.raw() >> 48 & 1) as u8
    }

    /// The function, 0 to 255.
    pub fn function(self) -> u8
        ensures { result ≡ (fields_of (name_raw self)).function }
    {
        (self.raw() >> 40 & 0xFF) as u8
    }

    /// The function instance, 0 to 31.
    pub fn function_instance(self) -> u8
        ensures { result ≡ (fields_of (name_raw self)).function_instance }
    {
        (self.raw() >> 35 & 0x1F) as u8
    }

    /// The ECU instance, 0 to 7.
    pub fn ecu_instance(self) -> u8
        ensures { result ≡ (fields_of (name_raw self)).ecu_instance }
    {
        (self.raw() >> 32 & 7) as u8
    }

    /// The manufacturer code, 0 to 2,047.
    pub fn manufacturer(self) -> u16
        ensures { result ≡ (fields_of (name_raw self)).manufacturer }
    {
        (self.raw() >> 21 & 0x7FF) as u16
    }

    /// The identity number, 0 to 2,097,151.
    pub fn identity(self) -> u32
        ensures { result ≡ (fields_of (name_raw self)).identity }
    {
        (self.raw() & 0x1F_FFFF) as u32
    }

    /// The NAME of these fields, from the top; `None` where one is too large for its bits.
    pub fn of_fields(
        arbitrary: u8,
        industry: u8,
        system_instance: u8,
        system: u8,
        reserved: u8,
        function: u8,
        function_instance: u8,
        ecu_instance: u8,
        manufacturer: u16,
        identity: u32,
    ) -> Option<Name>
        ensures known { IsSome result ↔ AreNameFields (name_fields arbitrary industry system_instance system
            reserved function function_instance ecu_instance manufacturer identity) }
        ensures fields { IfSome result (λ name. fields_of (name_raw name)
            ≡ (name_fields arbitrary industry system_instance system
            reserved function function_instance ecu_instance manufacturer identity)) }

        // The fields of a NAME give it back.
        ensures back { (raw : ℕ) → raw < 2 ^ 64 → fields_of raw ≡ (name_fields arbitrary industry system_instance system
            reserved function function_instance ecu_instance manufacturer identity)
            → IsSomeAnd result (λ name. name_raw name ≡ raw) }
    {
        let fits = arbitrary < 2
            && industry < 8
            && system_instance < 16
            && system < 128
            && reserved < 2
            && function_instance < 32
            && ecu_instance < 8
            && manufacturer < 2048
            && identity < 1 << 21;
        if !fits {
            return None;
        }
        let top = top_of(
            arbitrary,
            industry,
            system_instance,
            system,
            reserved,
            function,
            function_instance,
            ecu_instance,
        );
        let low = u32::from(manufacturer) << 21 | identity;
        Some(Name::new(u64::from(top) << 32 | u64::from(low)))
    }
}

/// The upper half of a NAME.
fn top_of(
    arbitrary: u8,
    industry: u8,
    system_instance: u8,
    system: u8,
    reserved: u8,
    function: u8,
    function_instance: u8,
    ecu_instance: u8,
) -> u32
    requires arbitrary { arbitrary < 2 }
    requires industry { industry < 8 }
    requires system_instance { system_instance < 16 }
    requires system { system < 128 }
    requires reserved { reserved < 2 }
    requires function_instance { function_instance < 32 }
    requires ecu_instance { ecu_instance < 8 }
    ensures { result
        ≡ arbitrary * 2 ^ 31 + industry * 2 ^ 28 + system_instance * 2 ^ 24 + system * 2 ^ 17 + reserved * 2 ^ 16
        + function * 2 ^ 8 + function_instance * 2 ^ 3 + ecu_instance }
{
    let group = u32::from(arbitrary) * 8 + u32::from(industry);
    let system = (group * 16 + u32::from(system_instance)) * 128 + u32::from(system);
    let function = (system * 2 + u32::from(reserved)) * 256 + u32::from(function);
    (function * 32 + u32::from(function_instance)) * 8 + u32::from(ecu_instance)
}
