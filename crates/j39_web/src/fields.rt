//! The fields of a NAME, as a page reads them.
ghost use Rattle.std.specs.Prelude.{◌≡◌};
ghost use Rattle.j39_address.specs.Name.{fields_of};
ghost use Rattle.j39_web.specs.Fields.{fields_in};

use j39_address::Name;

/// The ten fields of a NAME, from the top (J1939-81, 4.1.1).
#[repr(C)]
#[derive(Clone, Copy, Debug, PartialEq, Eq)]
pub struct NameFields {
    /// Whether it may take another address: 0 or 1.
    pub arbitrary: u32,
    /// The industry group, 0 to 7.
    pub industry: u32,
    /// The vehicle system instance, 0 to 15.
    pub system_instance: u32,
    /// The vehicle system, 0 to 127.
    pub system: u32,
    /// The reserved bit, 0 or 1.
    pub reserved: u32,
    /// The function, 0 to 255.
    pub function: u32,
    /// The function instance, 0 to 31.
    pub function_instance: u32,
    /// The ECU instance, 0 to 7.
    pub ecu_instance: u32,
    /// The manufacturer code, 0 to 2,047.
    pub manufacturer: u32,
    /// The identity number, 0 to 2,097,151.
    pub identity: u32,
}

impl NameFields {
    /// The fields of the NAME of these 64 bits.
    pub fn new(raw: u64) -> NameFields
        ensures { fields_in result ≡ fields_of raw }
    {
        let name = Name::new(raw);
        NameFields {
            arbitrary: u32::from(name.arbitrary()),
            industry: u32::from(name.industry()),
            system_instance: u32::from(name.system_instance()),
            system: u32::from(name.system()),
            reserved: u32::from(name.reserved()),
            function: u32::from(name.function()),
            function_instance: u32::from(name.function_instance()),
            ecu_instance: u32::from(name.ecu_instance()),
            manufacturer: u32::from(name.manufacturer()),
            identity: name.identity(),
        }
    }
}
