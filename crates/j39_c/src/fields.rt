//! The fields of identifiers and NAMEs (J1939-21, 5.2; J1939-81, 4.1.1).
ghost use Rattle.std.specs.Prelude.{◌≡◌, ◌<◌, ◌^◌, pos, ◌∷◌, []};
ghost use Rattle.j39_address.specs.Name.{AreNameFields, fields_of};
ghost use Rattle.j39_c.specs.Codes.{bad_value};
ghost use Rattle.j39_c.specs.Fields.{AreFieldsOf, CanBeComposed, IsComposed, name_fields_in};
ghost use Rattle.j39_c.specs.Calls.{Answers, Fills};

use crate::refusal::Refusal;
use j39_address::Name;
use j39_frame::{GLOBAL_ADDRESS, Id, Pgn};

/// The fields of an identifier, `j1939_id_fields` of the header.
#[repr(C)]
#[derive(Clone, Copy, Debug)]
pub struct IdFields {
    /// The group, of 18 bits.
    pub pgn: u32,
    /// The priority, 0 (the highest) to 7.
    pub priority: u8,
    /// The source address.
    pub source: u8,
    /// The destination address; 255, to all, for groups that have none.
    pub destination: u8,
}

/// Reads the fields of an identifier: 0; -1 for one of 2^29 and above.
#[unsafe(no_mangle)]
pub extern "C" fn j39_id_split(id: u32, fields: &mut IdFields) -> i32
    ensures fields { id < 2 ^ 29 → (result ≡ pos 0) × AreFieldsOf fields.new id }
    ensures bad { (id < 2 ^ 29 → ⊥) → result ≡ bad_value }
    ensures answers { Answers 0 (bad_value ∷ []) result }
    ensures fills { Fills (pos 0 ∷ []) result (fields.new ≡ fields.old) }
{
    let Some(id) = Id::new(id) else {
        return Refusal::BadValue.code();
    };
    *fields = IdFields {
        pgn: id.pgn().raw(),
        priority: id.priority(),
        source: id.source(),
        destination: id.destination().unwrap_or(GLOBAL_ADDRESS),
    };
    0
}

/// Composes the identifier of these fields: 0; -1 for a priority above 7, a group of 2^18 and above, and a group of
/// PF below 240 whose low byte is not 0. For PF 240 and up the destination is not used.
#[unsafe(no_mangle)]
pub extern "C" fn j39_id_compose(fields: &IdFields, id: &mut u32) -> i32
    ensures composed { CanBeComposed fields.now → (result ≡ pos 0) × IsComposed fields.now id.new }
    ensures bad { (CanBeComposed fields.now → ⊥) → result ≡ bad_value }
    ensures answers { Answers 0 (bad_value ∷ []) result }
    ensures fills { Fills (pos 0 ∷ []) result (id.new ≡ id.old) }
{
    let Some(pgn) = Pgn::new(fields.pgn) else {
        return Refusal::BadValue.code();
    };
    let IdFields {
        priority,
        source,
        destination,
        ..
    } = *fields;
    let Some(composed) = Id::compose(priority, pgn, destination, source) else {
        return Refusal::BadValue.code();
    };
    *id = composed.raw();
    0
}

/// The fields of a NAME, `j1939_name_fields` of the header.
#[repr(C)]
#[derive(Clone, Copy, Debug)]
pub struct NameParts {
    /// The identity number, 0 to 2,097,151.
    pub identity: u32,
    /// The manufacturer code, 0 to 2,047.
    pub manufacturer: u16,
    /// 1 where the controller may claim another address than its preferred one, else 0.
    pub arbitrary: u8,
    /// The industry group, 0 to 7.
    pub industry: u8,
    /// The vehicle system instance, 0 to 15.
    pub system_instance: u8,
    /// The vehicle system, 0 to 127.
    pub system: u8,
    /// The reserved bit.
    pub reserved: u8,
    /// The function, 0 to 255.
    pub function: u8,
    /// The function instance, 0 to 31.
    pub function_instance: u8,
    /// The ECU instance, 0 to 7.
    pub ecu_instance: u8,
}

/// Reads the fields of a NAME.
#[unsafe(no_mangle)]
pub extern "C" fn j39_name_split(name: u64, fields: &mut NameParts)
    ensures { name_fields_in fields.new ≡ fields_of name }
{
    let name = Name::new(name);
    *fields = NameParts {
        identity: name.identity(),
        manufacturer: name.manufacturer(),
        arbitrary: name.arbitrary(),
        industry: name.industry(),
        system_instance: name.system_instance(),
        system: name.system(),
        reserved: name.reserved(),
        function: name.function(),
        function_instance: name.function_instance(),
        ecu_instance: name.ecu_instance(),
    };
}

/// Composes the NAME of these fields: 0; -1 where one is too large for its bits.
#[unsafe(no_mangle)]
pub extern "C" fn j39_name_compose(fields: &NameParts, name: &mut u64) -> i32
    ensures composed { AreNameFields (name_fields_in fields.now)
        → (result ≡ pos 0) × (fields_of name.new ≡ name_fields_in fields.now) }
    ensures bad { (AreNameFields (name_fields_in fields.now) → ⊥) → result ≡ bad_value }
    ensures answers { Answers 0 (bad_value ∷ []) result }
    ensures fills { Fills (pos 0 ∷ []) result (name.new ≡ name.old) }
{
    let composed = Name::of_fields(
        fields.arbitrary,
        fields.industry,
        fields.system_instance,
        fields.system,
        fields.reserved,
        fields.function,
        fields.function_instance,
        fields.ecu_instance,
        fields.manufacturer,
        fields.identity,
    );
    let Some(composed) = composed else {
        return Refusal::BadValue.code();
    };
    *name = composed.raw();
    0
}
