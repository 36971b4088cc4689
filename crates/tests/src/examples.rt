//! How the parts are called: a caller for each, proved as it stands.
ghost use Rattle.std.specs.Prelude.{◌≡◌, ◌↔◌, ◌++◌, ◌∷◌, [], ℕ, List, Some, IfOk, IsTrue, MatchResult};
ghost use Rattle.std.specs.Option.{option_map};
ghost use Rattle.j39_address.specs.Claim.{claims_of};
ghost use Rattle.j39_address.specs.Holder.{IsHolderAfter};
ghost use Rattle.j39_address.specs.Name.{name_raw};
ghost use Rattle.j39_faults.specs.Codes.{codes_of};
ghost use Rattle.j39_frame.specs.Stamp.{stamp_micros};
ghost use Rattle.j39_groups.specs.Slots.{IsRawOf};
ghost use Rattle.j39_table.specs.Tables.{IsTableOf};
ghost use Rattle.j39_transport.specs.Cutting.{to_send};
ghost use Rattle.j39_transport.specs.Events.{Event};
ghost use Rattle.j39_transport.specs.Events.Event.{Frame as Came};
ghost use Rattle.j39_transport.specs.Sending.{SendStep, Tick};
ghost use Rattle.j39_transport.specs.Stands.{Stands};

use j39_address::{Claims, Name};
use j39_faults::{codes_of, fault_group, fmi_words, parameter_words};
use j39_frame::{Frame, Id, Pgn, Stamp};
use j39_groups::{Field, Groups, Row, Value, is_heard_group, is_network_group, raw_of, readings};
use j39_io::{DeviceFault, Sink, put_all};
use j39_table::{TableFault, read};
use j39_transport::{Assembler, Fed, SendEvent, Sender};
use std::alloc::{AllocError, Global};

/// The engine speed in a payload of EEC1, in thousandths of an rpm, where it is there and valid.
pub fn engine_speed(bytes: &[u8]) -> Option<i64> {
    let eec1 = Pgn::new(61444)?;
    for reading in readings(eec1, bytes).as_slice() {
        if reading.spn == 190 {
            if let Value::Number(speed, _) = reading.value {
                return Some(speed);
            }
        }
    }
    None
}

/// The raw number of EEC1 that says an engine speed, given in thousandths of an rpm.
pub fn raw_speed(speed: i64) -> Option<u32>
    ensures { (raw : ℕ) → IsRawOf 190 speed raw → result ≡ Some raw }
{
    raw_of(190, speed)
}

/// A row of a table, where it may stand in one.
pub fn row<'t>(
    pgn: Pgn,
    group: &'t [u8],
    spn: u32,
    name: &'t [u8],
    field: Field<'t>,
) -> Option<Row<'t>> {
    if !field.is_sound() || !is_heard_group(pgn) || is_network_group(pgn) {
        return None;
    }
    Some(Row::new(pgn, group, spn, name, field))
}

/// The table of a text, which has to live as long.
pub fn table(alloc: Global, text: &[u8]) -> Result<Groups<'_>, TableFault>
    ensures { IfOk result (λ groups. IsTableOf text.now groups) }
{
    read(alloc, text)
}

/// Whether a payload of DM1 tells no code.
pub fn is_clear(payload: &[u8]) -> bool
    ensures { IsTrue result ↔ (codes_of payload.now ≡ []) }
{
    codes_of(payload).next().is_none()
}

/// Writes a line for each code that a message tells: its parameter, and what is wrong.
pub fn put_faults<W: Sink>(pgn: Pgn, payload: &[u8], sink: &mut W) -> Result<(), DeviceFault> {
    if fault_group(pgn).is_some() {
        for code in codes_of(payload) {
            put_all(sink, parameter_words(code.parameter).as_slice())?;
            put_all(sink, b": ")?;
            put_all(sink, fmi_words(code.fmi).as_bytes())?;
            put_all(sink, b"\n")?;
        }
    }
    Ok(())
}

/// The NAME that holds an address after these frames.
pub fn holder_after(frames: &[Frame], address: u8) -> Option<Name>
    ensures { IsHolderAfter (claims_of frames.now) address (option_map name_raw result) }
{
    let mut claims = Claims::new();
    for frame in frames {
        claims.note(frame);
    }
    claims.holder(address)
}

/// The number of bytes of the message that this frame completes, if it does. Every frame of the bus is fed, in order.
pub fn completed(assembler: &mut Assembler, frame: &Frame) -> Result<Option<usize>, AllocError>
    ensures { MatchResult result
        (λ _. (E : List Event) → Stands E assembler.old → Stands (E ++ Came frame.now ∷ []) assembler.new)
        (λ _. assembler.new ≡ assembler.old) }
{
    match assembler.feed(frame)? {
        Fed::Whole(message) => Ok(Some(message.payload.len())),
        Fed::Taken => Ok(None),
        Fed::Ignored => Ok(None),
    }
}

/// The frame to send after some time, if there is one: a sender sends at ticks alone.
pub fn next_frame(sender: &mut Sender<'_>, now: Stamp) -> Option<(Id, [u8; 8])>
    ensures { SendStep sender.old Tick (stamp_micros now) (option_map to_send result) sender.new }
{
    sender.on(SendEvent::Tick, now)
}
