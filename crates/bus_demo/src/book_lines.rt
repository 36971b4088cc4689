//! The book of a bus, in lines.
use crate::bus::Bus;
use crate::bus::book::{Delivery, Fate, Handed};
use crate::bus::player::Player;
use std::io;

/// Writes to standard error what was handed in and what became of it, what was delivered, what senders count as done,
/// and each controller with its address and whether it receives a message in packets.
pub(crate) fn tell_book(rt: &HostRuntime, bus: &Bus<'_>) -> io::Result<()> {
    for message in bus.book().handed() {
        tell_message(rt, message)?;
    }
    for delivery in bus.book().deliveries() {
        tell_delivery(rt, delivery)?;
    }
    for number in bus.book().done() {
        eprintln!(rt; "done {number}")?;
    }
    for controller in bus.controllers() {
        tell_controller(rt, controller)?;
    }
    Ok(())
}

/// `handed FATE MOMENT ADDRESS NAME TO PGN PAYLOAD`
fn tell_message(rt: &HostRuntime, message: &Handed) -> io::Result<()> {
    match message.fate {
        Fate::Open => eprint!(rt; "handed open -")?,
        Fate::Whole(moment) => {
            let micros = moment.micros();
            eprint!(rt; "handed whole {micros}")?;
        }
        Fate::Lost => eprint!(rt; "handed lost -")?,
        Fate::Withdrawn => eprint!(rt; "handed withdrawn -")?,
    }
    let (address, name) = (message.address, message.name.raw());
    let (to, pgn) = (message.to, message.pgn.raw());
    eprint!(rt; " {address:02X} {name:016X} {to:02X} {pgn} ")?;
    tell_bytes(rt, message.payload.as_slice())
}

/// `delivered SOURCE PGN PAYLOAD`
fn tell_delivery(rt: &HostRuntime, delivery: &Delivery) -> io::Result<()> {
    let (source, pgn) = (delivery.source, delivery.pgn.raw());
    eprint!(rt; "delivered {source:02X} {pgn} ")?;
    tell_bytes(rt, delivery.payload.as_slice())
}

/// `holds ADDRESS NAME WHAT`, the last `receives` or `idle`
fn tell_controller(rt: &HostRuntime, controller: &Player) -> io::Result<()> {
    let name = controller.name().raw();
    let does = if controller.is_receiving() {
        "receives"
    } else {
        "idle"
    };
    match controller.held() {
        Some(address) => eprintln!(rt; "holds {address:02X} {name:016X} {does}"),
        None => eprintln!(rt; "holds - {name:016X} {does}"),
    }
}

/// Bytes in hex, at the end of a line.
fn tell_bytes(rt: &HostRuntime, bytes: &[u8]) -> io::Result<()> {
    for byte in bytes {
        eprint!(rt; "{byte:02X}")?;
    }
    eprintln!(rt)
}
