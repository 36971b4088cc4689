//! An engine's controller: it claims address 0, sends its speed, hears that of another engine, and answers what it is asked.
use crate::examples::engine_speed;
use j39_address::{Name, Status};
use j39_application::{Outgoing, send, take_ended};
use j39_frame::{Frame, GLOBAL_ADDRESS, Pgn, Stamp};
use j39_groups::raw_of;
use j39_node::{Answer, Controller, Request, Setup};
use std::alloc::{AllocError, Global};

/// An engine's controller, what it measures and shows, and when it sends next.
#[derive(Drop)]
pub struct Engine {
    controller: Controller,
    /// In thousandths of an rpm: its own, and that of another engine.
    speed: i64,
    other_speed: Option<i64>,
    /// In microseconds.
    due: u64,
}

/// It claims address 0, and hears no broadcast in packets.
fn setup<'a>(name: Name, served: &'a [Pgn], subscribed: &'a [Pgn]) -> Setup<'a> {
    Setup {
        name,
        address: 0,
        delay: 0,
        served,
        subscribed: Some(subscribed),
        broadcasts: 0,
        sessions: 1,
        transfers: 1,
        window: 16,
    }
}

impl Engine {
    /// One that serves these groups: a request for any other is refused without its program. It receives engine speeds alone.
    pub fn new(alloc: Global, name: Name, served: &[Pgn]) -> Result<Option<Engine>, AllocError> {
        let Some(speeds) = Pgn::new(61_444) else {
            return Ok(None);
        };
        let subscribed = [speeds];
        let setup = setup(name, served, &subscribed);
        let Some(controller) = Controller::new(alloc, &setup)? else {
            return Ok(None);
        };
        Ok(Some(Engine {
            controller,
            speed: 1_500_000,
            other_speed: None,
            due: 0,
        }))
    }

    /// The speed of another engine, if it was heard.
    pub fn other_speed(&self) -> Option<i64> {
        self.other_speed
    }
}

/// A turn, with a frame that came or none: the frame that goes out, or none. Turn again until it is none.
pub fn turn(engine: &mut Engine, heard: Option<&Frame>, now: Stamp) -> Option<Frame> {
    let controller = &mut engine.controller;
    match heard {
        Some(frame) => controller.hear(frame, now),
        None => controller.tick(now),
    }
    let is_holding = matches!(&controller.status(), Status::Holding(_));
    if is_holding && engine.due <= now.micros() {
        engine.due = now.micros().saturating_add(100_000);
        let [low, high, _, _] = raw_of(190, engine.speed).unwrap_or(0xFFFF).to_le_bytes();
        let bytes = [0xFF, 0xFF, 0xFF, low, high, 0xFF, 0xFF, 0xFF];
        let _token = controller.send(now, 3, Pgn::new(61_444)?, GLOBAL_ADDRESS, &bytes);
    }
    if let Some(request) = controller.take_request() {
        answer(controller, request, now);
    }
    take_in(engine);
    engine.controller.take_frame(now)
}

/// Its VIN goes to all if all were asked, else to who asked, or `Busy`. What else it serves it denies.
fn answer(controller: &mut Controller, request: Request, now: Stamp) {
    let vin = Outgoing {
        priority: 6,
        group: request.group,
        to: if request.destination == GLOBAL_ADDRESS {
            GLOBAL_ADDRESS
        } else {
            request.source
        },
        bytes: b"1FUJA6CV12LK12345*",
    };
    if request.group.raw() != 65_260 {
        let _refused = controller.acknowledge(now, request, Answer::Denied);
    } else if send(controller, now, &vin).is_err() {
        let _refused = controller.acknowledge(now, request, Answer::Busy);
    }
}

/// Takes what waits, so that more can come; moves if the address is lost.
fn take_in(engine: &mut Engine) {
    let controller = &mut engine.controller;
    if let Some(message) = controller.take_received() {
        engine.other_speed = engine_speed(message.bytes.as_slice());
    }
    controller.release_transfer();
    controller.release_broadcast();
    take_ended(controller);
    controller.take_news();
    if let (Status::Cannot, Some(free)) = (controller.status(), controller.free_address()) {
        controller.move_to(free);
    }
}
