//! The parts of the stack that a handle can hold.
ghost use Rattle.std.specs.Prelude.{◌≡◌, IfOk, Ok};

use crate::emptied::Emptied;
use j39_application::{Answers, Outbox};
use j39_listen::Listener;
use j39_node::Controller;
use j39_transport::{Assembler, OwnedSender, Receiver};
use std::alloc::{AllocError, Global};

/// What a handle holds. Each kind lies in a box of its own size.
#[derive(Drop)]
pub(crate) enum Part {
    Listening(Emptied<Listener>),
    Receiving(Box<Receiver>),
    Sending(Box<OwnedSender>),
    Assembling(Emptied<Assembler>),
    Controlling(Box<Controller>),
    Answering(Box<Answers>),
    Posting(Box<Outbox>),
}

/// What was made, in a box of its own. An error where memory is refused, or was.
pub(crate) fn in_box<T: Drop>(
    alloc: Global,
    made: Result<T, AllocError>,
) -> Result<Box<T>, AllocError>
    ensures { IfOk result (λ boxed. made ≡ Ok boxed.value) }
{
    Ok(Box::new(alloc, made?)?)
}

/// What the part of this kind in a handle answers, or that the handle holds none: the part is taken out, asked, and put
/// back.
macro_rules! ask {
    ($alloc:ident, $handle:ident, $kind:ident($held:ident) => $answer:expr) => {
        match $handle.take($alloc) {
            Some(mut part) => {
                let code = match &mut *part {
                    $crate::part::Part::$kind($held) => $answer,
                    _ => $crate::refusal::Refusal::NoPart.code(),
                };
                $handle.put($alloc, part);
                code
            }
            None => $crate::refusal::Refusal::NoPart.code(),
        }
    };
}

/// Puts a new part of this kind, which this call puts into a box of its own, into a handle: 0, or -3 where memory is refused, and
/// -4 where the handle is open.
macro_rules! open {
    ($alloc:ident, $handle:ident, $kind:ident($made:expr)) => {{
        if $handle.is_open($alloc) {
            return $crate::refusal::Refusal::InUse.code();
        }
        let Ok(made) = $made else {
            return $crate::refusal::Refusal::NoMemory.code();
        };
        $handle.put_new($alloc, $crate::part::Part::$kind(made))
    }};
}

pub(crate) use ask;
pub(crate) use open;
