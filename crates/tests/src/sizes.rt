//! The bytes of a controller, as the C header states them, and of the parts by themselves.
use j39_address::{Claimer, Claims};
use j39_node::Controller;
use j39_transport::{Assembler, Broadcast, OwnedSender, Receiver, Sender};
use std::mem::size_of;

#[test]
fn memory_of_the_parts(rt: HostRuntime) {
    let met = [
        size_of::<Claimer>(),
        size_of::<Claims>(),
        size_of::<Assembler>(),
        size_of::<Broadcast<'static>>(),
        size_of::<Sender<'static>>(),
        size_of::<OwnedSender>(),
        size_of::<Receiver>(),
        size_of::<Controller>(),
    ];
    assert_eq!(rt; met, [2_312, 2_288, 4_336, 40, 64, 72, 40, 5_384]);
}
