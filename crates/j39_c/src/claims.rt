//! Who holds which address (J1939-81, 4.2.2). It lies in C's own memory.
ghost use Rattle.std.specs.Prelude.{◌≡◌, ◌≤◌, [], List, length, pos, ◌∷◌};
ghost use Rattle.j39_address.specs.Claim.{claims_of};
ghost use Rattle.j39_address.specs.Claims.{Knows};
ghost use Rattle.j39_address.specs.Holder.{IsHolderAfter};
ghost use Rattle.j39_frame.specs.Frame.{FrameRecord};
ghost use Rattle.j39_c.specs.Calls.{Answers, Fills, FillsFront};
ghost use Rattle.j39_c.specs.Can.{Fits, frame_of};
ghost use Rattle.j39_c.specs.Codes.{bad_value, told};
ghost use Rattle.j39_c.specs.Holders.{Notes, addresses_in};

use crate::can::{CanFrame, frame_in};
use crate::handed_out::put_name;
use crate::refusal::Refusal;
use j39_address::Claims;
use j39_frame::Frame;

/// Nobody holds an address.
#[unsafe(no_mangle)]
pub extern "C" fn j39_claims_init(claims: &mut Claims)
    ensures { Knows claims.new [] }
{
    *claims = Claims::new();
}

/// Notes a frame: how many addresses have another holder by it, 0 to 2, which stand in `changed` then, rising; -1 for
/// a frame that is out of range.
#[unsafe(no_mangle)]
pub extern "C" fn j39_claims_note(
    claims: &mut Claims,
    frame: &CanFrame,
    changed: &mut [u8; 2],
) -> i32
    ensures notes { Fits frame.now
        → Notes claims.old (frame_of frame.now) (addresses_in result changed.new) claims.new }
    ensures count { Fits frame.now → result ≡ pos (length (addresses_in result changed.new)) }
    ensures bad { (Fits frame.now → ⊥)
        → (result ≡ bad_value) × (claims.new ≡ claims.old) }
    ensures answers { Answers 2 (bad_value ∷ []) result }
    ensures fills { FillsFront result changed.old changed.new }
{
    let Some(noted) = frame_in(frame) else {
        return Refusal::BadValue.code();
    };
    note(claims, &noted, changed)
}

fn note(claims: &mut Claims, frame: &Frame, changed: &mut [u8; 2]) -> i32
    ensures notes { Notes claims.old frame.now (addresses_in result changed.new) claims.new }
    ensures count { result ≡ pos (length (addresses_in result changed.new)) }
    ensures answers { Answers 2 [] result }
    ensures fills { FillsFront result changed.old changed.new }
{
    let addresses = claims.note(frame);
    put_addresses(addresses.as_slice(), changed)
}

/// Writes out at most two addresses, and answers how many.
fn put_addresses(addresses: &[u8], changed: &mut [u8; 2]) -> i32
    requires { length addresses.now ≤ 2 }
    ensures value { addresses_in result changed.new ≡ addresses.now }
    ensures count { result ≡ pos (length addresses.now) }
    ensures fills { FillsFront result changed.old changed.new }
{
    let n = addresses.len();
    changed[..n].copy_from_slice(addresses);
    n as i32
}

/// Who holds an address, by the frames noted so far: 1 and the NAME, or 0 where no claim tells it and for 254 and 255.
#[unsafe(no_mangle)]
pub extern "C" fn j39_claims_holder(claims: &Claims, address: u8, name: &mut u64) -> i32
    ensures holder { (F : List FrameRecord) → Knows claims.now F
        → IsHolderAfter (claims_of F) address (told result name.new) }
    ensures answers { Answers 1 [] result }
    ensures fills { Fills (pos 1 ∷ []) result (name.new ≡ name.old) }
{
    put_name(claims.holder(address), name)
}
