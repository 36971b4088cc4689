//! Who sends next: of the controllers that wish to, the one with the lowest identifier.
ghost use Rattle.std.specs.Prelude.{◌≡◌, IfSome, None};
ghost use Rattle.bus_demo.specs.Arbitration.{IsLowest, NoneWishes};

use j39_frame::Id;

/// The place of the lowest of these identifiers, the first one where it stands more than once; `None`
/// where nobody wishes to send.
pub fn winner(wishes: &[Option<Id>]) -> Option<usize>
    ensures lowest { IfSome result (IsLowest wishes.now) }
    ensures none { result ≡ None → NoneWishes wishes.now }
{
    let mut best: Option<(usize, Id)> = None;
    for (place, wish) in wishes.iter().enumerate() {
        if let Some(id) = wish {
            match best {
                Some((_, lowest)) if lowest.raw() <= id.raw() => {}
                _ => best = Some((place, *id)),
            }
        }
    }
    let (place, _lowest) = best?;
    Some(place)
}
