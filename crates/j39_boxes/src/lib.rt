//! Lists of boxes: what a box holds stays where it is while the box moves from a list to another.
#![tactic(auto)]

ghost use Rattle.std.specs.Prelude.{◌≡◌, ◌+◌, ◌<◌, length};
ghost use Rattle.std.specs.List.{remove, slice_index_or, SameBelow, ShiftedDown};
ghost use Rattle.std.specs.Vec.{vec_capacity};

/// Takes out the box at a place; those behind it move up, one after the other. (`Vec::remove` moves several at once, in five times the
/// code: that pays for long lists.)
pub fn remove<T>(boxes: &mut Vec<Box<T>>, place: usize) -> Box<T>
    requires { place < length boxes.old.items }
    ensures value { result ≡ slice_index_or boxes.old.items place result }
    ensures items { boxes.new.items ≡ remove boxes.old.items place }
    ensures len { length boxes.new.items + 1 ≡ length boxes.old.items }
    ensures capacity { vec_capacity boxes.new ≡ vec_capacity boxes.old }
    ensures by_index { SameBelow boxes.old.items boxes.new.items place × ShiftedDown boxes.old.items boxes.new.items place }
{
    for behind in place + 1..boxes.len() {
        boxes.swap(behind - 1, behind);
    }
    boxes.take_last()
}
