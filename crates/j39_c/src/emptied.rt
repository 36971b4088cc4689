//! A part in a box of its own that is emptied where it lies.
ghost use Rattle.std.specs.Prelude.{◌≡◌, IfOk};
ghost use Rattle.j39_transport.specs.AssemblerStep.{new_assembler};

use j39_listen::Listener;
use j39_transport::Assembler;
use std::alloc::{AllocError, Global};
use std::mem::forget;

/// A part that can give all its memory back.
pub(crate) trait Empty: Drop {
    // It has none but its own place.
    ghost is_empty: { Self → Type 0 };

    /// Gives it back.
    fn empty(&mut self)
        ensures { is_empty self.new };
}

impl Empty for Listener {
    ghost is_empty = { λ listener. listener.assembler ≡ new_assembler };

    fn empty(&mut self) {
        self.clear();
    }
}

impl Empty for Assembler {
    ghost is_empty = { λ assembler. assembler ≡ new_assembler };

    fn empty(&mut self) {
        self.clear();
    }
}

/// A part of many places, in a box. A box alone moves it out to drop it, which takes as much stack.
pub(crate) struct Emptied<T: Empty> {
    pub(crate) part: Box<T>,
}

impl<T: Empty> Emptied<T> {
    /// Puts a part that has taken no memory yet into a box. An error where memory is refused.
    #[inline(always)]
    pub(crate) fn new(alloc: Global, part: T) -> Result<Emptied<T>, AllocError>
        ensures { IfOk result (λ made. made.part.value ≡ part) }
    {
        match Box::new(alloc, part) {
            Ok(part) => Ok(Emptied { part }),
            Err(refused) => {
                forget(refused.value);
                Err(AllocError)
            }
        }
    }
}

impl<T: Empty> Drop for Emptied<T> {
    fn drop(self) {
        let Emptied { mut part } = self;
        part.empty();
        let_go(Box::into_inner(part));
    }
}

/// Lets a part go that has no memory to give back.
#[inline(always)]
fn let_go<T: Empty>(part: T)
    requires { T.is_empty part }
{
    forget(part);
}
