//! A part of the stack in the hands of C: a pointer to it, or null.
ghost use Rattle.std.specs.Prelude.{◌≡◌, Option, Some, None, pos};
ghost use Rattle.std.specs.Option.{is_some, option_map};
ghost use Rattle.j39_c.specs.Codes.{IsDone, IsRefused, no_memory};
ghost use Rattle.j39_c.specs.HandleOwns.{held};
ghost use Rattle.j39_c.specs.declared.part.Part.{Part};

use crate::loose::Loose;
use crate::part::Part;
use crate::refusal::Refusal;
use std::alloc::Global;
use std::marker::Model;
use std::mem::replace;

/// A part of the stack, or nothing: a handle of the header. C sets it to zero first, and then hands it in by its
/// address alone.
#[repr(C)]
pub struct Handle {
    at: *mut u8,
    pub ghost part: { Option Part },
}

impl Model for Handle {
    ghost also_owns = { λ h. held h.at h.part };
}

impl Handle {
    /// A handle of nothing.
    pub(crate) fn empty() -> Handle
        ensures { result.part ≡ None }
    {
        Handle {
            at: std::ptr::null_mut(),
        }
    }

    fn of_loose(part: Loose<Part, Global>) -> Handle
        ensures { result.part ≡ Some part.value }
    {
        let Loose { at, alloc: _ } = part;
        Handle { at: at as *mut u8 }
    }

    fn into_loose(self, alloc: Global) -> Option<Loose<Part, Global>>
        ensures { option_map (λ l. l.value) result ≡ self.part }
    {
        let Handle { at } = self;
        if at.is_null() {
            None
        } else {
            Some(Loose {
                at: at as *mut Part,
                alloc,
            })
        }
    }

    /// A handle of this part.
    pub(crate) fn of(part: Box<Part>) -> Handle
        ensures { result.part ≡ Some part.value }
    {
        Handle::of_loose(Loose::of(part))
    }

    /// The part, where there is one.
    pub(crate) fn into_part(self, alloc: Global) -> Option<Box<Part>>
        ensures { option_map (λ b. b.value) result ≡ self.part }
    {
        let loose = self.into_loose(alloc)?;
        Some(loose.into_box())
    }

    /// Takes the part out.
    pub(crate) fn take(&mut self, alloc: Global) -> Option<Box<Part>>
        ensures part { option_map (λ b. b.value) result ≡ self.old.part }
        ensures empty { self.new.part ≡ None }
    {
        replace(self, Handle::empty()).into_part(alloc)
    }

    /// Puts a part in, in the place of what was there.
    pub(crate) fn put(&mut self, alloc: Global, part: Box<Part>)
        ensures { self.new.part ≡ Some part.value }
    {
        let _before = replace(self, Handle::of(part)).into_part(alloc);
    }

    /// Whether it holds a part.
    pub(crate) fn is_open(&mut self, alloc: Global) -> bool
        ensures open { result ≡ is_some self.old.part }
        ensures same { self.new.part ≡ self.old.part }
    {
        match self.take(alloc) {
            Some(part) => {
                self.put(alloc, part);
                true
            }
            None => false,
        }
    }

    /// Puts a new part in, in the place of what was there: 0, or -3 where memory is refused.
    pub(crate) fn put_new(&mut self, alloc: Global, part: Part) -> i32
        ensures made { IsDone result → (result ≡ pos 0) × (self.new.part ≡ Some part) }
        ensures refused { IsRefused result → (result ≡ no_memory) × (self.new.part ≡ self.old.part) }
    {
        let Ok(part) = Box::new(alloc, part) else {
            return Refusal::NoMemory.code();
        };
        self.put(alloc, part);
        0
    }
}

/// Frees what a handle holds. It holds nothing then, and may be used again.
#[unsafe(no_mangle)]
pub extern "C" fn j39_close(alloc: Global, handle: &mut Handle)
    ensures { handle.new.part ≡ None }
{
    let _part = handle.take(alloc);
}
