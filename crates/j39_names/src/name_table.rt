//! Numbers and their names.
ghost use Rattle.std.specs.Prelude.{◌≡◌, ◌==◌, option_map, position};
ghost use Rattle.j39_names.specs.Names.{between, name_at, name_in, names_of};

/// Numbers and their names, in one order: the names stand one behind the other in a text, and where each starts, and last where
/// they end.
#[derive(Clone, Copy)]
pub(crate) struct NameTable<'t> {
    pub numbers: &'t [u32],
    pub starts: &'t [u32],
    pub text: &'t [u8],
}

impl<'t> NameTable<'t> {
    /// The name of a number.
    pub fn name_of(self, number: u32) -> Option<&'t [u8]>
        ensures { option_map (λ name. name.now) result ≡ name_in (names_of self.entry) number }
    {
        match place_of(self.numbers, number) {
            Some(at) => name_at(self.starts, self.text, at),
            None => None,
        }
    }
}

/// Where a number stands.
fn place_of(numbers: &[u32], number: u32) -> Option<usize>
    ensures { result ≡ position (λ listed. listed == number) numbers.now }
{
    numbers.iter().position(|listed| *listed == number)
}

/// The name in this place of a text in which each name starts where the one before it ends.
fn name_at<'t>(starts: &[u32], text: &'t [u8], at: usize) -> Option<&'t [u8]>
    ensures { option_map (λ name. name.now) result ≡ name_at starts.now text.now at }
{
    let start = *starts.get(at)?;
    let end = *starts.get(at + 1)?;
    between(text, start as usize, end as usize)
}

/// What lies in a text from one place to another.
fn between(text: &[u8], start: usize, end: usize) -> Option<&[u8]>
    ensures { option_map (λ part. part.now) result ≡ between text.now start end }
{
    text.get(start..end)
}
