//! A set of source addresses.
ghost use Rattle.std.specs.Prelude.{◌≡◌, ◌==◌, ◌||◌, ◌<◌, ◌^◌, ℕ, not, bit_or};
ghost use Rattle.j39_survey.specs.SurveyModels.{has_bit};

/// Which of the 256 addresses are in it.
#[derive(Clone, Copy)]
pub(crate) struct Addresses {
    words: [u64; 4],
}

impl Addresses {
    ghost use Rattle.std.specs.Prelude.{false};
    ghost use Rattle.j39_survey.specs.SurveyModels.{has_address};

    /// No address.
    pub fn new() -> Addresses
        ensures { (a : ℕ) → has_address result a ≡ false }
    {
        Addresses { words: [0; 4] }
    }

    /// Adds an address; whether it was not in it.
    pub fn add(&mut self, address: u8) -> bool
        ensures new { result ≡ not (has_address self.old address) }
        ensures added { (a : ℕ) → has_address self.new a ≡ (a == address || has_address self.old a) }
    {
        let at = usize::from(address / 64);
        let word = self.words[at];
        let is_new = !has_bit(word, address % 64);
        self.words[at] = with_bit(word, address % 64);
        is_new
    }
}

fn has_bit(word: u64, at: u8) -> bool
    requires { at < 64 }
    ensures { result ≡ has_bit word at }
{
    (word >> at) & 1 == 1
}

fn with_bit(word: u64, at: u8) -> u64
    requires { at < 64 }
    ensures { result ≡ bit_or word (2 ^ at) }
{
    word | 1 << at
}
