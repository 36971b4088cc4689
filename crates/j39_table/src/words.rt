//! The words and the names of a table.
ghost use Rattle.std.specs.Prelude.{◌↔◌, IsTrue};
ghost use Rattle.j39_table.specs.Words.{IsName, IsWord};

/// Whether a text is a word: one byte or more, each above the space and no delete.
pub(crate) fn is_word(text: &[u8]) -> bool
    ensures { IsTrue result ↔ IsWord text.now }
{
    !text.is_empty() && text.iter().all(|&b| b > 0x20 && b != 0x7F)
}

/// Whether a text is a name: one byte or more, no space first, no control byte.
pub(crate) fn is_name(text: &[u8]) -> bool
    ensures { IsTrue result ↔ IsName text.now }
{
    !text.is_empty() && text[0] != b' ' && text.iter().all(|&b| b >= 0x20 && b != 0x7F)
}
