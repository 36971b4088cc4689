//! The columns of a line of a table.
ghost use Rattle.std.specs.Prelude.{◌≡◌, ◌≤◌, length};
ghost use Rattle.std.specs.List.{prefix_len};
ghost use Rattle.j39_io.specs.Chars.{is_space, is_not_space};
ghost use Rattle.j39_table.specs.Lines.{behind_word, column_texts, first_word, line_columns, without_spaces};

/// The columns of a line; one that is not there is empty.
#[derive(Clone, Copy)]
pub(crate) struct Columns<'t> {
    pub pgn: &'t [u8],
    pub group: &'t [u8],
    pub spn: &'t [u8],
    pub place: &'t [u8],
    pub step: &'t [u8],
    pub offset: &'t [u8],
    pub unit: &'t [u8],
    /// To the line's end, with the names of states.
    pub name: &'t [u8],
}

/// Seven words, and the name with the states to the line's end.
pub(crate) fn columns_of(line: &[u8]) -> Columns<'_>
    ensures { column_texts result ≡ line_columns line.now }
{
    let (pgn, rest) = word(line);
    let (group, rest) = word(rest);
    let (spn, rest) = word(rest);
    let (place, rest) = word(rest);
    let (step, rest) = word(rest);
    let (offset, rest) = word(rest);
    let (unit, rest) = word(rest);
    let name = without_spaces(rest);
    Columns {
        pgn,
        group,
        spn,
        place,
        step,
        offset,
        unit,
        name,
    }
}

/// The first word of a text, and what follows it.
#[tactic(auto, unfolding(crate::specs::Lines::first_word, crate::specs::Lines::behind_word))]
pub(crate) fn word(text: &[u8]) -> (&[u8], &[u8])
    ensures word { result.0.now ≡ first_word text.now }
    ensures rest { result.1.now ≡ behind_word text.now }
{
    let text = without_spaces(text);
    text.split_at(word_len(text))
}

/// A text without the spaces in front.
#[tactic(auto, unfolding(crate::specs::Lines::without_spaces))]
pub(crate) fn without_spaces(text: &[u8]) -> &[u8]
    ensures { result.now ≡ without_spaces text.now }
{
    let (_, rest) = text.split_at(spaces_len(text));
    rest
}

fn spaces_len(text: &[u8]) -> usize
    ensures value { result ≡ prefix_len is_space text.now }
    ensures fits { result ≤ length text.now }
{
    text.iter().take_while(|b| **b == b' ').count()
}

fn word_len(text: &[u8]) -> usize
    ensures value { result ≡ prefix_len is_not_space text.now }
    ensures fits { result ≤ length text.now }
{
    text.iter().take_while(|b| **b != b' ').count()
}
