//! The fields of a line.
ghost use Rattle.std.specs.Prelude.{◌≡◌, ◌≢◌, ℕ, List, [], ◌∷◌, ◌≤◌, ◌↔◌, ◌⊎◌, IsTrue, length, MatchOption, codes};
ghost use Rattle.std.specs.List.{prefix_len};
ghost use Rattle.j39_io.specs.Chars.{is_space, is_not_space};
ghost use Rattle.j39_log.specs.Fields.{fields_in};
ghost use Rattle.j39_log.specs.Line.{IsFlags};
ghost use Rattle.j39_log.specs.Shape.{HasShape};

/// The fields of a line, as far as their number matters.
pub(crate) enum Shape<'a> {
    Blank,
    Three(&'a [u8], &'a [u8], &'a [u8]),
    Odd,
}

/// The fields of a text: three, and after them at most an `R` or a `T`.
pub(crate) fn shape_of(text: &[u8]) -> Shape<'_>
    ensures { HasShape result (fields_in text.now) }
{
    let Some((first, rest)) = next_field(text) else {
        return Shape::Blank;
    };
    let Some((second, rest)) = next_field(rest) else {
        return Shape::Odd;
    };
    let Some((third, rest)) = next_field(rest) else {
        return Shape::Odd;
    };
    if has_flags(rest) {
        Shape::Three(first, second, third)
    } else {
        Shape::Odd
    }
}

/// Whether the fields of a text are at most an `R` or a `T`.
fn has_flags(text: &[u8]) -> bool
    ensures { IsTrue result ↔ IsFlags (fields_in text.now) }
{
    match next_field(text) {
        None => true,
        Some((flag, rest)) => is_flag(flag) && next_field(rest).is_none(),
    }
}

fn is_flag(field: &[u8]) -> bool
    ensures { IsTrue result ↔ ((field.now ≡ codes "R") ⊎ (field.now ≡ codes "T")) }
{
    matches!(field, [b'R' | b'T'])
}

/// The first field and what follows it.
#[tactic(auto, using(crate::proofs::FieldLemmas::no_field))]
pub(crate) fn next_field(text: &[u8]) -> Option<(&[u8], &[u8])>
    ensures { MatchOption result (fields_in text.now ≡ [])
        (λ found. fields_in text.now ≡ found.0.now ∷ fields_in found.1.now) }
{
    let start = spaces_len(text);
    if start >= text.len() {
        return None;
    }
    let (_, text) = text.split_at(start);
    Some(text.split_at(field_len(text)))
}

fn spaces_len(text: &[u8]) -> usize
    ensures { result ≡ prefix_len is_space text.now }
{
    text.iter().take_while(|b| **b == b' ').count()
}

fn field_len(text: &[u8]) -> usize
    ensures value { result ≡ prefix_len is_not_space text.now }
    ensures fits { result ≤ length text.now }
{
    text.iter().take_while(|b| **b != b' ').count()
}
