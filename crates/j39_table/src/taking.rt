//! The lines of a text that say something, taken one after another.
ghost use Rattle.std.specs.Prelude.{Err, ◌≡◌, ◌==◌, ◌<◌, ◌≤◌, ℕ, List, [], ◌∷◌, MatchResult, length};
ghost use Rattle.std.specs.List.{position_or_len};
ghost use Rattle.j39_io.specs.Chars.{newline};
ghost use Rattle.j39_table.specs.Tables.{IsLineTooMany, bare_line, is_row_line, lines_of};
ghost use Rattle.j39_table.specs.Taking.{HasTaken, Takes, lines_left};
ghost use Rattle.j39_table.specs.declared.fault.TableFault.{TableFault as Fault};
ghost use Rattle.j39_table.specs.declared.fault.TableFault.TheVariants.{TooLong, TooManyRows};

use crate::TableFault;
use crate::line::without_spaces;
use j39_memory::MOST;

/// The bytes that the text of a table may have, 1 MiB.
pub const MOST_BYTES: usize = 1_048_576;

/// What takes lines, each of which spells one item or is wrong.
pub(crate) trait Taker<'t> {
    // What a line spells.
    ghost Item: { Type 0 };

    ghost spells: { List ℕ → Item → Type 0 };

    // It has taken lines that spell these.
    ghost has: { Self → List Item → Type 0 };

    // This is wrong with a text.
    ghost is_fault: { List ℕ → Fault → Type 0 };

    /// Takes one line more, of this number.
    fn take(&mut self, number: u32, line: &'t [u8]) -> Result<(), TableFault>
        requires { (items : List Item) × has self.old items × (length items < 65536) }
        ensures { Takes spells has is_fault self.old self.new number line.entry.now result };
}

/// Hands on each line that says something, 65,536 at most, of a text of at most 1 MiB, up to the first that is wrong.
pub(crate) fn take_lines<'t, T: Taker<'t>>(taker: &mut T, text: &'t [u8]) -> Result<(), TableFault>
    requires empty { T.has taker.old [] }
    requires long { (text : List ℕ) → 1048576 < length text → T.is_fault text TooLong }
    requires many { (text : List ℕ) (number : ℕ) → IsLineTooMany T.spells text number → T.is_fault text (TooManyRows number) }
    ensures lines { MatchResult result (λ _. HasTaken T.spells T.has taker.new (lines_of text.entry.now)) (T.is_fault text.entry.now) }
    ensures long { 1048576 < length text.entry.now → result ≡ Err TooLong }
{
    if text.len() > MOST_BYTES {
        return Err(TableFault::TooLong);
    }
    let mut number = 0;
    let mut taken = 0;
    let mut rest = Some(text);
    while let Some(left) = rest {
        let (line, behind) = first_line(left);
        rest = behind;
        number += 1;
        if is_row_line(line) {
            if taken >= MOST {
                return Err(TableFault::TooManyRows(number));
            }
            taker.take(number, line)?;
            taken += 1;
        }
    }
    Ok(())
}

/// The first line of a text, and what stands behind its newline, if it has one.
pub(crate) fn first_line(text: &[u8]) -> (&[u8], Option<&[u8]>)
    ensures { lines_of text.now ≡ result.0.now ∷ lines_left result.1 }
{
    let (line, rest) = text.split_at(line_len(text));
    match rest {
        [_, behind @ ..] => (bare_line(line), Some(behind)),
        [] => (bare_line(line), None),
    }
}

fn line_len(text: &[u8]) -> usize
    ensures value { result ≡ position_or_len (λ b. b == newline) text.now }
    ensures fits { result ≤ length text.now }
{
    text.iter().take_while(|b| **b != b'\n').count()
}

/// A line without one carriage return at its end.
fn bare_line(line: &[u8]) -> &[u8]
    ensures { result.now ≡ bare_line line.now }
{
    match line {
        [front @ .., b'\r'] => front,
        _ => line,
    }
}

/// Whether a line says more than spaces and a comment.
pub(crate) fn is_row_line(line: &[u8]) -> bool
    ensures { result ≡ is_row_line line.now }
{
    match without_spaces(line) {
        [] => false,
        [b'#', ..] => false,
        _ => true,
    }
}
