//! What is said of a text that is no table, behind the name of its file.
ghost use Rattle.std.specs.Prelude.{◌≡◌, ◌≤◌, ◌+◌, ◌++◌, [], codes, decimal, length};
ghost use Rattle.arrayvec.specs.ArrayVec.{array_vec_len};
ghost use Rattle.j39_table.specs.FaultWords.{fault_text, line_text};

use crate::TableFault;
use arrayvec::ArrayVec;
use j39_io::printing::{push_bytes, push_number};

impl TableFault {
    /// What is said of it behind the file's name, as ` line 12: no step`; nothing where memory was refused.
    pub fn text(self) -> ArrayVec<u8, 64>
        ensures { result.items ≡ fault_text self }
    {
        let mut text = ArrayVec::new();
        match self {
            TableFault::Line(number, fault) => {
                push_line(&mut text, number, fault.words().as_bytes());
            }
            TableFault::Name(number, fault) => {
                push_line(&mut text, number, fault.words().as_bytes());
            }
            TableFault::TooManyRows(number) => push_line(
                &mut text,
                number,
                b"more than 65536 rows",
            ),
            TableFault::TooLong => push_bytes(&mut text, b" is longer than 1048576 bytes"),
            TableFault::Memory => {}
        }
        text
    }
}

/// Appends a line's number, and what is said of the line.
fn push_line(text: &mut ArrayVec<u8, 64>, number: u32, words: &[u8])
    requires empty { text.old.items ≡ [] }
    requires short { length words.now ≤ 24 }
    ensures { text.new.items ≡ line_text number words.now }
{
    push_place(text, number);
    push_bytes(text, b": ");
    push_bytes(text, words);
}

/// Appends a line's number, of 20 digits at most.
#[tactic(auto, using(crate::proofs::FaultLemmas::short_decimal))]
fn push_place(text: &mut ArrayVec<u8, 64>, number: u32)
    requires { array_vec_len text.old + 26 ≤ 64 }
    ensures items { text.new.items ≡ text.old.items ++ codes " line " ++ decimal number }
    ensures len { array_vec_len text.new ≤ array_vec_len text.old + 26 }
{
    push_bytes(text, b" line ");
    push_number(text, u64::from(number));
}
