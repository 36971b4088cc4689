//! Numbers behind their names, as the program prints them.
ghost use Rattle.std.specs.Prelude.{◌≡◌, ◌+◌, ◌≤◌, ◌++◌, decimal, length};
ghost use Rattle.arrayvec.specs.ArrayVec.{array_vec_len};
ghost use Rattle.j39_cli.specs.Counted.{counts_text, counts_words, fault_counts_text};

use arrayvec::ArrayVec;
use j39_fault_reports::FaultCounts;
use j39_io::printing::{push_bytes, push_number};
use j39_listen::Counts;

/// The line of a run's counts, with its newline.
pub(crate) fn counts_line(counts: Counts) -> ArrayVec<u8, 168>
    ensures { result.items ≡ counts_text counts }
{
    let mut line = words_of(counts);
    line.push(b'\n');
    line
}

/// The line of the counts of a run that tells faults, with its newline.
pub(crate) fn fault_counts_line(told: FaultCounts) -> ArrayVec<u8, 168>
    ensures { result.items ≡ fault_counts_text told }
{
    let mut line = words_of(told.counts);
    push_field(&mut line, b" broken ", told.broken);
    line.push(b'\n');
    line
}

/// What every run counts.
fn words_of(counts: Counts) -> ArrayVec<u8, 168>
    ensures items { result.items ≡ counts_words counts }
    ensures len { array_vec_len result ≤ 139 }
{
    let mut line = ArrayVec::new();
    push_field(&mut line, b"frames ", counts.frames);
    push_field(&mut line, b" other ", counts.other);
    push_field(&mut line, b" unread ", counts.unread);
    push_field(&mut line, b" messages ", counts.messages);
    push_field(&mut line, b" lines ", counts.lines);
    line
}

/// Appends a name and a number, of 20 digits at most.
#[tactic(auto, using(crate::proofs::FieldLemmas::short_decimal))]
pub(crate) fn push_field<const N: usize>(line: &mut ArrayVec<u8, N>, name: &[u8], value: u64)
    requires { array_vec_len line.old + length name.now + 20 ≤ N }
    ensures items { line.new.items ≡ line.old.items ++ name.now ++ decimal value }
    ensures len { array_vec_len line.new ≤ array_vec_len line.old + length name.now + 20 }
{
    push_bytes(line, name);
    push_number(line, value);
}
