//! What a line holds that is no frame with a 29-bit identifier.
ghost use Rattle.std.specs.Prelude.{◌≡◌, ◌≤◌, length};
ghost use Rattle.std.specs.Char.{is_ascii_hexdigit};
ghost use Rattle.std.specs.List.{list_all, prefix_len};
ghost use Rattle.j39_log.specs.Kind.{is_error, is_not_hash, is_standard, kind_by, kind_of, kind_of_field};

use crate::fields::next_field;

/// What another line holds (own).
#[derive(Clone, Copy, Debug, PartialEq, Eq)]
pub enum OtherKind {
    /// A frame with an 11-bit identifier, of three hex digits.
    Standard,
    /// A remote frame: `#R` follows its identifier.
    Remote,
    /// A CAN FD frame: `##` follows its identifier.
    Flexible,
    /// An error frame: eight hex digits, of which the first is 2 or 3.
    Error,
    /// Something else with a `#`.
    Odd,
}

/// Of what kind a line is that was read as `Other`: by its third field.
#[cold]
#[inline(never)]
#[tactic(auto, unfolding(crate::specs::Kind::kind_of))]
pub fn kind_of(line: &[u8]) -> OtherKind
    ensures { result ≡ kind_of line.now }
{
    let Some((_, rest)) = next_field(line) else {
        return OtherKind::Odd;
    };
    let Some((_, rest)) = next_field(rest) else {
        return OtherKind::Odd;
    };
    match next_field(rest) {
        None => OtherKind::Odd,
        Some((third, _)) => kind_of_field(third),
    }
}

/// The kind by a third field.
fn kind_of_field(field: &[u8]) -> OtherKind
    ensures { result ≡ kind_of_field field.now }
{
    let (id, rest) = field.split_at(id_len(field));
    kind_by(id, rest)
}

/// How many bytes come before the first `#`.
fn id_len(field: &[u8]) -> usize
    ensures value { result ≡ prefix_len is_not_hash field.now }
    ensures fits { result ≤ length field.now }
{
    field.iter().take_while(|b| **b != b'#').count()
}

/// The kind by an identifier and what follows it.
fn kind_by(id: &[u8], rest: &[u8]) -> OtherKind
    ensures { result ≡ kind_by id.now rest.now }
{
    if rest.starts_with(b"##") {
        OtherKind::Flexible
    } else if rest.starts_with(b"#R") {
        OtherKind::Remote
    } else if is_standard(id) {
        OtherKind::Standard
    } else if is_error(id) {
        OtherKind::Error
    } else {
        OtherKind::Odd
    }
}

fn is_standard(id: &[u8]) -> bool
    ensures { result ≡ is_standard id.now }
{
    id.len() == 3 && are_hex(id)
}

fn is_error(id: &[u8]) -> bool
    ensures { result ≡ is_error id.now }
{
    id.len() == 8 && are_hex(id) && (id.starts_with(b"2") || id.starts_with(b"3"))
}

/// Whether all are hex digits, of either case.
pub(crate) fn are_hex(field: &[u8]) -> bool
    ensures { result ≡ list_all is_ascii_hexdigit field.now }
{
    field.iter().all(|b| b.is_ascii_hexdigit())
}
