//! Names of one's own, and by which names numbers are called.
ghost use Rattle.std.specs.Prelude.{◌≡◌, option_map};
ghost use Rattle.j39_frame.specs.Pgn.{pgn_raw};
ghost use Rattle.j39_names.specs.Naming.{by_table, function_by, group_by, is_of, is_same_kind, maker_by, naming_of, own_name, parameter_by};

use crate::{function_name, group_name, maker_name, parameter_name};
use j39_frame::Pgn;
use j39_groups::Groups;

/// What a number is one of.
#[derive(Clone, Copy, Debug, PartialEq, Eq)]
pub enum Kind {
    /// A parameter, by its SPN.
    Parameter,
    /// A group, by its PGN.
    Group,
    /// A function of a NAME.
    Function,
    /// Who makes a controller, by the manufacturer code of its NAME.
    Maker,
}

impl Kind {
    fn is(self, kind: Kind) -> bool
        ensures { result ≡ is_same_kind self kind }
    {
        match (self, kind) {
            (Kind::Parameter, Kind::Parameter) => true,
            (Kind::Group, Kind::Group) => true,
            (Kind::Function, Kind::Function) => true,
            (Kind::Maker, Kind::Maker) => true,
            _ => false,
        }
    }
}

/// A number, and what it is called.
#[derive(Clone, Copy, Debug)]
pub struct Named<'t> {
    /// What the number is one of.
    pub kind: Kind,
    /// The number.
    pub number: u32,
    /// What it is called.
    pub name: &'t [u8],
}

impl Default for Named<'_> {
    fn default() -> Self {
        Named {
            kind: Kind::Parameter,
            number: 0,
            name: b"",
        }
    }
}

impl<'t> Named<'t> {
    /// Whether it is this number of this kind.
    pub fn is_of(&self, kind: Kind, number: u32) -> bool
        ensures { result ≡ is_of kind number self.now }
    {
        self.kind.is(kind) && self.number == number
    }
}

/// By which names numbers are called: one's own, where they have one; or else those of a table, or else those that are built in.
#[derive(Clone, Copy)]
pub struct Naming<'n, 't> {
    /// Names of one's own.
    pub own: &'n [Named<'n>],
    /// The table.
    pub groups: &'n Groups<'t>,
}

impl<'n, 't> Naming<'n, 't> {
    /// Without names of one's own.
    pub fn by_table(groups: &'n Groups<'t>) -> Naming<'n, 't>
        ensures { naming_of result ≡ by_table groups.entry.now }
    {
        Naming { own: &[], groups }
    }

    /// What a parameter is called; `None` where its name isn't known.
    #[tactic(auto, unfolding(crate::specs::Naming::parameter_by))]
    pub fn parameter_name(self, spn: u32) -> Option<&'n [u8]>
        ensures { option_map (λ name. name.now) result ≡ parameter_by (naming_of self.entry) spn }
    {
        if let Some(name) = own_name(self.own, Kind::Parameter, spn) {
            return Some(name);
        }
        match self.groups.parameter_name(spn) {
            Some(name) => Some(name),
            None => parameter_name(spn),
        }
    }

    /// What a group is called; `None` where its name isn't known.
    #[tactic(auto, unfolding(crate::specs::Naming::group_by))]
    pub fn group_name(self, pgn: Pgn) -> Option<&'n [u8]>
        ensures { option_map (λ name. name.now) result ≡ group_by (naming_of self.entry) (pgn_raw pgn) }
    {
        if let Some(name) = own_name(self.own, Kind::Group, pgn.raw()) {
            return Some(name);
        }
        match self.groups.group_name(pgn) {
            Some(name) => Some(name),
            None => group_name(pgn.raw()),
        }
    }
}

/// What a function of a NAME is called, by these names first; `None` where its name isn't known.
#[tactic(auto, unfolding(crate::specs::Naming::function_by))]
pub fn function_by<'n>(own: &[Named<'n>], function: u8) -> Option<&'n [u8]>
    ensures { option_map (λ name. name.now) result ≡ function_by own.now function }
{
    match own_name(own, Kind::Function, u32::from(function)) {
        Some(name) => Some(name),
        None => function_name(function),
    }
}

/// Who makes a controller, by its manufacturer code, by these names first; `None` where that isn't known.
#[tactic(auto, unfolding(crate::specs::Naming::maker_by))]
pub fn maker_by<'n>(own: &[Named<'n>], code: u16) -> Option<&'n [u8]>
    ensures { option_map (λ name. name.now) result ≡ maker_by own.now code }
{
    match own_name(own, Kind::Maker, u32::from(code)) {
        Some(name) => Some(name),
        None => maker_name(code),
    }
}

/// What names of one's own call a number, as the first does that is of it; `None` where none is.
pub fn own_name<'n>(own: &[Named<'n>], kind: Kind, number: u32) -> Option<&'n [u8]>
    ensures { option_map (λ name. name.now) result ≡ own_name own.now kind number }
{
    let named = own.iter().find(|named| named.is_of(kind, number))?;
    Some(named.name)
}
