//! What the last message of active codes of a controller says.
ghost use Rattle.std.specs.Prelude.{◌≡◌, ◌≤◌, ◌<◌, Some, length, map, option_map};
ghost use Rattle.j39_address.specs.Name.{name_raw};
ghost use Rattle.j39_faults.specs.Conversions.{version_for};
ghost use Rattle.j39_listen.specs.HeardModel.{hearing_of};
ghost use Rattle.j39_fault_reports.specs.FaultsNow.{codes_in};
ghost use Rattle.j39_fault_reports.specs.Spoken.{is_same_name};
ghost use Rattle.j39_fault_reports.specs.CurrentPlaces.{last_by, next_standings, standing_record, standings_under};

use crate::current_faults::standing::{FEW, Standing, Standings, next_standings};
use crate::fault_news::last_message::{goes_on, is_same_name};
use j39_address::Name;
use j39_faults::{Conversion, Lamps, version_for};
use j39_frame::{Pgn, Stamp};
use j39_listen::Heard;
use std::marker::Model;

/// Under which NAME it came and when, to whom and of which group it was, its lamps, and its codes with since when each stands.
#[derive(Drop)]
pub struct LastActive {
    pub name: Option<Name>,
    pub stamp: Stamp,
    pub destination: Option<u8>,
    pub pgn: Pgn,
    pub lamps: Lamps,
    pub standings: Standings,
}

impl Model for LastActive {
    ghost use Rattle.std.specs.Prelude.{map};
    ghost use Rattle.std.specs.Option.{option_map};
    ghost use Rattle.j39_address.specs.Name.{name_raw};
    ghost use Rattle.j39_frame.specs.Pgn.{pgn_raw};
    ghost use Rattle.j39_frame.specs.Stamp.{stamp_micros};
    ghost use Rattle.j39_fault_reports.specs.CurrentPlaces.{LastRecord, standing_record};

    ghost Value = { LastRecord };

    ghost view = { λ last. record {
      name = option_map name_raw last.name;
      stamp = stamp_micros last.stamp;
      destination = last.destination;
      pgn = pgn_raw last.pgn;
      lamps = last.lamps;
      standings = map standing_record last.standings.items;
    } };
}

impl LastActive {
    /// What the first message of an address says.
    pub(crate) fn first(conversions: &[Conversion], heard: &Heard<'_>, lamps: Lamps) -> LastActive
        requires { length heard.now.message.payload.now ≤ 1785 }
        ensures { result ≡ last_by conversions.now None (hearing_of heard.now) lamps }
    {
        LastActive::behind(&[], conversions, heard, lamps)
    }

    /// Says what the next message does, of the same controller or from the same address.
    pub(crate) fn go_on(&mut self, conversions: &[Conversion], heard: &Heard<'_>, lamps: Lamps)
        requires { length heard.now.message.payload.now ≤ 1785 }
        ensures { self.new ≡ last_by conversions.now (Some self.old) (hearing_of heard.now) lamps }
    {
        if heard.message.payload.len() < 4 * FEW + 6 {
            self.go_on_by_few(conversions, heard, lamps);
        } else {
            self.go_on_by_many(conversions, heard, lamps);
        }
    }

    /// The same by a message of few codes: what stands is put in place, as all the room for it is seldom needed.
    fn go_on_by_few(&mut self, conversions: &[Conversion], heard: &Heard<'_>, lamps: Lamps)
        requires { length heard.now.message.payload.now < 38 }
        ensures { self.new ≡ last_by conversions.now (Some self.old) (hearing_of heard.now) lamps }
    {
        let version = version_for(conversions, heard.name.map(Name::raw));
        let stamp = heard.message.stamp;
        let before = self.standings_under(heard.name);
        let few = next_standings::<FEW>(before, version, heard.message.payload, stamp);
        self.name = heard.name;
        self.stamp = stamp;
        self.destination = heard.destination;
        self.pgn = heard.message.pgn;
        self.lamps = lamps;
        self.standings.clear();
        let _ = self.standings.try_extend_from_slice(few.as_slice());
    }

    /// The same by a message of however many.
    #[inline(never)]
    fn go_on_by_many(&mut self, conversions: &[Conversion], heard: &Heard<'_>, lamps: Lamps)
        requires { length heard.now.message.payload.now ≤ 1785 }
        ensures { self.new ≡ last_by conversions.now (Some self.old) (hearing_of heard.now) lamps }
    {
        let before = self.standings_under(heard.name);
        *self = LastActive::behind(before, conversions, heard, lamps);
    }

    /// What a message says where this stood before.
    fn behind(
        before: &[Standing],
        conversions: &[Conversion],
        heard: &Heard<'_>,
        lamps: Lamps,
    ) -> LastActive
        requires { length heard.now.message.payload.now ≤ 1785 }
        ensures { result ≡ record {
          name = (hearing_of heard.now).name;
          stamp = (hearing_of heard.now).stamp;
          destination = (hearing_of heard.now).destination;
          pgn = (hearing_of heard.now).message.pgn;
          lamps = lamps;
          standings = next_standings (map standing_record before.now) (hearing_of heard.now).stamp
              (codes_in conversions.now (hearing_of heard.now));
        } }
    {
        let version = version_for(conversions, heard.name.map(Name::raw));
        let stamp = heard.message.stamp;
        LastActive {
            name: heard.name,
            stamp,
            destination: heard.destination,
            pgn: heard.message.pgn,
            lamps,
            standings: next_standings(before, version, heard.message.payload, stamp),
        }
    }

    /// What stands, if it may be of who speaks now, under this NAME; else nothing.
    fn standings_under(&self, name: Option<Name>) -> &[Standing]
        ensures { map standing_record result.now ≡ standings_under (Some self.now) (option_map name_raw name) }
    {
        if goes_on(self.name, name) {
            self.standings.as_slice()
        } else {
            &[]
        }
    }

    /// Whether it came under this NAME.
    pub fn is_of(&self, name: Option<Name>) -> bool
        ensures { result ≡ is_same_name self.now.name (option_map name_raw name) }
    {
        is_same_name(self.name, name)
    }
}
