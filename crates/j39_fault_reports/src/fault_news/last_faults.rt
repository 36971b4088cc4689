//! For each address and group what was said last.
ghost use Rattle.std.specs.Prelude.{◌≡◌, [], IfOk, None, OnErr, OnOk, option_map};
ghost use Rattle.j39_address.specs.Name.{name_raw};
ghost use Rattle.j39_fault_reports.specs.Remembered.{Remembers, noted, said_at};
ghost use Rattle.j39_fault_reports.specs.declared.fault_news.telling.Telling.{Telling};
ghost use Rattle.j39_fault_reports.specs.LastMessages.{differs, said_by};

use crate::fault_news::last_messages::LastMessages;
use j39_address::Name;
use j39_faults::{Kind, Version};
use std::alloc::{AllocError, Global};

/// What was said last by each address of its codes, by kind.
#[derive(Drop)]
pub(crate) struct LastFaults {
    pub active: LastMessages,
    pub previous: LastMessages,
    pub emission_pending: LastMessages,
    pub emission_active: LastMessages,
    pub emission_previous: LastMessages,
    pub pending: LastMessages,
    pub permanent: LastMessages,
}

impl LastFaults {
    /// Nobody said anything.
    pub(crate) fn new() -> LastFaults
        ensures { (telling : Telling) → Remembers telling result [] }
    {
        LastFaults {
            active: LastMessages::new(),
            previous: LastMessages::new(),
            emission_pending: LastMessages::new(),
            emission_active: LastMessages::new(),
            emission_previous: LastMessages::new(),
            pending: LastMessages::new(),
            permanent: LastMessages::new(),
        }
    }

    /// Notes what an address says, and answers whether it is news by this version of the conversion.
    pub(crate) fn note(
        &mut self,
        alloc: Global,
        kind: Kind,
        version: Option<Version>,
        source: u8,
        payload: &[u8],
        name: Option<Name>,
    ) -> Result<bool, AllocError>
        ensures news { IfOk result (λ is_news. is_news
            ≡ differs version (said_at self.old kind source) payload.now (option_map name_raw name)) }
        ensures after { OnOk result (self.new
            ≡ noted self.old kind source (said_by payload.now (option_map name_raw name))) }
        ensures first { OnErr result (said_at self.old kind source ≡ None) }
        ensures kept { OnErr result (self.new ≡ self.old) }
    {
        match kind {
            Kind::Active => self.active.note(alloc, version, source, payload, name),
            Kind::Previous => self.previous.note(alloc, version, source, payload, name),
            Kind::EmissionPending => self
                .emission_pending
                .note(alloc, version, source, payload, name),
            Kind::EmissionActive => self
                .emission_active
                .note(alloc, version, source, payload, name),
            Kind::EmissionPrevious => self
                .emission_previous
                .note(alloc, version, source, payload, name),
            Kind::Pending => self.pending.note(alloc, version, source, payload, name),
            Kind::Permanent => self.permanent.note(alloc, version, source, payload, name),
        }
    }
}
