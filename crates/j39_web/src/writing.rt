//! What is written of a log by a table.
ghost use Rattle.std.specs.Prelude.{◌≡◌, [], None};
ghost use Rattle.j39_io.specs.Turn.{turn};
ghost use Rattle.j39_listen.specs.Ran.{Ran};
ghost use Rattle.j39_fault_reports.specs.Broken.{counts_in};
ghost use Rattle.j39_fault_reports.specs.declared.fault_news.telling.Telling.TheVariants.{News};
ghost use Rattle.j39_web.specs.Writings.{asks, makes};

use crate::points::SeriesOrigin;
use crate::series::{SeriesWanted, series};
use j39_fault_reports::{Choice, FaultCounts, FaultsWanted, Telling, faults};
use j39_groups::Groups;
use j39_io::{Sink, Source};
use j39_listen::{Clock, Counts, Format, RunFault, Wanted, run_with};
use j39_log::Bus;
use j39_names::Naming;
use j39_reports::{SummaryWanted, report_csv, summary};
use std::alloc::Global;

/// What is written of a log by a table.
#[derive(Clone, Copy)]
pub(crate) enum Writing {
    /// A line for each value that a controller on the bus reported.
    Report,
    /// A record of comma-separated values for each of these, below the names of the columns.
    Records,
    /// What each parameter did, as comma-separated values.
    Summary,
    /// A line for each fault code that says something else than the last before.
    Faults,
    /// A point for each reading of one parameter of one controller.
    Series(SeriesOrigin),
}

/// What is written, and the table by which.
#[derive(Clone, Copy)]
pub(crate) struct Written<'a, 't> {
    pub writing: Writing,
    pub groups: &'a Groups<'t>,
}

impl<'a, 't> Written<'a, 't> {
    /// Writes it of a log of at most `limit` bytes. Without a bus it is that of the first frame in the log.
    pub(crate) fn run<R: Source, W: Sink>(
        self,
        alloc: Global,
        source: &mut R,
        sink: &mut W,
        bus: Option<Bus>,
        limit: u64,
    ) -> Result<Counts, RunFault>
        ensures { Ran (makes self.entry.writing self.entry.groups.now) (asks self.entry.writing self.entry.groups.now) bus limit result
            (turn R.remaining R.has_failed source.old source.new) (turn W.written W.has_failed sink.old sink.new) }
    {
        let Written { writing, groups } = self;
        let filter = None;
        let wanted = Wanted { groups, filter };
        match writing {
            Writing::Report => run_with(alloc, groups, source, sink, bus, limit),
            Writing::Records => report_csv(alloc, wanted, source, sink, bus, limit),
            Writing::Summary => {
                let format = Format::Record;
                let summed = SummaryWanted { wanted, format };
                summary(alloc, summed, source, sink, bus, limit)
            }
            Writing::Faults => {
                let naming = Naming::by_table(groups);
                let spns: Option<&[u32]> = None;
                let writing = j39_fault_reports::Writing {
                    form: Format::Line(Clock::Seconds),
                    naming: &naming,
                    spns,
                };
                let choice = all_news();
                let told = FaultsWanted { writing, choice };
                counts_of(faults(alloc, told, source, sink, bus, limit))
            }
            Writing::Series(of) => {
                let wanted = SeriesWanted { groups, of };
                series(alloc, wanted, source, sink, bus, limit)
            }
        }
    }
}

/// The news of all faults, by no versions of the conversion.
fn all_news() -> Choice<'static>
    ensures telling { result.telling ≡ News }
    ensures conversions { result.conversions.now ≡ [] }
    ensures filter { result.filter ≡ None }
{
    Choice {
        telling: Telling::News,
        conversions: &[],
        filter: None,
    }
}

/// What a run that tells faults counts as every run does.
fn counts_of(told: Result<FaultCounts, RunFault>) -> Result<Counts, RunFault>
    ensures { result ≡ counts_in told }
{
    match told {
        Ok(told) => Ok(told.counts),
        Err(fault) => Err(fault),
    }
}
