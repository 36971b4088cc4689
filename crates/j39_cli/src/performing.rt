//! Tasks over devices.
ghost use Rattle.std.specs.Prelude.{◌≡◌, ◌⊎◌, false, true};
ghost use Rattle.j39_io.specs.Turn.{turn};
ghost use Rattle.j39_groups.specs.Table.{the_table};
ghost use Rattle.j39_names.specs.Naming.{by_table, naming_of};
ghost use Rattle.j39_cli.specs.Task.{IsPerformed, meaning_of, reads_log};

use crate::heads::head_of;
use crate::id::id_line;
use crate::log::{tell_end, tell_fault};
use crate::name::name_lines;
use crate::shown::{put_text, show_text};
use crate::{Task, answer, faults, grid, groups, nodes, report, summary, survey, watch};
use j39_groups::Groups;
use j39_io::{DeviceFault, Sink, Source};
use j39_listen::RunFault;
use j39_names::Naming;
use j39_survey::SurveyWanted;
use std::alloc::Global;

/// Performs a task by the built-in table of parameters.
pub fn perform<R: Source, W: Sink, E: Sink>(
    alloc: Global,
    task: &Task<'_>,
    source: &mut R,
    sink: &mut W,
    err: &mut E,
) -> u8
    ensures status { (result ≡ 0) ⊎ (result ≡ 1) }

    // What each command leaves of the reader, the writer and the error writer.
    ensures performed { IsPerformed (by_table the_table) task.now result
        (turn R.remaining R.has_failed source.old source.new)
        (turn W.written W.has_failed sink.old sink.new)
        (turn E.written E.has_failed err.old err.new) }

    // Status 0 says that what was written was passed on, and so it is after a fault, but for one of the writer.
    ensures flushed { result ≡ 0 → W.is_flushed sink.new ≡ true }
    ensures passed_out { W.is_flushed sink.old ≡ true → W.has_failed sink.new ≡ false → W.is_flushed sink.new ≡ true }

    // A command that reads no log leaves the reader alone, and says nothing where all is well.
    ensures unread { reads_log task.now ≡ false → source.new ≡ source.old }
    ensures silent { reads_log task.now ≡ false → result ≡ 0 → err.new ≡ err.old }

    // A fault that is told is passed on, where its writer has not failed.
    ensures passed_on { result ≡ 1 → E.has_failed err.new ≡ false → E.is_flushed err.new ≡ true }
{
    let groups = Groups::built_in();
    let naming = Naming::by_table(&groups);
    perform_with(alloc, &naming, task, source, sink, err)
}

/// Performs a task by names and their table of parameters: reads its log from `source` where it has one, writes its
/// lines to `sink`, and says what happened on `err`. Answers the exit status: 0, or 1 for a fault of
/// memory, of a device, or of the log's length. A fault of `err` is passed over.
pub fn perform_with<R: Source, W: Sink, E: Sink>(
    alloc: Global,
    naming: &Naming<'_, '_>,
    task: &Task<'_>,
    source: &mut R,
    sink: &mut W,
    err: &mut E,
) -> u8
    ensures status { (result ≡ 0) ⊎ (result ≡ 1) }

    // What each command leaves of the reader, the writer and the error writer.
    ensures performed { IsPerformed (naming_of naming.now) task.now result
        (turn R.remaining R.has_failed source.old source.new)
        (turn W.written W.has_failed sink.old sink.new)
        (turn E.written E.has_failed err.old err.new) }

    // Status 0 says that what was written was passed on, and so it is after a fault, but for one of the writer.
    ensures flushed { result ≡ 0 → W.is_flushed sink.new ≡ true }
    ensures passed_out { W.is_flushed sink.old ≡ true → W.has_failed sink.new ≡ false → W.is_flushed sink.new ≡ true }

    // A command that reads no log leaves the reader alone, and says nothing where all is well.
    ensures unread { reads_log task.now ≡ false → source.new ≡ source.old }
    ensures silent { reads_log task.now ≡ false → result ≡ 0 → err.new ≡ err.old }

    // A fault that is told is passed on, where its writer has not failed.
    ensures passed_on { result ≡ 1 → E.has_failed err.new ≡ false → E.is_flushed err.new ≡ true }
{
    let Some(head) = head_of(task) else {
        return perform_below(alloc, naming, task, source, sink, err);
    };
    match put_text(head.as_slice(), sink) {
        Ok(()) => perform_below(alloc, naming, task, source, sink, err),
        Err(DeviceFault) => tell_fault(RunFault::Write, err),
    }
}

/// Performs a task below its head. Each command is performed apart: so it needs no room for what the others keep.
fn perform_below<R: Source, W: Sink, E: Sink>(
    alloc: Global,
    naming: &Naming<'_, '_>,
    task: &Task<'_>,
    source: &mut R,
    sink: &mut W,
    err: &mut E,
) -> u8
    ensures status { (result ≡ 0) ⊎ (result ≡ 1) }
    ensures performed { (meaning_of task.now).Performs (naming_of naming.now) result
        (turn R.remaining R.has_failed source.old source.new)
        (turn W.written W.has_failed sink.old sink.new)
        (turn E.written E.has_failed err.old err.new) }
    ensures flushed { result ≡ 0 → W.is_flushed sink.new ≡ true }
    ensures passed_out { W.is_flushed sink.old ≡ true → W.has_failed sink.new ≡ false → W.is_flushed sink.new ≡ true }
    ensures unread { reads_log task.now ≡ false → source.new ≡ source.old }
    ensures silent { reads_log task.now ≡ false → result ≡ 0 → err.new ≡ err.old }
    ensures passed_on { result ≡ 1 → E.has_failed err.new ≡ false → E.is_flushed err.new ≡ true }
{
    let groups = naming.groups;
    match task {
        Task::Report(options) => report::perform(alloc, groups, options, source, sink, err),
        Task::Summary(options) => summary::perform(alloc, groups, options, source, sink, err),
        Task::Grid(options) => grid::perform(alloc, groups, options, source, sink, err),
        Task::Faults(options) => faults::perform(alloc, naming, options, source, sink, err),
        Task::Nodes {
            input,
            from,
            told,
            ..
        } => tell_end(
            &input.bus,
            nodes::run(naming.own, *told, from, &input.bus, source, sink),
            err,
        ),
        Task::Answer {
            name,
            address,
            input,
        } => { answer::perform(alloc, *name, address, &input.bus, source, sink, err) }
        Task::Id(id) => show_text(id_line(*id).as_slice(), sink, err),
        Task::Name(name) => show_text(name_lines(*name).as_slice(), sink, err),
        Task::Cut(outgoing) => show_text(outgoing.lines().as_slice(), sink, err),
        Task::Groups(_) => groups::perform(groups, sink, err),
        Task::Survey { input, format, .. } => {
            let form = *format;
            let wanted = SurveyWanted { form, naming };
            survey::perform(alloc, wanted, &input.bus, source, sink, err)
        }
        Task::Watch(options) => watch::perform(alloc, naming, options, source, sink, err),
    }
}
