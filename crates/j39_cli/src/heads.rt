//! The heads of lines, `--head`: what their columns are called.
ghost use Rattle.std.specs.Prelude.{◌≡◌, ◌≤◌, length, option_map};
ghost use Rattle.clap.specs.Words.{App};
ghost use Rattle.arrayvec.specs.ArrayVec.{array_vec_len};
ghost use Rattle.j39_cli.specs.FaultsCommand.{fault_columns};
ghost use Rattle.j39_cli.specs.GridCommand.{grid_columns};
ghost use Rattle.j39_cli.specs.Heads.{head_by};
ghost use Rattle.j39_cli.specs.NodesCommand.{nodes_head};
ghost use Rattle.j39_cli.specs.Rules.{IsMade, with_head};
ghost use Rattle.j39_cli.specs.Task.{meaning_of};

use crate::command::with_flag;
use crate::fields::push_field;
use crate::grid::columns_of;
use crate::{FaultsTold, NodesTold, RowOptions, Task};
use arrayvec::ArrayVec;
use clap::Command;
use j39_fault_reports::Telling;
use j39_io::printing::push_bytes;
use j39_listen::{Clock, Format};
use std::alloc::{AllocError, Global};

/// The command with `--head`, which each takes whose lines may have a head.
pub(crate) fn with_head<'a>(
    alloc: Global,
    command: Result<Command<'a>, AllocError>,
) -> Result<Command<'a>, AllocError>
    ensures { (told : App) → IsMade command.entry told → IsMade result (with_head told) }
{
    let help = "Above the lines one of what their columns are called";
    with_flag(alloc, command, "head", help)
}

/// The head of a task's lines, with its newline, where it is asked for.
pub(crate) fn head_of(task: &Task<'_>) -> Option<ArrayVec<u8, 704>>
    ensures { option_map (λ head. head.items) result ≡ (meaning_of task.now).head }
{
    match task {
        Task::Report(options) => row_head(options, b"stamp address name pgn spn value"),
        Task::Summary(options) => row_head(
            options,
            b"address name pgn spn values words absent first_stamp last_stamp least most unit first last parameter",
        ),
        Task::Grid(options) => {
            let columns = grid_columns(columns_of(&options.rows.asked.spns));
            row_head(&options.rows, columns.as_slice())
        }
        Task::Faults(options) => row_head(&options.rows, fault_columns(options.told)),
        Task::Nodes { told, has_head, .. } => nodes_head(*has_head, *told),
        _ => None,
    }
}

/// The head of rows whose columns in lines are called so.
fn row_head(options: &RowOptions<'_>, columns: &[u8]) -> Option<ArrayVec<u8, 704>>
    requires { length columns.now ≤ 703 }
    ensures { option_map (λ head. head.items) result ≡ head_by options.now.has_head options.now.format columns.now }
{
    head_by(options.has_head, options.format, columns)
}

/// The head above lines, where it is asked for.
fn head_by(is_asked: bool, format: Format, columns: &[u8]) -> Option<ArrayVec<u8, 704>>
    requires { length columns.now ≤ 703 }
    ensures { option_map (λ head. head.items) result ≡ head_by is_asked format columns.now }
{
    match (is_asked, format) {
        (true, Format::Line(_)) => {
            let mut head = ArrayVec::new();
            push_bytes(&mut head, columns);
            head.push(b'\n');
            Some(head)
        }
        (true, Format::Record) => None,
        (true, Format::Object) => None,
        (false, _) => None,
    }
}

/// What the columns of faults in messages are called.
const OF_MESSAGES: &[u8] = b"stamp address name state spn fmi count parameter: meaning";

/// What the columns of faults are called.
fn fault_columns(told: FaultsTold) -> &'static [u8]
    ensures columns { result.now ≡ fault_columns told }
    ensures short { length result.now ≤ 703 }
{
    match told {
        FaultsTold::InMessages(Telling::Changes) => {
            b"stamp address name change spn fmi count parameter: meaning".as_slice()
        }
        FaultsTold::InMessages(Telling::News) => OF_MESSAGES,
        FaultsTold::InMessages(Telling::All) => OF_MESSAGES,
        FaultsTold::Now => {
            b"first_stamp address name last_stamp messages state spn fmi count parameter: meaning".as_slice()
        }
    }
}

/// The head of the addresses after a log.
fn nodes_head(is_asked: bool, told: NodesTold) -> Option<ArrayVec<u8, 704>>
    ensures { option_map (λ head. head.items) result ≡ nodes_head is_asked told }
{
    match told {
        NodesTold::Held => head_by(is_asked, Format::Line(Clock::Seconds), b"address name"),
        NodesTold::Seen { format, .. } => {
            head_by(is_asked, format, b"address name claimed heard")
        }
    }
}

/// What the columns of a grid are called: its parameters by their SPNs.
fn grid_columns(spns: &[u32]) -> ArrayVec<u8, 704>
    requires { length spns.now ≤ 32 }
    ensures columns { result.items ≡ grid_columns spns.now }
    ensures short { array_vec_len result ≤ 703 }
{
    let mut columns = ArrayVec::new();
    push_bytes(&mut columns, b"stamp");
    for spn in spns {
        push_field(&mut columns, b" ", u64::from(*spn));
    }
    columns
}
