//! What holds of every table.
ghost use Rattle.j39_table.specs.ReadsBack.{PrintedLinesSpell, PrintedTablesSpell};

/// The line that `j1939 groups` prints for a good row spells that row.
pub fn printed_lines_spell()
    ensures { PrintedLinesSpell }
{}

/// What `j1939 groups` prints for a table of good rows spells these rows, in their order.
pub fn printed_tables_spell()
    ensures { PrintedTablesSpell }
{}
