//! Laws about the definitions, each the contract of a function that does nothing.
ghost use Rattle.std.specs.Prelude.{◌≡◌, List, None};
ghost use Rattle.j39_names.specs.declared.naming.Named.{Named};
ghost use Rattle.j39_survey.specs.ByAddress.{shown_from};
ghost use Rattle.j39_survey.specs.Nodes.{node_head};
ghost use Rattle.j39_survey.specs.SeenNodes.{Presence, is_seen_node, seen_columns, seen_names};
ghost use Rattle.j39_rows.specs.Row.{names_text};

/// Where no sender is asked for, all nodes are shown.
pub fn filters()
    ensures no_sender { (nodes : List Presence) → shown_from is_seen_node None nodes ≡ nodes }
{}

/// The names of the columns are those of the columns of each node's row.
pub fn names()
    ensures { (own : List Named) (node : Presence) → names_text (node_head node.address) (seen_columns own node) ≡ seen_names }
{}
