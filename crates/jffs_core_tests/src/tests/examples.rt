//! What the definitions give on examples. The function does nothing: its contract says it.

ghost use Rattle.jffs_core.specs.Rows.{Cleaning, LastOfHundred, Numbers, Growing, Spent, Filled};

/// Copies, offsets, numbers and weight are as on these examples.
fn examples_are_stepped()
    ensures cleaning { Cleaning }
    ensures last { LastOfHundred }
    ensures numbers { Numbers }
    ensures growing { Growing }
    ensures spent { Spent }
    ensures filled { Filled }
{}
