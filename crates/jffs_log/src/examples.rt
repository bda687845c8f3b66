//! What the definitions give on examples. The functions do nothing: their contracts say it.

ghost use Rattle.jffs_log.specs.Rows.{Refusals, MixedForms, FirstScan, Turning};
ghost use Rattle.jffs_log.specs.RoomRows.{FullVolume, CopiedAgain};
ghost use Rattle.jffs_log.specs.Wear.{FiveErases};

/// Images are refused, or read, as on these examples.
pub fn examples_are_scanned()
    ensures refused { Refusals }
    ensures mixed { MixedForms }
    ensures first { FirstScan }
    ensures turning { Turning }
{}

/// A full volume is cleaned as on this example.
pub fn example_is_cleaned()
    ensures { FullVolume }
{}

/// Where making room takes two cleanings, the second may copy a copy that the first made, as in
/// this example.
pub fn example_is_copied_again()
    ensures { CopiedAgain }
{}

/// Sectors are erased in turn as on this example.
pub fn example_is_erased_in_turn()
    ensures { FiveErases }
{}
