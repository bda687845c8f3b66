//! The name of a directory that was told last, from which the next one is found in one search. So
//! who goes through a directory of n names by their numbers takes n of them, and no list.

ghost use Rattle.std.specs.Prelude.{◌≡◌, ◌<◌, ◌+◌, ◌^◌, IfOk, IfErr};
ghost use Rattle.jffs_c.specs.Volume.{IsPlace, IsPlaceAt, IsNoPlace};

use crate::code::Code;
use jffs_node::Name;
use jffs_tree::Tree;

/// A name in a directory, and its number there.
#[derive(Clone, Copy)]
pub struct Place {
    pub directory: u32,
    /// Counted from 0 in the order of the names' bytes.
    pub number: u32,
    pub name: Name,
    pub inode: u32,
}

/// The place of the name with a number. `Nothing` where there are fewer; `Memory`, but not of the
/// first one.
pub(crate) fn some_place(tree: &Tree, directory: u32, number: u32) -> Result<Place, Code>
    ensures there { IfOk result (IsPlaceAt tree.now directory number) }
    ensures none { IfErr result (IsNoPlace tree.now directory number) }
{
    if number == 0 {
        first_place(tree, directory)
    } else {
        listed_place(tree, directory, number)
    }
}

/// The place of the first name. `Nothing` where there is none.
fn first_place(tree: &Tree, directory: u32) -> Result<Place, Code>
    ensures there { IfOk result (IsPlaceAt tree.now directory 0) }
    ensures none { IfErr result (IsNoPlace tree.now directory 0) }
{
    let Some(entry) = tree.entry_after(directory, None) else {
        return Err(Code::Nothing);
    };
    Ok(place_of(directory, 0, entry.0, entry.1))
}

/// The place of the next name. `Nothing` after the last. Precondition: a number is left for it.
pub(crate) fn next_place(tree: &Tree, place: Place) -> Result<Place, Code>
    requires place { IsPlace tree.now place }
    requires left { place.number + 1 < 2 ^ 32 }
    ensures there { IfOk result (IsPlaceAt tree.now place.directory (place.number + 1)) }
    ensures none { IfErr result (IsNoPlace tree.now place.directory (place.number + 1)) }
{
    let Some(entry) = tree.entry_after(place.directory, Some((place.name, place.inode))) else {
        return Err(Code::Nothing);
    };
    Ok(place_of(place.directory, place.number + 1, entry.0, entry.1))
}

/// The place of the name with a number, from a list of all names. `Nothing` where there are fewer;
/// `Memory`.
fn listed_place(tree: &Tree, directory: u32, number: u32) -> Result<Place, Code>
    ensures there { IfOk result (IsPlaceAt tree.now directory number) }
    ensures none { IfErr result (IsNoPlace tree.now directory number) }
{
    let Ok(names) = tree.names(directory) else {
        return Err(Code::Memory);
    };
    let Some(entry) = names.get(number as usize) else {
        return Err(Code::Nothing);
    };
    Ok(place_of(directory, number, entry.0, entry.1))
}

fn place_of(directory: u32, number: u32, name: Name, inode: u32) -> Place
    ensures { result
        ≡ record { directory = directory; number = number; name = name; inode = inode } }
{
    Place {
        directory,
        number,
        name,
        inode,
    }
}
