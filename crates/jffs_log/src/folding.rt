//! What the nodes of a log make: the numbers that come next, and the tree.

ghost use Rattle.std.specs.Prelude.{◌≡◌, ◌⊎◌, ◌&&◌, ◌-◌, ◌/◌, ◌++◌, List, true, false, reverse};
ghost use Rattle.std.specs.Prelude.{IsTrue, IfOk, OnOk, IfErr};
ghost use Rattle.std.specs.List.{AllByRecursion};
ghost use Rattle.jffs_node.specs.declared.node.Node.{Node};
ghost use Rattle.jffs_node.specs.Record.{is_lawful};
ghost use Rattle.jffs_tree.specs.Origin.{tree_of};
ghost use Rattle.jffs_tree.specs.Check.{each_fits, makes_tree, keeps_form_after};
ghost use Rattle.jffs_tree.specs.After.{can_apply};
ghost use Rattle.jffs_inodes.specs.Inodes.{keeps_offsets_in};
ghost use Rattle.jffs_log.specs.Scan.{versions_rise};
ghost use Rattle.jffs_log.specs.Room.{following, greatest_inode};
ghost use Rattle.jffs_log.specs.ScanFound.{last_version, IsMadeBy, nodes_held};
ghost use Rattle.jffs_node.specs.declared.layout.TheConstants.{HEADER_LEN};

use crate::scanning::ScanWhy;
use crate::sector::{RECORDS_PER_SECTOR, SectorRead};
use jffs_node::{HEADER_LEN, Kind, Node, ROOT_INODE};
use jffs_tree::{Limits, Tree};
use std::alloc::Global;

/// The greatest numbers of a log.
#[derive(Clone, Copy)]
pub(crate) struct GreatestNumbers {
    /// The last version, 0 where the log is empty.
    version: u32,
    /// The greatest inode, at least that of the root.
    inode: u32,
}

impl GreatestNumbers {
    /// The greatest numbers of the sectors' nodes; `BadOrder` where their versions don't rise.
    pub(crate) fn of(held: &[SectorRead]) -> Result<GreatestNumbers, ScanWhy>
        requires { AllByRecursion (λ n. IsTrue (is_lawful n)) (nodes_held held.now) }
        ensures rise { IfOk result (λ _. versions_rise (nodes_held held.now) ≡ true) }
        ensures version { IfOk result
            (λ numbers. numbers.version ≡ last_version (nodes_held held.now)) }
        ensures inode { IfOk result
            (λ numbers. numbers.inode ≡ greatest_inode (nodes_held held.now)) }
        ensures refused { IfErr result (λ why.
            (why ≡ ScanWhy.BadOrder) × (versions_rise (nodes_held held.now) ≡ false)) }
    {
        let mut numbers = GreatestNumbers {
            version: 0,
            inode: ROOT_INODE,
        };
        for sector in held {
            for node in sector.nodes() {
                if node.version <= numbers.version {
                    return Err(ScanWhy::BadOrder);
                }
                numbers.version = node.version;
                numbers.inode = numbers.inode.max(node.inode);
            }
        }
        Ok(numbers)
    }

    /// The longest data of a node, and the numbers that come next; none where they are used up.
    pub(crate) fn limits(self, sector_size: u32) -> Limits
        ensures data_max { result.data_max ≡ sector_size / RECORDS_PER_SECTOR - HEADER_LEN }
        ensures inode { result.next_inode ≡ following self.inode }
        ensures version { result.next_version ≡ following self.version }
    {
        Limits {
            data_max: (sector_size / RECORDS_PER_SECTOR).saturating_sub(HEADER_LEN as u32),
            next_inode: self.inode.checked_add(1),
            next_version: self.version.checked_add(1),
        }
    }
}

/// The tree of the sectors' nodes, copies included. `BadTree` where they make none, `Memory` where
/// an allocation failed.
pub(crate) fn tree_of_log(alloc: Global, held: &[SectorRead]) -> Result<Tree, ScanWhy>
    requires { AllByRecursion (λ n. IsTrue (is_lawful n)) (nodes_held held.now) }
    ensures value { IfOk result (λ tree. tree ≡ tree_of (reverse (nodes_held held.now))) }
    ensures lawful { IfOk result (λ _. makes_tree (reverse (nodes_held held.now)) ≡ true) }
    ensures refused { IfErr result (λ why.
        (why ≡ ScanWhy.Memory)
        ⊎ ((why ≡ ScanWhy.BadTree) × (makes_tree (reverse (nodes_held held.now)) ≡ false))) }
{
    let mut made = MadeTree {
        tree: Tree::new(alloc),
        has_sizes: false,
    };
    for sector in held {
        made.add(sector.nodes())?;
    }
    if made.tree.check() {
        Ok(made.tree)
    } else {
        Err(ScanWhy::BadTree)
    }
}

/// The tree of the nodes so far, and whether one of them is of the second form.
#[derive(Drop)]
struct MadeTree {
    tree: Tree,
    has_sizes: bool,
}

impl MadeTree {
    /// Adds the nodes that come next. `BadTree` where one of them doesn't fit, `Memory` where an
    /// allocation failed.
    fn add(&mut self, nodes: &[Node]) -> Result<(), ScanWhy>
        requires { AllByRecursion (λ n. IsTrue (is_lawful n)) nodes.now }
        ensures ok { OnOk result ((past : List Node) → IsMadeBy past self.old
            → IsMadeBy (reverse nodes.now ++ past) self.new) }
        ensures refused { IfErr result (λ why.
            (why ≡ ScanWhy.Memory)
            ⊎ ((why ≡ ScanWhy.BadTree) × ((past : List Node) → IsMadeBy past self.old
            → each_fits (reverse nodes.now ++ past) ≡ false))) }
    {
        for node in nodes {
            if !fits(&self.tree, node, self.has_sizes) {
                return Err(ScanWhy::BadTree);
            }
            match self.tree.apply(node) {
                Ok(()) => self.has_sizes |= node.size.is_some(),
                // Nothing but memory was wanting.
                Err(_) => return Err(ScanWhy::Memory),
            }
        }
        Ok(())
    }
}

/// Whether the lawful node may come next in a log of this tree, which has nodes of the second form
/// or has none.
fn fits(tree: &Tree, node: &Node, has_sizes: bool) -> bool
    requires { IsTrue (is_lawful node.now) }
    ensures value { result ≡ (keeps_form_after has_sizes node.now && can_apply tree.now node.now) }
    ensures offsets { result ≡ true → IsTrue (keeps_offsets_in tree.now node.now) }
{
    keeps_form(node, has_sizes) && tree.keeps_kind_and_offsets(node)
}

/// A file's node of the first form comes before all nodes of the second.
fn keeps_form(node: &Node, has_sizes: bool) -> bool
    ensures { result ≡ keeps_form_after has_sizes node.now }
{
    !matches!(node.kind, Kind::File) || node.deleted || node.size.is_some() || !has_sizes
}
