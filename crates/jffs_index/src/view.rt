//! What a reader looks at: a tree, and how requests were answered.
ghost use Rattle.std.specs.Prelude.{◌≡◌, true, ◌-◌, ◌++◌, min, length, take, drop, MatchResult};
ghost use Rattle.std.specs.Prelude.{OnOk, OnErr, IfOk};
ghost use Rattle.std.specs.List.Sorted.{IsPermutation, IsSorted};
ghost use Rattle.jffs_tree.specs.State.{resolve};
ghost use Rattle.jffs_tree.specs.Origin.{state_in};
ghost use Rattle.jffs_tree.specs.Look.{kind_in, size_of, bytes_in, parent_name_in, holds_version};
ghost use Rattle.jffs_tree.specs.Look.{names_in, name_cmp};
ghost use Rattle.jffs_tree.specs.Decide.{cleaning_copy as copy_for};
ghost use Rattle.jffs_index.specs.Outcomes.{outcome_at, with_outcome};
ghost use Rattle.jffs_index.specs.Shown.{tree_tested, fits_node, fits as step_fits};

use crate::outcomes::Outcomes;
use crate::step::Step;
use jffs_node::{Kind, Name, NoMemory, Node, Path};
use jffs_tree::{CopySource, NewNode, Outcome, Tree};
use std::alloc::{AllocError, Global};
use std::marker::Model;

/// The tree and the answers after a number of published steps. All of its calls but `names` and
/// `cleaning_copy` take no memory.
#[derive(Drop)]
pub struct View {
    tree: Tree,
    outcomes: Outcomes,
    answered: u64,
    closed: bool,
}

impl Model for View {
    ghost use Rattle.jffs_index.specs.Shown.{Shown};

    ghost Value = { Shown };

    ghost view = { λ v. record {
      tree = v.tree;
      outcomes = v.outcomes;
      answered = v.answered;
      closed = v.closed;
    } };
}

impl View {
    ghost use Rattle.jffs_index.specs.Shown.{opened, after_tested};

    pub(crate) fn new(alloc: Global, tree: Tree) -> View
        ensures { result ≡ opened tree }
    {
        View {
            tree,
            outcomes: Outcomes::none(alloc),
            answered: 0,
            closed: false,
        }
    }

    /// The inode at a path, if one is there.
    pub fn resolve(&self, path: &Path) -> Option<u32>
        ensures { result ≡ resolve (state_in self.now.tree) path.now }
    {
        self.tree.resolve(path)
    }

    /// The names in a directory, each with its inode, sorted by their bytes, equal names by inode;
    /// empty for what isn't a present directory.
    ///
    /// `NoMemory` if allocation failed.
    pub fn names(&self, inode: u32) -> Result<Vec<(Name, u32)>, NoMemory>
        ensures all { IfOk result
            (λ names. IsPermutation (names_in self.now.tree inode) names.items) }
        ensures ordered { IfOk result (λ names. IsSorted name_cmp names.items) }
    {
        self.tree.names(inode)
    }

    /// Fills `out` with the file's bytes from `offset` on, as many as there are and fit. Returns
    /// how many: 0 for what isn't a present file.
    pub fn read(&self, inode: u32, offset: u32, out: &mut [u8]) -> usize
        ensures count { result
            ≡ min (length out.old) (length (bytes_in self.now.tree inode) - offset) }
        ensures read { out.new
            ≡ take result (drop offset (bytes_in self.now.tree inode)) ++ drop result out.old }
    {
        self.tree.read(inode, offset, out)
    }

    /// How many bytes the inode has, 0 of a directory; `None` if it isn't present.
    pub fn size(&self, inode: u32) -> Option<u32>
        ensures { result ≡ size_of self.now.tree inode }
    {
        self.tree.size(inode)
    }

    /// What the inode is, if it is present.
    pub fn kind(&self, inode: u32) -> Option<Kind>
        ensures { result ≡ kind_in self.now.tree inode }
    {
        self.tree.kind(inode)
    }

    /// The directory that holds the inode, and its name there, if it is present; the root has
    /// neither.
    pub fn parent_name(&self, inode: u32) -> Option<(u32, Name)>
        ensures { result ≡ parent_name_in self.now.tree inode }
    {
        self.tree.parent_name(inode)
    }

    /// Whether the inode is present and this version of it is live. A source that cleaning copied
    /// while it answered a request may still count, since such a copy is no step.
    pub fn live(&self, inode: u32, version: u32) -> bool
        ensures { result ≡ holds_version self.now.tree inode version }
    {
        self.tree.live(inode, version)
    }

    /// The copy that would replace a live node, with its inode's name and the bytes of
    /// its range as they are here. Precondition: the node's version is live in its inode
    /// ([`View::live`]).
    ///
    /// `NoMemory` if allocation failed.
    pub fn cleaning_copy(&self, source: &Node) -> Result<NewNode, NoMemory>
        requires live { holds_version self.now.tree source.now.inode source.now.version ≡ true }
        ensures { IfOk result (λ new. new ≡ copy_for (state_in self.now.tree) source.now) }
    {
        self.tree.cleaning_copy(CopySource::of(source))
    }

    /// How the latest request of that sender with that number was answered, if it was.
    pub fn answer(&self, writer: u16, seq: u32) -> Option<Outcome>
        ensures { result ≡ outcome_at self.now.outcomes writer seq }
    {
        self.outcomes.get(writer, seq)
    }

    /// How many steps the view shows, each the answer to one request.
    pub fn answered(&self) -> u64
        ensures { result ≡ self.now.answered }
    {
        self.answered
    }

    /// Whether an Unmount was answered Closed.
    pub fn closed(&self) -> bool
        ensures { result ≡ self.now.closed }
    {
        self.closed
    }

    /// Whether a step's node, where it has one, may be applied to this tree. Takes no memory.
    pub fn fits(&self, step: &Step) -> bool
        ensures { result ≡ step_fits self.now step.now }
    {
        node_fits(&self.tree, &step.node)
    }

    /// Takes in a step. One whose node doesn't fit leaves the tree. Refused memory changes nothing,
    /// and so does the step after the last that can be counted.
    pub(crate) fn take_in(&mut self, step: &Step) -> Result<(), AllocError>
        ensures { MatchResult result (λ _. self.new ≡ after_tested self.old step.now)
            (λ _. self.new ≡ self.old) }
    {
        let answered = self.answered.checked_add(1).ok_or(AllocError)?;
        self.enter(step)?;
        self.answered = answered;
        self.closed |= matches!(step.outcome, Outcome::Closed);
        Ok(())
    }

    #[tactic(auto, using(crate::proofs::Entered::entered_there))]
    /// Enters a step's outcome and applies its node. The outcome is taken back where memory is
    /// refused for the node.
    fn enter(&mut self, step: &Step) -> Result<(), AllocError>
        ensures entered { OnOk result
            (self.new ≡ record self.old {
              tree = tree_tested self.old.tree step.now.node;
              outcomes = with_outcome self.old.outcomes step.now.writer step.now.seq
                  step.now.outcome;
            }) }
        ensures refused { OnErr result (self.new ≡ self.old) }
    {
        let Step {
            writer,
            seq,
            outcome,
            node,
        } = step;
        let was = self.outcomes.enter(*writer, *seq, *outcome)?;
        if let Err(refused) = apply_fitting(&mut self.tree, node) {
            self.outcomes.restore(*writer, *seq, was);
            return Err(refused);
        }
        Ok(())
    }
}

/// Whether a node, where there is one, may be applied.
pub(crate) fn node_fits(tree: &Tree, node: &Option<Node>) -> bool
    ensures { result ≡ fits_node tree.now node.now }
{
    match node {
        Some(node) => tree.can_apply(node),
        None => true,
    }
}

/// Applies a node where it fits.
pub(crate) fn apply_fitting(tree: &mut Tree, node: &Option<Node>) -> Result<(), AllocError>
    ensures applied { OnOk result (tree.new ≡ tree_tested tree.old node.now) }
    ensures refused { OnErr result (tree.new ≡ tree.old) }
{
    match node {
        Some(node) if tree.can_apply(node) => tree.apply(node).map_err(|_| AllocError),
        _ => Ok(()),
    }
}
