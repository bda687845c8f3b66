//! One request, one answer.

ghost use Rattle.std.specs.Prelude.{◌≡◌, ◌<◌, ◌≤◌, ◌+◌, ◌++◌, ◌∷◌, ◌||◌, ◌&&◌, [], List, length};
ghost use Rattle.std.specs.Prelude.{true, false, OnOk, OnErr, IfOk, IfErr, Ok, Some, None};
ghost use Rattle.jffs_node.specs.Record.{record_len as length_of};
ghost use Rattle.jffs_core.specs.CoreState.{IsSameButCapacity};
ghost use Rattle.jffs_tree.specs.declared.wish.Outcome.TheVariants.{Refused};
ghost use Rattle.jffs_tree.specs.Decide.{is_copy_wish, is_unmount_wish};
ghost use Rattle.jffs_core.specs.Answering.{is_closed};
ghost use Rattle.jffs_core.specs.Nodes.{HasNode};

use crate::answer::{Answer, Answered};
use crate::mounted_core::Core;
use jffs_flash::Flash;
use jffs_line::Request;
use jffs_log::Room;
use jffs_node::{Node, record_len};
use jffs_tree::{Cause, Outcome};

impl<F: Flash> Core<F> {
    ghost use Rattle.jffs_node.specs.declared.node.Node.{Node};
    ghost use Rattle.jffs_core.specs.Past.{RepresentsWorking, Represents, has_room_for};
    ghost use Rattle.jffs_core.specs.Answering.{Answers, AnswersWith, HasActed};
    ghost use Rattle.jffs_core.specs.Answering.{HasAppended};
    ghost use Rattle.jffs_core.specs.Answering.{AddsAnswer, IsNodeOf, KeepsAnswer, WantsFresh};
    ghost use Rattle.jffs_core.specs.Asking.{IsAsked};
    ghost use Rattle.jffs_core.specs.Erases.{Leaves, StaysBounded, erased_for};
    ghost use Rattle.jffs_core.specs.Trees.{TellsNode};

    /// Reserves memory for one more answer.
    ///
    /// `Memory` if allocation failed: nothing is changed.
    pub fn reserve_answer(&mut self) -> Result<(), Cause>
        ensures same { IsSameButCapacity self.old self.new }
        ensures reserved { OnOk result (length self.new.answers < self.new.capacity) }
        ensures memory { IfErr result (λ cause. cause ≡ Cause.Memory) }
    {
        self.answers.reserve(1)?;
        Ok(())
    }

    /// Answers a request and keeps the answer. Precondition: memory for an answer is reserved.
    ///
    /// The answer is a lawful step from the history before to the one after. A request that is
    /// refused for a cause from RootFixed to InodesSpent, or Failed since the core had failed,
    /// changes nothing but the answers. So does VersionsSpent, Memory or NoSpace, but for a change
    /// for which room was to be made: then copies may stay that were made for it and sectors that
    /// were erased, and no file is changed. After Device the core is failed, and the image holds
    /// the history, or it and the node in hand: a copy that was to make room, or the node that was
    /// decided for the request. Once an erase failed, the oldest sector may hold any bytes.
    pub fn answer(&mut self, request: Request) -> Outcome
        requires reserved { length self.old.answers < self.old.capacity }
        ensures kept { AddsAnswer request.writer request.seq result self.old self.new }
        ensures step { (mounted past : List Node) → Represents mounted past self.old
            → Answers mounted past self.old self.new request result }
        ensures bounded { StaysBounded request.wish self.old self.new }
    {
        self.answer_with_node(&request).outcome
    }

    /// Answers a request as [`answer`](Core::answer) does, and keeps no answer, nor those that
    /// were kept before: for whoever tells each at once, so that a core takes no more memory the
    /// longer it is open.
    ///
    /// `Memory` if allocation failed for the answer: nothing was asked, and nothing is changed.
    pub fn ask(&mut self, request: Request) -> Result<Outcome, Cause>
        ensures asked { IfOk result (λ outcome. IsAsked request outcome self.old self.new) }
        ensures unasked { OnErr result (IsSameButCapacity self.old self.new) }
        ensures memory { IfErr result (λ cause. cause ≡ Cause.Memory) }
    {
        self.reserve_answer()?;
        let outcome = self.answer(request);
        self.answers.clear();
        Ok(outcome)
    }

    /// Answers a request as [`answer`](Core::answer) does, and also returns the node that was
    /// appended for it. That node may be applied to the tree that the core had, or to any of the
    /// same state, and makes the state of the tree that it has then.
    pub fn answer_with_node(&mut self, request: &Request) -> Answered
        requires reserved { length self.old.answers < self.old.capacity }
        ensures kept { AddsAnswer request.now.writer request.now.seq result.outcome
            self.old self.new }
        ensures step { (mounted past : List Node) → Represents mounted past self.old
            → AnswersWith mounted past self.old self.new request.now result.outcome result.node }
        ensures node { HasNode result.outcome result.node }
        ensures tree { TellsNode self.old self.new result.node }
        ensures bounded { StaysBounded request.now.wish self.old self.new }
    {
        if self.log.failed() {
            return self.refuse(request, Cause::Failed);
        }
        match self.carry_out(request) {
            Ok(answered) => {
                self.push_answer(request.writer, request.seq, answered.outcome);
                answered
            }
            Err(cause) => self.refuse(request, cause),
        }
    }

    /// Adds the answer to a request for which nothing is appended. It is made where it is handed
    /// out, so that a refusal moves no node.
    fn refuse(&mut self, request: &Request, cause: Cause) -> Answered
        requires reserved { length self.old.answers < self.old.capacity }
        ensures kept { KeepsAnswer request.now.writer request.now.seq (Refused cause) self.old
            self.new }
        ensures held { self.new.failed ≡ false → self.new.index.held ≤ self.new.index.sectors }
        ensures told { result ≡ record { outcome = Refused cause; node = None } }
    {
        let outcome = Outcome::Refused(cause);
        self.push_answer(request.writer, request.seq, outcome);
        Answered {
            outcome,
            node: None,
        }
    }

    /// Adds an answer to the list, for which capacity is reserved.
    fn push_answer(&mut self, writer: u16, seq: u32, outcome: Outcome)
        requires reserved { length self.old.answers < self.old.capacity }
        ensures kept { KeepsAnswer writer seq outcome self.old self.new }
        ensures held { self.new.failed ≡ false → self.new.index.held ≤ self.new.index.sectors }
    {
        self.closed = self.closed || closes(outcome);
        self.answers.push_reserved(Answer {
            writer,
            seq,
            outcome,
        });
    }

    /// Appends what a request wants, or returns why nothing is appended.
    fn carry_out(&mut self, request: &Request) -> Result<Answered, Cause>
        requires working { self.old.failed ≡ false }
        ensures acted { (past : List Node) → RepresentsWorking past self.old
            → HasActed past self.old self.new request.now result }
        ensures leaves { Leaves (erased_for request.now.wish self.old.index.held)
            self.old self.new }
    {
        if self.clean && request.wish.is_unmount() {
            return Ok(Answered {
                outcome: Outcome::Closed,
                node: None,
            });
        }
        let new = self.tree.decide(self.limits, &request.wish)?;
        let Some(version) = self.limits.next_version else {
            unreachable!()
        };
        let mut node = new.with(version, request.writer, request.seq);
        let outcome = self.append_decided(request, &mut node)?;
        Ok(Answered {
            outcome,
            node: Some(node),
        })
    }

    /// Appends the node that was decided on. Cleaning that comes before it gives it a later
    /// version.
    fn append_decided(&mut self, request: &Request, node: &mut Node) -> Result<Outcome, Cause>
        requires working { self.old.failed ≡ false }
        requires decided { IsNodeOf self.old request.now node.old }
        ensures acted { (past : List Node) → RepresentsWorking past self.old
            → HasAppended past self.old self.new request.now node.new result }
        ensures leaves { Leaves (erased_for request.now.wish self.old.index.held)
            self.old self.new }
    {
        if request.wish.is_unmount() {
            return self.append_unmount(request, node);
        }
        if request.wish.is_copy() {
            return self.append_copy(request, node);
        }
        self.append_fresh(request, node)
    }

    /// Appends an unmount node.
    fn append_unmount(&mut self, request: &Request, node: &Node) -> Result<Outcome, Cause>
        requires working { self.old.failed ≡ false }
        requires decided { IsNodeOf self.old request.now node.now }
        requires unmounts { is_unmount_wish request.now.wish ≡ true }
        ensures acted { (past : List Node) → RepresentsWorking past self.old
            → HasAppended past self.old self.new request.now node.now result }
        ensures leaves { Leaves 0 self.old self.new }
    {
        self.append(Room::Unmount, node)?;
        Ok(Outcome::Closed)
    }

    /// Appends a copy that a sender handed in.
    fn append_copy(&mut self, request: &Request, node: &Node) -> Result<Outcome, Cause>
        requires working { self.old.failed ≡ false }
        requires decided { IsNodeOf self.old request.now node.now }
        requires copies { is_copy_wish request.now.wish ≡ true }
        ensures acted { (past : List Node) → RepresentsWorking past self.old
            → HasAppended past self.old self.new request.now node.now result }
        ensures leaves { Leaves 0 self.old self.new }
    {
        self.append(Room::Fresh, node)?;
        Ok(Outcome::Copied {
            version: node.version,
        })
    }

    /// Appends a fresh node; where it has no room, room is made for it first.
    fn append_fresh(&mut self, request: &Request, node: &mut Node) -> Result<Outcome, Cause>
        requires working { self.old.failed ≡ false }
        requires decided { IsNodeOf self.old request.now node.old }
        requires fresh { WantsFresh request.now.wish }
        ensures acted { (past : List Node) → RepresentsWorking past self.old
            → HasAppended past self.old self.new request.now node.new result }
        ensures leaves { Leaves self.old.index.held self.old self.new }
    {
        match self.append(Room::Fresh, node) {
            Ok(()) => Ok(appended(node)),
            Err(cause) => match cause {
                Cause::NoSpace => self.clean_for(request, node),
                _ => Err(cause),
            },
        }
    }

    /// Makes room for a fresh node that has none, and appends it. The copies take versions.
    fn clean_for(&mut self, request: &Request, node: &mut Node) -> Result<Outcome, Cause>
        requires working { self.old.failed ≡ false }
        requires decided { IsNodeOf self.old request.now node.old }
        requires fresh { WantsFresh request.now.wish }
        requires no_room { has_room_for self.old Room.Fresh (length_of node.old) ≡ false }
        ensures acted { (past : List Node) → RepresentsWorking past self.old
            → HasAppended past self.old self.new request.now node.new result }
        ensures leaves { Leaves self.old.index.held self.old self.new }
    {
        if !self.make_room(record_len(node))? {
            return Err(Cause::NoSpace);
        }
        let Some(version) = self.limits.next_version else {
            return Err(Cause::VersionsSpent);
        };
        node.version = version;
        self.append(Room::Fresh, node)?;
        Ok(appended(node))
    }
}

/// The answer to a request whose fresh node was appended.
fn appended(node: &Node) -> Outcome
    ensures { result ≡ Outcome.Appended node.now.inode node.now.version }
{
    Outcome::Appended {
        inode: node.inode,
        version: node.version,
    }
}

/// Whether an answer closes the session.
fn closes(outcome: Outcome) -> bool
    ensures { result ≡ is_closed outcome }
{
    matches!(outcome, Outcome::Closed)
}
