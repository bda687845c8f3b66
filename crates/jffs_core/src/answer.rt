//! Answers.

use jffs_node::Node;
use jffs_tree::Outcome;

/// What a sender's request was answered.
#[derive(Clone, Copy, Debug, PartialEq, Eq)]
pub struct Answer {
    /// The number of the sender, as its request had it.
    pub writer: u16,
    /// The request's number, as the request had it; a line numbers each sender's from 1.
    pub seq: u32,
    /// What became of the request.
    pub outcome: Outcome,
}

/// What a request was answered, and the node that was appended for it. A refused request, and an
/// Unmount of a clean log, append none.
#[derive(Drop)]
pub struct Answered {
    /// What became of the request.
    pub outcome: Outcome,
    /// The node that was appended for the request itself; a copy that made room isn't it.
    pub node: Option<Node>,
}
