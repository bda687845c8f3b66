//! Trees that are dumped, the words of a line, and what is told of scripts and calls.
//! Lines are worked out from docs/SCRIPT.md.

mod bounds;
mod calls;
mod parts;
mod shown;
mod told;
mod writers;

use jffs_node::Node;
use jffs_text::{Command, Mistake, Quote, Script, Words, dump};
use jffs_tree::{Limits, Tree, Wish};
use std::alloc::Global;
use std::process::Abort;
use std::test::Fail;

/// The tree that a script's first writer makes, where nothing stands against a wish.
fn grown(rt: &impl Abort, alloc: Global, script: &str) -> Result<Tree, Fail> {
    let script = Script::parse(alloc, script.as_bytes())?;
    let writer = script.writers.first().ok_or("no writer")?;
    let mut tree = Tree::new(alloc);
    let mut next_inode = 2u32;
    let mut version = 1u32;
    for command in &writer.commands {
        let wish = wished(alloc, command)?;
        let inode = grow(rt, &mut tree, &wish, next_inode, version)?;
        next_inode = next_inode.max(inode.saturating_add(1));
        version = version.saturating_add(1);
    }
    Ok(tree)
}

/// What a command wishes for; apart, so that no proof of what is done carries how it was said.
fn wished(alloc: Global, command: &Command<'_>) -> Result<Wish, Fail> {
    Ok(command.wish(alloc)?)
}

/// Does what is wished for, and returns the inode that it is about.
fn grow(
    rt: &impl Abort,
    tree: &mut Tree,
    wish: &Wish,
    next_inode: u32,
    version: u32,
) -> Result<u32, Fail> {
    let node = decided(tree, wish, next_inode, version)?;
    assert!(rt; tree.can_apply(&node));
    tree.apply(&node)?;
    Ok(node.inode)
}

fn decided(tree: &Tree, wish: &Wish, next_inode: u32, version: u32) -> Result<Node, Fail> {
    let limits = Limits {
        data_max: 192,
        next_inode: Some(next_inode),
        next_version: Some(version),
    };
    Ok(tree.decide(limits, wish)?.with(version, 1, version))
}

fn dumped(alloc: Global, tree: &Tree) -> Result<Vec<u8>, Fail> {
    let mut out = Vec::new(alloc);
    dump(alloc, tree, &mut out)?;
    Ok(out)
}

#[test]
fn a_copied_tree_is_dumped_to_the_same_text(rt: HostRuntime) -> Result<(), Fail> {
    let alloc = rt.alloc();
    let tree = grown(
        &rt,
        alloc,
        "volume 8 1024\n\
        writer\n\
        mkdir /a\n\
        create /a/f\n\
        rename /a /b\n\
        mkdir /c\n\
        rename /b/f /c/f\n\
        write /c/f 2 6869\n\
        remove /b",
    )?;
    let copied = tree.copy_tree()?;
    let text = dumped(alloc, &tree)?;
    assert_eq!(rt;
        text.as_slice(),
        b"d /\nd /c\nf /c/f 4 00006869\n".as_slice()
    );
    assert!(rt; dumped(alloc, &copied)? == text);
    Ok(())
}

/// So many words are left, and this is the next one.
fn takes(rt: &impl Abort, words: &mut Words<'_>, count: usize, word: &str) {
    assert_eq!(rt; words.count(), count);
    assert_eq!(rt; words.take(), word);
}

#[test]
fn words_are_taken_from_left_to_right(rt: HostRuntime) -> Result<(), Fail> {
    let mut words = Words::of("fill  7 ");
    takes(&rt, &mut words, 4, "fill");
    takes(&rt, &mut words, 3, "");
    assert_eq!(rt; words.take_number(0, 9), Ok(7));
    takes(&rt, &mut words, 1, "");
    takes(&rt, &mut words, 0, "");
    assert_eq!(rt; Words::of("").count(), 1);
    Ok(())
}

/// The next word is no bytes.
fn refuses_bytes(rt: &impl Abort, alloc: Global, words: &mut Words<'_>, mistake: Mistake) {
    assert_eq!(rt; words.take_bytes(alloc).err(), Some(mistake));
}

/// This is the next word, and it is no byte.
fn refuses_byte(rt: &impl Abort, words: &mut Words<'_>, word: &str) {
    let mistake = Mistake::OneByte(Quote::of(word));
    assert_eq!(rt; words.take_byte(), Err(mistake));
}

#[test]
fn bytes_are_lower_case_hex(rt: HostRuntime) -> Result<(), Fail> {
    let alloc = rt.alloc();
    let mut words = Words::of("00ff1a - 0 0g 1A");
    assert_eq!(rt;
        words.take_bytes(alloc)?.as_slice(),
        [0u8, 255, 26].as_slice()
    );
    assert_eq!(rt; words.take_bytes(alloc)?.len(), 0);
    refuses_bytes(&rt, alloc, &mut words, Mistake::OddHex(Quote::of("0")));
    refuses_bytes(&rt, alloc, &mut words, Mistake::Hex(Quote::of("0g")));
    refuses_byte(&rt, &mut words, "1A");
    refuses_byte(&rt, &mut words, "");
    Ok(())
}
