//! Replays and images, each against the rules.

mod calls;
mod images;
mod operations;
mod records;
mod streams;
mod turns;

use jffs_tools::{Replay, run_image, run_lines, run_replay};
use std::alloc::{AllocError, Global};
use std::process::Abort;
use std::rt::Files;
use std::test::Fail;

/// What a replay writes, and its status, where it reads no file.
fn replayed<Rt: Abort + Files + AllocGlobal>(
    rt: &Rt,
    script: &str,
    status: u8,
) -> Result<String, Fail> {
    let mut input = script.as_bytes();
    let mut out = Vec::new(rt.alloc());
    let mut errors = Vec::new(rt.alloc());
    let ended = run_replay(rt, &[], &mut input, &mut out, &mut errors);
    assert_eq!(rt; ended, status, "of {script}");
    assert_eq!(rt; errors.is_empty(), status == 0, "of {script}");
    text_of(rt, out)
}

/// That a replay writes these lines.
fn replays<Rt: Abort + Files + AllocGlobal>(
    rt: &Rt,
    script: &str,
    wanted: &str,
) -> Result<(), Fail> {
    let out = replayed(rt, script, 0)?;
    assert_eq!(rt; out.as_str(), wanted, "of {script}");
    Ok(())
}

/// That a replay that begins with this image writes these lines; what stands then.
fn replays_from<Rt: Abort + Files + AllocGlobal>(
    rt: &Rt,
    image: Vec<u8>,
    script: &str,
    wanted: &str,
) -> Result<Replay, Fail> {
    let mut replay = Replay::new(rt.alloc());
    let sectors = (image.len() / 1024).min(64) as u32;
    replay.begin(sectors, 1024, image)?;
    let mut out = Vec::new(rt.alloc());
    let stopped = run_lines(rt, &mut replay, &mut script.as_bytes(), &mut out);
    assert_eq!(rt; stopped, Ok(()), "of {script}");
    let out = text_of(rt, out)?;
    assert_eq!(rt; out.as_str(), wanted, "of {script}");
    Ok(replay)
}

/// That the program shows this of an image of sectors of 1024 bytes, and its status.
fn shows<Rt: Abort + AllocGlobal>(
    rt: &Rt,
    image: &[u8],
    status: u8,
    wanted: &str,
) -> Result<(), Fail> {
    let sectors = image.len() / 1024;
    let words = [
        String::from_str(rt.alloc(), "jffs_image")?,
        format!(in rt.alloc(); "{sectors}")?,
        String::from_str(rt.alloc(), "1024")?,
    ];
    let mut input = image;
    let mut out = Vec::new(rt.alloc());
    let mut errors = Vec::new(rt.alloc());
    let ended = run_image(rt.alloc(), &words, &mut input, &mut out, &mut errors);
    assert!(rt; errors.is_empty(), "at {wanted}");
    let out = text_of(rt, out)?;
    assert_eq!(rt; out.as_str(), wanted);
    assert_eq!(rt; ended, status, "at {wanted}");
    Ok(())
}

fn text_of<Rt: AllocGlobal>(rt: &Rt, bytes: Vec<u8>) -> Result<String, Fail> {
    Ok(String::from_str(rt.alloc(), str::from_utf8(&bytes)?)?)
}

/// The words that a program is called with.
fn called(alloc: Global, words: &[&str]) -> Result<Vec<String>, AllocError> {
    let mut called = Vec::new(alloc);
    for word in words {
        called.push(String::from_str(alloc, word)?)?;
    }
    Ok(called)
}
