//! Calls that are refused for their words, before any file is opened.
//! Lines and statuses are those of docs/TOOLS.md.

use super::{plays, refuses};
use std::test::Fail;

#[test]
fn each_word_that_is_wrong_has_its_line(rt: HostRuntime) -> Result<(), Fail> {
    refuses(
        &rt,
        "jffs_volume: ",
        &[
            (
                "creat r.image",
                2,
                "unknown command 'creat'; commands are format, ls, cat, put, mkdir, mv, rm, df, \
                check, map, save, load and serve",
            ),
            (
                "ls r.image --all",
                2,
                "unknown option '--all'; options are -l, -r, --svg, --from-damaged, --sector-size, \
                --help and --version",
            ),
            (
                "ls -",
                2,
                "unknown option '-'; options are -l, -r, --svg, --from-damaged, --sector-size, \
                --help and --version",
            ),
            (
                "ls r.image --help",
                2,
                "unexpected word 'ls' beside '--help', which stands alone",
            ),
            (
                "--version r.image",
                2,
                "unexpected word 'r.image' beside '--version', which stands alone",
            ),
            (
                "ls  r.image",
                2,
                "an empty word; --help tells which words there are",
            ),
            ("cat r.image /f /g", 2, "unexpected word '/g'"),
            ("mv r.image /f", 2, "words are missing: mv FILE PATH PATH"),
            (
                "format r.image six 1024",
                2,
                "a number is wanted, got 'six'",
            ),
            (
                "ls r.image --sector-size",
                2,
                "--sector-size wants a number",
            ),
        ],
    )?;
    plays(&rt, &[("--version", "", 0, "jffs_volume 0.1.0\n")])
}

#[test]
fn each_command_refuses_a_word_too_many(rt: HostRuntime) -> Result<(), Fail> {
    for line in [
        "format a 6 1024 x",
        "ls a /b x",
        "cat a /b x",
        "put a /b x",
        "mkdir a /b x",
        "mv a /b /c x",
        "rm -r a /b x",
        "df a x",
        "check a x",
        "map a x",
        "save a b x",
        "load a b x",
    ] {
        refuses(&rt, "jffs_volume: ", &[(line, 2, "unexpected word 'x'")])?;
    }
    Ok(())
}

#[test]
fn each_command_refuses_an_option_of_another(rt: HostRuntime) -> Result<(), Fail> {
    for (line, told) in [
        (
            "format -r a 6 1024",
            "'-r': format FILE SECTORS SECTOR_SIZE",
        ),
        ("ls -r a", "'-r': ls [-l] FILE [PATH]"),
        ("cat -l a /b", "'-l': cat FILE PATH"),
        ("put -r a /b", "'-r': put FILE PATH"),
        ("mkdir -r a /b", "'-r': mkdir FILE PATH"),
        ("mv -r a /b /c", "'-r': mv FILE PATH PATH"),
        ("rm -l a /b", "'-l': rm [-r] FILE PATH"),
        ("df --svg a", "'--svg': df FILE"),
        ("check -l a", "'-l': check FILE"),
        ("map -l a", "'-l': map [--svg] FILE"),
        ("save -r a b", "'-r': save [--from-damaged] FILE DIRECTORY"),
        ("load -r a b", "'-r': load FILE DIRECTORY"),
        (
            "load --from-damaged a b",
            "'--from-damaged': load FILE DIRECTORY",
        ),
    ] {
        refuses(&rt, "jffs_volume: unexpected option ", &[(line, 2, told)])?;
    }
    Ok(())
}

#[test]
fn each_command_wants_its_words(rt: HostRuntime) -> Result<(), Fail> {
    refuses(
        &rt,
        "jffs_volume: ",
        &[
            (
                "--sector-size 1024",
                2,
                "a command is wanted: format, ls, cat, put, mkdir, mv, rm, df, check, map, \
                save, load or serve; --help tells more",
            ),
            (
                "map -x a",
                2,
                "unknown option '-x'; options are -l, -r, --svg, --from-damaged, --sector-size, \
                --help and --version",
            ),
            (
                "save a",
                2,
                "words are missing: save [--from-damaged] FILE DIRECTORY",
            ),
            ("load a", 2, "words are missing: load FILE DIRECTORY"),
            ("map", 2, "words are missing: map [--svg] FILE"),
            ("rm -r a", 2, "words are missing: rm [-r] FILE PATH"),
            ("ls a --sector-size 1k", 2, "a number is wanted, got '1k'"),
        ],
    )
}
