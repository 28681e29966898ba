//! Whole files: what is skipped, how they end, and which line is named.

use crate::seen::{Row, read};
use std::test::Fail;

#[test]
fn empty_lines_and_comments_are_skipped(rt: HostRuntime) -> Result<(), Fail> {
    let rows: &[Row] = &[
        (
            b"\n\n# a world\nu 1\n\n#\nclients 2\n# and no event\n",
            "u 1, 2 clients;",
        ),
        (
            b"u 1\nclients 2\n\n# u 4\n\nfinish 0\n\n",
            "u 1, 2 clients; Finish 0;",
        ),
        (b"u 1\nclients 2\n#", "u 1, 2 clients;"),
        (b"u 1\nclients 2\n# \xff\x00\r\\\n", "u 1, 2 clients;"),
        (b"u 1\nclients 2\n #\n", "6 BadSchedule line 3"),
        (b"u 1\nclients 2\n\r\n", "6 BadSchedule line 3"),
    ];
    for (text, words) in rows {
        let found = read(rt.alloc(), *text)?;
        assert!(rt; found.as_str() == *words, "{words}");
    }
    Ok(())
}

#[test]
fn the_last_line_may_lack_its_end(rt: HostRuntime) -> Result<(), Fail> {
    let rows: &[Row] = &[
        (b"u 0\nclients 1", "u 0, 1 clients;"),
        (b"u 0\nclients 1\n", "u 0, 1 clients;"),
        (b"u 0\nclients 1\nfinish 0", "u 0, 1 clients; Finish 0;"),
        (b"u 0\nclients 1\nfinish 0\n", "u 0, 1 clients; Finish 0;"),
        (b"u 0\nclients 1\nfeed 1 ", "u 0, 1 clients; Feed 1;"),
    ];
    for (text, words) in rows {
        let found = read(rt.alloc(), *text)?;
        assert!(rt; found.as_str() == *words, "{words}");
    }
    Ok(())
}

#[test]
fn a_file_without_its_size_is_refused_behind_its_last_line(rt: HostRuntime) -> Result<(), Fail> {
    let rows: &[Row] = &[
        (b"", "6 BadSchedule line 1"),
        (b"\n", "6 BadSchedule line 2"),
        (b"\n\n", "6 BadSchedule line 3"),
        (b"# a", "6 BadSchedule line 2"),
        (b"u 0", "6 BadSchedule line 2"),
        (b"u 0\n", "6 BadSchedule line 2"),
        (b"u 0\n\n# b\n", "6 BadSchedule line 4"),
        (b"u 0\n\n# b", "6 BadSchedule line 4"),
    ];
    for (text, words) in rows {
        let found = read(rt.alloc(), *text)?;
        assert!(rt; found.as_str() == *words, "{words}");
    }
    Ok(())
}

#[test]
fn the_first_bad_line_is_named(rt: HostRuntime) -> Result<(), Fail> {
    let rows: &[Row] = &[
        (b"clients 1\nu 0\n", "6 BadSchedule line 1"),
        (b"frob\n", "6 BadSchedule line 1"),
        (b"u 0\nfinish 0\nclients 1\n", "6 BadSchedule line 2"),
        (b"u 0\nu 0\nclients 1\n", "6 BadSchedule line 2"),
        (b"u 0\n\n#\nclients\n", "6 BadSchedule line 4"),
        (b"u  0\n", "6 BadSchedule line 1"),
        (
            b"u 0\nclients 1\nfinish 0\n\n# c\nfrob\nfrob\n",
            "6 BadSchedule line 6",
        ),
        (b"u 0\nclients 1\nu 0\n", "6 BadSchedule line 3"),
        (b"u 0\nclients 1\nclients 1\n", "6 BadSchedule line 3"),
        (b"u 4\nclients 65\nfrob\n", "6 BadSchedule line 1"),
    ];
    for (text, words) in rows {
        let found = read(rt.alloc(), *text)?;
        assert!(rt; found.as_str() == *words, "{words}");
    }
    Ok(())
}
