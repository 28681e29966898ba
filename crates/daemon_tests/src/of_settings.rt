//! The words of the command line.

use clap::Error;
use clap::error::ErrorKind;
use daemon::{Listen, Settings, read_settings};
use grammar::Dialect;
use std::alloc::Global;
use std::net::SocketAddr;
use std::test::Fail;

/// What the words say, without the program's name.
fn read(alloc: Global, words: &str) -> Option<Result<Settings, Error>> {
    let mut all = Vec::new(alloc);
    all.push(String::from_str(alloc, "eve_cached").ok()?).ok()?;
    for word in words.split(' ') {
        if !word.is_empty() {
            all.push(String::from_str(alloc, word).ok()?).ok()?;
        }
    }
    Some(read_settings(alloc, all.as_slice()))
}

/// Whether the address is spelled so.
fn is_at(address: &SocketAddr, text: &str) -> bool {
    text.parse::<SocketAddr>() == Ok(*address)
}

/// Whether this is where clients are served.
fn is_for(listen: &Listen, text: &str) -> bool {
    match listen {
        Listen::Tcp(address) => is_at(address, text),
        Listen::Unix(path) => text.strip_prefix("unix:") == Some(path.as_str()),
    }
}

/// Whether they listen on these and no others.
fn listens(settings: &Settings, texts: &[&str]) -> bool {
    settings.listen.len() == texts.len()
        && settings
            .listen
            .iter()
            .zip(texts.iter())
            .all(|(listen, text)| is_for(listen, text))
}

fn defaults(alloc: Global) -> bool {
    match read(alloc, "") {
        Some(Ok(settings)) => {
            listens(&settings, &["127.0.0.1:11211"])
                && settings.u == 1
                && settings.connections == 1024
                && settings.idle == 0
                && settings.max_bytes == 0
                && settings.dialect == Dialect::Memcached
                && settings.data.is_none()
                && settings.status.is_none()
        }
        _ => false,
    }
}

fn all_given(alloc: Global) -> bool {
    let words =
        "--listen 0.0.0.0:1 --u 3 --listen [::1]:2 --listen unix:/run/e.sock --connections=10000 --idle 90 --dialect profile --status 127.0.0.1:3";
    match read(alloc, words) {
        Some(Ok(settings)) => {
            listens(&settings, &["0.0.0.0:1", "[::1]:2", "unix:/run/e.sock"])
                && settings.u == 3
                && settings.connections == 10000
                && settings.idle == 90
                && settings.max_bytes == 0
                && settings.dialect == Dialect::Profile
                && matches!(&settings.status, Some(address) if is_at(address, "127.0.0.1:3"))
        }
        _ => false,
    }
}

/// Whether the words name this folder, which is new or not, and is synced or not.
fn saves_in(alloc: Global, words: &str, path: &str, is_new: bool, syncs: bool) -> bool {
    match read(alloc, words) {
        Some(Ok(settings)) => {
            matches!(&settings.data, Some(data) if matches!(data.paths.as_slice(), [only] if only.as_str() == path) && data.is_new == is_new && data.syncs == syncs)
        }
        _ => false,
    }
}

#[test]
fn a_folder_is_new_or_not_and_synced_or_not(rt: HostRuntime) -> Result<(), Fail> {
    let alloc = rt.alloc();
    assert!(rt; saves_in(alloc, "--data /var/lib/e", "/var/lib/e", false, true));
    assert!(rt;
        saves_in(
            alloc,
            "--new --data here --max-bytes 1M",
            "here",
            true,
            true
        )
    );
    assert!(rt; saves_in(alloc, "--data here --sync turn", "here", false, true));
    assert!(rt; saves_in(alloc, "--sync none --data here", "here", false, false));
    Ok(())
}

/// How many folders the words name.
fn folders_of(alloc: Global, words: &str) -> Option<usize> {
    match read(alloc, words) {
        Some(Ok(settings)) => match &settings.data {
            Some(data) => Some(data.paths.len()),
            None => None,
        },
        _ => None,
    }
}

#[test]
fn several_folders_have_a_copy_each(rt: HostRuntime) -> Result<(), Fail> {
    let alloc = rt.alloc();
    assert!(rt; folders_of(alloc, "--data a --data b --new --data c") == Some(3));
    assert!(rt; folders_of(alloc, "--data a") == Some(1));
    assert!(rt; folders_of(alloc, "--u 0").is_none());
    Ok(())
}

/// The kind of error that the words give, and the program's status by it.
fn refusal(alloc: Global, words: &str) -> Option<(ErrorKind, i32)> {
    match read(alloc, words)? {
        Ok(_) => None,
        Err(error) => Some((error.kind(), error.exit_code())),
    }
}

#[test]
fn without_words_there_are_defaults(rt: HostRuntime) -> Result<(), Fail> {
    assert!(rt; defaults(rt.alloc()));
    Ok(())
}

#[test]
fn each_option_is_read(rt: HostRuntime) -> Result<(), Fail> {
    assert!(rt; all_given(rt.alloc()));
    Ok(())
}

/// The limit of bytes that the word says.
fn limit(alloc: Global, words: &str) -> Option<u64> {
    match read(alloc, words)? {
        Ok(settings) => Some(settings.max_bytes),
        Err(_) => None,
    }
}

#[test]
fn a_limit_of_bytes_has_a_unit(rt: HostRuntime) -> Result<(), Fail> {
    let rows = [
        ("--max-bytes 1", 1),
        ("--max-bytes 1000000", 1_000_000),
        ("--max-bytes 3K", 3_072),
        ("--max-bytes 64M", 67_108_864),
        ("--max-bytes 4G", 4_294_967_296),
        ("--max-bytes 17179869183G", 18_446_744_072_635_809_792),
    ];
    for (words, bytes) in rows {
        assert_eq!(rt; limit(rt.alloc(), words), Some(bytes), "{words}");
    }
    Ok(())
}

#[test]
fn help_and_version_are_no_mistake(rt: HostRuntime) -> Result<(), Fail> {
    let rows = [
        ("--help", ErrorKind::DisplayHelp),
        ("-h", ErrorKind::DisplayHelp),
        ("--version", ErrorKind::DisplayVersion),
    ];
    for (words, kind) in rows {
        assert_eq!(rt; refusal(rt.alloc(), words), Some((kind, 0)), "{words}");
    }
    Ok(())
}

#[test]
fn other_words_are_refused(rt: HostRuntime) -> Result<(), Fail> {
    let rows = [
        ("--u 4", ErrorKind::ValueValidation),
        ("--u -1", ErrorKind::UnknownArgument),
        ("--u x", ErrorKind::ValueValidation),
        ("--u 1 --u 1", ErrorKind::ArgumentConflict),
        ("--connections 0", ErrorKind::ValueValidation),
        ("--connections 10001", ErrorKind::ValueValidation),
        ("--dialect meta", ErrorKind::InvalidValue),
        ("--idle x", ErrorKind::ValueValidation),
        ("--idle 2147483648", ErrorKind::ValueValidation),
        ("--max-bytes 0", ErrorKind::ValueValidation),
        ("--max-bytes K", ErrorKind::ValueValidation),
        (
            "--max-bytes 1K --dialect profile",
            ErrorKind::ArgumentConflict,
        ),
        ("--new", ErrorKind::MissingRequiredArgument),
        ("--sync none", ErrorKind::MissingRequiredArgument),
        ("--data a --sync some", ErrorKind::InvalidValue),
        ("--data=", ErrorKind::ValueValidation),
        ("--data", ErrorKind::InvalidValue),
        ("--data a --data b --data a", ErrorKind::ArgumentConflict),
        (
            "--data a --data b --data c --data d --data e --data f --data g --data h --data i --data j",
            ErrorKind::ValueValidation,
        ),
        ("--max-bytes 1k", ErrorKind::ValueValidation),
        ("--max-bytes 17179869184G", ErrorKind::ValueValidation),
        ("--listen 127.0.0.1", ErrorKind::ValueValidation),
        ("--listen localhost:1", ErrorKind::ValueValidation),
        ("--listen unix:", ErrorKind::ValueValidation),
        ("--listen", ErrorKind::InvalidValue),
        ("--status :80", ErrorKind::ValueValidation),
        ("--port 11211", ErrorKind::UnknownArgument),
        ("serve", ErrorKind::UnknownArgument),
    ];
    for (words, kind) in rows {
        assert_eq!(rt; refusal(rt.alloc(), words), Some((kind, 2)), "{words}");
    }
    Ok(())
}
