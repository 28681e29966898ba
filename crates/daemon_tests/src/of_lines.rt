//! The text of lines.

use daemon::{
    Due, Listen, SaveLine, SaveWatch, Settings, open_files, resident_pages, tell, tell_begun,
    tell_few_files, tell_listening, tell_saved_again, tell_start, tell_status, tell_unsaved,
};
use figures::{Figures, Refusal};
use grammar::Dialect;
use log::sink::{Lines, Memory};
use std::alloc::Global;
use std::net::{Ipv4Addr, SocketAddr, SocketAddrV4};
use std::test::Fail;

/// What a log has that was told this.
fn lines(alloc: Global, due: Due, figures: &Figures) -> Lines {
    let memory = Memory::new(alloc);
    tell(&memory, due, figures);
    memory.into_lines()
}

/// Whether the lines are these.
fn are(lines: &Lines, texts: &[&str]) -> bool {
    lines.len() == texts.len()
        && lines
            .as_slice()
            .iter()
            .zip(texts.iter())
            .all(|(line, text)| line.as_str() == *text)
}

#[test]
fn each_kind_has_a_line(rt: HostRuntime) -> Result<(), Fail> {
    let mut figures = Figures::NONE;
    figures.replicas.members = 3;
    figures.replicas.executors[0].is_up = true;
    figures.replicas.executors[2].is_up = true;
    figures.replicas.verifiers[1].is_up = true;
    figures.refusals.count(Refusal::Unknown);
    figures.refusals.count(Refusal::Unknown);
    figures.refusals.count(Refusal::Full);
    let due = Due {
        stops: Some(4),
        returns: Some(1),
        suspicions: Some(2),
        rollbacks: Some(5),
        refused: Some(100),
        failed: Some(7),
        idle: Some(8),
        lines: Some(3),
        memory: Some(6),
    };
    let told = lines(rt.alloc(), due, &figures);
    assert!(rt;
        are(
            &told,
            &[
                "[WARN ] nodes stopped: 4; up are 2 of 3 executors, 1 of 3 verifiers",
                "[INFO ] nodes back: 1; up are 2 of 3 executors, 1 of 3 verifiers",
                "[WARN ] suspicions of a leader: 2",
                "[WARN ] batches rolled back: 5",
                "[WARN ] memory refused, and something left undone: 6",
                "[WARN ] connections refused, since as many as allowed are open: 100",
                "[WARN ] accepting a connection failed, since descriptors or memory are at their limit: 7",
                "[INFO ] connections closed, since nothing happened on them: 8",
                "[WARN ] lines refused: 3; since the start 2 unknown, 0 format, 0 number, 0 chunk, 0 long, 0 large, 0 binary, 0 http, 0 forbidden, 1 full",
            ]
        )
    );
    Ok(())
}

#[test]
fn what_is_not_due_is_not_told(rt: HostRuntime) -> Result<(), Fail> {
    let due = Due {
        stops: None,
        returns: None,
        suspicions: None,
        rollbacks: None,
        refused: None,
        failed: None,
        idle: None,
        lines: None,
        memory: None,
    };
    assert!(rt; lines(rt.alloc(), due, &Figures::NONE).is_empty());
    Ok(())
}

#[test]
fn an_address_is_told(rt: HostRuntime) -> Result<(), Fail> {
    let memory = Memory::new(rt.alloc());
    let address = SocketAddr::V4(SocketAddrV4::new(Ipv4Addr::LOCALHOST, 11211));
    tell_listening(&memory, &Listen::Tcp(address));
    assert!(rt; tells_of_a_socket(rt.alloc(), &memory));
    assert!(rt;
        are(
            &memory.into_lines(),
            &[
                "[INFO ] listening on 127.0.0.1:11211",
                "[INFO ] listening on unix:/run/eve.sock"
            ]
        )
    );
    Ok(())
}

/// Tells that clients are served at a Unix socket. Whether there was memory for its path.
fn tells_of_a_socket(alloc: Global, memory: &Memory) -> bool {
    match String::from_str(alloc, "/run/eve.sock") {
        Ok(path) => {
            tell_listening(memory, &Listen::Unix(path));
            true
        }
        Err(_) => false,
    }
}

#[test]
fn the_start_is_told(rt: HostRuntime) -> Result<(), Fail> {
    let memory = Memory::new(rt.alloc());
    let address = SocketAddr::V4(SocketAddrV4::new(Ipv4Addr::LOCALHOST, 11280));
    let settings = Settings {
        listen: Vec::new(rt.alloc()),
        status: Some(address),
        u: 2,
        connections: 77,
        idle: 60,
        max_bytes: 1024,
        dialect: Dialect::Memcached,
        data: None,
    };
    tell_start(&memory, &settings);
    tell_begun(&memory, None);
    tell_begun(&memory, Some(1));
    tell_begun(&memory, Some(7));
    tell_unsaved(&memory, &"the disk is full");
    tell_saved_again(&memory, 1);
    tell_saved_again(&memory, 12);
    tell_few_files(&memory, 100, 137, 40);
    tell_status(&memory, address);
    assert!(rt;
        are(
            &memory.into_lines(),
            &[
                "[INFO ] eve_cached 2.1.0 with u 2: at most 77 connections",
                "[INFO ] nothing more is stored while the items have more than 1024 bytes",
                "[INFO ] a connection on which nothing happens for 60 seconds is closed",
                "[INFO ] nothing was saved before",
                "[INFO ] it goes on from what was saved: 1 item",
                "[INFO ] it goes on from what was saved: 7 items",
                "[WARN ] nothing is answered, since it cannot be saved: the disk is full",
                "[INFO ] it is saved and answered again, after 1 second",
                "[INFO ] it is saved and answered again, after 12 seconds",
                "[WARN ] at most 100 files may be open, and 137 may be needed: at most 40 connections are served; raise LimitNOFILE, or ulimit -n",
                "[INFO ] figures on http://127.0.0.1:11280/"
            ]
        )
    );
    Ok(())
}

#[test]
fn resident_pages_are_the_second_number(rt: HostRuntime) -> Result<(), Fail> {
    assert_eq!(rt; resident_pages("5000 1234 99 3 0 7 0\n"), Some(1234));
    assert_eq!(rt; resident_pages("5000"), None);
    assert_eq!(rt; resident_pages(""), None);
    assert_eq!(rt; resident_pages("5000 x"), None);
    Ok(())
}

#[test]
fn open_files_are_those_that_the_process_may_have(rt: HostRuntime) -> Result<(), Fail> {
    let head = "Limit                     Soft Limit           Hard Limit           Units     \n";
    assert_eq!(rt; open_files(head), None);
    let some =
        "Max processes   63427    63427    processes \nMax open files            1024                 1048576              files     \nMax locked memory         8388608  8388608  bytes \n";
    assert_eq!(rt; open_files(some), Some(1024));
    assert_eq!(rt;
        open_files(
            "Max open files            unlimited            unlimited            files     \n"
        ),
        None
    );
    assert_eq!(rt; open_files(""), None);
    Ok(())
}

#[test]
fn a_line_of_unsaved_answers_comes_once_a_minute(rt: HostRuntime) -> Result<(), Fail> {
    let mut saves = SaveWatch::NONE;
    let rows = [
        (999, false, SaveLine::Nothing),
        (1_000, true, SaveLine::Fails),
        (1_001, true, SaveLine::Nothing),
        (1_059, true, SaveLine::Nothing),
        (1_060, true, SaveLine::Fails),
        (1_119, true, SaveLine::Nothing),
        (1_120, false, SaveLine::Again(120)),
        (1_121, false, SaveLine::Nothing),
        (1_122, true, SaveLine::Fails),
        (900, true, SaveLine::Fails),
        (959, true, SaveLine::Nothing),
        (960, false, SaveLine::Again(0)),
    ];
    for (second, is_failing, line) in rows {
        assert_eq!(rt; saves.look(is_failing, second), line, "{second}");
    }
    Ok(())
}
