//! All talks.

use crate::seen::{Talk, is_held};
use crate::{asking, asking_again, closing, hangups, replies, texts};
use proto::Fault;
use std::alloc::Global;
use std::test::Fail;

const TALKS: [(&str, &[Talk]); 6] = [
    ("commands_are_asked", asking::TALKS),
    ("requests_are_asked_again", asking_again::TALKS),
    ("what_closes", closing::TALKS),
    ("connections_end", hangups::TALKS),
    ("replies_are_given", replies::TALKS),
    ("texts_are_given", texts::TALKS),
];

/// The first talk that is not held, and why.
fn first_wrong(alloc: Global, talks: &[Talk]) -> Option<(&'static str, Fault)> {
    for talk in talks {
        if let Err(fault) = is_held(alloc, talk) {
            return Some((talk.name, fault));
        }
    }
    None
}

#[test]
fn talks_are_held(rt: HostRuntime) -> Result<(), Fail> {
    for (name, talks) in &TALKS {
        assert_eq!(rt; first_wrong(rt.alloc(), *talks), None, "{name}");
    }
    Ok(())
}
