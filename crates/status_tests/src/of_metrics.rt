//! The metrics.

use crate::grammar::is_line;
use crate::samples::{some_figures, some_folders};
use figures::Figures;
use metrics::{Folders, metrics_of};
use std::alloc::Global;
use std::test::Fail;

/// Whether all lines are of the form, and there are so many. The last one ends too.
fn is_form(text: &[u8], count: usize) -> bool {
    let mut lines = 0usize;
    for line in text.split(|b| *b == b'\n') {
        if !line.is_empty() {
            if !is_line(line) {
                return false;
            }
            lines = lines.saturating_add(1);
        }
    }
    lines == count && text.ends_with(b"\n")
}

fn has_line(text: &[u8], wanted: &[u8]) -> bool {
    text.split(|b| *b == b'\n').any(|line| line == wanted)
}

fn are_form(alloc: Global, figures: &Figures, folders: &Folders, count: usize) -> bool {
    match metrics_of(alloc, figures, folders) {
        Ok(text) => is_form(text.as_slice(), count),
        Err(_) => false,
    }
}

/// The first of these lines that is not there.
fn missing_in(text: &[u8], lines: &[&[u8]]) -> Option<usize> {
    for (at, line) in lines.iter().enumerate() {
        if !has_line(text, *line) {
            return Some(at);
        }
    }
    None
}

/// The same in the metrics of some figures and folders.
fn missing(alloc: Global, lines: &[&[u8]]) -> Option<usize> {
    match metrics_of(alloc, &some_figures(), &some_folders()) {
        Ok(text) => missing_in(text.as_slice(), lines),
        Err(_) => Some(lines.len()),
    }
}

/// 48 metrics with two lines each; 32 values, 32 of commands, ten of refused lines, 18 of each of seven histograms. Each
/// node that is there has a line of two metrics, and each folder one of five.
#[test]
fn each_line_is_of_the_form(rt: HostRuntime) -> Result<(), Fail> {
    let alloc = rt.alloc();
    assert!(rt;
        are_form(
            alloc,
            &Figures::NONE,
            &Folders::NONE,
            96 + 32 + 32 + 10 + 126
        )
    );
    assert!(rt;
        are_form(
            alloc,
            &some_figures(),
            &some_folders(),
            96 + 32 + 32 + 10 + 126 + 12 + 15
        )
    );
    Ok(())
}

const LINES_OF_VALUES: &[&[u8]] = &[
    b"eve_uptime_seconds 7",
    b"# TYPE eve_uptime_seconds gauge",
    b"process_start_time_seconds 1764403200",
    b"eve_connections_limit 1024",
    b"eve_idle_connections_closed_total 4",
    b"eve_lines_refused_total{why=\"number\"} 1",
    b"# TYPE eve_connections_accepted_total counter",
    b"eve_connections_accepted_total 12",
    b"eve_commands_total{command=\"set\",outcome=\"stored\"} 2",
    b"eve_commands_total{command=\"get\",outcome=\"miss\"} 0",
    b"eve_node_up{role=\"executor\",id=\"0\"} 1",
    b"eve_node_up{role=\"executor\",id=\"2\"} 0",
    b"eve_node_stops_total{role=\"executor\",id=\"0\"} 2",
];

const LINES_OF_SAVES: &[&[u8]] = &[
    b"# TYPE eve_saves_total counter",
    b"eve_saves_total 100",
    b"# TYPE eve_save_failures_total counter",
    b"eve_save_failures_total 3",
    b"# TYPE eve_save_waiting_messages gauge",
    b"eve_save_waiting_messages 5",
    b"# TYPE eve_save_failing gauge",
    b"eve_save_failing 1",
    b"# TYPE eve_data_bytes gauge",
    b"eve_data_bytes 73728",
    b"eve_folders 3",
    b"eve_current_folders 2",
    b"eve_save_seconds_sum 0.000700",
];

const LINES_OF_HISTOGRAMS: &[&[u8]] = &[
    b"# TYPE eve_reply_seconds histogram",
    b"eve_reply_seconds_bucket{le=\"0.000050\"} 1",
    b"eve_reply_seconds_bucket{le=\"0.000100\"} 2",
    b"eve_reply_seconds_bucket{le=\"2.500000\"} 2",
    b"eve_reply_seconds_bucket{le=\"+Inf\"} 2",
    b"eve_reply_seconds_sum 0.000101",
    b"eve_reply_seconds_count 2",
    b"eve_batch_seconds_sum 1.234567",
    b"eve_batch_wait_seconds_sum 0.000001",
    b"eve_batch_execute_seconds_sum 0.000020",
    b"eve_batch_agree_seconds_sum 0.000300",
    b"eve_batch_commit_seconds_sum 0.004000",
];

const LINES_OF_FOLDERS: &[&[u8]] = &[
    b"# TYPE eve_folder_current gauge",
    b"eve_folder_current{folder=\"1\"} 1",
    b"eve_folder_current{folder=\"2\"} 0",
    b"# TYPE eve_folder_saves_total counter",
    b"eve_folder_saves_total{folder=\"0\"} 100",
    b"eve_folder_save_failures_total{folder=\"1\"} 1",
    b"eve_folder_last_save_timestamp_seconds{folder=\"0\"} 1764403300",
    b"eve_folder_bytes{folder=\"0\"} 36864",
];

/// Lines of some figures, by what they tell.
const LINES: [(&str, &[&[u8]]); 4] = [
    ("lines_of_values", LINES_OF_VALUES),
    ("lines_of_saves", LINES_OF_SAVES),
    ("lines_of_folders", LINES_OF_FOLDERS),
    ("lines_of_histograms", LINES_OF_HISTOGRAMS),
];

#[test]
fn lines_are_there(rt: HostRuntime) -> Result<(), Fail> {
    for (name, lines) in &LINES {
        assert_eq!(rt; missing(rt.alloc(), *lines), None, "{name}");
    }
    Ok(())
}
