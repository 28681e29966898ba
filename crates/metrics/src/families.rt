//! The lines of each metric.

ghost use Rattle.std.specs.Prelude.{◌≡◌, ◌++◌, ◌+◌, ◌≤◌, OnOk, IfOk, flat_map, length, take};
ghost use Rattle.metrics.specs.Families.{metric_head, whole_sample_text, outcome_text, outcomes_text, kind_lines, commands_text, all_commands_text, refusals_text, all_refusals_text, node_value, nodes_text, all_nodes_text, folder_value, folders_text, all_folders_text, bucket_text, buckets_text, bound_of, bounds_after, total_from, histogram_text, samples_text, family_text, metrics_text};
ghost use Rattle.figures.specs.declared.node.TheConstants.{MOST_NODES};
ghost use Rattle.metrics.specs.declared.folder.TheConstants.{MOST_FOLDERS};

use crate::folder::{FolderFigures, Folders};
use crate::metric::{ALL_METRICS, Metric};
use crate::sample::{Labels, Number, Role, Sample, Suffix, write_sample};
use figures::{
    ALL_KINDS, ALL_OUTCOMES, ALL_REFUSALS, BOUNDS, Commands, Figures, Histogram, Kind, MOST_NODES,
    NodeFigures, Outcome, Refusal, Refusals, Replicas, plus,
};
use std::alloc::{AllocError, Global};

/// The HELP and the TYPE line.
fn write_head(metric: Metric, out: &mut Vec<u8>) -> Result<(), AllocError>
    ensures { OnOk result (out.new.items ≡ out.old.items ++ metric_head metric) }
{
    let name = metric.name().as_bytes();
    out.extend_from_slice(b"# HELP ".as_slice())?;
    out.extend_from_slice(name)?;
    out.extend_from_slice(b" ".as_slice())?;
    out.extend_from_slice(metric.help().as_bytes())?;
    out.extend_from_slice(b"\n# TYPE ".as_slice())?;
    out.extend_from_slice(name)?;
    out.extend_from_slice(b" ".as_slice())?;
    out.extend_from_slice(metric.metric_type().name().as_bytes())?;
    out.extend_from_slice(b"\n".as_slice())
}

/// One value of one metric, with its labels.
fn write_whole(
    metric: Metric,
    labels: Labels,
    number: u64,
    out: &mut Vec<u8>,
) -> Result<(), AllocError>
    ensures { OnOk result (out.new.items ≡ out.old.items ++ whole_sample_text metric labels number) }
{
    write_sample(
        Sample {
            metric,
            suffix: Suffix::None,
            labels,
            number: Number::Whole(number),
        },
        out,
    )
}

/// The line of a command and an outcome, if the protocol has it or it was counted.
#[tactic(auto, unfolding(crate::specs::Families::outcome_text))]
fn write_outcome(
    kind: Kind,
    outcome: Outcome,
    count: u64,
    out: &mut Vec<u8>,
) -> Result<(), AllocError>
    ensures { OnOk result (out.new.items ≡ out.old.items ++ outcome_text kind outcome count) }
{
    if kind.has(outcome) || 0 < count {
        write_whole(Metric::Commands, Labels::Command(kind, outcome), count, out)
    } else {
        Ok(())
    }
}

fn write_outcomes(
    kind: Kind,
    outcomes: &[Outcome],
    commands: &Commands,
    out: &mut Vec<u8>,
) -> Result<(), AllocError>
    ensures { OnOk result (out.new.items ≡ out.old.items ++ outcomes_text commands.now kind outcomes.now) }
{
    for outcome in outcomes {
        write_outcome(kind, *outcome, commands.count_of(kind, *outcome), out)?;
    }
    Ok(())
}

/// The lines of a command.
#[tactic(auto, unfolding(crate::specs::Families::kind_lines))]
fn write_command(kind: Kind, commands: &Commands, out: &mut Vec<u8>) -> Result<(), AllocError>
    ensures { OnOk result (out.new.items ≡ out.old.items ++ kind_lines commands.now kind) }
{
    write_outcomes(kind, ALL_OUTCOMES.as_slice(), commands, out)
}

fn write_commands(kinds: &[Kind], commands: &Commands, out: &mut Vec<u8>) -> Result<(), AllocError>
    ensures { OnOk result (out.new.items ≡ out.old.items ++ commands_text commands.now kinds.now) }
{
    for kind in kinds {
        write_command(*kind, commands, out)?;
    }
    Ok(())
}

/// The lines of all commands.
#[tactic(auto, unfolding(crate::specs::Families::all_commands_text))]
fn write_all_commands(commands: &Commands, out: &mut Vec<u8>) -> Result<(), AllocError>
    ensures { OnOk result (out.new.items ≡ out.old.items ++ all_commands_text commands.now) }
{
    write_commands(ALL_KINDS.as_slice(), commands, out)
}

fn write_refusals(
    refusals: &[Refusal],
    counts: &Refusals,
    out: &mut Vec<u8>,
) -> Result<(), AllocError>
    ensures { OnOk result (out.new.items ≡ out.old.items ++ refusals_text counts.now refusals.now) }
{
    for refusal in refusals {
        write_whole(
            Metric::LinesRefused,
            Labels::Why(*refusal),
            counts.of(*refusal),
            out,
        )?;
    }
    Ok(())
}

/// The lines of all reasons for which lines are refused.
#[tactic(auto, unfolding(crate::specs::Families::all_refusals_text))]
fn write_all_refusals(counts: &Refusals, out: &mut Vec<u8>) -> Result<(), AllocError>
    ensures { OnOk result (out.new.items ≡ out.old.items ++ all_refusals_text counts.now) }
{
    write_refusals(ALL_REFUSALS.as_slice(), counts, out)
}

/// The value of a node's line.
fn node_number(metric: Metric, node: &NodeFigures) -> u64
    ensures { result ≡ node_value metric node.now }
{
    match metric {
        Metric::NodeUp => u64::from(node.is_up),
        _ => node.stops,
    }
}

/// The lines of these nodes, of which the first has this number.
fn write_nodes(
    metric: Metric,
    role: Role,
    id: u64,
    nodes: &[NodeFigures],
    out: &mut Vec<u8>,
) -> Result<(), AllocError>
    requires { id + length nodes.now ≤ MOST_NODES }
    ensures { OnOk result (out.new.items ≡ out.old.items ++ nodes_text metric role id nodes.now) }
{
    match nodes {
        [] => Ok(()),
        [node, others @ ..] => {
            write_whole(
                metric,
                Labels::Node(role, id),
                node_number(metric, node),
                out,
            )?;
            write_nodes(metric, role, id + 1, others, out)
        }
    }
}

/// The nodes that are there.
fn members_of(members: u8, nodes: &[NodeFigures; MOST_NODES]) -> &[NodeFigures]
    ensures members { result.now ≡ take members nodes.now }
    ensures most { length result.now ≤ MOST_NODES }
{
    let count = usize::from(members).min(MOST_NODES);
    &nodes[..count]
}

fn write_all_nodes(metric: Metric, replicas: &Replicas, out: &mut Vec<u8>) -> Result<(), AllocError>
    ensures { OnOk result (out.new.items ≡ out.old.items ++ all_nodes_text metric replicas.now) }
{
    let executors = members_of(replicas.members, &replicas.executors);
    write_nodes(metric, Role::Executor, 0, executors, out)?;
    let verifiers = members_of(replicas.members, &replicas.verifiers);
    write_nodes(metric, Role::Verifier, 0, verifiers, out)
}

/// The value of a folder's line.
fn folder_number(metric: Metric, folder: &FolderFigures) -> u64
    ensures { result ≡ folder_value metric folder.now }
{
    match metric {
        Metric::FolderCurrent => u64::from(folder.is_current),
        Metric::FolderSaves => folder.made,
        Metric::FolderFailures => folder.failed,
        Metric::FolderSaved => folder.saved_at,
        _ => folder.bytes,
    }
}

/// The lines of these folders, of which the first has this number.
fn write_folders(
    metric: Metric,
    number: u64,
    folders: &[FolderFigures],
    out: &mut Vec<u8>,
) -> Result<(), AllocError>
    requires { number + length folders.now ≤ MOST_FOLDERS }
    ensures { OnOk result (out.new.items ≡ out.old.items ++ folders_text metric number folders.now) }
{
    match folders {
        [] => Ok(()),
        [folder, others @ ..] => {
            write_whole(
                metric,
                Labels::Folder(number),
                folder_number(metric, folder),
                out,
            )?;
            write_folders(metric, number + 1, others, out)
        }
    }
}

fn write_all_folders(metric: Metric, folders: &Folders, out: &mut Vec<u8>) -> Result<(), AllocError>
    ensures { OnOk result (out.new.items ≡ out.old.items ++ all_folders_text metric folders.now) }
{
    write_folders(metric, 0, folders.there(), out)
}

/// The first of the bounds, if there is one.
fn first_bound(bounds: &[u64]) -> Option<u64>
    ensures { result ≡ bound_of bounds.now }
{
    match bounds {
        [] => None,
        [bound, ..] => Some(*bound),
    }
}

/// The bounds behind the first.
fn further_bounds(bounds: &[u64]) -> &[u64]
    ensures { result.now ≡ bounds_after bounds.now }
{
    match bounds {
        [] => bounds,
        [_, further @ ..] => further,
    }
}

#[tactic(auto, unfolding(crate::specs::Families::bucket_text))]
fn write_bucket_line(
    metric: Metric,
    bound: Option<u64>,
    total: u64,
    out: &mut Vec<u8>,
) -> Result<(), AllocError>
    ensures { OnOk result (out.new.items ≡ out.old.items ++ bucket_text metric bound total) }
{
    write_sample(
        Sample {
            metric,
            suffix: Suffix::Bucket,
            labels: Labels::Bucket(bound),
            number: Number::Whole(total),
        },
        out,
    )
}

/// The lines of the buckets from one on: `before` times were in those before it.
fn write_buckets(
    metric: Metric,
    bounds: &[u64],
    before: u64,
    counts: &[u64],
    out: &mut Vec<u8>,
) -> Result<u64, AllocError>
    ensures text { OnOk result (out.new.items ≡ out.old.items ++ buckets_text metric bounds.now before counts.now) }
    ensures total { IfOk result (λ total. total ≡ total_from before counts.now) }
{
    let [count, others @ ..] = counts else {
        return Ok(before);
    };
    let total = plus(before, *count);
    write_bucket_line(metric, first_bound(bounds), total, out)?;
    write_buckets(metric, further_bounds(bounds), total, others, out)
}

fn write_histogram(
    metric: Metric,
    histogram: &Histogram,
    out: &mut Vec<u8>,
) -> Result<(), AllocError>
    ensures { OnOk result (out.new.items ≡ out.old.items ++ histogram_text metric histogram.now) }
{
    let count = write_buckets(
        metric,
        BOUNDS.as_slice(),
        0,
        histogram.counts.as_slice(),
        out,
    )?;
    write_sample(
        Sample {
            metric,
            suffix: Suffix::Sum,
            labels: Labels::None,
            number: Number::Micros(histogram.sum),
        },
        out,
    )?;
    write_sample(
        Sample {
            metric,
            suffix: Suffix::Count,
            labels: Labels::None,
            number: Number::Whole(count),
        },
        out,
    )
}

fn write_samples(
    metric: Metric,
    figures: &Figures,
    folders: &Folders,
    out: &mut Vec<u8>,
) -> Result<(), AllocError>
    ensures { OnOk result (out.new.items ≡ out.old.items ++ samples_text figures.now folders.now metric) }
{
    match metric {
        Metric::Plain(plain) => write_whole(metric, Labels::None, plain.value(figures), out),
        Metric::Commands => write_all_commands(&figures.commands, out),
        Metric::LinesRefused => write_all_refusals(&figures.refusals, out),
        Metric::NodeUp | Metric::NodeStops => write_all_nodes(metric, &figures.replicas, out),
        Metric::FolderCurrent
        | Metric::FolderSaves
        | Metric::FolderFailures
        | Metric::FolderSaved
        | Metric::FolderBytes => write_all_folders(metric, folders, out),
        Metric::ReplySeconds => write_histogram(metric, &figures.reply_times, out),
        Metric::BatchSeconds => write_histogram(metric, &figures.batch_times, out),
        Metric::BatchWaitSeconds => write_histogram(metric, &figures.batch_parts.wait, out),
        Metric::BatchExecuteSeconds => write_histogram(metric, &figures.batch_parts.execute, out),
        Metric::BatchAgreeSeconds => write_histogram(metric, &figures.batch_parts.agree, out),
        Metric::BatchCommitSeconds => write_histogram(metric, &figures.batch_parts.commit, out),
        Metric::SaveSeconds => write_histogram(metric, &figures.saves.times, out),
    }
}

/// All lines of one metric.
fn write_family(
    metric: Metric,
    figures: &Figures,
    folders: &Folders,
    out: &mut Vec<u8>,
) -> Result<(), AllocError>
    ensures { OnOk result (out.new.items ≡ out.old.items ++ family_text figures.now folders.now metric) }
{
    write_head(metric, out)?;
    write_samples(metric, figures, folders, out)
}

fn write_families(
    metrics: &[Metric],
    figures: &Figures,
    folders: &Folders,
    out: &mut Vec<u8>,
) -> Result<(), AllocError>
    ensures { OnOk result (out.new.items ≡ out.old.items ++ flat_map (family_text figures.now folders.now) metrics.now) }
{
    for metric in metrics {
        write_family(*metric, figures, folders, out)?;
    }
    Ok(())
}

/// The figures and what is known of each folder in Prometheus' text form, version 0.0.4. Some 19 KB.
///
/// It fails if an allocation fails.
#[tactic(auto, unfolding(crate::specs::Families::metrics_text))]
pub fn metrics_of(
    alloc: Global,
    figures: &Figures,
    folders: &Folders,
) -> Result<Vec<u8>, AllocError>
    ensures { IfOk result (λ text. text.items ≡ metrics_text figures.now folders.now) }
{
    let mut out = Vec::with_capacity(alloc, 16384)?;
    write_families(ALL_METRICS.as_slice(), figures, folders, &mut out)?;
    Ok(out)
}
