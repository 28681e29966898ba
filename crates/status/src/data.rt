//! The figures as JSON, for the page.

ghost use Rattle.std.specs.Prelude.{◌≡◌, string_bytes, IfOk};
ghost use Rattle.serde_json.specs.Written.{compact_text};
ghost use Rattle.serde_json.specs.View.{view};
ghost use Rattle.status.specs.Data as spec;

use crate::history::Sample;
use figures::{
    ALL_KINDS, BatchParts, Batches, Commands, Connections, Figures, Histogram, Keys, Kind, Limits,
    Memory, NodeFigures, Outcome, Refusal, Refusals, Replicas, Saves, VERSION,
};
use metrics::{FolderFigures, Folders};
use serde_json::{Value, json};
use std::alloc::{AllocError, Global};

#[tactic(auto, unfolding(crate::specs::Data::connections_data))]
fn connections_json(alloc: Global, connections: &Connections) -> Result<Value, AllocError>
    ensures { IfOk result (λ v. view v ≡ spec.connections_data connections.now) }
{
    json!(in alloc; {"open": connections.open, "accepted": connections.accepted, "refused": connections.refused, "idle": connections.idle, "failed": connections.failed, "bytes_read": connections.bytes_read, "bytes_written": connections.bytes_written})
}

#[tactic(auto, unfolding(crate::specs::Data::limits_data))]
fn limits_json(alloc: Global, limits: &Limits) -> Result<Value, AllocError>
    ensures { IfOk result (λ v. view v ≡ spec.limits_data limits.now) }
{
    json!(in alloc; {"connections": limits.connections, "idle_seconds": limits.idle_seconds, "item_bytes": limits.item_bytes})
}

/// The version and the limits.
#[tactic(auto, unfolding(crate::specs::Data::server_data))]
fn server_json(alloc: Global, limits: &Limits) -> Result<Value, AllocError>
    ensures { IfOk result (λ v. view v ≡ spec.server_data limits.now) }
{
    json!(in alloc; {"version": VERSION, "limits": limits_json(alloc, limits)?})
}

#[tactic(auto, unfolding(crate::specs::Data::keys_data))]
fn keys_json(alloc: Global, keys: &Keys) -> Result<Value, AllocError>
    ensures { IfOk result (λ v. view v ≡ spec.keys_data keys.now) }
{
    json!(in alloc; {"asked": keys.asked, "found": keys.found})
}

#[tactic(auto, unfolding(crate::specs::Data::batches_data))]
fn batches_json(alloc: Global, batches: &Batches) -> Result<Value, AllocError>
    ensures { IfOk result (λ v. view v ≡ spec.batches_data batches.now) }
{
    json!(in alloc; {"cut": batches.cut, "requests": batches.requests, "committed": batches.committed, "rolled_back": batches.rolled_back})
}

#[tactic(auto, unfolding(crate::specs::Data::memory_data))]
fn memory_json(alloc: Global, memory: &Memory) -> Result<Value, AllocError>
    ensures { IfOk result (λ v. view v ≡ spec.memory_data memory.now) }
{
    json!(in alloc; {"items": memory.items, "item_bytes": memory.item_bytes, "resident_bytes": memory.resident_bytes, "refusals": memory.refusals})
}

#[tactic(auto, unfolding(crate::specs::Data::folder_data))]
fn folder_json(alloc: Global, folder: &FolderFigures) -> Result<Value, AllocError>
    ensures { IfOk result (λ v. view v ≡ spec.folder_data folder.now) }
{
    json!(in alloc; {"current": folder.is_current, "made": folder.made, "failed": folder.failed, "saved_at": folder.saved_at, "bytes": folder.bytes})
}

fn folders_json(alloc: Global, folders: &[FolderFigures]) -> Result<Value, AllocError>
    ensures { IfOk result (λ v. view v ≡ spec.folders_data folders.now) }
{
    let mut values = Vec::new(alloc);
    for folder in folders {
        values.push(folder_json(alloc, folder)?)?;
    }
    Ok(Value::Array(values))
}

/// Those that are there.
#[tactic(auto, unfolding(crate::specs::Data::all_folders_data))]
fn all_folders_json(alloc: Global, folders: &Folders) -> Result<Value, AllocError>
    ensures { IfOk result (λ v. view v ≡ spec.all_folders_data folders.now) }
{
    folders_json(alloc, folders.there())
}

/// Saves, and what is known of each folder.
#[tactic(auto, unfolding(crate::specs::Data::saves_data))]
fn saves_json(alloc: Global, saves: &Saves, folders: &Folders) -> Result<Value, AllocError>
    ensures { IfOk result (λ v. view v ≡ spec.saves_data saves.now folders.now) }
{
    json!(in alloc; {"made": saves.made, "failed": saves.failed, "waiting": saves.waiting, "failing": saves.failing, "bytes": saves.bytes, "folders": saves.folders, "current_folders": saves.current_folders, "each_folder": all_folders_json(alloc, folders)?})
}

/// How many lines were refused, by why.
#[tactic(auto, unfolding(crate::specs::Data::refusals_data))]
fn refusals_json(alloc: Global, refusals: &Refusals) -> Result<Value, AllocError>
    ensures { IfOk result (λ v. view v ≡ spec.refusals_data refusals.now) }
{
    json!(in alloc; [refusals.of(Refusal::Unknown), refusals.of(Refusal::Format), refusals.of(Refusal::Number), refusals.of(Refusal::Chunk), refusals.of(Refusal::Long), refusals.of(Refusal::Large), refusals.of(Refusal::Binary), refusals.of(Refusal::Http), refusals.of(Refusal::Forbidden), refusals.of(Refusal::Full)])
}

/// How often a command of the kind had each outcome.
#[tactic(auto, unfolding(crate::specs::Data::outcomes_data))]
fn outcomes_json(alloc: Global, kind: Kind, commands: &Commands) -> Result<Value, AllocError>
    ensures { IfOk result (λ v. view v ≡ spec.outcomes_data commands.now kind) }
{
    json!(in alloc; [commands.count_of(kind, Outcome::Hit), commands.count_of(kind, Outcome::Miss), commands.count_of(kind, Outcome::Stored), commands.count_of(kind, Outcome::NotStored), commands.count_of(kind, Outcome::Exists), commands.count_of(kind, Outcome::NotFound), commands.count_of(kind, Outcome::Deleted), commands.count_of(kind, Outcome::Touched), commands.count_of(kind, Outcome::Counted), commands.count_of(kind, Outcome::TooLarge), commands.count_of(kind, Outcome::NotNumber)])
}

/// The outcomes of each of these commands.
fn commands_json(alloc: Global, kinds: &[Kind], commands: &Commands) -> Result<Value, AllocError>
    ensures { IfOk result (λ v. view v ≡ spec.commands_data commands.now kinds.now) }
{
    let mut values = Vec::new(alloc);
    for kind in kinds {
        values.push(outcomes_json(alloc, *kind, commands)?)?;
    }
    Ok(Value::Array(values))
}

/// The outcomes of all commands.
#[tactic(auto, unfolding(crate::specs::Data::all_commands_data))]
fn all_commands_json(alloc: Global, commands: &Commands) -> Result<Value, AllocError>
    ensures { IfOk result (λ v. view v ≡ spec.all_commands_data commands.now) }
{
    commands_json(alloc, ALL_KINDS.as_slice(), commands)
}

#[tactic(auto, unfolding(crate::specs::Data::node_data))]
fn node_json(alloc: Global, node: &NodeFigures) -> Result<Value, AllocError>
    ensures { IfOk result (λ v. view v ≡ spec.node_data node.now) }
{
    json!(in alloc; {"up": node.is_up, "stops": node.stops})
}

/// All nodes of one role, those that are not there too.
fn nodes_json(alloc: Global, nodes: &[NodeFigures]) -> Result<Value, AllocError>
    ensures { IfOk result (λ v. view v ≡ spec.nodes_data nodes.now) }
{
    let mut values = Vec::new(alloc);
    for node in nodes {
        values.push(node_json(alloc, node)?)?;
    }
    Ok(Value::Array(values))
}

#[tactic(auto, unfolding(crate::specs::Data::replicas_data))]
fn replicas_json(alloc: Global, replicas: &Replicas) -> Result<Value, AllocError>
    ensures { IfOk result (λ v. view v ≡ spec.replicas_data replicas.now) }
{
    json!(in alloc; {"members": replicas.members, "executors": nodes_json(alloc, replicas.executors.as_slice())?, "verifiers": nodes_json(alloc, replicas.verifiers.as_slice())?, "epoch": replicas.epoch, "view": replicas.view, "number": replicas.number, "suspicions": replicas.suspicions})
}

/// The counts of a list.
fn wholes_json(alloc: Global, counts: &[u64]) -> Result<Value, AllocError>
    ensures { IfOk result (λ v. view v ≡ spec.wholes_data counts.now) }
{
    let mut values = Vec::new(alloc);
    for count in counts {
        values.push(Value::from(*count))?;
    }
    Ok(Value::Array(values))
}

#[tactic(auto, unfolding(crate::specs::Data::histogram_data))]
fn histogram_json(alloc: Global, histogram: &Histogram) -> Result<Value, AllocError>
    ensures { IfOk result (λ v. view v ≡ spec.histogram_data histogram.now) }
{
    json!(in alloc; {"counts": wholes_json(alloc, histogram.counts.as_slice())?, "sum": histogram.sum})
}

#[tactic(auto, unfolding(crate::specs::Data::batch_parts_data))]
fn batch_parts_json(alloc: Global, parts: &BatchParts) -> Result<Value, AllocError>
    ensures { IfOk result (λ v. view v ≡ spec.batch_parts_data parts.now) }
{
    json!(in alloc; {
        "wait": histogram_json(alloc, &parts.wait)?,
        "execute": histogram_json(alloc, &parts.execute)?,
        "agree": histogram_json(alloc, &parts.agree)?,
        "commit": histogram_json(alloc, &parts.commit)?
    })
}

/// All times.
#[tactic(auto, unfolding(crate::specs::Data::times_data))]
fn times_json(alloc: Global, figures: &Figures) -> Result<Value, AllocError>
    ensures { IfOk result (λ v. view v ≡ spec.times_data figures.now) }
{
    json!(in alloc; {
        "reply": histogram_json(alloc, &figures.reply_times)?,
        "batch": histogram_json(alloc, &figures.batch_times)?,
        "parts": batch_parts_json(alloc, &figures.batch_parts)?,
        "save": histogram_json(alloc, &figures.saves.times)?
    })
}

/// All figures, and what is known of each folder.
#[tactic(auto, unfolding(crate::specs::Data::figures_data))]
fn figures_json(alloc: Global, figures: &Figures, folders: &Folders) -> Result<Value, AllocError>
    ensures { IfOk result (λ v. view v ≡ spec.figures_data figures.now folders.now) }
{
    json!(in alloc; {
        "server": server_json(alloc, &figures.limits)?,
        "uptime_seconds": figures.uptime_seconds,
        "connections": connections_json(alloc, &figures.connections)?,
        "commands": all_commands_json(alloc, &figures.commands)?,
        "refusals": refusals_json(alloc, &figures.refusals)?,
        "keys": keys_json(alloc, &figures.keys)?,
        "batches": batches_json(alloc, &figures.batches)?,
        "replicas": replicas_json(alloc, &figures.replicas)?,
        "memory": memory_json(alloc, &figures.memory)?,
        "saves": saves_json(alloc, &figures.saves, folders)?,
        "times": times_json(alloc, figures)?
    })
}

/// The text of all figures, and of what is known of each folder, as JSON. Some 2 KB.
///
/// It fails if an allocation fails.
pub fn data_of(alloc: Global, figures: &Figures, folders: &Folders) -> Result<String, AllocError>
    ensures { IfOk result (λ text. string_bytes text ≡ compact_text (spec.figures_data figures.now folders.now)) }
{
    figures_json(alloc, figures, folders)?.to_string(alloc)
}

#[tactic(auto, unfolding(crate::specs::Data::sample_data))]
fn sample_json(alloc: Global, sample: &Sample) -> Result<Value, AllocError>
    ensures { IfOk result (λ v. view v ≡ spec.sample_data sample.now) }
{
    json!(in alloc; {"uptime_seconds": sample.uptime_seconds, "requests": sample.requests, "keys": keys_json(alloc, &sample.keys)?, "replies": wholes_json(alloc, sample.replies.as_slice())?})
}

fn samples_json(alloc: Global, samples: &[Sample]) -> Result<Value, AllocError>
    ensures { IfOk result (λ v. view v ≡ spec.history_data samples.now) }
{
    let mut values = Vec::new(alloc);
    for sample in samples {
        values.push(sample_json(alloc, sample)?)?;
    }
    Ok(Value::Array(values))
}

/// The text of these samples as JSON: some 150 bytes each.
///
/// It fails if an allocation fails.
pub fn history_of(alloc: Global, samples: &[Sample]) -> Result<String, AllocError>
    ensures { IfOk result (λ text. string_bytes text ≡ compact_text (spec.history_data samples.now)) }
{
    samples_json(alloc, samples)?.to_string(alloc)
}
