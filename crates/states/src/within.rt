//! Blocks that are no longer than version 1 takes, in what was asked and in what is kept of clients.

ghost use Rattle.std.specs.Prelude.{◌≤◌, ◌↔◌, length, All, IsTrue};
ghost use Rattle.states.specs.Within.{UpdateWithin, CommandWithin, BlocksWithin, ReplyWithin, RepliesWithin};

use batches::Batch;
use proto::{Command, Reply, Update, Values};
use sessions::Sessions;

fn is_update_within(update: &Update, most: usize) -> bool
    ensures { IsTrue result ↔ UpdateWithin most update.now }
{
    match update {
        Update::Store { block, .. } => block.len() <= most,
        Update::Cas { block, .. } => block.len() <= most,
        Update::Delete { .. } | Update::Touch { .. } | Update::Incr { .. } | Update::Decr { .. } =>
            true,
    }
}

fn is_command_within(command: &Command, most: usize) -> bool
    ensures { IsTrue result ↔ CommandWithin most command.now }
{
    match command {
        Command::Update(update) => is_update_within(update, most),
        Command::Get(_) | Command::Gets(_) | Command::Gat(..) | Command::Gats(..) => true,
    }
}

/// Whether each block that the batch stores has so many bytes at most.
pub fn has_blocks_within(batch: &Batch, most: usize) -> bool
    ensures { IsTrue result ↔ BlocksWithin most batch.now }
{
    batch
        .requests
        .as_slice()
        .iter()
        .all(|request| is_command_within(&request.command, most))
}

fn are_values_within(values: &Values, most: usize) -> bool
    ensures { IsTrue result ↔ All (λ f. length f.block ≤ most) values.now }
{
    values
        .as_slice()
        .iter()
        .all(|found| found.block.len() <= most)
}

fn is_reply_within(reply: &Reply, most: usize) -> bool
    ensures { IsTrue result ↔ ReplyWithin most reply.now }
{
    match reply {
        Reply::Values(values) => are_values_within(values, most),
        Reply::Stored
        | Reply::NotStored
        | Reply::Exists
        | Reply::NotFound
        | Reply::Deleted
        | Reply::Touched
        | Reply::Number(_)
        | Reply::TooLarge
        | Reply::NotNumber => true,
    }
}

/// Whether each block that is kept for a client has so many bytes at most.
pub fn has_replies_within(sessions: &Sessions, most: usize) -> bool
    ensures { IsTrue result ↔ RepliesWithin most sessions.now }
{
    sessions
        .entries()
        .iter()
        .all(|entry| is_reply_within(&entry.value().reply, most))
}
