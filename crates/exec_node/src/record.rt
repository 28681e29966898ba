//! The record of an executor, read back.

ghost use Rattle.std.specs.Prelude.{◌≡◌, ◌≤◌, IfOk, IfErr};
ghost use Rattle.wire.specs.Record.{Always, Takes, Reads, Refused};
ghost use Rattle.rollback.specs.Chain.{IsRecordedIn, chain_text_in};
ghost use Rattle.states.specs.declared.version.Version.TheVariants.{Second};
ghost use Rattle.exec_lines.specs.State.{ExecutorState};
ghost use Rattle.exec_lines.specs.Kept.{saved_record};
ghost use Rattle.exec_node.specs.Record.{IsExecutorRecordIn, IsReadRecord, executor_head_text};

use decrees::Standing;
use exec_lines::{ExecutorRecord, Saved, State};
use keeper::ToText;
use proto::Fault;
use rollback::Chain;
use states::Version;
use std::alloc::Global;
use token::Token;
use wire::{Record, take_mark};

/// Number, how many may fail and how many decrees are known; and number, token, epoch and start of
/// what they stand for.
type Head = (((u8, u8), u64), (((u64, Token), u64), u64));

/// The version and the head of a record, and the bytes after it.
fn take_head(alloc: Global, bytes: &[u8]) -> Result<((Version, Head), &[u8]), Fault>
    ensures { Takes Always executor_head_text bytes.now result }
{
    let (version, rest) = Version::take(alloc, bytes)?;
    let rest = take_mark(rest, b'E')?;
    let (head, rest) = Head::take(alloc, rest)?;
    Ok(((version, head), rest))
}

/// The chain that all of the bytes encode in this version.
fn read_chain(alloc: Global, version: Version, bytes: &[u8]) -> Result<Chain, Fault>
    ensures { Reads (IsRecordedIn version) (chain_text_in version) bytes.now result }
{
    let (chain, rest) = Chain::take(alloc, version, bytes)?;
    if rest.is_empty() {
        Ok(chain)
    } else {
        chain.end();
        Err(Fault::BadRecord)
    }
}

/// The state of the executor whose record these bytes are, and its version.
fn restore(alloc: Global, u: u8, id: u8, bytes: &[u8]) -> Result<(Version, State), Fault>
    ensures ok { IfOk result (λ p. IsExecutorRecordIn p.0 u id bytes.now p.1) }
    ensures err { IfErr result (λ fault. Refused fault ((s : ExecutorState) → IsReadRecord u id bytes.now s → ⊥)) }
{
    let ((version, (((own, of), known), (((n, token), epoch), start))), rest) = take_head(
        alloc, bytes,
    )?;
    if own != id || of != u || epoch == 0 {
        return Err(Fault::BadRecord);
    }
    let chain = read_chain(alloc, version, rest)?;
    let standing = Standing {
        n,
        token,
        epoch,
        start,
    };
    Ok((version, State::restored(alloc, known, standing, chain)))
}

/// The state of the executor of which this was saved. It shares the committed state, which is not read.
fn resume(alloc: Global, u: u8, id: u8, saved: &Saved) -> Result<State, Fault>
    ensures ok { IfOk result (λ s. IsExecutorRecordIn Second u id (saved_record saved.now) s) }
    ensures err { IfErr result (λ fault. Refused fault ((s : ExecutorState) → IsReadRecord u id (saved_record saved.now) s → ⊥)) }
{
    if saved.id != id || saved.u != u || saved.standing.epoch == 0 {
        return Err(Fault::BadRecord);
    }
    let chain = saved.chain.chain(alloc)?;
    Ok(State::restored(alloc, saved.known, saved.standing, chain))
}

/// The state of the executor whose record this is, and its version. It is read from its text, but for a committed state
/// that was saved in this process: that one is shared.
pub fn read_back(
    alloc: Global,
    u: u8,
    id: u8,
    found: &ExecutorRecord,
) -> Result<(Version, State), Fault>
    ensures ok { IfOk result (λ p. IsExecutorRecordIn p.0 u id found.now p.1) }
    ensures err { IfErr result (λ fault. Refused fault ((s : ExecutorState) → IsReadRecord u id found.now s → ⊥)) }
{
    if let Some(saved) = found.saved() {
        return Ok((Version::Second, resume(alloc, u, id, saved)?));
    }
    let text = found.to_text(alloc)?;
    let bytes = text.joined(alloc)?;
    restore(alloc, u, id, &bytes)
}
