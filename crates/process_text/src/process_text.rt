//! The text of a process.

ghost use Rattle.std.specs.Prelude.{◌≡◌, ◌↔◌, ◌∷◌, IfOk, OnOk, IsTrue};
ghost use Rattle.wire.specs.Record.{Puts, Reads, Takes};
ghost use Rattle.process_text.specs.Text.{IsProcessText, AreNumberedRows, process_text};
ghost use Rattle.process_text.specs.TextLaws.{process_prefix_free};

use crate::executor_row::ExecutorRow;
use crate::proxy_row::ProxyRow;
use crate::verifier_row::VerifierRow;
use base::Text;
use proto::Fault;
use sessions::Sessions;
use states::Head;
use std::alloc::{AllocError, Global};
use wire::{Counted, Record, Sink, put_list, take_mark};

/// The version that the text is written in, and the kind.
const MARKS: [u8; 2] = [1, b'P'];

/// How many proxies there are at most, since each is a client.
pub const MOST_PROXIES: usize = 65535;

/// What is stored of a process, but for the items of the state: how many of `2u + 1` may fail, the head and the sessions
/// of the state, and a row for each replica and each proxy, by their numbers.
pub struct ProcessText {
    pub u: u8,
    pub head: Head,
    pub sessions: Sessions,
    pub executors: Counted<ExecutorRow>,
    pub verifiers: Counted<VerifierRow>,
    pub proxies: Counted<ProxyRow>,
}

impl Drop for ProcessText {
    fn drop(self) {
        let ProcessText {
            u: _,
            head: _,
            sessions: _,
            executors: _,
            verifiers: _,
            proxies: _,
        } = self;
    }
}

/// The fields in their order.
type Fields = (
    (
        (((u8, Head), Sessions), Counted<ExecutorRow>),
        Counted<VerifierRow>,
    ),
    Counted<ProxyRow>,
);

/// Whether the rows are those of clients 1, 2 and so on.
fn are_numbered(rows: &[ProxyRow]) -> bool
    ensures { IsTrue result ↔ AreNumberedRows rows.now }
{
    for number in 0..rows.len() {
        if usize::from(rows[number].client) != number + 1 {
            return false;
        }
    }
    true
}

/// Writes the text of a process, of which these are the parts of a `ProcessText`: records and large replies are shared with
/// a sink that takes shared pieces. The sink may refuse it, as when an allocation fails.
#[tactic(auto, unfolding(crate::specs::Text::process_text))]
pub fn put_process<S: Sink>(
    u: u8,
    head: &Head,
    sessions: &Sessions,
    executors: &[ExecutorRow],
    verifiers: &[VerifierRow],
    proxies: &[ProxyRow],
    sink: &mut S,
) -> Result<(), S::Refusal>
    requires { IsProcessText (record { u = u; head = head.now; sessions = sessions.now; executors = executors.now; verifiers = verifiers.now; proxies = proxies.now }) }
    ensures { OnOk result (Puts S.holds (process_text (record { u = u; head = head.now; sessions = sessions.now; executors = executors.now; verifiers = verifiers.now; proxies = proxies.now })) sink.old sink.new) }
{
    sink.put(&MARKS)?;
    u.put(sink)?;
    head.put(sink)?;
    sessions.put(sink)?;
    put_list(executors, sink)?;
    put_list(verifiers, sink)?;
    put_list(proxies, sink)
}

impl ProcessText {
    /// Whether it is of `2u + 1` executors and as many verifiers, at most three of which may fail, and of at most
    /// `MOST_PROXIES` proxies, which are numbered from 1.
    pub fn is_process(&self) -> bool
        ensures { IsTrue result ↔ IsProcessText self.now }
    {
        let members = 2 * usize::from(self.u) + 1;
        let _sessions = self.sessions.entries();
        self.u < 4
            && self.executors.as_slice().len() == members
            && self.verifiers.as_slice().len() == members
            && self.proxies.as_slice().len() <= MOST_PROXIES
            && are_numbered(self.proxies.as_slice())
    }

    /// Its text. Records and large replies are shared with it. The only error is a failed allocation.
    pub fn text(&self, alloc: Global) -> Result<Text, AllocError>
        requires { IsProcessText self.now }
        ensures { IfOk result (λ text. text ≡ process_text self.now) }
    {
        let mut text = Text::new(alloc);
        self.put(&mut text)?;
        Ok(text)
    }
}

/// The process whose text, but for its marks, is a prefix of the bytes.
fn take_fields(alloc: Global, bytes: &[u8]) -> Result<(ProcessText, &[u8]), Fault>
    ensures { Takes IsProcessText process_text (1 ∷ 80 ∷ bytes.now) result }
{
    let (fields, rest) = Fields::take(alloc, bytes)?;
    let (((((u, head), sessions), executors), verifiers), proxies) = fields;
    let text = ProcessText {
        u,
        head,
        sessions,
        executors,
        verifiers,
        proxies,
    };
    if text.is_process() {
        Ok((text, rest))
    } else {
        Err(Fault::BadRecord)
    }
}

impl Record for ProcessText {
    ghost fits = { IsProcessText };

    ghost encoding = { process_text };

    fn put<S: Sink>(&self, sink: &mut S) -> Result<(), S::Refusal> {
        put_process(
            self.u,
            &self.head,
            &self.sessions,
            self.executors.as_slice(),
            self.verifiers.as_slice(),
            self.proxies.as_slice(),
            sink,
        )
    }

    fn take<'b>(alloc: Global, bytes: &'b [u8]) -> Result<(ProcessText, &'b [u8]), Fault> {
        let rest = take_mark(bytes, 1)?;
        let rest = take_mark(rest, b'P')?;
        take_fields(alloc, rest)
    }

    ghost prefix_free = { process_prefix_free };
}

/// The process whose text all of the bytes are. `BadRecord`: they are the text of none, as if a byte was changed, lost or
/// added. `NoMemory` is the only other error.
pub fn read(alloc: Global, bytes: &[u8]) -> Result<ProcessText, Fault>
    ensures { Reads IsProcessText process_text bytes.now result }
{
    wire::read::<ProcessText>(alloc, bytes)
}
