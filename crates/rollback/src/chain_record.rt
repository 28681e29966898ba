//! A chain that is read back from its record.

ghost use Rattle.std.specs.Prelude.{◌≡◌, ◌≤◌, ◌++◌, [], flat_map, IfOk, IfErr};
ghost use Rattle.wire.specs.Record.{Takes, Refused, NoPrefix};
ghost use Rattle.executor.specs.MemberRecord.{member_text_in};
ghost use Rattle.rollback.specs.declared.chain.TheConstants.{MOST_MEMBERS};
ghost use Rattle.rollback.specs.Chain.{AreMembers, IsFilled, IsRecordedIn, members_text, chain_text_in};

use crate::chain::{Chain, MOST_MEMBERS};
use executor::{Committed, Tentative};
use proto::Fault;
use states::Version;
use std::alloc::Global;
use wire::Record;

impl Chain {
    /// Reads so many members, each over the state before it, and adds them. It gives the bytes after
    /// them.
    fn fill<'b>(
        &mut self,
        alloc: Global,
        version: Version,
        count: u8,
        bytes: &'b [u8],
    ) -> Result<&'b [u8], Fault>
        requires none { self.old.members ≡ [] }
        requires few { count ≤ MOST_MEMBERS }
        ensures have { self.new.have ≡ self.old.have }
        ensures members { IfOk result (λ rest. AreMembers version self.old.have count self.new.members) }
        ensures rest { IfOk result (λ rest. bytes.now ≡ flat_map (member_text_in version) self.new.members ++ rest.now) }
        ensures err { IfErr result (λ fault. Refused fault (NoPrefix (AreMembers version self.old.have count) (flat_map (member_text_in version)) bytes.now)) }
    {
        let mut rest = bytes;
        for _ in 0..count {
            let (member, after) = Tentative::take(alloc, version, self.tip(), rest)?;
            self.add(member);
            rest = after;
        }
        Ok(rest)
    }

    /// The chain over the committed state, with so many members, which are read; and the bytes after
    /// them.
    pub(crate) fn filled<'b>(
        alloc: Global,
        version: Version,
        committed: Committed,
        count: u8,
        bytes: &'b [u8],
    ) -> Result<(Chain, &'b [u8]), Fault>
        requires { count ≤ MOST_MEMBERS }
        ensures { Takes (IsFilled version committed.state count) (members_text version) bytes.now result }
    {
        let (mut chain, _) = Chain::new(alloc, committed)?;
        match chain.fill(alloc, version, count, bytes) {
            Ok(rest) => Ok((chain, rest)),
            Err(fault) => {
                chain.end();
                Err(fault)
            }
        }
    }

    /// The chain whose record in this version is a prefix of the bytes, and the bytes after it. Each member is over just
    /// the state before it, and shares its pages if they are the same. `BadRecord`: no such chain
    /// has a record that is a prefix of the bytes. `NoMemory` is the only other error.
    pub fn take(alloc: Global, version: Version, bytes: &[u8]) -> Result<(Chain, &[u8]), Fault>
        ensures { Takes (IsRecordedIn version) (chain_text_in version) bytes.now result }
    {
        let (committed, rest) = Committed::take(alloc, version, bytes)?;
        let (count, rest) = u8::take(alloc, rest)?;
        if MOST_MEMBERS < count as usize {
            return Err(Fault::BadRecord);
        }
        Chain::filled(alloc, version, committed, count, rest)
    }
}
