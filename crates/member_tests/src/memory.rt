//! With ample memory each call does what it is for.

use ensemble::{Config, Replica};
use member::Member;
use proto::Fault;
use std::alloc::Global;
use std::test::Fail;

/// Whether both replicas are up, nothing was refused, and they are opened once more if they are up.
fn begins(alloc: Global, member: &mut Member, id: u8) -> bool {
    member.is_up(Replica::Executor(id))
        && member.is_up(Replica::Verifier(id))
        && member.refused() == 0
        && member.restart(alloc, Replica::Executor(id))
        && member.restart(alloc, Replica::Verifier(id))
        && member.refused() == 0
}

/// Whether the replicas of this member are left down, which is counted.
fn leaves_others(alloc: Global, member: &mut Member, other: u8) -> bool {
    !member.restart(alloc, Replica::Executor(other))
        && !member.restart(alloc, Replica::Verifier(other))
        && member.refused() == 2
}

fn opens(alloc: Global) -> Result<bool, Fault> {
    let config = Config::new(1, 6)?;
    let mut member = Member::open(alloc, &config, 2)?;
    let is_open = begins(alloc, &mut member, 2) && leaves_others(alloc, &mut member, 1);
    let is_its_own = member.id() == 2
        && member.proxies() == 2
        && member.is_free(5)
        && member.is_free(6)
        && !member.is_free(4)
        && !member.is_free(7);
    let says_nothing = match member.prepare(alloc) {
        Ok(letters) => letters.is_empty(),
        Err(_) => false,
    };
    member.end();
    Ok(is_open && is_its_own && says_nothing)
}

#[test]
fn a_member_opens_its_own_replicas(rt: HostRuntime) -> Result<(), Fail> {
    assert!(rt; opens(rt.alloc()) == Ok(true));
    Ok(())
}

fn is_refused(alloc: Global, clients: u16, id: u8) -> Result<bool, Fault> {
    match Member::open(alloc, &Config::new(1, clients)?, id) {
        Ok(member) => {
            member.end();
            Ok(false)
        }
        Err(fault) => Ok(fault == Fault::Unfit),
    }
}

#[test]
fn a_site_of_three_has_no_fourth_member_and_a_proxy_for_each(rt: HostRuntime) -> Result<(), Fail> {
    assert!(rt; is_refused(rt.alloc(), 3, 3) == Ok(true));
    assert!(rt; is_refused(rt.alloc(), 2, 0) == Ok(true));
    assert!(rt; is_refused(rt.alloc(), 3, 2) == Ok(false));
    Ok(())
}
