//! What is printed of a world: a line a node.

ghost use Rattle.std.specs.Prelude.{◌≡◌, ◌++◌, OnOk, IfOk, decimal};
ghost use Rattle.slots.specs.Status.{executor_report, verifier_report};
ghost use Rattle.app.specs.Printed as spec;

use exec_lines::Report;
use itoa::Buffer;
use schedules::write_printed;
use slots::{ExecutorSlot, Status, VerifierReport, VerifierSlot};
use std::alloc::{AllocError, Global};
use world::{ClientSlot, World};

fn write_number(number: u64, out: &mut Vec<u8>) -> Result<(), AllocError>
    ensures { OnOk result (out.new.items ≡ out.old.items ++ decimal number) }
{
    let mut buffer = Buffer::new();
    out.extend_from_slice(buffer.format(number).as_bytes())
}

/// A space and the bytes, if there are any.
fn write_given(given: &[u8], out: &mut Vec<u8>) -> Result<(), AllocError>
    ensures { OnOk result (out.new.items ≡ out.old.items ++ spec.given_part given.now) }
{
    if given.is_empty() {
        return Ok(());
    }
    out.extend_from_slice(b" ".as_slice())?;
    write_printed(given, out)
}

fn write_client(number: u64, slot: &ClientSlot, out: &mut Vec<u8>) -> Result<(), AllocError>
    ensures { OnOk result (out.new.items ≡ out.old.items ++ spec.client_line number slot.now) }
{
    out.extend_from_slice(b"client ".as_slice())?;
    write_number(number, out)?;
    if slot.is_open() {
        out.extend_from_slice(b" open ".as_slice())?;
    } else {
        out.extend_from_slice(b" closed ".as_slice())?;
    }
    let given = slot.given();
    write_number(given.len() as u64, out)?;
    write_given(given, out)?;
    out.extend_from_slice(b"\n".as_slice())
}

/// A label, and its number.
fn write_field(label: &[u8], number: u64, out: &mut Vec<u8>) -> Result<(), AllocError>
    ensures { OnOk result (out.new.items ≡ out.old.items ++ (label.now ++ decimal number)) }
{
    out.extend_from_slice(label)?;
    write_number(number, out)
}

fn write_report(report: &Report, out: &mut Vec<u8>) -> Result<(), AllocError>
    ensures { OnOk result (out.new.items ≡ out.old.items ++ spec.executor_status (Status.Up report.now)) }
{
    write_field(b" up n ".as_slice(), report.number, out)?;
    write_field(b" epoch ".as_slice(), report.epoch, out)?;
    write_field(b" chain ".as_slice(), report.chain as u64, out)
}

fn write_executor(id: u64, slot: &ExecutorSlot, out: &mut Vec<u8>) -> Result<(), AllocError>
    ensures { OnOk result (out.new.items ≡ out.old.items ++ spec.executor_line id slot.now) }
{
    out.extend_from_slice(b"executor ".as_slice())?;
    write_number(id, out)?;
    match slot.status() {
        Status::Up(report) => write_report(&report, out)?,
        Status::Down => out.extend_from_slice(b" down".as_slice())?,
        Status::Lost => out.extend_from_slice(b" lost".as_slice())?,
    }
    out.extend_from_slice(b"\n".as_slice())
}

fn write_verifier_report(report: &VerifierReport, out: &mut Vec<u8>) -> Result<(), AllocError>
    ensures { OnOk result (out.new.items ≡ out.old.items ++ spec.verifier_status (Status.Up report.now)) }
{
    write_field(b" up decrees ".as_slice(), report.decrees, out)?;
    write_field(b" view ".as_slice(), report.view, out)
}

fn write_verifier(id: u64, slot: &VerifierSlot, out: &mut Vec<u8>) -> Result<(), AllocError>
    ensures { OnOk result (out.new.items ≡ out.old.items ++ spec.verifier_line id slot.now) }
{
    out.extend_from_slice(b"verifier ".as_slice())?;
    write_number(id, out)?;
    match slot.status() {
        Status::Up(report) => write_verifier_report(&report, out)?,
        Status::Down => out.extend_from_slice(b" down".as_slice())?,
        Status::Lost => out.extend_from_slice(b" lost".as_slice())?,
    }
    out.extend_from_slice(b"\n".as_slice())
}

#[tactic(auto, using(crate::proofs::PrintedLemmas::wrote_line, crate::proofs::PrintedLemmas::wrote_lines))]
fn write_clients(clients: &[ClientSlot], out: &mut Vec<u8>) -> Result<(), AllocError>
    ensures { OnOk result (out.new.items ≡ out.old.items ++ spec.lines_from spec.client_line 1 clients.now) }
{
    for i in 0..clients.len() {
        write_client(i as u64 + 1, &clients[i], out)?;
    }
    Ok(())
}

#[tactic(auto, using(crate::proofs::PrintedLemmas::wrote_line, crate::proofs::PrintedLemmas::wrote_lines))]
fn write_executors(executors: &[ExecutorSlot], out: &mut Vec<u8>) -> Result<(), AllocError>
    ensures { OnOk result (out.new.items ≡ out.old.items ++ spec.lines_from spec.executor_line 0 executors.now) }
{
    for i in 0..executors.len() {
        write_executor(i as u64, &executors[i], out)?;
    }
    Ok(())
}

#[tactic(auto, using(crate::proofs::PrintedLemmas::wrote_line, crate::proofs::PrintedLemmas::wrote_lines))]
fn write_verifiers(verifiers: &[VerifierSlot], out: &mut Vec<u8>) -> Result<(), AllocError>
    ensures { OnOk result (out.new.items ≡ out.old.items ++ spec.lines_from spec.verifier_line 0 verifiers.now) }
{
    for i in 0..verifiers.len() {
        write_verifier(i as u64, &verifiers[i], out)?;
    }
    Ok(())
}

/// What is printed of the world.
pub fn text_of_world(alloc: Global, world: &World) -> Result<Vec<u8>, AllocError>
    ensures { IfOk result (λ text. text.items ≡ spec.world_text world.now) }
{
    let mut text = Vec::new(alloc);
    write_clients(world.clients(), &mut text)?;
    write_executors(world.executors(), &mut text)?;
    write_verifiers(world.verifiers(), &mut text)?;
    Ok(text)
}
