//! One line with a value.

ghost use Rattle.std.specs.Prelude.{◌≡◌, ◌++◌, OnOk};
ghost use Rattle.metrics.specs.Sample.{number_text, labels_text, suffix_text, sample_text, bound_text, role_name};

use crate::metric::Metric;
use crate::number::{write_decimal, write_seconds};
use figures::{Kind, Outcome, Refusal};
use std::alloc::AllocError;

/// What a node does.
#[derive(Clone, Copy, Debug, PartialEq, Eq)]
pub enum Role {
    Executor,
    Verifier,
}

/// What tells the lines of one metric apart.
#[derive(Clone, Copy, Debug, PartialEq, Eq)]
pub enum Labels {
    None,
    Command(Kind, Outcome),
    /// Why a line was refused.
    Why(Refusal),
    Node(Role, u64),
    /// The number of a folder, from 0.
    Folder(u64),
    /// The upper bound of a bucket in microseconds, if it has one.
    Bucket(Option<u64>),
}

/// What a line adds to the name of its metric.
#[derive(Clone, Copy, Debug, PartialEq, Eq)]
pub enum Suffix {
    None,
    Bucket,
    Sum,
    Count,
}

/// A value.
#[derive(Clone, Copy, Debug, PartialEq, Eq)]
pub enum Number {
    Whole(u64),
    /// So many microseconds, shown in seconds.
    Micros(u64),
}

/// One line with a value.
#[derive(Clone, Copy, Debug, PartialEq, Eq)]
pub struct Sample {
    pub metric: Metric,
    pub suffix: Suffix,
    pub labels: Labels,
    pub number: Number,
}

impl Role {
    /// Its name in lines and pages.
    pub fn name(self) -> &'static str
        ensures { result.now ≡ role_name self }
    {
        match self {
            Role::Executor => "executor",
            Role::Verifier => "verifier",
        }
    }
}

impl Suffix {
    fn text(self) -> &'static str
        ensures { result.now ≡ suffix_text self }
    {
        match self {
            Suffix::None => "",
            Suffix::Bucket => "_bucket",
            Suffix::Sum => "_sum",
            Suffix::Count => "_count",
        }
    }
}

fn write_number(number: Number, out: &mut Vec<u8>) -> Result<(), AllocError>
    ensures { OnOk result (out.new.items ≡ out.old.items ++ number_text number) }
{
    match number {
        Number::Whole(whole) => write_decimal(whole, out),
        Number::Micros(micros) => write_seconds(micros, out),
    }
}

fn write_command(kind: Kind, outcome: Outcome, out: &mut Vec<u8>) -> Result<(), AllocError>
    ensures { OnOk result (out.new.items ≡ out.old.items ++ labels_text (Labels.Command kind outcome)) }
{
    out.extend_from_slice(b"{command=\"".as_slice())?;
    out.extend_from_slice(kind.name().as_bytes())?;
    out.extend_from_slice(b"\",outcome=\"".as_slice())?;
    out.extend_from_slice(outcome.name().as_bytes())?;
    out.extend_from_slice(b"\"}".as_slice())
}

fn write_why(refusal: Refusal, out: &mut Vec<u8>) -> Result<(), AllocError>
    ensures { OnOk result (out.new.items ≡ out.old.items ++ labels_text (Labels.Why refusal)) }
{
    out.extend_from_slice(b"{why=\"".as_slice())?;
    out.extend_from_slice(refusal.name().as_bytes())?;
    out.extend_from_slice(b"\"}".as_slice())
}

fn write_node(role: Role, id: u64, out: &mut Vec<u8>) -> Result<(), AllocError>
    ensures { OnOk result (out.new.items ≡ out.old.items ++ labels_text (Labels.Node role id)) }
{
    out.extend_from_slice(b"{role=\"".as_slice())?;
    out.extend_from_slice(role.name().as_bytes())?;
    out.extend_from_slice(b"\",id=\"".as_slice())?;
    write_decimal(id, out)?;
    out.extend_from_slice(b"\"}".as_slice())
}

fn write_folder(number: u64, out: &mut Vec<u8>) -> Result<(), AllocError>
    ensures { OnOk result (out.new.items ≡ out.old.items ++ labels_text (Labels.Folder number)) }
{
    out.extend_from_slice(b"{folder=\"".as_slice())?;
    write_decimal(number, out)?;
    out.extend_from_slice(b"\"}".as_slice())
}

fn write_bound(bound: Option<u64>, out: &mut Vec<u8>) -> Result<(), AllocError>
    ensures { OnOk result (out.new.items ≡ out.old.items ++ bound_text bound) }
{
    match bound {
        Some(micros) => write_seconds(micros, out),
        None => out.extend_from_slice(b"+Inf".as_slice()),
    }
}

fn write_bucket(bound: Option<u64>, out: &mut Vec<u8>) -> Result<(), AllocError>
    ensures { OnOk result (out.new.items ≡ out.old.items ++ labels_text (Labels.Bucket bound)) }
{
    out.extend_from_slice(b"{le=\"".as_slice())?;
    write_bound(bound, out)?;
    out.extend_from_slice(b"\"}".as_slice())
}

fn write_labels(labels: Labels, out: &mut Vec<u8>) -> Result<(), AllocError>
    ensures { OnOk result (out.new.items ≡ out.old.items ++ labels_text labels) }
{
    match labels {
        Labels::None => Ok(()),
        Labels::Command(kind, outcome) => write_command(kind, outcome, out),
        Labels::Why(refusal) => write_why(refusal, out),
        Labels::Node(role, id) => write_node(role, id, out),
        Labels::Folder(number) => write_folder(number, out),
        Labels::Bucket(bound) => write_bucket(bound, out),
    }
}

/// Adds the line at the end. After a failed allocation, the only error, a beginning of it may be there.
pub fn write_sample(sample: Sample, out: &mut Vec<u8>) -> Result<(), AllocError>
    ensures { OnOk result (out.new.items ≡ out.old.items ++ sample_text sample) }
{
    out.extend_from_slice(sample.metric.name().as_bytes())?;
    out.extend_from_slice(sample.suffix.text().as_bytes())?;
    write_labels(sample.labels, out)?;
    out.extend_from_slice(b" ".as_slice())?;
    write_number(sample.number, out)?;
    out.extend_from_slice(b"\n".as_slice())
}
