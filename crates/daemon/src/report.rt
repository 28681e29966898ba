//! Which lines are due.

ghost use Rattle.std.specs.Prelude.{◌≡◌};
ghost use Rattle.daemon.specs.Report.{report_from, due_lines, report_after};

use crate::told::Told;
use figures::{ALL_REFUSALS, Figures, NodeFigures, Refusals, plus};

/// What has happened since the start, of each kind that the log tells of.
#[derive(Clone, Copy, Debug, PartialEq, Eq)]
pub struct Totals {
    /// How often a node stopped.
    pub stops: u64,
    /// How often a node that had stopped came back.
    pub returns: u64,
    /// How often the leader was suspected.
    pub suspicions: u64,
    /// Batches that were rolled back.
    pub rollbacks: u64,
    /// Connections that were refused.
    pub refused: u64,
    /// Connections that could not be accepted.
    pub failed: u64,
    /// Connections that were closed since nothing happened on them.
    pub idle: u64,
    /// Lines that were refused.
    pub lines: u64,
    /// How often memory was refused.
    pub memory: u64,
}

/// How often these nodes stopped.
fn stops(nodes: &[NodeFigures]) -> u64 {
    nodes.iter().fold(0, |sum, node| plus(sum, node.stops))
}

/// How many of these nodes are down after they had been up.
fn stopped(nodes: &[NodeFigures]) -> u64 {
    nodes.iter().fold(
        0,
        |sum, node| plus(sum, u64::from(!node.is_up && 0 < node.stops)),
    )
}

/// How many lines were refused, for all reasons.
fn refused_lines(refusals: &Refusals) -> u64 {
    ALL_REFUSALS
        .iter()
        .fold(0, |sum, refusal| plus(sum, refusals.of(*refusal)))
}

impl Totals {
    /// What these figures say.
    pub fn of(figures: &Figures) -> Totals {
        let executors = figures.replicas.executors.as_slice();
        let verifiers = figures.replicas.verifiers.as_slice();
        let all = plus(stops(executors), stops(verifiers));
        let down = plus(stopped(executors), stopped(verifiers));
        Totals {
            stops: all,
            returns: all.saturating_sub(down),
            suspicions: figures.replicas.suspicions,
            rollbacks: figures.batches.rolled_back,
            refused: figures.connections.refused,
            failed: figures.connections.failed,
            idle: figures.connections.idle,
            lines: refused_lines(&figures.refusals),
            memory: figures.memory.refusals,
        }
    }
}

/// What is to be logged now: for each kind the number of its line, if one is due.
#[derive(Clone, Copy, Debug, PartialEq, Eq)]
pub struct Due {
    pub stops: Option<u64>,
    pub returns: Option<u64>,
    pub suspicions: Option<u64>,
    pub rollbacks: Option<u64>,
    pub refused: Option<u64>,
    pub failed: Option<u64>,
    pub idle: Option<u64>,
    pub lines: Option<u64>,
    pub memory: Option<u64>,
}

/// How far the log has reported each kind.
#[derive(Clone, Copy, Debug, PartialEq, Eq)]
pub struct Report {
    pub stops: Told,
    pub returns: Told,
    pub suspicions: Told,
    pub rollbacks: Told,
    pub refused: Told,
    pub failed: Told,
    pub idle: Told,
    pub lines: Told,
    pub memory: Told,
}

impl Report {
    /// A log that tells of what comes after these.
    pub fn new(totals: Totals) -> Report
        ensures { result ≡ report_from totals }
    {
        Report {
            stops: Told::new(totals.stops),
            returns: Told::new(totals.returns),
            suspicions: Told::new(totals.suspicions),
            rollbacks: Told::new(totals.rollbacks),
            refused: Told::new(totals.refused),
            failed: Told::new(totals.failed),
            idle: Told::new(totals.idle),
            lines: Told::new(totals.lines),
            memory: Told::new(totals.memory),
        }
    }

    /// Which lines are due in this second. Each is logged by this.
    pub fn due(&mut self, totals: Totals, second: u64) -> Due
        ensures due { result ≡ due_lines self.old totals second }
        ensures after { self.new ≡ report_after self.old totals second }
    {
        Due {
            stops: self.stops.line(totals.stops, second),
            returns: self.returns.line(totals.returns, second),
            suspicions: self.suspicions.line(totals.suspicions, second),
            rollbacks: self.rollbacks.line(totals.rollbacks, second),
            refused: self.refused.line(totals.refused, second),
            failed: self.failed.line(totals.failed, second),
            idle: self.idle.line(totals.idle, second),
            lines: self.lines.line(totals.lines, second),
            memory: self.memory.line(totals.memory, second),
        }
    }
}
