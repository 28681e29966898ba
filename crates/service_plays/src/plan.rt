//! What a line of the input asks for.

use service::Dialect;

/// A play.
#[derive(Clone, Copy)]
pub struct Plan {
    /// In which grammar what connections send is read.
    pub dialect: Dialect,
    pub u: u8,
    pub seed: u32,
    pub calls: u64,
    /// Whether the process ends at times, and another one goes on from the last record.
    pub has_ends: bool,
    /// Whether replicas stop at times, until ticks open them again.
    pub has_stops: bool,
}

/// The play that a line asks for. `None`: it asks for none.
pub fn plan_of(line: &str) -> Option<Plan> {
    let mut words = line.split_whitespace();
    let u = words.next()?.parse::<u8>().ok()?;
    let seed = words.next()?.parse::<u32>().ok()?;
    let calls = words.next()?.parse::<u64>().ok()?;
    let mut plan = Plan {
        dialect: Dialect::Profile,
        u,
        seed,
        calls,
        has_ends: false,
        has_stops: false,
    };
    for word in words {
        match word {
            "memcached" => plan.dialect = Dialect::Memcached,
            "ends" => plan.has_ends = true,
            "stops" => plan.has_stops = true,
            _ => return None,
        }
    }
    Some(plan)
}
