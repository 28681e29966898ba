//! What came of plays.

use decrees::{Ballot, Decree};
use exec_lines::Body;
use world::World;

/// A play that shows what no server would.
#[derive(Clone, Copy)]
pub enum Failed {
    /// Of a kind that is made of the seed.
    Kind { seed: u32 },
    /// Of random events, with `u` replicas of each kind that may fail.
    Random { seed: u32, u: u8 },
    /// Of a row, with a restart after so many events of the replica of this number, executors first.
    Restart { after: u32, number: u8 },
}

/// What came of plays, all together.
#[derive(Clone, Copy)]
pub struct Counts {
    pub plays: u32,
    pub events: u64,
    pub letters: u64,
    pub replies: u64,
    pub commits: u64,
    pub rollbacks: u64,
    /// The highest views that were led to, added up.
    pub views: u64,
    pub parcels: u64,
    /// How often a node was told what stands, in place of decrees that were forgotten.
    pub stands: u64,
    /// The first play that shows what no server would.
    pub failed: Option<Failed>,
}

/// What the letters of one play tell.
#[derive(Clone, Copy)]
struct Told {
    /// How many decrees were told, as far as they were told in order.
    decrees: u64,
    commits: u64,
    rollbacks: u64,
    view: u64,
    parcels: u64,
    stands: u64,
}

impl Told {
    fn hear(&mut self, body: &Body) {
        match body {
            Body::Parcel(_) => self.parcels = self.parcels.saturating_add(1),
            Body::Ballot(Ballot::Stands { .. }) => self.stands = self.stands.saturating_add(1),
            Body::Ballot(Ballot::Change { view }) => self.view = self.view.max(*view),
            Body::Ballot(Ballot::Decided { place, decree }) => {
                if *place == self.decrees.saturating_add(1) {
                    self.decrees = self.decrees.saturating_add(1);
                    match decree {
                        Decree::Commit { .. } => self.commits = self.commits.saturating_add(1),
                        Decree::Rollback => self.rollbacks = self.rollbacks.saturating_add(1),
                    }
                }
            }
            _ => {}
        }
    }
}

impl Counts {
    pub fn new() -> Counts {
        Counts {
            plays: 0,
            events: 0,
            letters: 0,
            replies: 0,
            commits: 0,
            rollbacks: 0,
            views: 0,
            parcels: 0,
            stands: 0,
            failed: None,
        }
    }

    /// Adds what the letters of a play tell.
    pub fn add(&mut self, world: &World, events: u32, replies: u64) {
        let mut told = Told {
            decrees: 0,
            commits: 0,
            rollbacks: 0,
            view: 0,
            parcels: 0,
            stands: 0,
        };
        for letter in world.letters() {
            told.hear(&letter.body);
        }
        self.plays = self.plays.saturating_add(1);
        self.events = self.events.saturating_add(u64::from(events));
        self.letters = self.letters.saturating_add(world.sent() as u64);
        self.replies = self.replies.saturating_add(replies);
        self.commits = self.commits.saturating_add(told.commits);
        self.rollbacks = self.rollbacks.saturating_add(told.rollbacks);
        self.views = self.views.saturating_add(told.view);
        self.parcels = self.parcels.saturating_add(told.parcels);
        self.stands = self.stands.saturating_add(told.stands);
    }
}
