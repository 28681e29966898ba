//! What makes events of words.

ghost use Rattle.std.specs.Prelude.{◌≡◌};
ghost use Rattle.rand_core.specs.Pcg32Seed.{pcg32_seed};
ghost use Rattle.rand_pcg.specs.Pcg.{pcg32_of_seed};
ghost use Rattle.makers.specs.Table.{next_event, after_event};

use crate::table::event_of;
use events::{Config, Event};
use rand_core::SeedableRng;
use rand_core::utils::NextWord;
use rand_pcg::Lcg64Xsh32;
use std::marker::Model;

/// Makes the events of a line `random`, one after the other.
#[derive(Drop)]
pub struct Maker {
    words: Lcg64Xsh32,
}

impl Model for Maker {
    ghost use Rattle.rand_pcg.specs.Lcg.{Lcg};

    ghost Value = { Lcg };

    ghost view = { λ maker. maker.words };

    ghost inverse = { λ words. record { words = words } };
}

impl Maker {
    /// The maker of this seed. Makers of one seed make the same events.
    pub fn new(seed: u64) -> Maker
        ensures { result ≡ pcg32_of_seed (pcg32_seed 16 seed) }
    {
        Maker {
            words: Lcg64Xsh32::seed_from_u64(seed),
        }
    }

    /// The next event of a world of this size, in which so many letters were sent: their numbers are 1 to
    /// `sent`. There is none if a letter was to come and none was sent. What the event names is there:
    /// a letter, a client, a replica; that replica may be down. No event feeds bytes, hangs up or loses a
    /// replica for good. Three words are taken each time, so what is made later does not depend on how
    /// many letters were sent before.
    pub fn event(&mut self, config: &Config, sent: u64) -> Option<Event>
        ensures event { result ≡ next_event config.now sent self.old }
        ensures goes_on { self.new ≡ after_event self.old }
    {
        let a = self.words.next_word();
        let b = self.words.next_word();
        let c = self.words.next_word();
        event_of(config, sent, a, b, c)
    }
}
