//! When a node that stopped is opened again.

ghost use Rattle.std.specs.Prelude.{◌≡◌};
ghost use Rattle.service.specs.Pause.{first_pause, after_up, is_pause_over, after_down};

/// The longest pause, in ticks: 10 seconds.
pub const LONGEST_PAUSE: u8 = 100;

/// How long a node that stopped stays down before it is opened again. The pause begins with one tick and doubles
/// each time, up to `LONGEST_PAUSE`. A node that is up for so long begins anew.
#[derive(Clone, Copy)]
pub struct Pause {
    /// After so many ticks that find it down it is opened.
    left: u8,
    /// The pause before the next opening.
    next: u8,
    /// For so many ticks it has been up.
    calm: u8,
}

impl Pause {
    /// Of a node that has not stopped yet.
    pub fn new() -> Pause
        ensures { result ≡ first_pause }
    {
        Pause {
            left: 1,
            next: 1,
            calm: 0,
        }
    }

    /// A tick that finds the node up.
    pub fn find_up(&mut self)
        ensures { self.new ≡ after_up self.old }
    {
        if LONGEST_PAUSE <= self.calm {
            *self = Pause::new();
        } else {
            self.calm += 1;
            self.left = self.next;
        }
    }

    /// A tick that finds the node down: whether it is to be opened now.
    pub fn find_down(&mut self) -> bool
        ensures due { result ≡ is_pause_over self.old }
        ensures after { self.new ≡ after_down self.old }
    {
        self.calm = 0;
        if 1 < self.left {
            self.left -= 1;
            return false;
        }
        self.next = self.next.saturating_mul(2).min(LONGEST_PAUSE);
        self.left = self.next;
        true
    }
}
