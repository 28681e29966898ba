ghost use Rattle.std.specs.Prelude.{◌≡◌, ◌≢◌, ◌<◌, ℕ, false, true, All};
ghost use Rattle.item_steps.specs.Steps.{steps};
ghost use Rattle.pages.specs.Page.{page_count, page_number};
ghost use Rattle.pages.specs.Others.{has_page, AreWithin, Covers};

use crate::number::page_of;
use proto::{Command, Key};
use std::marker::Model;
use token::PAGES;

/// A set of pages, by their numbers.
///
/// Beside two stores it says which of their pages may differ: `AreSameBeside` is that all others are
/// the same in both.
#[derive(Clone, Copy)]
pub struct PageSet {
    pages: [bool; PAGES],
}

impl Model for PageSet {
    ghost use Rattle.std.specs.Prelude.{List, Bool};

    ghost Value = { List Bool };

    ghost view = { λ s. s.pages };

    ghost inverse = { λ pages. record { pages = pages } };
}

impl PageSet {
    /// The set of no page.
    pub fn new() -> PageSet
        ensures { (p : ℕ) → has_page result p ≡ false }
    {
        PageSet {
            pages: [false; PAGES],
        }
    }

    /// The set of all pages.
    pub fn all() -> PageSet
        ensures { (p : ℕ) → p < page_count → has_page result p ≡ true }
    {
        PageSet {
            pages: [true; PAGES],
        }
    }

    /// Adds the page of this number.
    pub fn add(&mut self, number: usize)
        requires { number < page_count }
        ensures has { has_page self.new number ≡ true }
        ensures others { (p : ℕ) → p ≢ number → has_page self.new p ≡ has_page self.old p }
    {
        self.pages[number] = true;
    }

    /// Whether it has the page of this number.
    pub fn has(&self, number: usize) -> bool
        requires { number < page_count }
        ensures { result ≡ has_page self.now number }
    {
        self.pages[number]
    }

    /// Adds the pages that the steps of the command can change: of an update that of its key, of a `gat`
    /// those of its keys, of a `get` none.
    pub fn add_command(&mut self, command: &Command)
        ensures covers { All (Covers self.new) (steps command.now) }
        ensures within { AreWithin self.old self.new }
    {
        match command {
            Command::Get(_) => {}
            Command::Gets(_) => {}
            Command::Gat(_, keys) => self.add_keys(keys.as_slice()),
            Command::Gats(_, keys) => self.add_keys(keys.as_slice()),
            Command::Update(update) => self.add(page_of(update.key())),
        }
    }

    /// Adds the page of each key.
    fn add_keys(&mut self, keys: &[Key])
        ensures has { All (λ key. has_page self.new (page_number key) ≡ true) keys.now }
        ensures within { AreWithin self.old self.new }
    {
        for key in keys {
            self.add(page_of(key));
        }
    }
}
