//! One server, as far as the keys of one connection go.

use crate::command::{Command, KEYS, Verb};
use crate::wanted::{Wanted, first_number};
use std::alloc::{AllocError, Global};

/// The most bytes of data that grow by `append` and `prepend`.
const MOST_GROWN: usize = 200;

#[derive(Drop)]
struct Item {
    data: Vec<u8>,
    flags: u32,
    /// The moment from which on it is gone.
    due: Option<u64>,
    /// Which store of its key made its data, counted from 1.
    store: u64,
}

/// A key, and what it had.
#[derive(Drop)]
pub struct Slot {
    item: Option<Item>,
    /// How many stores there were.
    stores: u64,
    /// A store and its unique, as a `gets` showed them.
    known: Option<(u64, u64)>,
    /// What a `get` of the key gives: at first, and after each change.
    texts: Vec<Vec<u8>>,
    /// The first of them that a command may show that is asked now.
    pub floor: usize,
    /// The floor when a record was made, and how many texts there were.
    kept_floor: usize,
    kept_texts: usize,
}

/// What a command answers.
#[derive(Clone, Copy)]
enum Answer {
    Line(&'static str),
    Number(u64),
    Item,
}

/// When an item with this exptime is gone. `None`: at once.
fn due(exptime: i64, moment: u64) -> Option<Option<u64>> {
    match u64::try_from(exptime) {
        Err(_) => None,
        Ok(0) => Some(None),
        Ok(seconds) if seconds <= 2592000 => Some(Some(moment.saturating_add(seconds))),
        Ok(at) => (at > moment).then_some(Some(at)),
    }
}

/// The number that data stand for.
fn number_of(data: &[u8]) -> Option<u64> {
    let (number, rest) = first_number(data)?;
    (rest.is_empty() && data.len() <= 20).then_some(number)
}

impl Slot {
    fn new(alloc: Global) -> Slot {
        Slot {
            item: None,
            stores: 0,
            known: None,
            texts: Vec::new(alloc),
            floor: 0,
            kept_floor: 0,
            kept_texts: 0,
        }
    }

    /// A record is made: what was answered up to now stays so if the process ends.
    fn keep(&mut self) {
        self.kept_floor = self.floor;
        self.kept_texts = self.texts.len();
    }

    /// The process ended, and what came after the record never was. Which of the commands were carried out that had no
    /// answer then is not known.
    fn go_back(&mut self) {
        self.item = None;
        self.floor = self.kept_floor;
        self.texts.truncate(self.kept_texts);
    }

    /// The next store puts these data, with the due time of an exptime.
    fn store(&mut self, data: Vec<u8>, flags: u32, due: Option<Option<u64>>) {
        self.stores = self.stores.saturating_add(1);
        self.item = match due {
            None => None,
            Some(due) => Some(Item {
                data,
                flags,
                due,
                store: self.stores,
            }),
        };
    }

    /// The command's data, flags and exptime are stored.
    fn set(&mut self, alloc: Global, command: &Command, moment: u64) -> Result<(), AllocError> {
        let data = Vec::from_slice(alloc, command.data)?;
        self.store(data, command.flags, due(command.exptime, moment));
        Ok(())
    }

    /// The item has other data.
    fn change(&mut self, data: Vec<u8>) {
        if let Some(item) = &mut self.item {
            self.stores = self.stores.saturating_add(1);
            item.data = data;
            item.store = self.stores;
        }
    }

    /// Both, one behind the other.
    fn join(&mut self, alloc: Global, command: &Command) -> Result<(), AllocError> {
        let mut data = Vec::new(alloc);
        if let Some(item) = &self.item {
            if command.verb == Verb::Append {
                data.extend_from_slice(&item.data)?;
                data.extend_from_slice(command.data)?;
            } else {
                data.extend_from_slice(command.data)?;
                data.extend_from_slice(&item.data)?;
            }
        }
        self.change(data);
        Ok(())
    }

    /// The item's number is changed: the new one.
    fn count(&mut self, alloc: Global, command: &Command) -> Result<Answer, AllocError> {
        let Some(number) = self.item.as_ref().and_then(|item| number_of(&item.data)) else {
            return Ok(Answer::Line("CLIENT_ERROR cannot increment or decrement non-numeric value"));
        };
        let number = if command.verb == Verb::Increase {
            number.wrapping_add(command.delta)
        } else {
            number.saturating_sub(command.delta)
        };
        let text = format!(in alloc; "{number}")?;
        self.change(Vec::from_slice(alloc, text.as_bytes())?);
        Ok(Answer::Number(number))
    }

    /// The item has another due time.
    fn touch(&mut self, exptime: i64, moment: u64) {
        match due(exptime, moment) {
            None => self.item = None,
            Some(due) => {
                if let Some(item) = &mut self.item {
                    item.due = due;
                }
            }
        }
    }

    /// Whether the item is of the store whose unique the command names.
    fn has_unique(&self, command: &Command) -> bool {
        self.item
            .as_ref()
            .is_some_and(|item| item.store == command.store)
    }

    /// Stores if it is so.
    fn set_if(
        &mut self,
        alloc: Global,
        command: &Command,
        moment: u64,
        is_so: bool,
        otherwise: &'static str,
    ) -> Result<Answer, AllocError> {
        if !is_so {
            return Ok(Answer::Line(otherwise));
        }
        self.set(alloc, command, moment)?;
        Ok(Answer::Line("STORED"))
    }

    /// A command of a key that has no item.
    fn run_on_none(
        &mut self,
        alloc: Global,
        command: &Command,
        moment: u64,
    ) -> Result<Answer, AllocError> {
        match command.verb {
            Verb::Set | Verb::Add => self.set_if(alloc, command, moment, true, ""),
            Verb::Replace | Verb::Append | Verb::Prepend => Ok(Answer::Line("NOT_STORED")),
            Verb::Get | Verb::Gets | Verb::Gat | Verb::Gats => Ok(Answer::Item),
            _ => Ok(Answer::Line("NOT_FOUND")),
        }
    }

    /// A command of a key that has an item. What `gat` and `gats` do to it comes after it is shown.
    fn run_on_item(
        &mut self,
        alloc: Global,
        command: &Command,
        moment: u64,
    ) -> Result<Answer, AllocError> {
        match command.verb {
            Verb::Set | Verb::Replace => self.set_if(alloc, command, moment, true, ""),
            Verb::Add => Ok(Answer::Line("NOT_STORED")),
            Verb::Append | Verb::Prepend => {
                self.join(alloc, command)?;
                Ok(Answer::Line("STORED"))
            }
            Verb::Cas => {
                let is_so = self.has_unique(command);
                self.set_if(alloc, command, moment, is_so, "EXISTS")
            }
            Verb::Touch => {
                self.touch(command.exptime, moment);
                Ok(Answer::Line("TOUCHED"))
            }
            Verb::Delete => {
                self.item = None;
                Ok(Answer::Line("DELETED"))
            }
            Verb::Increase | Verb::Decrease => self.count(alloc, command),
            _ => Ok(Answer::Item),
        }
    }

    /// Puts what a command shows of the item of this connection's key.
    fn put_item(
        &self,
        alloc: Global,
        name: (u64, usize),
        with_unique: bool,
        wanted: &mut Wanted,
    ) -> Result<(), AllocError> {
        if let Some(item) = &self.item {
            let (number, key) = name;
            let (flags, size) = (item.flags, item.data.len());
            let line = format!(in alloc; "VALUE {number}.{key} {flags} {size}")?;
            wanted.put(line.as_bytes())?;
            if with_unique {
                wanted.put_unique(item.store)?;
            }
            wanted.put(b"\r\n")?;
            wanted.put(&item.data)?;
            wanted.put(b"\r\n")?;
        }
        Ok(())
    }

    /// Puts the reply.
    fn put_answer(
        &self,
        alloc: Global,
        name: (u64, usize),
        command: &Command,
        answer: Answer,
        wanted: &mut Wanted,
    ) -> Result<(), AllocError> {
        match answer {
            Answer::Line(text) => {
                wanted.put(text.as_bytes())?;
                wanted.put(b"\r\n")
            }
            Answer::Number(number) => {
                let text = format!(in alloc; "{number}\r\n")?;
                wanted.put(text.as_bytes())
            }
            Answer::Item => {
                self.put_item(alloc, name, command.verb.shows_unique(), wanted)?;
                wanted.put(b"END\r\n")
            }
        }
    }

    /// Notes what a `get` of the key gives now, if that is something else.
    fn note(&mut self, alloc: Global, name: (u64, usize)) -> Result<(), AllocError> {
        let mut shown = Wanted::new(alloc);
        self.put_item(alloc, name, false, &mut shown)?;
        shown.put(b"END\r\n")?;
        if self.last_text() == Some(shown.text()) {
            return Ok(());
        }
        let text = Vec::from_slice(alloc, shown.text())?;
        self.texts.push(text)?;
        Ok(())
    }

    fn last_text(&self) -> Option<&[u8]> {
        self.texts.last().map(|text| text.as_slice())
    }

    /// Carries out a command, and puts its reply.
    fn run(
        &mut self,
        alloc: Global,
        name: (u64, usize),
        command: &Command,
        moment: u64,
        wanted: &mut Wanted,
    ) -> Result<(), AllocError> {
        let answer = if self.item.is_some() {
            self.run_on_item(alloc, command, moment)?
        } else {
            self.run_on_none(alloc, command, moment)?
        };
        self.put_answer(alloc, name, command, answer, wanted)?;
        if matches!(command.verb, Verb::Gat | Verb::Gats) {
            self.touch(command.exptime, moment);
        }
        self.note(alloc, name)
    }

    /// Which text is the last one.
    pub fn latest(&self) -> usize {
        self.texts.len().saturating_sub(1)
    }

    /// A command is answered after which the key had this text: an earlier one is not to be seen any more.
    pub fn answer(&mut self, text: usize) {
        self.floor = self.floor.max(text);
    }

    /// A `gets` showed the unique of a store: whether this may be.
    fn learn(&mut self, store: u64, unique: u64) -> bool {
        let is_right = match self.known {
            None => true,
            Some((known, was)) if known == store => was == unique,
            Some((known, was)) => known > store || was < unique,
        };
        self.known = Some((store, unique));
        is_right
    }

    /// Of these bytes what is behind a text of the key, from this text on.
    pub fn seen<'b>(&self, floor: usize, bytes: &'b [u8]) -> Option<(usize, &'b [u8])> {
        for at in floor..self.texts.len() {
            if let Some(text) = self.texts.get(at) {
                if let Some(rest) = bytes.strip_prefix(text.as_slice()) {
                    return Some((at, rest));
                }
            }
        }
        None
    }

    /// It is a later moment, and no command is outstanding.
    fn pass(
        &mut self,
        alloc: Global,
        name: (u64, usize),
        moment: u64,
        is_here: bool,
    ) -> Result<(), AllocError> {
        let due = self.item.as_ref().and_then(|item| item.due);
        if due.is_some_and(|due| due <= moment) || !is_here {
            self.item = None;
        }
        self.note(alloc, name)?;
        if is_here {
            self.floor = self.latest();
        }
        Ok(())
    }
}

/// The keys of one connection. They are named for its number, so no other connection stores anything there.
#[derive(Drop)]
pub struct Model {
    pub number: u64,
    slots: Vec<Slot>,
    /// The number of the connection when a record was made.
    kept_number: u64,
}

impl Model {
    /// Of no connection.
    pub fn new(alloc: Global) -> Model {
        Model {
            number: 0,
            slots: Vec::new(alloc),
            kept_number: 0,
        }
    }

    /// A record is made.
    pub fn keep(&mut self) {
        self.kept_number = self.number;
        for slot in self.slots.iter_mut() {
            slot.keep();
        }
    }

    /// The process ended, and another one goes on from the record. Its keys still have what they had. If the connection
    /// came after the record it never came.
    pub fn go_back(&mut self) {
        if self.number != self.kept_number {
            self.number = 0;
            self.slots.clear();
        }
        for slot in self.slots.iter_mut() {
            slot.go_back();
        }
    }

    /// The keys of a new connection, which have no items. After an error it is of no connection.
    pub fn come(&mut self, alloc: Global, number: u64) -> Result<(), AllocError> {
        self.number = 0;
        self.slots.clear();
        for key in 0..KEYS {
            self.slots.push(Slot::new(alloc))?;
            if let Some(slot) = self.slots.last_mut() {
                slot.note(alloc, (number, key))?;
            }
        }
        self.number = number;
        Ok(())
    }

    pub fn slot(&mut self, key: usize) -> Option<&mut Slot> {
        self.slots.get_mut(key)
    }

    /// The command with a unique that was shown, if there is one and the word says so, and with data of a bounded size.
    pub fn fitted(&self, command: Command, is_shown: bool) -> Command {
        let mut fitted = command;
        if let Some(slot) = self.slots.get(command.key) {
            if let (Some((store, unique)), true) = (slot.known, is_shown) {
                fitted.store = store;
                fitted.unique = unique;
            }
            let size = slot.item.as_ref().map_or(0, |item| item.data.len());
            if size > MOST_GROWN && matches!(command.verb, Verb::Append | Verb::Prepend) {
                fitted.verb = Verb::Set;
            }
        }
        fitted
    }

    /// Carries out a command: its reply.
    pub fn run(
        &mut self,
        alloc: Global,
        command: &Command,
        moment: u64,
    ) -> Result<Wanted, AllocError> {
        let mut wanted = Wanted::new(alloc);
        let name = (self.number, command.key);
        if let Some(slot) = self.slots.get_mut(command.key) {
            slot.run(alloc, name, command, moment, &mut wanted)?;
        }
        Ok(wanted)
    }

    /// Carries out a `get` of all keys: its reply.
    pub fn get_all(&self, alloc: Global) -> Result<Wanted, AllocError> {
        let mut wanted = Wanted::new(alloc);
        for (key, slot) in self.slots.iter().enumerate() {
            slot.put_item(alloc, (self.number, key), false, &mut wanted)?;
        }
        wanted.put(b"END\r\n")?;
        Ok(wanted)
    }

    /// A command of this key is answered after which it had this text. With the unique that was shown: whether it may be.
    pub fn answer(&mut self, key: usize, text: usize, shown: Option<(u64, u64)>) -> bool {
        let Some(slot) = self.slots.get_mut(key) else {
            return false;
        };
        slot.answer(text);
        match shown {
            Some((store, unique)) => slot.learn(store, unique),
            None => true,
        }
    }

    /// It is a later moment, and no command is outstanding. If the connection has left, which of its last commands were
    /// carried out is not known: then each item may be gone.
    pub fn pass(&mut self, alloc: Global, moment: u64, is_here: bool) -> Result<(), AllocError> {
        let number = self.number;
        for (key, slot) in self.slots.iter_mut().enumerate() {
            slot.pass(alloc, (number, key), moment, is_here)?;
        }
        Ok(())
    }
}
