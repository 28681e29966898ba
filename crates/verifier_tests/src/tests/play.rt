//! The verifiers of a schedule, and what they have to answer.

use super::line::{ballot, node, number, push_all, verifier, words};
use super::records::{handle, keeper_of, open, record};
use base::Text;
use decrees::{Ballot, Letter, Node};
use keeper::MemKeeper;
use proto::Fault;
use std::alloc::Global;
use std::mem;
use verifier::{Input, Verifier};

/// A verifier that was opened, or the keeper of one that was not.
#[derive(Drop)]
enum Player {
    Open(Verifier<MemKeeper<Text>>),
    Closed(MemKeeper<Text>),
}

/// What an input is answered with.
type Answered = Result<Vec<Letter<Ballot>>, Fault>;

fn opened(alloc: Global, id: u8, u: u8, keeper: MemKeeper<Text>) -> (Player, Answered) {
    match open(alloc, u, id, keeper) {
        Ok((verifier, letters)) => (Player::Open(verifier), Ok(letters)),
        Err((fault, keeper)) => (Player::Closed(keeper), Err(fault)),
    }
}

impl Player {
    fn into_keeper(self) -> MemKeeper<Text> {
        match self {
            Player::Open(verifier) => verifier.end(),
            Player::Closed(keeper) => keeper,
        }
    }

    /// Opens the verifier of these numbers with the keeper that it had.
    fn open(&mut self, alloc: Global, id: u8, u: u8) -> Answered {
        let player = mem::replace(self, Player::Closed(MemKeeper::new()));
        let (player, answer) = opened(alloc, id, u, player.into_keeper());
        *self = player;
        answer
    }

    fn handle(&mut self, alloc: Global, input: Input) -> Option<Answered> {
        match self {
            Player::Open(verifier) => Some(handle(alloc, verifier, input)),
            Player::Closed(_) => None,
        }
    }

    /// It finds this record when it is opened next.
    fn find(&mut self, alloc: Global, bytes: &[u8]) -> Option<()> {
        *self = Player::Closed(keeper_of(alloc, bytes).ok()?);
        Some(())
    }

    fn keeper(&mut self) -> &mut MemKeeper<Text> {
        match self {
            Player::Open(verifier) => verifier.keeper(),
            Player::Closed(keeper) => keeper,
        }
    }

    /// Whether it is as the words say: `stopped`, or `up in view 1 knows 0`.
    fn is(&self, words: &[&str]) -> Option<bool> {
        let Player::Open(verifier) = self else {
            return None;
        };
        if *words.first()? == "stopped" {
            return Some(!verifier.is_up());
        }
        let view = number(words, 2, "view")?;
        let known = number(words, 4, "knows")?;
        Some(verifier.is_up() && verifier.view() == view && verifier.known() == known)
    }
}

/// The verifiers, what the latest input was answered with, and how many of its letters were said.
#[derive(Drop)]
struct Play {
    alloc: Global,
    u: u8,
    players: Vec<Player>,
    letters: Vec<Letter<Ballot>>,
    said: usize,
    fault: Option<Fault>,
}

impl Play {
    /// Whether all of the latest answer was said.
    fn is_said(&self) -> bool {
        self.fault.is_none() && self.letters.len() == self.said
    }

    fn set_up(&mut self, u: u64) -> Option<()> {
        self.u = u8::try_from(u).ok()?;
        for _ in 0..7 {
            self.players.push(Player::Closed(MemKeeper::new())).ok()?;
        }
        Some(())
    }

    fn answers(&mut self, answer: Answered) {
        self.said = 0;
        self.letters.clear();
        match answer {
            Ok(letters) => self.letters = letters,
            Err(fault) => self.fault = Some(fault),
        }
    }

    fn player(&mut self, id: u8) -> Option<&mut Player> {
        self.players.get_mut(usize::from(id))
    }

    /// Hands the input to the verifier.
    fn give(&mut self, id: u8, input: Input) -> Option<()> {
        let alloc = self.alloc;
        let answer = self.player(id)?.handle(alloc, input)?;
        self.answers(answer);
        Some(())
    }

    fn open(&mut self, id: u8) -> Option<()> {
        let (alloc, u) = (self.alloc, self.u);
        let answer = self.player(id)?.open(alloc, id, u);
        self.answers(answer);
        Some(())
    }

    /// The record of the verifier is of these bytes.
    fn has(&mut self, id: u8, bytes: &[u8]) -> Option<()> {
        let alloc = self.alloc;
        let found = record(alloc, self.player(id)?.keeper()).ok()?;
        let is_so = found.as_slice() == bytes;
        is_so.then_some(())
    }

    /// The record of the verifier is of these bytes, or it finds one of them.
    fn record(&mut self, id: u8, words: &[&str], finds: bool) -> Option<()> {
        let mut bytes = Vec::new(self.alloc);
        push_all(words, &mut bytes)?;
        let alloc = self.alloc;
        if finds {
            self.player(id)?.find(alloc, bytes.as_slice())
        } else {
            self.has(id, bytes.as_slice())
        }
    }

    fn is(&mut self, id: u8, words: &[&str]) -> Option<()> {
        let is_so = self.player(id)?.is(words)?;
        is_so.then_some(())
    }

    /// What happens to a verifier, or holds of it.
    fn happens(&mut self, id: u8, words: &[&str]) -> Option<()> {
        let more = words.get(1..)?;
        match *words.first()? {
            "opens" => self.open(id),
            "suspects" => self.give(id, Input::Suspect),
            "trims" => {
                let place = number(words, 1, "to")?;
                self.give(id, Input::Trim { place })
            }
            "fails" => {
                self.player(id)?.keeper().fail_next();
                Some(())
            }
            "is" => self.is(id, more),
            "has" => self.record(id, more, false),
            "finds" => self.record(id, more, true),
            _ => None,
        }
    }

    fn deliver(&mut self, from: Node, id: u8, body: Ballot) -> Option<()> {
        let to = Node::Verifier(id);
        self.give(id, Input::Letter(Letter { from, to, body }))
    }

    /// An input: a letter, or what happens to a verifier.
    fn input(&mut self, head: &[&str], body: Option<Ballot>) -> Option<()> {
        if !self.is_said() {
            return None;
        }
        let first = *head.first()?;
        if first == "u" {
            return self.set_up(number(head, 0, "u")?);
        }
        match body {
            Some(body) => self.deliver(node(first)?, verifier(*head.get(2)?)?, body),
            None => self.happens(verifier(first)?, head.get(1..)?),
        }
    }

    /// The next letter of the answer is this one.
    fn says(&mut self, letter: Letter<Ballot>) -> Option<()> {
        if self.letters.get(self.said) != Some(&letter) {
            return None;
        }
        self.said = self.said.wrapping_add(1);
        Some(())
    }

    /// The answer is this fault: `stopped`, or `bad record`.
    fn says_fault(&mut self, words: &[&str]) -> Option<()> {
        let fault = if *words.first()? == "stopped" {
            Fault::Stopped
        } else {
            Fault::BadRecord
        };
        if self.fault != Some(fault) {
            return None;
        }
        self.fault = None;
        Some(())
    }

    /// What is answered: a letter to each of the nodes, or a fault.
    fn output(&mut self, head: &[&str], body: Option<Ballot>) -> Option<()> {
        let Some(body) = body else {
            return self.says_fault(head);
        };
        let from = node(*head.first()?)?;
        for to in head.get(2..)? {
            let to = node(*to)?;
            self.says(Letter { from, to, body })?;
        }
        Some(())
    }

    fn line(&mut self, line: &str) -> Option<()> {
        if line.is_empty() || line.starts_with('#') {
            return Some(());
        }
        let (head, body) = line.split_once(':').unwrap_or((line, ""));
        let head = words(self.alloc, head).ok()?;
        let body = words(self.alloc, body).ok()?;
        let body = ballot(&body);
        if line.starts_with(' ') {
            self.output(&head, body)
        } else {
            self.input(&head, body)
        }
    }

    fn first_wrong(&mut self, text: &str) -> Option<usize> {
        let mut number = 0usize;
        for line in text.lines() {
            number = number.wrapping_add(1);
            if self.line(line).is_none() {
                return Some(number);
            }
        }
        if self.is_said() { None } else { Some(number) }
    }
}

/// The first line of the schedule that is not as the verifiers do, from 1.
pub fn first_wrong(alloc: Global, text: &str) -> Option<usize> {
    let mut play = Play {
        alloc,
        u: 0,
        players: Vec::new(alloc),
        letters: Vec::new(alloc),
        said: 0,
        fault: None,
    };
    play.first_wrong(text)
}
