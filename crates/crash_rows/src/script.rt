//! The lines of a run, and what a plain store has behind them.

use crate::feed::message;
use std::alloc::Global;
use std::fmt::Write;
use tc_rows::words;
use tc_value::Text;

// The keys below this are read of each script, whether or not a line has them.
const FEWEST_KEYS: u64 = 4;

/// So many lines, of each partition: of the even keys, and of the odd ones where there are two.
pub(crate) type Counts = [usize; 2];

/// A line of a script.
#[derive(Drop)]
enum Step {
    /// A document, by its key and its text, whose members stand in the order in which a store gives them back.
    Put { key: u64, document: String },
    Take { key: u64 },
    Flush,
}

/// The words of the command line, of which partition a call fails, below what all keys are, and lines.
#[derive(Drop)]
pub(crate) struct Script {
    words: String,
    failing: u32,
    keys: u64,
    steps: Vec<Step>,
}

impl Script {
    pub(crate) fn new(alloc: Global) -> Script {
        Script {
            words: String::new(alloc),
            failing: 0,
            keys: FEWEST_KEYS,
            steps: Vec::new(alloc),
        }
    }

    /// Begins a script with its words, or adds a line or several.
    pub(crate) fn prepare(&mut self, alloc: Global, call: &str, argument: &str) -> Option<()> {
        match call {
            "words" => {
                self.words = String::from_str(alloc, argument).ok()?;
                self.failing = 0;
                self.keys = FEWEST_KEYS;
                self.steps.clear();
            }
            "partition" => self.failing = argument.parse::<u32>().ok()?,
            "put" => {
                let (key, members) = argument.split_once(' ').unwrap_or((argument, ""));
                let key = key.parse::<u64>().ok()?;
                self.put(key, document(alloc, key, members)?)?;
            }
            "take" => {
                let key = argument.parse::<u64>().ok()?;
                self.keys = self.keys.max(key.saturating_add(1));
                self.steps.push(Step::Take { key }).ok()?;
            }
            "feed" => self.feed(alloc, argument.parse::<u64>().ok()?)?,
            "flush" => self.steps.push(Step::Flush).ok()?,
            _ => return None,
        }
        Some(())
    }

    fn put(&mut self, key: u64, document: String) -> Option<()> {
        self.keys = self.keys.max(key.saturating_add(1));
        self.steps.push(Step::Put { key, document }).ok()
    }

    // Adds so many messages, each at its number.
    fn feed(&mut self, alloc: Global, messages: u64) -> Option<()> {
        for before in 0..messages {
            let number = before.saturating_add(1);
            self.put(number, message(alloc, number)?)?;
        }
        Some(())
    }

    /// All keys of its lines are below this.
    pub(crate) fn keys(&self) -> u64 {
        self.keys
    }

    /// Of which partition a call fails.
    pub(crate) fn failing(&self) -> u32 {
        self.failing
    }

    /// Whether the words ask for two partitions, and not for one.
    pub(crate) fn are_two(&self) -> bool {
        !self.words.as_str().contains("--partitions 1")
    }

    /// How many lines there are.
    pub(crate) fn len(&self) -> usize {
        self.steps.len()
    }

    /// The words of the command line.
    pub(crate) fn words(&self, alloc: Global) -> Option<Vec<Text>> {
        words(alloc, self.words.as_str())
    }

    /// How many lines a window has at most, as the words say.
    pub(crate) fn window(&self) -> Option<usize> {
        let (_before, behind) = self.words.as_str().split_once("--window ")?;
        let (number, _rest) = behind.split_once(' ').unwrap_or((behind, ""));
        number.parse::<usize>().ok()
    }

    /// The lines as the store reads them.
    pub(crate) fn input(&self, alloc: Global) -> Option<String> {
        let mut input = String::new(alloc);
        for step in self.steps.as_slice() {
            push_step(&mut input, step)?;
        }
        Some(input)
    }

    /// Where the window ends that begins behind so many lines, of so many lines at most. A flush is a window of its own.
    pub(crate) fn window_end(&self, begin: usize, most: usize) -> usize {
        let mut end = begin;
        for step in self.steps.iter().skip(begin).take(most) {
            if is_flush(step) {
                break;
            }
            end = end.saturating_add(1);
        }
        end.max(begin.saturating_add(1)).min(self.steps.len())
    }

    /// Upserts of the documents that a plain store has behind so many lines.
    pub(crate) fn rebuilt(&self, alloc: Global, counts: Counts) -> Option<String> {
        let mut input = String::new(alloc);
        for key in 0..self.keys {
            if let Some(document) = self.left(self.count_of(counts, key), key) {
                push_put(&mut input, document)?;
            }
        }
        Some(input)
    }

    /// What a plain store answers behind so many lines to gets of all keys.
    pub(crate) fn answers(&self, alloc: Global, counts: Counts) -> Option<String> {
        let mut answers = String::new(alloc);
        for key in 0..self.keys {
            push_answer(&mut answers, self.left(self.count_of(counts, key), key))?;
        }
        Some(answers)
    }

    // How many lines count for a key.
    fn count_of(&self, counts: Counts, key: u64) -> usize {
        let [even, odd] = counts;
        if self.are_two() && key % 2 == 1 {
            odd
        } else {
            even
        }
    }

    // The document that a key has behind so many lines: the plain store.
    fn left(&self, count: usize, key: u64) -> Option<&str> {
        let mut left = None;
        for step in self.steps.iter().take(count) {
            left = after(step, key, left);
        }
        left
    }
}

fn is_flush(step: &Step) -> bool {
    matches!(step, Step::Flush)
}

// What a key has behind a line.
fn after<'a>(step: &'a Step, key: u64, before: Option<&'a str>) -> Option<&'a str> {
    match step {
        Step::Put {
            key: other,
            document,
        } if *other == key => Some(document.as_str()),
        Step::Take { key: other } if *other == key => None,
        _other => before,
    }
}

fn push_step(input: &mut String, step: &Step) -> Option<()> {
    match step {
        Step::Put { document, .. } => push_put(input, document.as_str()),
        Step::Take { key } => write!(input, "{{\"op\":\"delete\",\"id\":{key}}}\n").ok(),
        Step::Flush => input.push_str("{\"op\":\"flush\"}\n").ok(),
    }
}

// A document by the text of its members, whose names stand before `id`.
fn document(alloc: Global, key: u64, members: &str) -> Option<String> {
    let comma = if members.is_empty() { "" } else { "," };
    format!(in alloc; "{{{members}{comma}\"id\":{key}}}").ok()
}

fn push_put(input: &mut String, document: &str) -> Option<()> {
    write!(input, "{{\"op\":\"upsert\",\"doc\":{document}}}\n").ok()
}

// The answer to a get of a key that has this document.
fn push_answer(answers: &mut String, document: Option<&str>) -> Option<()> {
    let document = document.unwrap_or("null");
    write!(answers, "{{\"doc\":{document}}}\n").ok()
}
