//! A tree as a text: each production with its tokens, in parentheses, its parts inside.

use ml_trees::{Bracket, Path, Run, ValueName, Word};
use std::alloc::{AllocError, Global};
use std::fmt::Write;

/// A text that is being written. What finds no memory is left out, and `finish` says so.
#[derive(Drop)]
pub struct Outline {
    alloc: Global,
    text: String,
    is_cut: bool,
}

impl Outline {
    pub fn new(alloc: Global) -> Self {
        Outline {
            alloc,
            text: String::new(alloc),
            is_cut: false,
        }
    }

    /// The text; if a part was left out, the text `memory`.
    pub fn finish(self) -> Result<String, AllocError> {
        if self.is_cut {
            return String::from_str(self.alloc, "memory");
        }
        Ok(self.text)
    }

    fn add(&mut self, piece: &str) {
        if self.text.push_str(piece).is_err() {
            self.is_cut = true;
        }
    }

    /// Begins a production.
    pub fn open(&mut self, name: &str) {
        self.add("(");
        self.add(name);
    }

    /// Ends a production.
    pub fn close(&mut self) {
        self.add(")");
    }

    /// Adds the number of a token.
    pub fn add_token(&mut self, token: u32) {
        if write!(self.text, " {token}").is_err() {
            self.is_cut = true;
        }
    }

    /// Adds a word if the tree has it.
    pub fn add_flag(&mut self, is_there: bool, word: &str) {
        if is_there {
            self.add(" ");
            self.add(word);
        }
    }

    pub fn add_words(&mut self, words: &[Word]) {
        for word in words {
            self.add_token(word.token);
        }
    }

    pub fn add_path(&mut self, path: &Path) {
        self.add_words(&path.words);
    }

    pub fn add_name(&mut self, name: &ValueName) {
        match name {
            ValueName::Lower(word) => self.add_token(word.token),
            ValueName::Operator { open, word } => {
                self.add_flag(true, "operator");
                self.add_token(*open);
                self.add_token(word.token);
            }
        }
    }

    pub fn add_bracket(&mut self, bracket: Bracket) {
        self.add_flag(bracket == Bracket::Array, "array");
    }

    /// Adds a run: its first and its last token.
    pub fn add_run(&mut self, run: &Run) {
        self.open("run");
        if let (Some(first), Some(last)) = (run.words.first(), run.words.last()) {
            self.add_token(first.token);
            self.add_token(last.token);
        }
        self.close();
    }

    pub fn add_run_if_some(&mut self, run: &Option<Run>) {
        if let Some(run) = run {
            self.add_run(run);
        }
    }

    /// Adds a production of tokens alone.
    pub fn add_production(&mut self, name: &str, tokens: &[u32]) {
        self.open(name);
        for token in tokens {
            self.add_token(*token);
        }
        self.close();
    }

    /// Adds a production of a path alone.
    pub fn add_path_production(&mut self, name: &str, words: &[Word]) {
        self.open(name);
        self.add_words(words);
        self.close();
    }
}
