use rotor_app::rotor;
use rotor_base::{Memory, Row as Bytes, SourceFile, Text};
use row_pieces::read_number;
use std::alloc::{AllocError, Global};
use tree_io::{MemSink, MemTree, SoundTree, Tree, have_distinct_names};

/// A file of a row.
#[derive(Clone, Drop)]
struct File {
    name: String,
    text: String,
}

/// A folder in memory that can be looked at between two commands.
trait Folder: Tree {
    /// The bytes of the file of this name, if there is one.
    fn bytes_of(&self, name: &str) -> Option<&[u8]>;
}

impl Folder for MemTree {
    fn bytes_of(&self, name: &str) -> Option<&[u8]> {
        self.get(name)
    }
}

impl Folder for SoundTree {
    fn bytes_of(&self, name: &str) -> Option<&[u8]> {
        self.get(name)
    }
}

/// A row: a folder, the words, how often they are run, the calls of the folder and of the output that fail, and the
/// output's room.
#[derive(Drop)]
pub struct Row {
    files: Vec<File>,
    words: Vec<String>,
    runs: u32,
    is_sound: bool,
    calls: Vec<u32>,
    puts: Vec<u32>,
    room: u32,
}

impl Row {
    pub fn new(alloc: Global) -> Self {
        Row {
            files: Vec::new(alloc),
            words: Vec::new(alloc),
            runs: 1,
            is_sound: false,
            calls: Vec::new(alloc),
            puts: Vec::new(alloc),
            room: 1_000,
        }
    }

    /// Reads a line of the row: `file NAME`; of the last file `>TEXT`, `|LINE` with a line feed, and `spaces N`; `word
    /// WORD`, `call N`, `put N`, `room N`; `again`, which runs the words once more in the same folder; `sound`, which
    /// runs them in a folder of which no call fails. It ignores every other line.
    pub fn read(&mut self, alloc: Global, line: &str) -> Result<(), AllocError> {
        if let Some(text) = line.strip_prefix('>') {
            return self.add(text);
        }
        if let Some(text) = line.strip_prefix('|') {
            self.add(text)?;
            return self.add("\n");
        }
        let (kind, value) = line.split_once(' ').unwrap_or((line, ""));
        match kind {
            "file" => {
                let file = File {
                    name: String::from_str(alloc, value)?,
                    text: String::new(alloc),
                };
                self.files.push(file)?;
            }
            "spaces" => {
                for _ in 0..read_number(value) {
                    self.add(" ")?;
                }
            }
            "word" => self.words.push(String::from_str(alloc, value)?)?,
            "call" => self.calls.push(read_number(value))?,
            "put" => self.puts.push(read_number(value))?,
            "room" => self.room = read_number(value),
            "again" => self.runs = self.runs.saturating_add(1),
            "sound" => self.is_sound = true,
            _ => {}
        }
        Ok(())
    }

    fn add(&mut self, text: &str) -> Result<(), AllocError> {
        if let Some(file) = self.files.last_mut() {
            file.text.push_str(text)?;
        }
        Ok(())
    }

    /// The length of the last file's text, in bytes.
    pub fn last_len(&self) -> usize {
        self.files.last().map_or(0, |file| file.text.len())
    }

    /// The row with the last file's text cut after this many bytes.
    pub fn cut(&self, alloc: Global, len: usize) -> Result<Row, AllocError> {
        let mut files = Vec::new(alloc);
        for file in &self.files {
            files.push(file.clone()?)?;
        }
        if let Some(file) = files.pop() {
            let text = text_of(file.text.as_bytes().get(..len).unwrap_or_default());
            files.push(File {
                name: file.name.clone()?,
                text: String::from_str(alloc, text)?,
            })?;
        }
        Ok(Row {
            files,
            words: self.words.clone()?,
            runs: self.runs,
            is_sound: self.is_sound,
            calls: self.calls.clone()?,
            puts: self.puts.clone()?,
            room: self.room,
        })
    }

    /// Runs the row, and returns of each run the status, what was put, each file that differs from the row's, and the
    /// plan and the gate if the folder has them and the row does not.
    pub fn run(&self, alloc: Global) -> Result<String, Memory> {
        let files = sources(alloc, &self.files)?;
        if !have_distinct_names(&files) {
            return Ok(String::from_str(alloc, "a name is there twice\n")?);
        }
        if self.is_sound {
            self.run_in(alloc, &mut SoundTree::new(alloc, files)?)
        } else {
            self.run_in(alloc, &mut MemTree::new(alloc, files, self.calls.clone()?)?)
        }
    }

    fn run_in<T: Folder>(&self, alloc: Global, tree: &mut T) -> Result<String, Memory> {
        let mut ended = String::new(alloc);
        for _ in 0..self.runs {
            let mut sink = MemSink::new(alloc, self.room, self.puts.clone()?)?;
            let status = rotor(alloc, &self.words, tree, &mut sink);
            write!(ended, "{status:?}\n{}", text_of(sink.bytes()))?;
            self.push_changes(&mut ended, tree)?;
        }
        Ok(ended)
    }

    fn push_changes<T: Folder>(&self, ended: &mut String, tree: &T) -> Result<(), AllocError> {
        for file in &self.files {
            let bytes = tree.bytes_of(file.name.as_str()).unwrap_or_default();
            if bytes != file.text.as_bytes() {
                push_file(ended, file.name.as_str(), bytes)?;
            }
        }
        for name in ["rotor.plan", "rotor.gate"] {
            let bytes = tree.bytes_of(name).unwrap_or_default();
            if !bytes.is_empty() && !self.has_file(name) {
                push_file(ended, name, bytes)?;
            }
        }
        Ok(())
    }

    fn has_file(&self, name: &str) -> bool {
        self.files.iter().any(|file| file.name.as_str() == name)
    }
}

fn push_file(ended: &mut String, name: &str, bytes: &[u8]) -> Result<(), AllocError> {
    ended.push_str("file ")?;
    ended.push_str(name)?;
    ended.push_str("\n>")?;
    ended.push_str(text_of(bytes))?;
    ended.push_str("\n")
}

fn text_of(bytes: &[u8]) -> &str {
    str::from_utf8(bytes).unwrap_or("bytes that are no text")
}

fn sources(alloc: Global, files: &[File]) -> Result<Vec<SourceFile>, AllocError> {
    let mut found = Vec::new(alloc);
    for file in files {
        found.push(SourceFile {
            name: Text::from_string(file.name.clone()?),
            bytes: Bytes::from_vec(file.text.as_bytes().to_vec(alloc)?),
        })?;
    }
    Ok(found)
}
