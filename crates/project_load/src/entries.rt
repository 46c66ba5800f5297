//! The lines of a list, and the file of each source that they name.
ghost use Rattle.std.specs.Prelude.{◌≡◌, ◌≤◌, ℕ, None, IfOk, IfErr, IfSome, IfNone, OnOk, length, map, string_bytes, true, false};
ghost use Rattle.std.specs.Option.{option_copied};
ghost use Rattle.std.specs.BTreeSet.{contains_text};
ghost use Rattle.std.specs.FinMap.{empty, get, insert, keys};
ghost use Rattle.rotor_base.specs.Spaces.{IsWhole};
ghost use Rattle.rotor_base.specs.Limits.{max_file_bytes};
ghost use Rattle.rotor_base.specs.Lines.{feed_lines};
ghost use Rattle.tree_io.specs.Outside.{FileMap};
ghost use Rattle.project_load.specs.Listed.{Gives, is_listed_name};
ghost use Rattle.project_load.specs.Entries.{AreThere, IsFolder, IsLine, IsNoEntry, IsNoLine, IsUnread, given_by, table_of};

use crate::ListError;
use crate::names::is_project_file;
use rotor_base::{Memory, cut_space, feed_line, has_space};
use std::alloc::Global;
use std::collections::{BTreeMap, BTreeSet};

/// The names of the files in a folder.
pub(crate) type Folder = BTreeSet<String>;

/// The name of the file of each source.
#[derive(Drop)]
pub(crate) struct Entries {
    files: BTreeMap<String, String>,
}

impl Entries {
    /// No source.
    fn new(alloc: Global) -> Self
        ensures { table_of result ≡ empty }
    {
        Entries {
            files: BTreeMap::new(alloc),
        }
    }

    /// The name of the file of a source, if the source has one.
    pub(crate) fn file_of(&self, source: &str) -> Option<&str>
        ensures { option_copied result ≡ get (table_of self.now) source.now }
    {
        match self.files.get(source) {
            None => None,
            Some(file) => Some(file.as_str()),
        }
    }

    /// Sets the file of a source.
    fn insert(&mut self, alloc: Global, source: &str, file: &str) -> Result<(), Memory>
        ensures { OnOk result (table_of self.new ≡ insert (table_of self.old) source.now file.now) }
    {
        let source = String::from_str(alloc, source)?;
        let file = String::from_str(alloc, file)?;
        self.files.insert(source, file)?;
        Ok(())
    }

    /// The sources, in byte order.
    pub(crate) fn sources(&self, alloc: Global) -> Result<Vec<String>, Memory>
        ensures { IfOk result (λ sources. map string_bytes sources.items ≡ keys (table_of self.now)) }
    {
        let mut sources = Vec::new(alloc);
        for source in self.files.keys() {
            sources.push(String::from_str(alloc, source.as_str())?)?;
        }
        Ok(sources)
    }
}

/// The entries of a list, one for each line.
///
/// # Errors
///
/// `BadList` with the number of the first line that is no entry or repeats a source. `Load` with `Memory`.
pub(crate) fn read_entries(
    alloc: Global,
    folder: &Folder,
    bytes: &[u8],
) -> Result<Entries, ListError>
    requires { length bytes.now ≤ max_file_bytes }
    ensures gives { IfOk result (λ list. (held : FileMap) → IsFolder held folder.now → Gives held (feed_lines bytes.now) empty (given_by held (table_of list))) }
    ensures there { IfOk result (λ list. AreThere folder.now (table_of list)) }
    ensures unread { IfErr result (IsUnread folder.now (feed_lines bytes.now)) }
{
    let mut entries = Entries::new(alloc);
    let mut before: u32 = 0;
    let mut rest = bytes;
    while let Some((line, behind)) = feed_line(rest) {
        let Some((source, file)) = new_entry(folder, &entries, line) else {
            return Err(ListError::BadList { line: before + 1 });
        };
        entries.insert(alloc, source, file)?;
        before += 1;
        rest = behind;
    }
    Ok(entries)
}

/// The source and the file of a line, if it is an entry and has a new source.
fn new_entry<'a>(folder: &Folder, entries: &Entries, line: &'a [u8]) -> Option<(&'a str, &'a str)>
    ensures entry { IfSome result (λ words. IsLine folder.now line.now words.0.now words.1.now) }
    ensures fresh { IfSome result (λ words. get (table_of entries.now) words.0.now ≡ None) }
    ensures none { IfNone result (IsNoEntry folder.now (table_of entries.now) line.now) }
{
    let (source, file) = entry_in(folder, line)?;
    if entries.file_of(source).is_some() {
        return None;
    }
    Some((source, file))
}

/// The source and the file of a line, if it is an entry.
fn entry_in<'a>(folder: &Folder, line: &'a [u8]) -> Option<(&'a str, &'a str)>
    ensures entry { IfSome result (λ words. IsLine folder.now line.now words.0.now words.1.now) }
    ensures none { IfNone result (IsNoLine folder.now line.now) }
{
    let (source, file) = cut_space(line)?;
    let source = source_in(source)?;
    let file = file_in(folder, file)?;
    Some((source, file))
}

/// The source that some bytes name, if they name one or the manifest.
fn source_in(bytes: &[u8]) -> Option<&str>
    ensures same { IfSome result (λ source. source.now ≡ bytes.now) }
    ensures named { IfSome result (λ source. is_listed_name bytes.now ≡ true) }
    ensures none { IfNone result (is_listed_name bytes.now ≡ false) }
{
    let Ok(source) = std::str::from_utf8(bytes) else {
        return None;
    };
    if !is_project_file(source) {
        return None;
    }
    Some(source)
}

/// The file that some bytes name, if they have no space and the folder has the file.
fn file_in<'a>(folder: &Folder, bytes: &'a [u8]) -> Option<&'a str>
    ensures same { IfSome result (λ file. file.now ≡ bytes.now) }
    ensures whole { IfSome result (λ file. IsWhole bytes.now) }
    ensures listed { IfSome result (λ file. contains_text folder.now bytes.now ≡ true) }
    ensures none { IfNone result (IsWhole bytes.now → contains_text folder.now bytes.now ≡ true → ⊥) }
{
    if has_space(bytes) {
        return None;
    }
    let Ok(file) = std::str::from_utf8(bytes) else {
        return None;
    };
    if !folder.contains(file) {
        return None;
    }
    Some(file)
}
