//! Outcomes, as the rows give them.

use crate::reports::refusal::{read_load_error, read_place, read_place_or_none, read_refusal};
use rotor_base::{
    Counts, Files, Foot, FootReport, Memory, Name, Outcome, Place, Renamed, Row, SampleReport,
    make_files,
};
use row_pieces::read_number;
use std::alloc::Global;

/// The outcome of some pieces, if they are one.
pub fn read_outcome(alloc: Global, pieces: &[&str]) -> Result<Option<Outcome>, Memory> {
    let outcome = match pieces {
        ["badwords"] => Outcome::BadWords,
        ["checked", files, units, declarations, references, links] => Outcome::Checked(Counts {
            files: read_long(files),
            units: read_long(units),
            declarations: read_long(declarations),
            references: read_long(references),
            links: read_long(links),
        }),
        ["sampled", units, footprint, references, undone] => Outcome::Sampled(SampleReport {
            units: read_number(units),
            footprint: read_long(footprint),
            references: read_long(references),
            undone: *undone == "undone",
        }),
        ["shown", old, references, outside, places @ ..] => Outcome::Shown(FootReport {
            old: Name::new(alloc, old.as_bytes())?,
            foot: make_foot(alloc, places, read_place_or_none(outside))?,
            refs: read_long(references),
        }),
        ["done", old, new, references, undo, places @ ..] => {
            Outcome::Done(make_renamed(alloc, old, new, references, undo, places)?)
        }
        pieces => return read_refused(alloc, pieces),
    };
    Ok(Some(outcome))
}

fn read_refused(alloc: Global, pieces: &[&str]) -> Result<Option<Outcome>, Memory> {
    if let Some(error) = read_load_error(alloc, pieces)? {
        return Ok(Some(Outcome::NotLoaded(error)));
    }
    match read_refusal(alloc, pieces)? {
        Some(why) => Ok(Some(Outcome::Refused(why))),
        None => Ok(None),
    }
}

/// A renaming. Each of its declarations is in a file of its own.
fn make_renamed(
    alloc: Global,
    old: &str,
    new: &str,
    references: &str,
    undo: &str,
    places: &[&str],
) -> Result<Renamed, Memory> {
    let mut changed = Row::new(alloc);
    for text in places {
        changed.push(read_place(text).file)?;
    }
    Ok(Renamed {
        files: no_files(alloc)?,
        changed,
        old: Name::new(alloc, old.as_bytes())?,
        new: Name::new(alloc, new.as_bytes())?,
        foot: make_foot(alloc, places, None)?,
        refs: read_long(references),
        undo_at: read_place(undo),
    })
}

fn make_foot(alloc: Global, places: &[&str], outside: Option<Place>) -> Result<Foot, Memory> {
    let mut decls = Row::new(alloc);
    for text in places {
        decls.push(read_place(text))?;
    }
    Ok(Foot { decls, outside })
}

/// A project of no files.
fn no_files(alloc: Global) -> Result<Files, Memory> {
    match make_files(alloc, Vec::new(alloc), None) {
        Ok(files) => Ok(files),
        Err(_) => Err(Memory),
    }
}

pub fn read_long(text: &str) -> u64 {
    text.parse::<u64>().unwrap_or(0)
}
