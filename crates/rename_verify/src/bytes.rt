//! Where the bytes of two projects part.

ghost use Rattle.std.specs.Prelude.{◌≡◌, ◌≤◌, All, IfSome, length, map};
ghost use Rattle.rotor_base.specs.Limits.{max_file_bytes, max_sources};
ghost use Rattle.rename_verify.specs.Scans.{IsPart, IsSpot};

use rotor_base::SourceFile;

/// A byte of a source: the source's number, and the byte's offset.
#[derive(Clone, Copy, Debug)]
pub struct Spot {
    pub file: u32,
    pub offset: u32,
}

/// The first source whose bytes differ from those of a list, and the least offset at which they differ or one ends.
pub fn first_spot(olds: &[Vec<u8>], news: &[SourceFile]) -> Option<Spot>
    requires same { length olds.now ≡ length news.now }
    requires few { length news.now ≤ max_sources }
    requires small { All (λ file. length file.bytes ≤ max_file_bytes) news.now }
    ensures { IsSpot (map (λ bytes. bytes.items) olds.now) (map (λ file. file.bytes) news.now) result }
{
    for at in 0..news.len() {
        if let Some(offset) = part_of(olds[at].as_slice(), news[at].bytes.as_slice()) {
            return Some(Spot {
                file: at as u32,
                offset: offset as u32,
            });
        }
    }
    None
}

/// The least offset at which two lists of bytes differ or one ends.
fn part_of(old: &[u8], new: &[u8]) -> Option<usize>
    ensures part { IsPart old.now new.now result }
    ensures within { IfSome result (λ offset. offset ≤ length new.now) }
{
    let count = old.len().min(new.len());
    for at in 0..count {
        if old[at] != new[at] {
            return Some(at);
        }
    }
    if old.len() == new.len() {
        None
    } else {
        Some(count)
    }
}
