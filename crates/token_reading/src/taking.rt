//! Words and paths taken out of a tree that is built anew. The tree keeps an empty one, and is let go.

ghost use Rattle.std.specs.Prelude.{◌≡◌};

use ml_trees::{Path, ValueName, Word};
use rotor_base::{Class, Name};
use std::alloc::Global;
use std::mem::replace;

/// Takes a path out of a tree.
pub fn take_path(alloc: Global, path: &mut Path) -> Path
    ensures { result ≡ path.old }
{
    let words = Vec::new(alloc);
    replace(path, Path { words })
}

/// Takes a word out of a tree.
pub fn take_word(word: &mut Word) -> Word
    ensures { result ≡ word.old }
{
    replace(word, no_word())
}

/// Takes the name of a value out of a tree.
pub fn take_name(name: &mut ValueName) -> ValueName
    ensures { result ≡ name.old }
{
    replace(name, ValueName::Lower(no_word()))
}

/// A word without bytes.
fn no_word() -> Word {
    Word {
        token: 0,
        class: Class::Lower,
        name: Name::make_empty(),
    }
}
