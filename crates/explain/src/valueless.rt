//! The sentence of a token that declares and uses no value of the folder.
ghost use Rattle.std.specs.Prelude.{◌≡◌, IfOk};
ghost use Rattle.explain.specs.Valueless.{valueless_text as valueless_text_of};

use messages::join_words;
use rotor_base::{Memory, Row};
use std::alloc::Global;
use value_at::ValueAt;

/// The sentence of a token that declares and uses no value of the folder, by its word. The one error is want of memory.
pub fn valueless_text(alloc: Global, word: &[u8], found: ValueAt) -> Result<Row<u8>, Memory>
    ensures { IfOk result (λ text. text ≡ valueless_text_of word.now found) }
{
    match found {
        ValueAt::NoValue => Ok(Row::from_vec(b"no value stands here".to_vec(alloc)?)),
        ValueAt::Outside | ValueAt::Blurred | ValueAt::Value(_) => join_words(
            alloc,
            &[b"`", word, b"` is no value that this folder declares"],
        ),
    }
}
