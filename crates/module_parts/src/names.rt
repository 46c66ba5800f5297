//! Names of modules, and the parts behind `external` and `open`.

ghost use Rattle.std.specs.Prelude.{◌≤◌, ◌∷◌, [], length, Some};
ghost use Rattle.rotor_base.specs.Limits.{max_file_bytes};
ghost use Rattle.ml_trees.specs.View.{view_word, view_words, view_name, view_run, view_path, view_bang, view_module_name};
ghost use Rattle.token_reading.specs.Gives.{Gives};
ghost use Rattle.token_reading.specs.Tokens.{from};
ghost use Rattle.token_reading.specs.Steps.{many, always};
ghost use Rattle.module_reading.specs.ModReading as r;
ghost use Rattle.module_parts.specs.Parts as p;

use expr_parts::{bang, path};
use ml_trees::{External, Fixed, ModuleName, Path, Run, ValueName, Word};
use rotor_base::Class;
use std::alloc::Global;
use token_reading::{
    Kind, ReadError, TokenTable, expect, expect_at, fit, kind_at, number, type_run, value_name,
    word,
};

/// The name of a module, or `_`. The errors are `Syntax` and `Memory`.
pub fn module_name(
    alloc: Global,
    tokens: &TokenTable<'_>,
    at: usize,
) -> Result<(ModuleName, usize), ReadError>
    requires { length tokens.now ≤ max_file_bytes }
    ensures { Gives (λ x. (view_module_name x.0, from tokens.now x.1)) result (r.module_name (from tokens.now at)) }
{
    match kind_at(tokens, at) {
        Kind::Word(Class::Upper) => Ok((
            ModuleName::Upper(word(alloc, tokens, Class::Upper, at)?),
            at + 1,
        )),
        Kind::Fixed(Fixed::Underscore) => Ok((ModuleName::Any { at: number(at) }, at + 1)),
        _ => Err(ReadError::Syntax),
    }
}

/// A text in quotes.
fn text_word(alloc: Global, tokens: &TokenTable<'_>, at: usize) -> Result<(Word, usize), ReadError>
    requires { length tokens.now ≤ max_file_bytes }
    ensures { Gives (λ x. (view_word x.0, from tokens.now x.1)) result (r.text_word (from tokens.now at)) }
{
    match kind_at(tokens, at) {
        Kind::Word(Class::Text) => Ok((word(alloc, tokens, Class::Text, at)?, at + 1)),
        _ => Err(ReadError::Syntax),
    }
}

/// Texts, at most so many.
fn more_texts(
    alloc: Global,
    tokens: &TokenTable<'_>,
    depth: usize,
    at: usize,
) -> Result<(Vec<Word>, usize), ReadError>
    requires { length tokens.now ≤ max_file_bytes }
    ensures { Gives (λ x. (view_words x.0.items, from tokens.now x.1)) result (Some (many [] ◌∷◌ always r.text_word depth (from tokens.now at))) }
{
    let mut found = Vec::new(alloc);
    let mut at = at;
    for _turn in 0..depth {
        match text_word(alloc, tokens, at) {
            Ok((next, after)) => {
                found.push(next)?;
                at = after;
            }
            Err(ReadError::Syntax) => return Ok((fit(found), at)),
            Err(ReadError::Memory) => return Err(ReadError::Memory),
        }
    }
    Ok((fit(found), at))
}

/// After the texts of an `external`, of which there is one at least.
#[tactic(auto, using(crate::proofs::Rows::externals))]
fn external_end(
    name: ValueName,
    run: Run,
    equals: u32,
    texts: Vec<Word>,
    at: usize,
    tokens: &TokenTable<'_>,
) -> Result<(External, usize), ReadError>
    ensures { Gives (λ x. (p.external_of x.0, from tokens.now x.1)) result (r.external_end (view_name name) (view_run run) equals (view_words texts.items, from tokens.now at)) }
{
    if texts.len() == 0 {
        return Err(ReadError::Syntax);
    }
    Ok((
        External {
            name,
            run,
            equals,
            texts,
        },
        at,
    ))
}

/// After `external`: a name, its type, `=` and texts. The errors are `Syntax` and `Memory`.
#[tactic(auto, unfolding(module_reading::specs::ModReading::external_rest))]
pub fn external(
    alloc: Global,
    tokens: &TokenTable<'_>,
    depth: usize,
    at: usize,
) -> Result<(External, usize), ReadError>
    requires { length tokens.now ≤ max_file_bytes }
    ensures { Gives (λ x. (p.external_of x.0, from tokens.now x.1)) result (r.external_rest depth (from tokens.now at)) }
{
    let (name, at) = value_name(alloc, tokens, at)?;
    let at = expect(tokens, Fixed::Colon, at)?;
    let (run, at) = type_run(alloc, tokens, at)?;
    let (equals, at) = expect_at(tokens, Fixed::Equals, at)?;
    let (texts, at) = more_texts(alloc, tokens, depth, at)?;
    external_end(name, run, equals, texts, at, tokens)
}

/// After `open`: a `!` or none, and the path of a module. The errors are `Syntax` and `Memory`.
#[tactic(auto, unfolding(module_reading::specs::ModReading::open_rest))]
pub fn read_opened(
    alloc: Global,
    tokens: &TokenTable<'_>,
    depth: usize,
    at: usize,
) -> Result<((Option<Word>, Path), usize), ReadError>
    requires { length tokens.now ≤ max_file_bytes }
    ensures { Gives (λ x. ((view_bang x.0.0, view_path x.0.1), from tokens.now x.1)) result (r.open_rest depth (from tokens.now at)) }
{
    let (bang, at) = bang(alloc, tokens, at)?;
    let (path, at) = path(alloc, tokens, depth, at)?;
    Ok(((bang, path), at))
}
