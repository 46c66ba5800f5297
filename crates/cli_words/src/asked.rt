//! The forms of the words, and a form written out again.
ghost use Rattle.std.specs.Prelude.{◌≡◌, map, string_bytes};
ghost use Rattle.cli_words.specs.Words.{is_value as is_value_word};
ghost use Rattle.cli_words.specs.Written.{are_flags, in_words, is_renaming as is_renaming_of, is_written as is_written_in, same_words};

/// The form of the words, with the values as they are written.
#[derive(Clone, Copy, Debug)]
pub(crate) enum Asked<T> {
    Check,
    Footprint { target: T },
    Rename { target: T, name: T, flags: Flags },
    Sample { units: T },
    Verify { old: T, new: T },
    Batch { file: T, write: bool },
    Recover,
}

/// The flags of `rename`.
#[derive(Clone, Copy, Debug)]
pub(crate) struct Flags {
    pub write: bool,
    pub safe: bool,
    pub json: bool,
}

/// Whether the words are this form, written out, with the flags in either order.
pub(crate) fn is_written(asked: Asked<&str>, words: &[String]) -> bool
    ensures { result ≡ is_written_in (in_words asked.entry) (map string_bytes words.now) }
{
    match asked {
        Asked::Check => is_same(words, &["check"]),
        Asked::Footprint { target } => is_value(target) && is_same(words, &["footprint", target]),
        Asked::Rename {
            target,
            name,
            flags,
        } => is_renaming(target, name, flags, words),
        Asked::Sample { units } => is_value(units) && is_same(words, &["sample", units]),
        Asked::Verify { old, new } => {
            is_value(old) && is_value(new) && is_same(words, &["verify", old, new])
        }
        Asked::Batch { file, write: false } => is_value(file) && is_same(words, &["batch", file]),
        Asked::Batch { file, write: true } => {
            is_value(file) && is_same(words, &["batch", file, "--write"])
        }
        Asked::Recover => is_same(words, &["recover"]),
    }
}

/// Whether the words are `rename TARGET NAME` and these flags.
fn is_renaming(target: &str, name: &str, flags: Flags, words: &[String]) -> bool
    ensures { result ≡ is_renaming_of target.now name.now flags (map string_bytes words.now) }
{
    let [form, first, second, rest @ ..] = words else {
        return false;
    };
    let values = is_value(target) && is_value(name);
    let front = form.as_str() == "rename" && first.as_str() == target && second.as_str() == name;
    values && front && are_written(flags, rest)
}

/// Whether the words are these flags, in either order. `--write` and `--safe` do not go together.
fn are_written(flags: Flags, words: &[String]) -> bool
    ensures { result ≡ are_flags flags.write flags.safe flags.json (map string_bytes words.now) }
{
    match (flags.write, flags.safe, flags.json) {
        (true, true, _) => false,
        (false, false, false) => is_same(words, &[]),
        (false, false, true) => is_same(words, &["--json"]),
        (true, false, false) => is_same(words, &["--write"]),
        (false, true, false) => is_same(words, &["--safe"]),
        (true, false, true) => {
            is_same(words, &["--write", "--json"]) || is_same(words, &["--json", "--write"])
        }
        (false, true, true) => {
            is_same(words, &["--safe", "--json"]) || is_same(words, &["--json", "--safe"])
        }
    }
}

/// Whether the words are these texts.
fn is_same(words: &[String], texts: &[&str]) -> bool
    ensures { result ≡ same_words (map string_bytes words.now) (map (λ text. text.now) texts.now) }
{
    match words {
        [] => texts.is_empty(),
        [word, words @ ..] => match texts {
            [] => false,
            [text, texts @ ..] => word.as_str() == *text && is_same(words, texts),
        },
    }
}

/// Whether a word may be a value: it is not empty, and does not begin with `-`.
fn is_value(word: &str) -> bool
    ensures { result ≡ is_value_word word.now }
{
    match word.as_bytes() {
        [] => false,
        [first, ..] => *first != b'-',
    }
}
