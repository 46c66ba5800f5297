//! What `clap` read of the words.
ghost use Rattle.std.specs.Prelude.{◌≡◌, option_map, option_and_then};
ghost use Rattle.clap.specs.Words.{first_of, found_of, rows_of, subcommand_rows_of};
ghost use Rattle.cli_words.specs.Grammar.{flags_in, heard, is_used};
ghost use Rattle.cli_words.specs.Written.{in_words};

use crate::asked::{Asked, Flags};
use clap::ArgMatches;

/// The form that was read, if a subcommand was read.
pub(crate) fn heard_in<'a>(matches: &ArgMatches<'a>) -> Option<Asked<&'a str>>
    ensures { option_map in_words result ≡ option_and_then heard (subcommand_rows_of matches.now) }
{
    let (name, values) = find_subcommand(matches)?;
    form_in(name, values)
}

/// The subcommand that was read.
fn find_subcommand<'a, 'b>(matches: &'b ArgMatches<'a>) -> Option<(&'a str, &'b ArgMatches<'a>)>
    ensures { option_map (λ p. (p.0.now, rows_of (found_of p.1.now))) result ≡ subcommand_rows_of matches.now }
{
    matches.subcommand()
}

/// The form of a subcommand with these matches.
fn form_in<'a>(name: &str, values: &ArgMatches<'a>) -> Option<Asked<&'a str>>
    ensures { option_map in_words result ≡ heard (name.now, rows_of (found_of values.now)) }
{
    match name {
        "check" => Some(Asked::Check),
        "footprint" => {
            let target = text_of(values, "TARGET")?;
            Some(Asked::Footprint { target })
        }
        "rename" => {
            let target = text_of(values, "TARGET")?;
            let name = text_of(values, "NAME")?;
            let flags = flags_of(values);
            Some(Asked::Rename {
                target,
                name,
                flags,
            })
        }
        "sample" => {
            let units = text_of(values, "N")?;
            Some(Asked::Sample { units })
        }
        "verify" => {
            let old = text_of(values, "OLDLIST")?;
            let new = text_of(values, "NEWLIST")?;
            Some(Asked::Verify { old, new })
        }
        "batch" => {
            let file = text_of(values, "FILE")?;
            let write = is_given(values, "write");
            Some(Asked::Batch { file, write })
        }
        "recover" => Some(Asked::Recover),
        _ => None,
    }
}

/// The flags of `rename`.
fn flags_of(values: &ArgMatches) -> Flags
    ensures { result ≡ flags_in (rows_of (found_of values.now)) }
{
    Flags {
        write: is_given(values, "write"),
        safe: is_given(values, "safe"),
        json: is_given(values, "json"),
    }
}

/// The value of an argument.
fn text_of<'a>(values: &ArgMatches<'a>, id: &str) -> Option<&'a str>
    ensures { option_map (λ text. text.now) result ≡ first_of id.now (rows_of (found_of values.now)) }
{
    values.get_str(id)
}

/// Whether a flag was used.
fn is_given(values: &ArgMatches, id: &str) -> bool
    ensures { result ≡ is_used (rows_of (found_of values.now)) id.now }
{
    values.get_count(id) != 0
}
