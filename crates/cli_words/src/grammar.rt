//! The command line as it is declared to `clap`.
ghost use Rattle.std.specs.Prelude.{◌≡◌, false, IfOk};
ghost use Rattle.clap.specs.Words.{new_rule, rule_of};
ghost use Rattle.cli_words.specs.Grammar.{IsTold, batch_app, flag_rule, footprint_app, program_app, rename_app, rotor_app, sample_app, verify_app};

use clap::{Arg, ArgAction, Command};
use std::alloc::{AllocError, Global};

/// The program and its subcommands.
pub(crate) fn program<'a>(alloc: Global) -> Result<Command<'a>, AllocError>
    ensures { IfOk result (λ command. IsTold command rotor_app) }
{
    make_bare(alloc)
        .subcommand(Command::new(alloc, "check"))?
        .subcommand(footprint(alloc)?)?
        .subcommand(rename(alloc)?)?
        .subcommand(sample(alloc)?)?
        .subcommand(verify(alloc)?)?
        .subcommand(batch(alloc)?)?
        .subcommand(Command::new(alloc, "recover"))
}

/// The program with help and version off. Its words don't begin with its name.
fn make_bare<'a>(alloc: Global) -> Command<'a>
    ensures { IsTold result program_app }
{
    Command::new(alloc, "rotor")
        .no_binary_name(true)
        .disable_help_flag(true)
        .disable_help_subcommand(true)
        .disable_version_flag(true)
}

fn footprint<'a>(alloc: Global) -> Result<Command<'a>, AllocError>
    ensures { IfOk result (λ command. IsTold command footprint_app) }
{
    Command::new(alloc, "footprint").arg(value(alloc, "TARGET"))
}

fn rename<'a>(alloc: Global) -> Result<Command<'a>, AllocError>
    ensures { IfOk result (λ command. IsTold command rename_app) }
{
    Command::new(alloc, "rename")
        .arg(value(alloc, "TARGET"))?
        .arg(value(alloc, "NAME"))?
        .arg(flag(alloc, "write"))?
        .arg(flag(alloc, "safe"))?
        .arg(flag(alloc, "json"))
}

fn sample<'a>(alloc: Global) -> Result<Command<'a>, AllocError>
    ensures { IfOk result (λ command. IsTold command sample_app) }
{
    Command::new(alloc, "sample").arg(value(alloc, "N"))
}

fn verify<'a>(alloc: Global) -> Result<Command<'a>, AllocError>
    ensures { IfOk result (λ command. IsTold command verify_app) }
{
    Command::new(alloc, "verify")
        .arg(value(alloc, "OLDLIST"))?
        .arg(value(alloc, "NEWLIST"))
}

fn batch<'a>(alloc: Global) -> Result<Command<'a>, AllocError>
    ensures { IfOk result (λ command. IsTold command batch_app) }
{
    Command::new(alloc, "batch")
        .arg(value(alloc, "FILE"))?
        .arg(flag(alloc, "write"))
}

/// A positional argument.
fn value<'a>(alloc: Global, id: &'a str) -> Arg<'a>
    ensures rule { rule_of result ≡ new_rule id.entry.now }
    ensures local { result.global ≡ false }
{
    Arg::new(alloc, id)
}

/// A flag `--id`. Its uses are counted, so a repeat is seen.
fn flag<'a>(alloc: Global, id: &'a str) -> Arg<'a>
    ensures rule { rule_of result ≡ flag_rule id.entry.now }
    ensures local { result.global ≡ false }
{
    Arg::new(alloc, id).long(id).action(ArgAction::Count)
}
