//! The reply to the words, before anything is written.
ghost use Rattle.std.specs.Prelude.{◌≡◌, IfOk, IfSome, IsErrOf, None, Some, map, string_bytes};
ghost use Rattle.tree_io.specs.Outside.{HasCause, StaysSteady};
ghost use Rattle.tree_io.specs.Writes.{HasRoom};
ghost use Rattle.cli_words.specs.Words.{command_of};
ghost use Rattle.command_replies.specs.Said.{AsksNothing, IsCommandReply, IsReply, Says, SaysAlone};

use crate::batch::reply_to_batch;
use crate::check::reply_to_check;
use crate::recover::reply_to_recover;
use crate::rename::reply_to_rename;
use crate::reply::{Reply, usage};
use crate::sample::reply_to_sample;
use crate::shape::reply_to_shape;
use crate::status::Status;
use crate::verify::reply_to_verify;
use crate::writing::Writing;
use cli_words::{Command, WordsError, read_words};
use rotor_base::Memory;
use std::alloc::Global;
use tree_io::{Tree, TreeError};

/// The answer to the words. The call takes all memory, the folder's room for each changed file too. For words of no
/// form and for `sample` it does not call the folder.
pub fn decide<T: Tree>(alloc: Global, words: &[String], tree: &mut T) -> Result<Reply, TreeError>
    ensures kind { IfOk result (λ reply. IsReply reply.status reply.writes) }
    ensures said { IfOk result (λ reply. IfSome (T.content tree.old) (λ files. Says (command_of (map string_bytes words.now)) files reply)) }
    ensures said_alone { IfOk result (λ reply. AsksNothing (command_of (map string_bytes words.now)) → SaysAlone (command_of (map string_bytes words.now)) reply) }
    ensures usage { IfOk result (λ reply. reply.status ≡ Status.Usage → command_of (map string_bytes words.now) ≡ None) }
    ensures alone { AsksNothing (command_of (map string_bytes words.now)) → tree.new ≡ tree.old }
    ensures read { IsErrOf result TreeError.Failed → AsksNothing (command_of (map string_bytes words.now)) → ⊥ }
    ensures content { T.content tree.new ≡ T.content tree.old }
    ensures room { IfOk result (λ reply. HasRoom (T.room_for tree.new) reply.writes) }
    ensures cause { HasCause (T.faults tree.old) (T.faults tree.new) result }
    ensures steady { StaysSteady (T.is_steady tree.old) (T.is_steady tree.new) (IsErrOf result TreeError.Failed) }
{
    match command_in(alloc, words)? {
        None => Ok(usage(alloc)?),
        Some(command) => reply_to(alloc, &command, tree),
    }
}

/// The command of the words, if they have a form.
fn command_in(alloc: Global, words: &[String]) -> Result<Option<Command>, Memory>
    ensures { IfOk result (λ asked. asked ≡ command_of (map string_bytes words.now)) }
{
    match read_words(alloc, words) {
        Ok(command) => Ok(Some(command)),
        Err(WordsError::Usage) => Ok(None),
        Err(WordsError::Memory) => Err(Memory),
    }
}

/// The reply to a command, with its room. Only for `sample` the call does not call the folder.
fn reply_to<T: Tree>(alloc: Global, command: &Command, tree: &mut T) -> Result<Reply, TreeError>
    ensures kind { IfOk result IsCommandReply }
    ensures said { IfOk result (λ reply. IfSome (T.content tree.old) (λ held. Says (Some command.now) held reply)) }
    ensures said_alone { IfOk result (λ reply. AsksNothing (Some command.now) → SaysAlone (Some command.now) reply) }
    ensures alone { AsksNothing (Some command.now) → tree.new ≡ tree.old }
    ensures read { IsErrOf result TreeError.Failed → AsksNothing (Some command.now) → ⊥ }
    ensures content { T.content tree.new ≡ T.content tree.old }
    ensures room { IfOk result (λ reply. HasRoom (T.room_for tree.new) reply.writes) }
    ensures cause { HasCause (T.faults tree.old) (T.faults tree.new) result }
    ensures steady { StaysSteady (T.is_steady tree.old) (T.is_steady tree.new) (IsErrOf result TreeError.Failed) }
{
    match command {
        Command::Check => reply_to_check(alloc, tree),
        Command::Shape(target) => reply_to_shape(alloc, target, tree),
        Command::Rename {
            target,
            name,
            write,
            safe,
            json,
        } => {
            let writing = Writing::from_flags(*write, *safe);
            reply_to_rename(alloc, target, name, writing, *json, tree)
        }
        Command::Sample(units) => Ok(reply_to_sample(alloc, *units)?),
        Command::Verify { old, new } => reply_to_verify(alloc, old.as_str(), new.as_str(), tree),
        Command::Batch { file, write } => reply_to_batch(alloc, file.as_str(), *write, tree),
        Command::Recover => reply_to_recover(alloc, tree),
    }
}
