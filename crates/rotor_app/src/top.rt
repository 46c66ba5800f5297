//! The program: the words, the folder, the writes and the report.
ghost use Rattle.std.specs.Prelude.{◌≡◌, ◌⊎◌, [], None, map, string_bytes, length};
ghost use Rattle.std.specs.Option.{ForSome};
ghost use Rattle.tree_io.specs.Outside.{Rose};
ghost use Rattle.cli_words.specs.Words.{command_of};
ghost use Rattle.command_replies.specs.Said.{AsksNothing, SomeReply};
ghost use Rattle.command_replies.specs.Done.{IsDoneIfAccepted, IsDoneSo, IsRecoverable};
ghost use Rattle.command_replies.specs.Table.{Ending, seen, IsComplete, Carried, Put, IsQuiet, IsAsSaid, IsFault, TreeStopped, SinkStopped, IsRefusal, AnsweredAlone, CutAlone};
ghost use Rattle.tree_io.specs.Writes.{HasRoom};

use command_replies::{Reply, Status, decide, recall_laws};
use std::alloc::Global;
use tree_io::{Sink, Tree, TreeError, write_all};

/// Runs the command of the words over a folder and an output, and returns how it ended.
///
/// The words are `check`, `footprint TARGET`, `sample N`, `recover`, `verify OLDLIST NEWLIST`, `batch FILE` with
/// `--write` or none, or `rename TARGET NAME` with `--write` or `--safe`, with `--json`, both or none. `rename --write`
/// writes the changed sources and puts the report; or it leaves the folder as it is, and puts the refusal. `rename
/// --safe` first writes a plan, from which `recover` finishes the writes after a stop. The call takes all memory, the
/// folder's room too, before the first write and the put.
pub fn rotor<T: Tree, S: Sink>(alloc: Global, words: &[String], tree: &mut T, out: &mut S) -> Status
    // If no count of faults rose and there was memory, there is a reply that is said, and status, files and text are
    // its.
    ensures answer { ForSome (T.content tree.old) (λ files.
        IsQuiet (seen (T.faults tree.old) (S.faults out.old) (T.content tree.old) (S.taken out.old))
        (seen (T.faults tree.new) (S.faults out.new) (T.content tree.new) (S.taken out.new))
        → (result ≡ Status.Memory → ⊥)
        → SomeReply (command_of (map string_bytes words.now)) files (λ reply. IsAsSaid reply files
        (seen (T.faults tree.old) (S.faults out.old) (T.content tree.old) (S.taken out.old))
        (seen (T.faults tree.new) (S.faults out.new) (T.content tree.new) (S.taken out.new)) result)) }

    // If the words need nothing of the folder, it is not called, and the words alone decide the reply.
    ensures alone { AsksNothing (command_of (map string_bytes words.now)) → tree.new ≡ tree.old }
    ensures alone_said { AsksNothing (command_of (map string_bytes words.now)) → (Rose (S.faults out.old) (S.faults out.new) → ⊥) → (result ≡ Status.Memory → ⊥)
        → AnsweredAlone (command_of (map string_bytes words.now))
        (seen (T.faults tree.old) (S.faults out.old) (T.content tree.old) (S.taken out.old))
        (seen (T.faults tree.new) (S.faults out.new) (T.content tree.new) (S.taken out.new)) result }
    ensures alone_cut { AsksNothing (command_of (map string_bytes words.now)) → (result ≡ Status.SinkFault) → CutAlone (command_of (map string_bytes words.now))
        (seen (T.faults tree.old) (S.faults out.old) (T.content tree.old) (S.taken out.old))
        (seen (T.faults tree.new) (S.faults out.new) (T.content tree.new) (S.taken out.new)) }
    ensures usage { (result ≡ Status.Usage) → (command_of (map string_bytes words.now) ≡ None) }

    // The call returns a fault only if its count rose, and passes over none.
    ensures tree_fault { IsFault Status.TreeFault (T.faults tree.old) (T.faults tree.new) result }
    ensures sink_fault { IsFault Status.SinkFault (S.faults out.old) (S.faults out.new) result }

    // What a fault leaves.
    ensures tree_stopped { (result ≡ Status.TreeFault) → ForSome (T.content tree.old) (λ files. TreeStopped (command_of (map string_bytes words.now)) files (T.content tree.new)) }
    ensures sink_stopped { (result ≡ Status.SinkFault) → ForSome (T.content tree.old) (λ files. SomeReply (command_of (map string_bytes words.now)) files (λ reply.
        SinkStopped reply files
        (seen (T.faults tree.old) (S.faults out.old) (T.content tree.old) (S.taken out.old))
        (seen (T.faults tree.new) (S.faults out.new) (T.content tree.new) (S.taken out.new)))) }

    // If a write of `--safe` fails, the old project or the new one is recovered, whole. If a write of `recover` fails,
    // a later one recovers the same.
    ensures recoverable { (result ≡ Status.TreeFault) → ForSome (T.content tree.old) (λ held. ForSome (T.content tree.new) (IsRecoverable (command_of (map string_bytes words.now)) held)) }

    // Refusals and want of memory leave the folder; a folder that failed and want of memory put nothing.
    ensures unchanged { IsRefusal result → T.content tree.new ≡ T.content tree.old }
    ensures quiet { (result ≡ Status.TreeFault) ⊎ (result ≡ Status.Memory) → out.new ≡ out.old }

    // A renaming that is done is valid, keeps facts and runs, and changes a least footprint. The files and the text are
    // those of its reply, and the words of its undo give the old files back. A footprint that is shown is a least one.
    // The steps back of a batch that is done give the old files. A recovery that is done leaves what is recovered. A
    // `verify` that is done says yes: the second project is a valid respelling of the first, which keeps the runs.
    ensures renamed { (result ≡ Status.Done) → ForSome (T.content tree.old) (λ files. SomeReply (command_of (map string_bytes words.now)) files (λ reply.
        IsAsSaid reply files
        (seen (T.faults tree.old) (S.faults out.old) (T.content tree.old) (S.taken out.old))
        (seen (T.faults tree.new) (S.faults out.new) (T.content tree.new) (S.taken out.new)) result
        × IsDoneSo (command_of (map string_bytes words.now)) files reply)) }

    // If the answer of another command than `verify` is an Ok and the gate does not forbid its writes, the status is
    // Done. If `check` accepts the first version and the second is a valid respelling of it, `verify` is done.
    ensures accepted { ForSome (T.content tree.old) (λ files.
        IsQuiet (seen (T.faults tree.old) (S.faults out.old) (T.content tree.old) (S.taken out.old))
        (seen (T.faults tree.new) (S.faults out.new) (T.content tree.new) (S.taken out.new))
        → (result ≡ Status.Memory → ⊥) → IsDoneIfAccepted (command_of (map string_bytes words.now)) files result) }

    // Over a folder and an output that do not fail, the status is the one that is said, or there was no memory.
    ensures complete { T.is_steady tree.old → ForSome (T.content tree.old) (λ files. IsComplete (command_of (map string_bytes words.now)) files (S.accepts out.old) result) }
    ensures steady { T.is_steady tree.old → T.is_steady tree.new }
{
    recall_laws();
    conclude(alloc, words, tree, out)
}

/// Runs the command of the words over a folder and an output.
fn conclude<T: Tree, S: Sink>(alloc: Global, words: &[String], tree: &mut T, out: &mut S) -> Status
    ensures ending { Ending (command_of (map string_bytes words.now))
        (seen (T.faults tree.old) (S.faults out.old) (T.content tree.old) (S.taken out.old))
        (seen (T.faults tree.new) (S.faults out.new) (T.content tree.new) (S.taken out.new))
        (tree.new ≡ tree.old) (out.new ≡ out.old) result }
    ensures complete { T.is_steady tree.old → ForSome (T.content tree.old) (λ files. IsComplete (command_of (map string_bytes words.now)) files (S.accepts out.old) result) }
    ensures steady { T.is_steady tree.old → T.is_steady tree.new }
{
    match decide(alloc, words, tree) {
        Err(TreeError::Failed) => Status::TreeFault,
        Err(TreeError::Memory) => Status::Memory,
        Ok(reply) => carry_out(&reply, tree, out),
    }
}

/// Writes what a reply says, and puts its text.
fn carry_out<T: Tree, S: Sink>(reply: &Reply, tree: &mut T, out: &mut S) -> Status
    requires { HasRoom (T.room_for tree.old) reply.now.writes }
    ensures carried { Carried reply.now
        (seen (T.faults tree.old) (S.faults out.old) (T.content tree.old) (S.taken out.old))
        (seen (T.faults tree.new) (S.faults out.new) (T.content tree.new) (S.taken out.new)) (out.new ≡ out.old) result }
    ensures none { reply.now.writes ≡ [] → tree.new ≡ tree.old }
    ensures complete { T.is_steady tree.old → S.accepts out.old (length reply.now.text) → result ≡ reply.now.status }
    ensures steady { T.is_steady tree.old → T.is_steady tree.new }
{
    match write_all(reply.writes.as_slice(), tree) {
        Err(_) => Status::TreeFault,
        Ok(()) => put_text(reply.text.as_slice(), reply.status, out),
    }
}

/// Puts a text, and returns the status if the put does not fail.
fn put_text<S: Sink>(text: &[u8], status: Status, out: &mut S) -> Status
    ensures put { Put text.now status (S.faults out.old) (S.faults out.new) (S.taken out.old) (S.taken out.new) result }
    ensures complete { S.accepts out.old (length text.now) → result ≡ status }
{
    match out.put(text) {
        Ok(()) => status,
        Err(_) => Status::SinkFault,
    }
}
