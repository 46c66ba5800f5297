//! The session.
ghost use Rattle.std.specs.Prelude.{◌≡◌, ℕ, List, false, true, OnErr, OnOk, IfOk};
ghost use Rattle.std.specs.FinMap.{empty};
ghost use Rattle.open_documents.specs.Workspace.{KeepsFolders, documents_in};
ghost use Rattle.requests.specs.Message.{message_of, message_words};
ghost use Rattle.lsp_session.specs.Hearing.{HearsNotice, lost_task};
ghost use Rattle.serde_json.specs.View.{view};
ghost use Rattle.lsp_session.specs.State.{state_after};
ghost use Rattle.lsp_session.specs.Task.{task_of, task_words};

use crate::notices::take_notice;
use crate::state::{State, state_after};
use crate::task::{Fault, Reply, Task, task_of};
use open_documents::Workspace;
use requests::{Message, message_of};
use rotor_base::Memory;
use serde_json::Value;
use std::alloc::Global;

/// A session: how far it is, and the documents that the editor holds.
#[derive(Drop)]
pub struct Session {
    state: State,
    is_lost: bool,
    workspace: Workspace,
}

impl Session {
    ghost use Rattle.lsp_session.specs.Session.{held_documents, is_lost, state_of};

    /// A session before its first message. It takes no memory.
    pub fn new(alloc: Global) -> Self
        ensures state { state_of result ≡ State.New }
        ensures lost { is_lost result ≡ false }
        ensures documents { (path : List ℕ) → documents_in (held_documents result) path ≡ empty }
    {
        Session {
            state: State::New,
            is_lost: false,
            workspace: Workspace::new(alloc),
        }
    }

    /// The documents that the editor holds.
    pub fn workspace(&self) -> &Workspace
        ensures { result.now ≡ held_documents self.now }
    {
        &self.workspace
    }

    /// How far the session is.
    pub fn state(&self) -> State
        ensures { result ≡ state_of self.now }
    {
        self.state
    }

    /// Takes a message that is no JSON. It may have been any change, so the texts are lost from here on.
    pub fn lose(&mut self) -> Task<&'static str>
        ensures task { task_words result ≡ lost_task }
        ensures lost { is_lost self.new ≡ true }
        ensures state { state_of self.new ≡ state_of self.old }
        ensures documents { held_documents self.new ≡ held_documents self.old }
    {
        self.is_lost = true;
        Task::Respond {
            id: None,
            reply: Reply::Failed(Fault::NotJson),
        }
    }

    /// Takes a message.
    ///
    /// # Errors
    ///
    /// `Memory` alone. Then the session is as it was.
    pub fn take<'a>(&mut self, alloc: Global, value: &'a Value) -> Result<Task<&'a str>, Memory>
        ensures task { IfOk result (λ task. task_words task ≡ task_of (state_of self.old) (is_lost self.old) (message_of (view value.now))) }
        ensures state { OnOk result (state_of self.new ≡ state_after (state_of self.old) (message_of (view value.now))) }
        ensures documents { OnOk result (HearsNotice (state_of self.old) (message_of (view value.now)) (held_documents self.old) (held_documents self.new)) }
        ensures lost { is_lost self.new ≡ is_lost self.old }
        ensures kept { OnErr result (KeepsFolders (held_documents self.old) (held_documents self.new)) }
        ensures stays { OnErr result (state_of self.new ≡ state_of self.old) }
    {
        let message = message_of(value);
        hear(alloc, self.state, message, &mut self.workspace)?;
        let task = task_of(self.state, self.is_lost, message);
        self.state = state_after(self.state, message);
        Ok(task)
    }
}

/// Does to the documents what a message says: after `initialize` and before `shutdown` notifications are heard.
fn hear(
    alloc: Global,
    state: State,
    message: Message<&str>,
    workspace: &mut Workspace,
) -> Result<(), Memory>
    ensures heard { OnOk result (HearsNotice state (message_words message.entry) workspace.old workspace.new) }
    ensures kept { OnErr result (KeepsFolders workspace.old workspace.new) }
{
    match (state, message) {
        (State::Ready(_), Message::Notification(notification)) => {
            take_notice(alloc, notification, workspace)
        }
        _ => Ok(()),
    }
}
