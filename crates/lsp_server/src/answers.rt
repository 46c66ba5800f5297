//! What a server is asked at a place of a document.
ghost use Rattle.std.specs.Prelude.{◌≡◌, ℕ, List, Option, Result, IfOk};
ghost use Rattle.tree_io.specs.Outside.{FileMap};
ghost use Rattle.open_documents.specs.declared.workspace.Workspace.{Workspace};
ghost use Rattle.requests.specs.declared.client.Client.{Client};
ghost use Rattle.requests.specs.declared.spot.Spot.{Spot};
ghost use Rattle.requests.specs.declared.asked.Query.{Query};
ghost use Rattle.requests.specs.Spot.{spot_words};
ghost use Rattle.requests.specs.Asked.{query_words};
ghost use Rattle.lsp_answers.specs.declared.answer.Answer.{Answer};
ghost use Rattle.lsp_answers.specs.declared.answer.Failure.{Failure};
ghost use Rattle.lsp_answers.specs.Plain.{IsPlain};

use lsp_answers::Reply;
use open_documents::Workspace;
use requests::{Client, Query, Spot};
use rotor_base::Memory;
use std::alloc::Global;

/// The answers to what an editor asks at a place of a document.
pub trait Answers {
    /// The map from names to bytes of the folder with each path, if it is modelled.
    ghost content: { Self → List ℕ → Option FileMap };

    /// The replies to a query at a place, over these folders, for this client, under the documents that the editor
    /// holds.
    ghost replies: { (List ℕ → Option FileMap) → Client → Workspace → Spot (List ℕ) → Query (List ℕ) → Result Answer Failure → Type 0 };

    /// The reply to a query at a place. No folder changes.
    ///
    /// # Errors
    ///
    /// `Memory` alone.
    fn answer(
        &mut self,
        alloc: Global,
        client: Client,
        workspace: &Workspace,
        spot: Spot<&str>,
        query: Query<&str>,
    ) -> Result<Reply, Memory>
        ensures reply { IfOk result (replies (content self.old) client workspace.now (spot_words spot.entry) (query_words query.entry)) }
        ensures plain { IfOk result IsPlain }
        ensures kept { content self.new ≡ content self.old };
}
