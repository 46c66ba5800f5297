//! The answers, over folders by their paths.
ghost use Rattle.std.specs.Prelude.{◌≡◌, IfOk, string_bytes};
ghost use Rattle.lsp_answers.specs.Plain.{IsPlain};
ghost use Rattle.open_documents.specs.Documents.{AreKnown, documents};
ghost use Rattle.open_documents.specs.Workspace.{documents_in};
ghost use Rattle.requests.specs.Asked.{query_words};
ghost use Rattle.document_answers.specs.Refused.{IsRefusedAs, no_source_text, unknown_text, unread_text};
ghost use Rattle.document_answers.specs.Replies.{RepliesFor};

use crate::over::{Asked, answer_over_files};
use crate::refused::refused_reply;
use document_uris::{FilePlace, read_uri};
use folders::Folders;
use kept_projects::KeptProject;
use lsp_answers::Reply;
use lsp_server::Answers;
use open_documents::{Documents, Workspace};
use open_load::{OpenFolder, load_open};
use query_failures::{folder_failure, plain_failure};
use requests::{Client, Query, Spot};
use rotor_base::{Memory, is_source};
use std::alloc::Global;
use text_places::Position;

/// The answers to what an editor asks, over these folders.
#[derive(Drop)]
pub struct DocumentAnswers<F> {
    folders: F,
    /// The project of the last query, if there was one.
    last: Option<KeptProject>,
}

impl<F: Folders + Drop> DocumentAnswers<F> {
    /// The answers over these folders.
    pub fn new(folders: F) -> Self
        ensures { result.folders ≡ folders }
    {
        DocumentAnswers {
            folders,
            last: None,
        }
    }

    /// The reply to a query at a place of a source of a folder.
    fn answer_in_folder(
        &mut self,
        alloc: Global,
        client: Client,
        workspace: &Workspace,
        file: &FilePlace,
        position: Position,
        query: Query<&str>,
    ) -> Result<Reply, Memory>
        ensures reply { IfOk result (RepliesFor (F.content self.old.folders) client (documents_in workspace.now (string_bytes file.now.folder)) file.now position (query_words query.entry)) }
        ensures plain { IfOk result IsPlain }
        ensures kept { self.new.folders ≡ self.old.folders }
    {
        match workspace.folder(file.folder.as_str()) {
            Some(held) => self.answer_in_documents(alloc, client, held, file, position, query),
            None => {
                let held = Documents::new(alloc);
                self.answer_in_documents(alloc, client, &held, file, position, query)
            }
        }
    }

    /// The same, under the documents that the editor holds in the folder.
    fn answer_in_documents(
        &mut self,
        alloc: Global,
        client: Client,
        held: &Documents,
        file: &FilePlace,
        position: Position,
        query: Query<&str>,
    ) -> Result<Reply, Memory>
        ensures reply { IfOk result (RepliesFor (F.content self.old.folders) client (documents held.now) file.now position (query_words query.entry)) }
        ensures plain { IfOk result IsPlain }
        ensures kept { self.new.folders ≡ self.old.folders }
    {
        match held.first_unknown() {
            Some(name) => unknown_reply(alloc, name, query),
            None => self.answer_in_known(alloc, client, held, file, position, query),
        }
    }

    /// The same, where the texts of the documents are known.
    fn answer_in_known(
        &mut self,
        alloc: Global,
        client: Client,
        held: &Documents,
        file: &FilePlace,
        position: Position,
        query: Query<&str>,
    ) -> Result<Reply, Memory>
        requires { AreKnown (documents held.now) }
        ensures reply { IfOk result (RepliesFor (F.content self.old.folders) client (documents held.now) file.now position (query_words query.entry)) }
        ensures plain { IfOk result IsPlain }
        ensures kept { self.new.folders ≡ self.old.folders }
    {
        let folder = self.folders.folder(alloc, file.folder.as_str())?;
        let opened = load_open(alloc, held, folder)?;
        match opened {
            OpenFolder::Files(files) => {
                let asked = Asked {
                    client,
                    held,
                    file,
                    position,
                    query,
                };
                answer_over_files(alloc, &mut self.last, asked, files)
            }
            OpenFolder::Unread => unread_reply(alloc, query),
            OpenFolder::Refused { why, message } => {
                let failure = folder_failure(alloc, &why, &message)?;
                Ok(refused_reply(query, failure))
            }
        }
    }
}

/// The reply to a query in a folder where the text of a document is not known.
fn unknown_reply(alloc: Global, name: &str, query: Query<&str>) -> Result<Reply, Memory>
    ensures reply { IfOk result (IsRefusedAs (query_words query.entry) (unknown_text name.now)) }
    ensures plain { IfOk result IsPlain }
{
    let failure = plain_failure(
        alloc,
        &[
            b"the editor's text of ",
            name.as_bytes(),
            b" is not known here; close the file and open it again",
        ],
    )?;
    Ok(refused_reply(query, failure))
}

/// The reply to a query in a folder of which a call failed.
fn unread_reply(alloc: Global, query: Query<&str>) -> Result<Reply, Memory>
    ensures reply { IfOk result (IsRefusedAs (query_words query.entry) unread_text) }
    ensures plain { IfOk result IsPlain }
{
    let failure = plain_failure(alloc, &[b"the folder of this file cannot be read"])?;
    Ok(refused_reply(query, failure))
}

/// The reply to a query in a document that is no source of a folder.
fn no_source_reply(alloc: Global, query: Query<&str>) -> Result<Reply, Memory>
    ensures reply { IfOk result (IsRefusedAs (query_words query.entry) no_source_text) }
    ensures plain { IfOk result IsPlain }
{
    let failure = plain_failure(
        alloc,
        &[b"this document is no .ml or .mli file of a folder"],
    )?;
    Ok(refused_reply(query, failure))
}

impl<F: Folders + Drop> Answers for DocumentAnswers<F> {
    ghost use Rattle.document_answers.specs.Replies.{Replies};

    ghost content = { λ answers. F.content answers.folders };

    ghost replies = { Replies };

    fn answer(
        &mut self,
        alloc: Global,
        client: Client,
        workspace: &Workspace,
        spot: Spot<&str>,
        query: Query<&str>,
    ) -> Result<Reply, Memory> {
        let found = read_uri(alloc, spot.uri)?;
        match found {
            None => no_source_reply(alloc, query),
            Some(file) => {
                if is_source(file.name.as_bytes()) {
                    self.answer_in_folder(alloc, client, workspace, &file, spot.position, query)
                } else {
                    no_source_reply(alloc, query)
                }
            }
        }
    }
}
