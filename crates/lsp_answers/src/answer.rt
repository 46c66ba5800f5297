//! The answers of the language server.

use rotor_base::Name;
use serde_json::Value;
use source_edits::{TextEdit, TextRange};

/// The id of a request.
#[derive(Debug, PartialEq, Eq, Drop)]
pub enum Id {
    Number(i64),
    Text(String),
}

/// How the columns of positions count, as client and server agreed.
#[derive(Clone, Copy, Debug, PartialEq, Eq)]
pub enum Encoding {
    Utf8,
    Utf16,
}

/// Why a request fails (JSON-RPC 2.0 and Language Server Protocol 3.17, "ErrorCodes").
#[derive(Clone, Copy, Debug, PartialEq, Eq)]
pub enum ErrorCode {
    /// The message is no JSON, or it cannot be read.
    Parse,
    /// The message is no request, or none that may be made now.
    InvalidRequest,
    /// The server has no such method.
    UnknownMethod,
    /// The parameters are not those of the method.
    BadParameters,
    /// Want of memory.
    Internal,
    /// A request before `initialize`.
    NotInitialized,
    /// The request was understood, and is refused.
    Refused,
}

/// A failed request: its code, a sentence for a person, and what a program reads.
#[derive(Drop)]
pub struct Failure {
    pub code: ErrorCode,
    pub message: String,
    pub data: Option<Value>,
}

/// A range of a document.
#[derive(Debug, Drop)]
pub struct Location {
    pub uri: String,
    pub range: TextRange,
}

/// A range of the document of the request that declares or uses a value.
#[derive(Clone, Copy, Debug)]
pub struct Highlight {
    pub range: TextRange,
    pub is_declaration: bool,
}

/// The edits of a document, and its version if a client has it open.
#[derive(Debug, Drop)]
pub struct DocumentEdits {
    pub uri: String,
    pub version: Option<i64>,
    pub edits: Vec<TextEdit>,
}

/// What a request that succeeds is answered.
#[derive(Debug, Drop)]
pub enum Answer {
    /// `null`.
    Nothing,
    /// What the server can do. `prepares` says whether it answers `prepareRename`.
    Started { encoding: Encoding, prepares: bool },
    /// The word that a renaming would replace, and its range.
    Word { range: TextRange, word: Name },
    /// The edits of each document, for a client that takes no versions.
    Changes(Vec<DocumentEdits>),
    /// The edits of each document with its version, in the order in which the client applies them.
    VersionedChanges(Vec<DocumentEdits>),
    Definition(Location),
    References(Vec<Location>),
    Highlights(Vec<Highlight>),
}

/// What a request is answered.
pub type Reply = Result<Answer, Failure>;
