//! Faults, refused forms and refusals as text.

use ml_lexer::LexError;
use parse_base::ParseError;
use rotor_base::FormKind;
use std::alloc::{AllocError, Global};
use token_reading::ReadError;

pub fn fault_text(alloc: Global, fault: LexError) -> Result<String, AllocError> {
    match fault {
        LexError::Bad { offset } => format!(in alloc; "bad {offset}"),
        LexError::LongName { offset } => format!(in alloc; "longname {offset}"),
        LexError::Memory => String::from_str(alloc, "memory"),
    }
}

pub fn refusal_text(alloc: Global, error: ParseError) -> Result<String, AllocError> {
    match error {
        ParseError::Form { token, kind } => form_text(alloc, token, kind),
        ParseError::Deep { token } => deep_text(alloc, token),
        ParseError::Syntax => String::from_str(alloc, "syntax"),
        ParseError::Memory => String::from_str(alloc, "memory"),
    }
}

pub fn unread_text(alloc: Global, error: ReadError) -> Result<String, AllocError> {
    match error {
        ReadError::Syntax => String::from_str(alloc, "syntax"),
        ReadError::Memory => String::from_str(alloc, "memory"),
    }
}

pub fn form_text(alloc: Global, token: u32, kind: FormKind) -> Result<String, AllocError> {
    format!(in alloc; "form {kind:?} at {token}")
}

pub fn deep_text(alloc: Global, token: u32) -> Result<String, AllocError> {
    format!(in alloc; "deep at {token}")
}
