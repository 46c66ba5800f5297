//! The server: messages in, responses out.
ghost use Rattle.std.specs.Prelude.{◌≡◌, [], ◌∷◌, Some, IfOk, IfSome, OnOk};
ghost use Rattle.std.specs.Io.KnownBytes.{Appends};
ghost use Rattle.std.specs.List.{flat_map};
ghost use Rattle.lsp_frames.specs.Frames.{frame};
ghost use Rattle.lsp_session.specs.Task.{exit_status};
ghost use Rattle.lsp_server.specs.Does.{one_text};
ghost use Rattle.lsp_server.specs.Serves.{IsTurn, Serves};
ghost use Rattle.lsp_server.specs.Texts.{unreadable_text};

use crate::answers::Answers;
use crate::error::ServeError;
use crate::message::take_message;
use crate::task::Turn;
use crate::texts::failed_text;
use lsp_answers::ErrorCode;
use lsp_frames::{FrameError, read_message, write_message};
use lsp_session::{Session, State};
use rotor_base::Memory;
use std::alloc::Global;
use std::io;
use std::io::{ErrorKind, Read, Write};

/// Serves an editor: reads its messages up to `exit`, to the end of the input or to a place where no message can be
/// found, and writes the one response of each request, in order. It returns the status of the process. No folder
/// changes.
///
/// # Errors
///
/// `Memory` if there is none for a message, or for the failure that says so. `Input` and `Output`.
pub fn serve<A: Answers, R: Read, W: Write>(
    alloc: Global,
    answers: &mut A,
    input: &mut R,
    output: &mut W,
) -> Result<u8, ServeError>
    ensures served { IfOk result (λ status. IfSome (R.remaining input.old) (λ bytes. Serves A.replies (A.content answers.old) bytes status (W.contents output.old) (W.contents output.new))) }
    ensures kept { A.content answers.new ≡ A.content answers.old }
{
    let mut session = Session::new(alloc);
    for _ in 0..u64::MAX {
        let turn = take_turn(alloc, answers, &mut session, input)?;
        put_response(output, &turn.response)?;
        if let Some(status) = turn.status {
            return Ok(status);
        }
    }
    Err(ServeError::Input(ErrorKind::TimedOut.into()))
}

/// Takes the next message of the input.
fn take_turn<A: Answers, R: Read>(
    alloc: Global,
    answers: &mut A,
    session: &mut Session,
    input: &mut R,
) -> Result<Turn, ServeError>
    ensures turn { IfOk result (λ turn. IfSome (R.remaining input.old) (λ bytes. IsTurn A.replies (A.content answers.old) session.old bytes (one_text turn.response) turn.status session.new (R.remaining input.new))) }
    ensures kept { A.content answers.new ≡ A.content answers.old }
{
    match read_message(alloc, input) {
        Ok(Some(body)) => Ok(take_message(alloc, answers, session, &body)?),
        Ok(None) => Ok(Turn {
            response: None,
            status: Some(status_at_end(session.state())),
        }),
        Err(FrameError::Memory) => Err(ServeError::Memory),
        Err(FrameError::Io(error)) => Err(ServeError::Input(error)),
        Err(FrameError::Broken | FrameError::TooLong | FrameError::Ended) => {
            Ok(unreadable_turn(alloc)?)
        }
    }
}

/// The turn at a place of the input where no message can be found.
fn unreadable_turn(alloc: Global) -> Result<Turn, Memory>
    ensures response { IfOk result (λ turn. one_text turn.response ≡ unreadable_text ∷ []) }
    ensures ends { IfOk result (λ turn. turn.status ≡ Some 1) }
{
    let text = failed_text(
        alloc,
        None,
        ErrorCode::Parse,
        "the input has no message here",
    )?;
    Ok(Turn {
        response: Some(text),
        status: Some(1),
    })
}

/// The status of the process at the end of the input.
fn status_at_end(state: State) -> u8
    ensures { result ≡ exit_status state }
{
    match state {
        State::Shut => 0,
        State::New | State::Ready(_) => 1,
    }
}

/// Puts a response to the output, if there is one.
fn put_response<W: Write>(output: &mut W, response: &Option<Vec<u8>>) -> Result<(), ServeError>
    ensures { OnOk result (Appends (W.contents output.old) (W.contents output.new) (flat_map frame (one_text response.now))) }
{
    match write_response(output, response) {
        Ok(()) => Ok(()),
        Err(error) => Err(ServeError::Output(error)),
    }
}

/// Writes a response, if there is one, and flushes the output.
fn write_response<W: Write>(output: &mut W, response: &Option<Vec<u8>>) -> io::Result<()>
    ensures { OnOk result (Appends (W.contents output.old) (W.contents output.new) (flat_map frame (one_text response.now))) }
{
    let Some(text) = response else {
        return Ok(());
    };
    write_message(output, text)?;
    output.flush()
}
