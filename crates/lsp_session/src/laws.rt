//! The laws of a session.
ghost use Rattle.lsp_session.specs.Laws.{NotificationsAreNot, RequestsAreAnswered};

/// Each request has one response, with its id.
pub fn requests_are_answered_once()
    ensures { RequestsAreAnswered }
{}

/// A notification has no response, and a response has none.
pub fn notifications_are_not_answered()
    ensures { NotificationsAreNot }
{}
