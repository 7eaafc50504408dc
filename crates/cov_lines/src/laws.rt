//! Laws of what lines are answered. Each function does nothing; what it ensures is the law.
ghost use Rattle.cov_lines.specs.Isolation.{SessionsAreIsolated, SessionsBeginNow};
ghost use Rattle.cov_lines.specs.Laws.{FormsAreAnswered, RefusalsSaySo};

/// What a session is answered is a function of it, of the history up to its base and of its own lines, whatever others do.
pub fn sessions_are_isolated()
    ensures { SessionsAreIsolated }
{}

/// A session that is opened or refreshed is there, with the whole history before its base.
pub fn sessions_begin_now()
    ensures { SessionsBeginNow }
{}

/// A line of each form but that of the empty line and the comment has a reply.
pub fn forms_are_answered()
    ensures { FormsAreAnswered }
{}

/// A reply begins with `refused` exactly where the answer is `Refused`.
pub fn refusals_say_so()
    ensures { RefusalsSaySo }
{}
