//! Laws of sessions. Each function does nothing; what it ensures is the law.
ghost use Rattle.cov_history.specs.Laws.{CommitShowsFiles};
ghost use Rattle.cov_session.specs.Laws.{OpenSessionsStay};

/// A session that is open stays so when its history grows, and sees what it saw.
pub fn open_sessions_stay()
    ensures { OpenSessionsStay }
{
    cov_history::laws::good_sessions_stay();
}

/// A commit that is accepted shows, of each file that it touches, what its session saw.
pub fn commit_shows_files()
    ensures { CommitShowsFiles }
{
    cov_history::laws::commit_shows_files();
}
