//! What holds of every finish. Each function does nothing: its contract is the law.
ghost use Rattle.finish_core.specs.Laws.{RepliesKeepLegal, DoneWhereAllowed, LegalIsOrderly, ShutAwaitsAll, ShutWhereItMay};

/// Whatever calls are made on a fresh finish, its history is legal.
pub fn replies_keep_legal()
    ensures { RepliesKeepLegal }
{}

/// A call is done exactly if its event is allowed.
pub fn done_where_allowed()
    ensures { DoneWhereAllowed }
{}

/// In a legal history the opening stands first and once, each task is spawned at most once, under
/// a number below the limit, and ends at most once, after it was spawned.
pub fn legal_is_orderly()
    ensures { LegalIsOrderly }
{}

/// In a legal history nothing follows the shut, and each task that was spawned has ended before
/// it, after it was spawned.
pub fn shut_awaits_all()
    ensures { ShutAwaitsAll }
{}

/// `may_shut` holds exactly if `shut` is done.
pub fn shut_where_it_may()
    ensures { ShutWhereItMay }
{}
