//! What COMMITs leave.

ghost use Rattle.newblock_quorum.specs.Newblocks.{CommitsLeaveIt};

/// What an inbox stands for is the same with a COMMIT.
pub fn commits_leave_an_inbox()
    ensures law { CommitsLeaveIt }
{}
