//! What the rules say of a run of threads, over the definitions alone.

ghost use Rattle.act_executor.specs.Left.{JoinedRunsAreConsistent};
ghost use Rattle.act_executor.specs.ByCode.{JoinedCallersAreConsistent};
ghost use Rattle.act_executor.specs.Traced.{TracedRunsArePlayed};

use act_drive::Code;

/// What each thread of a run leaves, and the audits of the lines, make a run that the rules allow,
/// where no call that died ran. That none did tells each thread's trace.
#[tactic(none)]
pub fn joined_runs_are_consistent()
    ensures { JoinedRunsAreConsistent }
{}

/// The same where a caller may be code of its own, for any type of such code: some steps were run as
/// any plans are.
#[tactic(none)]
pub fn joined_callers_are_consistent<C: Code>()
    ensures { JoinedCallersAreConsistent C.tells }
{}

/// Whatever threads did in steps that each may do, where all that was taken was put earlier: some play
/// does the same.
#[tactic(none)]
pub fn traced_runs_are_played()
    ensures { TracedRunsArePlayed }
{}
