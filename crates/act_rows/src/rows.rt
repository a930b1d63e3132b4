//! The worked rows, computed by the definitions.

ghost use Rattle.act_rows.specs.Rows as rows;

/// What the worked examples report.
#[tactic(none)]
pub fn worked_rows()
    ensures one_call { rows.OneCall }
    ensures reversed { rows.Reversed }
    ensures repeated { rows.Repeated }
    ensures lost { rows.Lost }
    ensures earlier_call_waits { rows.EarlierCallWaits }
    ensures another_caller_passes { rows.AnotherCallerPasses }
    ensures failed_argument { rows.FailedArgument }
    ensures one_packet_for_good { rows.OnePacketForGood }
    ensures ran_and_yet_died { rows.RanAndYetDied }
    ensures kill_with_held_calls { rows.KillWithHeldCalls }
    ensures known_dead { rows.KnownDead }
    ensures largest_number { rows.LargestNumber }
    ensures refused_submissions { rows.RefusedSubmissions }
    ensures release_and_retire { rows.ReleaseAndRetire }
    ensures two_actors { rows.TwoActors }
    ensures nothing_there { rows.NothingThere }
{}

ghost use Rattle.act_rows.specs.ScriptRows as scripts;

/// What the worked examples write, from bytes to bytes.
#[tactic(none)]
pub fn worked_scripts()
    ensures empty { scripts.Empty }
    ensures one_call { scripts.OneCall }
    ensures reversed { scripts.Reversed }
    ensures repeated { scripts.Repeated }
    ensures lost { scripts.Lost }
    ensures earlier_call_waits { scripts.EarlierCallWaits }
    ensures another_caller_passes { scripts.AnotherCallerPasses }
    ensures failed_argument { scripts.FailedArgument }
    ensures one_packet_for_good { scripts.OnePacketForGood }
    ensures ran_and_yet_died { scripts.RanAndYetDied }
    ensures kill_with_held_calls { scripts.KillWithHeldCalls }
    ensures known_dead { scripts.KnownDead }
    ensures largest_number { scripts.LargestNumber }
    ensures refused_submissions { scripts.RefusedSubmissions }
    ensures release_and_retire { scripts.ReleaseAndRetire }
    ensures nothing_there { scripts.NothingThere }
    ensures table_script { scripts.TableScript }
    ensures leading_zero { scripts.LeadingZero }
    ensures role_without_caller { scripts.RoleWithoutCaller }
    ensures role_after_event { scripts.RoleAfterEvent }
    ensures role_twice { scripts.RoleTwice }
    ensures caller_twice { scripts.CallerTwice }
    ensures step_of_threads { scripts.StepOfThreads }
    ensures too_long_script { scripts.TooLongScript }
    ensures submit_after_release { scripts.SubmitAfterRelease }
    ensures too_many_callers { scripts.TooManyCallers }
    ensures three_callers { scripts.ThreeCallers }
    ensures two_plans { scripts.TwoPlans }
    ensures kills_of_one_actor { scripts.KillsOfOneActor }
{}

ghost use Rattle.act_rows.specs.KindRows.{KindRows};

/// What the kinds answer in the worked examples.
#[tactic(none)]
pub fn worked_kinds()
    ensures { KindRows }
{}

ghost use Rattle.act_rows.specs.FurtherRows.{FurtherRows};

/// What further examples write.
#[tactic(none)]
pub fn further_rows()
    ensures { FurtherRows }
{}

ghost use Rattle.act_rows.specs.EndRows.{EndRows, EndingPlan};

/// What further examples of an end that waits its turn write, and what a plan with one submits.
#[tactic(none)]
pub fn end_rows()
    ensures scripts { EndRows }
    ensures plan { EndingPlan }
{}

ghost use Rattle.act_rows.specs.PendingRows.{PendingRows, LimitedPlan};

/// What further examples of a limit on pending calls write, and what a plan under one submits.
#[tactic(none)]
pub fn pending_rows()
    ensures scripts { PendingRows }
    ensures plan { LimitedPlan }
{}

ghost use Rattle.act_rows.specs.LineRows.{FaultyLines, FineLines, FaultyPlans};

/// Lines at the edge of the grammar, and plans that are refused.
#[tactic(none)]
pub fn further_lines()
    ensures faulty_lines { FaultyLines }
    ensures fine_lines { FineLines }
    ensures faulty_plans { FaultyPlans }
{}
