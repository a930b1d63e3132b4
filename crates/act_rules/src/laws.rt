//! The laws of every run, over the definitions alone.

ghost use Rattle.act_rules.specs.Laws.{NothingRunsAfterTheEnd, NothingFollowsATerminate, KeptAnswersStay, RetiredRanAll, PendingStaysWithinTheLimit, EachWorldIsConsistent};

/// Nothing runs at an actor that is dead or retired.
#[tactic(none)]
pub fn nothing_runs_after_the_end()
    ensures { NothingRunsAfterTheEnd }
{}

/// No call follows a `terminate` that ended its actor.
#[tactic(none)]
pub fn nothing_follows_a_terminate()
    ensures { NothingFollowsATerminate }
{}

/// An answer that is kept stays.
#[tactic(none)]
pub fn kept_answers_stay()
    ensures { KeptAnswersStay }
{}

/// Opening states, submissions, run lists, kept answers and dead actors fit one another.
#[tactic(none)]
pub fn each_world_is_consistent()
    ensures { EachWorldIsConsistent }
{}

/// A retired actor ran every call of every caller to it, in order.
#[tactic(none)]
pub fn retired_ran_all()
    ensures { RetiredRanAll }
{}

/// A caller's calls to an actor that have no answer are never more than the actor's limit.
#[tactic(none)]
pub fn pending_stays_within_the_limit()
    ensures { PendingStaysWithinTheLimit }
{}

ghost use Rattle.act_rules.specs.Laws.{PlannedIsTaken, PlannedIsTakenAmongOthers, RolesNameAsCasts};

/// What a caller's plan submits is what a world takes of its events, whatever else happens there.
#[tactic(none)]
pub fn planned_is_what_a_world_takes()
    ensures alone { PlannedIsTaken }
    ensures among_others { PlannedIsTakenAmongOthers }
    ensures by_roles { RolesNameAsCasts }
{}

ghost use Rattle.std.specs.Prelude.{decimal};
ghost use Rattle.std.specs.Fmt.{signed_decimal};
ghost use Rattle.act_types.specs.Texts.{caller_text, actor_text, method_text, value_text};
ghost use Rattle.act_rules.specs.Words.{named_by, kind_text, all_kinds, number_at, int_at, caller_at, actor_at, method_at, value_at, arg_at};
ghost use Rattle.act_rules.specs.Laws.{arg_text, HasOneSpelling};

/// What a word of a script spells is spelled in one way.
#[tactic(none)]
pub fn one_spelling()
    ensures number { HasOneSpelling number_at decimal }
    ensures int { HasOneSpelling int_at signed_decimal }
    ensures caller { HasOneSpelling caller_at caller_text }
    ensures actor { HasOneSpelling actor_at actor_text }
    ensures kind { HasOneSpelling (named_by kind_text all_kinds) kind_text }
    ensures method { HasOneSpelling method_at method_text }
    ensures value { HasOneSpelling value_at value_text }
    ensures arg { HasOneSpelling arg_at arg_text }
{}

ghost use Rattle.act_rules.specs.Kinds.{is_in_range};
ghost use Rattle.act_rules.specs.Laws.{ReadsBack, is_number, is_caller_number, is_actor_number, is_sayable, is_sayable_arg, is_sayable_method, always};

/// What a script can write is read back from its text.
#[tactic(none)]
pub fn each_text_reads_back()
    ensures number { ReadsBack is_number decimal number_at }
    ensures int { ReadsBack is_in_range signed_decimal int_at }
    ensures caller { ReadsBack is_caller_number caller_text caller_at }
    ensures actor { ReadsBack is_actor_number actor_text actor_at }
    ensures kind { ReadsBack always kind_text (named_by kind_text all_kinds) }
    ensures method { ReadsBack is_sayable_method method_text method_at }
    ensures value { ReadsBack is_sayable value_text value_at }
    ensures arg { ReadsBack is_sayable_arg arg_text arg_at }
{}

ghost use Rattle.std.specs.Prelude.{◌≡◌, true};
ghost use Rattle.std.specs.List.{list_all};
ghost use Rattle.act_types.specs.Names.{is_taken};
ghost use Rattle.act_rules.specs.Grammar.{play_forms, thread_forms};
ghost use Rattle.act_rules.specs.Words.{all_methods};

/// No name of a kind's own method or fault is a word of a script.
#[tactic(none)]
pub fn names_are_no_words()
    ensures methods { list_all (λ method. is_taken (method_text method)) all_methods ≡ true }
    ensures kinds { list_all (λ kind. is_taken (kind_text kind)) all_kinds ≡ true }
    ensures events { list_all (λ form. is_taken form.0) play_forms ≡ true }
    ensures steps { list_all (λ form. is_taken form.0) thread_forms ≡ true }
{}
