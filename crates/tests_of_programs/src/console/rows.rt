//! The worked scripts that lie beside the program, as tools/rows_in_test.py writes them.

use act_console::ConsoleFault;

/// A script, what is written of it, and how its run ends.
pub struct Row {
    pub script: &'static str,
    pub output: &'static str,
    pub answer: Result<(), ConsoleFault>,
}

/// All of the scripts.
pub fn tables() -> [&'static [Row]; 11] {
    [
        rows_1(),
        rows_2(),
        rows_3(),
        rows_4(),
        rows_5(),
        rows_6(),
        rows_7(),
        rows_8(),
        rows_9(),
        rows_10(),
        rows_11(),
    ]
}

fn rows_1() -> &'static [Row] {
    &[
        // a_failed_argument
        Row {
            script: "actor a1 table c1\nsubmit c1 a1 get \"x\"\nsend c1 0\ndeliver 0\nrun a1 c1\ncollect 0\nsubmit c1 a1 put \"y\" @0\nsubmit c1 a1 size\nsend c1 1\nsend c1 2\ndeliver 2\nrun a1 c1\ndeliver 1\nrun a1 c1\nrun a1 c1\ncollect 1\ncollect 2\n",
            output: "0: future c1.0\n1: mail 0\n2: new\n3: place 0 reply 0\n4: kept c1.0\n5: future c1.1\n6: future c1.2\n7: mail 1\n8: mail 2\n9: new\n10: gap\n11: new\n12: place 1 reply 1\n13: place 2 reply 2\n14: kept c1.1\n15: kept c1.2\nc1.0 a1 = NoKey\nc1.1 a1 = Dependency(0)\nc1.2 a1 = 0\na1 live table\na1.0 c1.0 get \"x\"\na1.1 c1.1 put \"y\" !0\na1.2 c1.2 size\n",
            answer: Ok(()),
        },
        // a_line_of_512
        Row {
            script: "actor a1 table c1\nsubmit c1 a1 put \"xxxxxxxxxxxxxxxxxxxxxxxxxxxxxxxxxxxxxxxxxxxxxxxxxxxxxxxxxxxxxxxx\" \"xxxxxxxxxxxxxxxxxxxxxxxxxxxxxxxxxxxxxxxxxxxxxxxxxxxxxxxxxxxxxxxx\" \"xxxxxxxxxxxxxxxxxxxxxxxxxxxxxxxxxxxxxxxxxxxxxxxxxxxxxxxxxxxxxxxx\" \"xxxxxxxxxxxxxxxxxxxxxxxxxxxxxxxxxxxxxxxxxxxxxxxxxxxxxxxxxxxxxxxx\" \"xxxxxxxxxxxxxxxxxxxxxxxxxxxxxxxxxxxxxxxxxxxxxxxxxxxxxxxxxxxxxxxx\" \"xxxxxxxxxxxxxxxxxxxxxxxxxxxxxxxxxxxxxxxxxxxxxxxxxxxxxxxxxxxxxxxx\" \"xxxxxxxxxxxxxxxxxxxxxxxxxxxxxxxxxxxxxxxxxxxxxxxxxxxxxxxxxxxxxxxx\" \"xxxxxxxxxxxxxxxxxxxxxxxx\"\n",
            output: "0: refused TooManyArgs\na1 live table\n",
            answer: Ok(()),
        },
        // add_least_number
        Row {
            script: "actor a1 counter c1\nsubmit c1 a1 add -9223372036854775808\n",
            output: "0: future c1.0\nc1.0 a1 ?\na1 live counter 0\n",
            answer: Ok(()),
        },
        // an_earlier_call_waits
        Row {
            script: "actor a1 counter c1 c2\nactor a2 counter c1\nsubmit c1 a2 add 7\nsubmit c1 a1 add @0\nsubmit c1 a1 add 1\nsend c1 1\nsend c1 2\ndeliver 0\nrun a1 c1\n",
            output: "0: future c1.0\n1: future c1.1\n2: future c1.2\n3: refused NotReady\n4: mail 0\n5: new\n6: gap\nc1.0 a2 ?\nc1.1 a1 ?\nc1.2 a1 ?\na1 live counter 0\na2 live counter 0\n",
            answer: Ok(()),
        },
        // another_caller_passes
        Row {
            script: "actor a1 counter c1 c2\nactor a2 counter c1\nsubmit c1 a2 add 7\nsubmit c1 a1 add @0\nsubmit c1 a1 add 1\nsend c1 1\nsend c1 2\ndeliver 0\nrun a1 c1\nsubmit c2 a1 add 100\nsend c2 0\ndeliver 1\nrun a1 c2\nsend c1 0\ndeliver 2\nrun a2 c1\ncollect 1\nsend c1 1\ndeliver 3\nrun a1 c1\nrun a1 c1\ncollect 0\ncollect 2\ncollect 3\n",
            output: "0: future c1.0\n1: future c1.1\n2: future c1.2\n3: refused NotReady\n4: mail 0\n5: new\n6: gap\n7: future c2.0\n8: mail 1\n9: new\n10: place 0 reply 0\n11: mail 2\n12: new\n13: place 0 reply 1\n14: kept c1.0\n15: mail 3\n16: new\n17: place 1 reply 2\n18: place 2 reply 3\n19: kept c2.0\n20: kept c1.1\n21: kept c1.2\nc1.0 a2 = 7\nc1.1 a1 = 107\nc1.2 a1 = 108\nc2.0 a1 = 100\na1 live counter 108\na1.0 c2.0 add 100\na1.1 c1.1 add 7\na1.2 c1.2 add 1\na2 live counter 7\na2.0 c1.0 add 7\n",
            answer: Ok(()),
        },
        // comment_of_512
        Row {
            script: "actor a1 counter c1\n#xxxxxxxxxxxxxxxxxxxxxxxxxxxxxxxxxxxxxxxxxxxxxxxxxxxxxxxxxxxxxxxxxxxxxxxxxxxxxxxxxxxxxxxxxxxxxxxxxxxxxxxxxxxxxxxxxxxxxxxxxxxxxxxxxxxxxxxxxxxxxxxxxxxxxxxxxxxxxxxxxxxxxxxxxxxxxxxxxxxxxxxxxxxxxxxxxxxxxxxxxxxxxxxxxxxxxxxxxxxxxxxxxxxxxxxxxxxxxxxxxxxxxxxxxxxxxxxxxxxxxxxxxxxxxxxxxxxxxxxxxxxxxxxxxxxxxxxxxxxxxxxxxxxxxxxxxxxxxxxxxxxxxxxxxxxxxxxxxxxxxxxxxxxxxxxxxxxxxxxxxxxxxxxxxxxxxxxxxxxxxxxxxxxxxxxxxxxxxxxxxxxxxxxxxxxxxxxxxxxxxxxxxxxxxxxxxxxxxxxxxxxxxxxxxxxxxxxxxxxxxxxxxxxxxxxxxxxxxxxxxxxxxxxxxxxxxxxxxxxxxxxxxxxxxxx\n",
            output: "a1 live counter 0\n",
            answer: Ok(()),
        },
        // death_after_answer
        Row {
            script: "actor a1 counter c1\nsubmit c1 a1 add 1\nsubmit c1 a1 add 2\nsend c1 0\ndeliver 0\nrun a1 c1\ncollect 0\nkill c1 a1\ntake a1\ntell a1 c1\ncollect 1\ntell a1 c1\ncollect 2\n",
            output: "0: future c1.0\n1: future c1.1\n2: mail 0\n3: new\n4: place 0 reply 0\n5: kept c1.0\n6: asked\n7: dead\n8: reply 1\n9: died 1\n10: reply 2\n11: died 0\nc1.0 a1 = 1\nc1.1 a1 = ActorDied\na1 dead\na1.0 c1.0 add 1\n",
            answer: Ok(()),
        },
        // deliver_largest_number
        Row {
            script: "actor a1 counter c1\ndeliver 4294967295\n",
            output: "0: refused NoMail\na1 live counter 0\n",
            answer: Ok(()),
        },
    ]
}

fn rows_2() -> &'static [Row] {
    &[
        // empty
        Row {
            script: "",
            output: "",
            answer: Ok(()),
        },
        // fault_actor_9
        Row {
            script: "actor a1 counter c1\nsubmit c1 a9 get\n",
            output: "line 2: BadLine\n",
            answer: Err(ConsoleFault::Script),
        },
        // fault_actor_before_caller
        Row {
            script: "actor a1 counter c1\nactor a1 list c2 c2\n",
            output: "line 2: TwiceActor\n",
            answer: Err(ConsoleFault::Script),
        },
        // fault_actor_twice
        Row {
            script: "actor a1 counter c1\nactor a1 list c1\n",
            output: "line 2: TwiceActor\n",
            answer: Err(ConsoleFault::Script),
        },
        // fault_actor_without_caller
        Row {
            script: "actor a1 counter\n",
            output: "line 1: BadLine\n",
            answer: Err(ConsoleFault::Script),
        },
        // fault_after_skipped_lines
        Row {
            script: "# a comment\n\nactor a1 counter c1\n\n# another\nrun a1\n",
            output: "line 6: BadLine\n",
            answer: Err(ConsoleFault::Script),
        },
        // fault_bad_line_before_late
        Row {
            script: "actor a1 counter c1\ntake a1\nactor a9 list c1\n",
            output: "line 3: BadLine\n",
            answer: Err(ConsoleFault::Script),
        },
        // fault_caller_17
        Row {
            script: "actor a1 counter c1\nsubmit c17 a1 get\n",
            output: "line 2: BadLine\n",
            answer: Err(ConsoleFault::Script),
        },
    ]
}

fn rows_3() -> &'static [Row] {
    &[
        // fault_caller_leading_zero
        Row {
            script: "actor a1 counter c1\nsubmit c01 a1 get\n",
            output: "line 2: BadLine\n",
            answer: Err(ConsoleFault::Script),
        },
        // fault_caller_twice
        Row {
            script: "actor a1 counter c1 c1\n",
            output: "line 1: TwiceCaller\n",
            answer: Err(ConsoleFault::Script),
        },
        // fault_carriage_return
        Row {
            script: "actor a1 counter c1\ndeliver 0\r\n",
            output: "line 2: BadLine\n",
            answer: Err(ConsoleFault::Script),
        },
        // fault_comment_of_513
        Row {
            script: "actor a1 counter c1\n#xxxxxxxxxxxxxxxxxxxxxxxxxxxxxxxxxxxxxxxxxxxxxxxxxxxxxxxxxxxxxxxxxxxxxxxxxxxxxxxxxxxxxxxxxxxxxxxxxxxxxxxxxxxxxxxxxxxxxxxxxxxxxxxxxxxxxxxxxxxxxxxxxxxxxxxxxxxxxxxxxxxxxxxxxxxxxxxxxxxxxxxxxxxxxxxxxxxxxxxxxxxxxxxxxxxxxxxxxxxxxxxxxxxxxxxxxxxxxxxxxxxxxxxxxxxxxxxxxxxxxxxxxxxxxxxxxxxxxxxxxxxxxxxxxxxxxxxxxxxxxxxxxxxxxxxxxxxxxxxxxxxxxxxxxxxxxxxxxxxxxxxxxxxxxxxxxxxxxxxxxxxxxxxxxxxxxxxxxxxxxxxxxxxxxxxxxxxxxxxxxxxxxxxxxxxxxxxxxxxxxxxxxxxxxxxxxxxxxxxxxxxxxxxxxxxxxxxxxxxxxxxxxxxxxxxxxxxxxxxxxxxxxxxxxxxxxxxxxxxxxxxxxxxxxxxx\n",
            output: "line 2: BadLine\n",
            answer: Err(ConsoleFault::Script),
        },
        // fault_empty_text
        Row {
            script: "actor a1 counter c1\nsubmit c1 a1 put \"\" 1\n",
            output: "line 2: BadLine\n",
            answer: Err(ConsoleFault::Script),
        },
        // fault_int_above
        Row {
            script: "actor a1 counter c1\nsubmit c1 a1 add 9223372036854775808\n",
            output: "line 2: BadLine\n",
            answer: Err(ConsoleFault::Script),
        },
        // fault_late_actor
        Row {
            script: "actor a1 counter c1\ntake a1\nactor a2 list c1\n",
            output: "line 3: LateActor\n",
            answer: Err(ConsoleFault::Script),
        },
        // fault_late_before_twice
        Row {
            script: "actor a1 counter c1\nsubmit c1 a1 get\nactor a1 list c1 c1\n",
            output: "line 3: LateActor\n",
            answer: Err(ConsoleFault::Script),
        },
    ]
}

fn rows_4() -> &'static [Row] {
    &[
        // fault_leading_zero
        Row {
            script: "actor a1 counter c1\nsubmit c1 a1 add 05\n",
            output: "line 2: BadLine\n",
            answer: Err(ConsoleFault::Script),
        },
        // fault_line_of_513
        Row {
            script: "actor a1 table c1\nsubmit c1 a1 put \"xxxxxxxxxxxxxxxxxxxxxxxxxxxxxxxxxxxxxxxxxxxxxxxxxxxxxxxxxxxxxxxx\" \"xxxxxxxxxxxxxxxxxxxxxxxxxxxxxxxxxxxxxxxxxxxxxxxxxxxxxxxxxxxxxxxx\" \"xxxxxxxxxxxxxxxxxxxxxxxxxxxxxxxxxxxxxxxxxxxxxxxxxxxxxxxxxxxxxxxx\" \"xxxxxxxxxxxxxxxxxxxxxxxxxxxxxxxxxxxxxxxxxxxxxxxxxxxxxxxxxxxxxxxx\" \"xxxxxxxxxxxxxxxxxxxxxxxxxxxxxxxxxxxxxxxxxxxxxxxxxxxxxxxxxxxxxxxx\" \"xxxxxxxxxxxxxxxxxxxxxxxxxxxxxxxxxxxxxxxxxxxxxxxxxxxxxxxxxxxxxxxx\" \"xxxxxxxxxxxxxxxxxxxxxxxxxxxxxxxxxxxxxxxxxxxxxxxxxxxxxxxxxxxxxxxx\" \"xxxxxxxxxxxxxxxxxxxxxxxxx\"\n",
            output: "line 2: BadLine\n",
            answer: Err(ConsoleFault::Script),
        },
        // fault_minus_zero
        Row {
            script: "actor a1 counter c1\nsubmit c1 a1 add -0\n",
            output: "line 2: BadLine\n",
            answer: Err(ConsoleFault::Script),
        },
        // fault_number_above
        Row {
            script: "actor a1 counter c1\ndeliver 4294967296\n",
            output: "line 2: BadLine\n",
            answer: Err(ConsoleFault::Script),
        },
        // fault_number_leading_zero
        Row {
            script: "actor a1 counter c1\nsend c1 00\n",
            output: "line 2: BadLine\n",
            answer: Err(ConsoleFault::Script),
        },
        // fault_of_the_first_line
        Row {
            script: "actor a1 counter c1 c1\nactor a1 counter c1\nrun\n",
            output: "line 1: TwiceCaller\n",
            answer: Err(ConsoleFault::Script),
        },
        // fault_plus_one
        Row {
            script: "actor a1 counter c1\nsubmit c1 a1 add +1\n",
            output: "line 2: BadLine\n",
            answer: Err(ConsoleFault::Script),
        },
        // fault_space_after_a_method
        Row {
            script: "actor a1 counter c1\nsubmit c1 a1 get \n",
            output: "line 2: BadLine\n",
            answer: Err(ConsoleFault::Script),
        },
    ]
}

fn rows_5() -> &'static [Row] {
    &[
        // fault_space_at_the_end
        Row {
            script: "actor a1 counter c1\nsend c1 0 \n",
            output: "line 2: BadLine\n",
            answer: Err(ConsoleFault::Script),
        },
        // fault_space_at_the_start
        Row {
            script: "actor a1 counter c1\n send c1 0\n",
            output: "line 2: BadLine\n",
            answer: Err(ConsoleFault::Script),
        },
        // fault_step_of_threads
        Row {
            script: "actor a1 counter c1\nawait c1 0\n",
            output: "line 2: BadLine\n",
            answer: Err(ConsoleFault::Script),
        },
        // fault_tab
        Row {
            script: "actor a1 counter c1\ndeliver\t0\n",
            output: "line 2: BadLine\n",
            answer: Err(ConsoleFault::Script),
        },
        // fault_text_of_65
        Row {
            script: "actor a1 counter c1\nsubmit c1 a1 put \"xxxxxxxxxxxxxxxxxxxxxxxxxxxxxxxxxxxxxxxxxxxxxxxxxxxxxxxxxxxxxxxxx\" 1\n",
            output: "line 2: BadLine\n",
            answer: Err(ConsoleFault::Script),
        },
        // fault_two_spaces
        Row {
            script: "actor a1 counter c1\nsend c1  0\n",
            output: "line 2: BadLine\n",
            answer: Err(ConsoleFault::Script),
        },
        // kill_after_retiring
        Row {
            script: "actor a1 counter c1\nkill c1 a1\nrelease c1 a1\ndeliver 0\nretire a1\ntake a1\nretire a1\n",
            output: "0: asked\n1: mail 0\n2: new\n3: retired\n4: refused ActorEnded\n5: refused ActorEnded\na1 retired counter 0\n",
            answer: Ok(()),
        },
        // kill_with_held_calls
        Row {
            script: "actor a1 counter c1\nsubmit c1 a1 add 1\nsubmit c1 a1 add 2\nsubmit c1 a1 add 3\nsubmit c1 a1 add 4\nsend c1 0\nsend c1 1\nsend c1 2\nsend c1 3\ndeliver 0\nrun a1 c1\ndeliver 2\ndeliver 3\nkill c1 a1\ntake a1\ndeliver 1\nrun a1 c1\ntake a1\nretire a1\ntell a1 c1\ncollect 1\n",
            output: "0: future c1.0\n1: future c1.1\n2: future c1.2\n3: future c1.3\n4: mail 0\n5: mail 1\n6: mail 2\n7: mail 3\n8: new\n9: place 0 reply 0\n10: new\n11: new\n12: asked\n13: dead\n14: refused ActorEnded\n15: refused ActorEnded\n16: refused ActorEnded\n17: refused ActorEnded\n18: reply 1\n19: died 4\nc1.0 a1 = ActorDied\nc1.1 a1 = ActorDied\nc1.2 a1 = ActorDied\nc1.3 a1 = ActorDied\na1 dead\na1.0 c1.0 add 1\n",
            answer: Ok(()),
        },
    ]
}

fn rows_6() -> &'static [Row] {
    &[
        // known_dead
        Row {
            script: "actor a1 counter c1\nkill c1 a1\ntell a1 c1\ntake a1\ntell a1 c1\ncollect 0\nsubmit c1 a1 get\nsend c1 0\nrelease c1 a1\nsubmit c1 a1 get\nkill c1 a1\ndeliver 0\n",
            output: "0: asked\n1: refused NotDead\n2: dead\n3: reply 0\n4: died 0\n5: future c1.0\n6: refused Answered\n7: mail 0\n8: refused NoHandle\n9: refused NoHandle\n10: refused ActorEnded\nc1.0 a1 = ActorDied\na1 dead\n",
            answer: Ok(()),
        },
        // largest_number
        Row {
            script: "actor a1 counter c1\nsubmit c1 a1 add 9223372036854775807\nsubmit c1 a1 add 1\nsubmit c1 a1 get\nsend c1 0\nsend c1 1\nsend c1 2\ndeliver 0\ndeliver 1\ndeliver 2\nrun a1 c1\nrun a1 c1\nrun a1 c1\ncollect 0\ncollect 1\ncollect 2\n",
            output: "0: future c1.0\n1: future c1.1\n2: future c1.2\n3: mail 0\n4: mail 1\n5: mail 2\n6: new\n7: new\n8: new\n9: place 0 reply 0\n10: place 1 reply 1\n11: place 2 reply 2\n12: kept c1.0\n13: kept c1.1\n14: kept c1.2\nc1.0 a1 = 9223372036854775807\nc1.1 a1 = Overflow\nc1.2 a1 = 9223372036854775807\na1 live counter 9223372036854775807\na1.0 c1.0 add 9223372036854775807\na1.1 c1.1 add 1\na1.2 c1.2 get\n",
            answer: Ok(()),
        },
        // limit_above_all
        Row {
            script: "actor a1 counter max 65537 c1\n",
            output: "line 1: BadLine\n",
            answer: Err(ConsoleFault::Script),
        },
        // limit_after_the_callers
        Row {
            script: "actor a1 counter c1 max 1\n",
            output: "line 1: BadLine\n",
            answer: Err(ConsoleFault::Script),
        },
        // limit_alone
        Row {
            script: "actor a1 counter max\n",
            output: "line 1: BadLine\n",
            answer: Err(ConsoleFault::Script),
        },
        // limit_and_a_caller_twice
        Row {
            script: "actor a1 counter max 1 c1 c2 c1\n",
            output: "line 1: TwiceCaller\n",
            answer: Err(ConsoleFault::Script),
        },
        // limit_at_its_largest
        Row {
            script: "actor a1 counter max 65536 c1\nsubmit c1 a1 get\n",
            output: "0: future c1.0\nc1.0 a1 ?\na1 live counter 0\n",
            answer: Ok(()),
        },
        // limit_chains_over_two_actors
        Row {
            script: "actor a1 counter max 1 c1\nactor a2 counter max 1 c1\nsubmit c1 a1 add 1\nsubmit c1 a2 add @0\nsubmit c1 a1 add @1\nsend c1 0\ndeliver 0\nrun a1 c1\nsubmit c1 a1 add @1\ncollect 0\nsubmit c1 a1 add @1\nsubmit c1 a2 add 1\nsend c1 1\ndeliver 1\nrun a2 c1\ncollect 1\nsend c1 2\ndeliver 2\nrun a1 c1\ncollect 2\n",
            output: "0: future c1.0\n1: future c1.1\n2: refused PendingLimit\n3: mail 0\n4: new\n5: place 0 reply 0\n6: refused PendingLimit\n7: kept c1.0\n8: future c1.2\n9: refused PendingLimit\n10: mail 1\n11: new\n12: place 0 reply 1\n13: kept c1.1\n14: mail 2\n15: new\n16: place 1 reply 2\n17: kept c1.2\nc1.0 a1 = 1\nc1.1 a2 = 1\nc1.2 a1 = 2\na1 live counter 2\na1.0 c1.0 add 1\na1.1 c1.2 add 1\na2 live counter 1\na2.0 c1.1 add 1\n",
            answer: Ok(()),
        },
    ]
}

fn rows_7() -> &'static [Row] {
    &[
        // limit_counts_a_terminate
        Row {
            script: "actor a1 counter max 1 c1\nsubmit c1 a1 terminate\nsend c1 0\ndeliver 0\nrun a1 c1\nsubmit c1 a1 get\ntell a1 c1\ncollect 1\nsubmit c1 a1 get\ncollect 0\n",
            output: "0: future c1.0\n1: mail 0\n2: new\n3: place 0 reply 0\n4: refused PendingLimit\n5: reply 1\n6: died 1\n7: future c1.1\n8: late c1.0\nc1.0 a1 = ActorDied\nc1.1 a1 = ActorDied\na1 dead\na1.0 c1.0 terminate\n",
            answer: Ok(()),
        },
        // limit_counts_each_caller_alone
        Row {
            script: "actor a1 counter max 2 c1 c2\nsubmit c1 a1 add 1\nsubmit c1 a1 add 2\nsubmit c1 a1 add 3\nsubmit c2 a1 add 4\nkill c2 a1\ntake a1\nsubmit c1 a1 add 3\ntell a1 c1\nsubmit c1 a1 add 3\ncollect 0\nsubmit c1 a1 add 3\nsubmit c1 a1 add 3\nsubmit c1 a1 add 3\nsubmit c2 a1 add 4\nsubmit c2 a1 add 4\n",
            output: "0: future c1.0\n1: future c1.1\n2: refused PendingLimit\n3: future c2.0\n4: asked\n5: dead\n6: refused PendingLimit\n7: reply 0\n8: refused PendingLimit\n9: died 2\n10: future c1.2\n11: future c1.3\n12: future c1.4\n13: future c2.1\n14: refused PendingLimit\nc1.0 a1 = ActorDied\nc1.1 a1 = ActorDied\nc1.2 a1 = ActorDied\nc1.3 a1 = ActorDied\nc1.4 a1 = ActorDied\nc2.0 a1 ?\nc2.1 a1 ?\na1 dead\n",
            answer: Ok(()),
        },
        // limit_counts_what_was_not_collected
        Row {
            script: "actor a1 counter max 2 c1\nsubmit c1 a1 add 1\nsubmit c1 a1 add 2\nsubmit c1 a1 add 3\nsend c1 0\ndeliver 0\nrun a1 c1\nsubmit c1 a1 add 3\ncollect 0\nsubmit c1 a1 add 3\n",
            output: "0: future c1.0\n1: future c1.1\n2: refused PendingLimit\n3: mail 0\n4: new\n5: place 0 reply 0\n6: refused PendingLimit\n7: kept c1.0\n8: future c1.2\nc1.0 a1 = 1\nc1.1 a1 ?\nc1.2 a1 ?\na1 live counter 1\na1.0 c1.0 add 1\n",
            answer: Ok(()),
        },
        // limit_gets_no_room_by_a_late_reply
        Row {
            script: "actor a1 counter max 2 c1\nsubmit c1 a1 add 1\nsubmit c1 a1 add 2\nsend c1 0\ndeliver 0\nrun a1 c1\ncollect 0\ncollect 0\nsubmit c1 a1 add 3\nsubmit c1 a1 add 4\n",
            output: "0: future c1.0\n1: future c1.1\n2: mail 0\n3: new\n4: place 0 reply 0\n5: kept c1.0\n6: late c1.0\n7: future c1.2\n8: refused PendingLimit\nc1.0 a1 = 1\nc1.1 a1 ?\nc1.2 a1 ?\na1 live counter 1\na1.0 c1.0 add 1\n",
            answer: Ok(()),
        },
        // limit_is_the_last_refusal
        Row {
            script: "actor a1 counter max 1 c1\nsubmit c1 a1 get\nsubmit c1 a1 get 1 2 3 4 5\nsubmit c1 a1 get @1\nsubmit c1 a1 get\nrelease c1 a1\nsubmit c1 a1 get\nsubmit c1 a2 get\nsubmit c2 a1 get\n",
            output: "0: future c1.0\n1: refused TooManyArgs\n2: refused BadFuture\n3: refused PendingLimit\n4: mail 0\n5: refused NoHandle\n6: refused NoActor\n7: refused NoCaller\nc1.0 a1 ?\na1 live counter 0\n",
            answer: Ok(()),
        },
        // limit_makes_room_at_the_death
        Row {
            script: "actor a1 counter max 1 c1\nsubmit c1 a1 get\nsubmit c1 a1 get @1\nsubmit c1 a1 get\nkill c1 a1\ntake a1\ntell a1 c1\ncollect 0\nsubmit c1 a1 get\n",
            output: "0: future c1.0\n1: refused BadFuture\n2: refused PendingLimit\n3: asked\n4: dead\n5: reply 0\n6: died 1\n7: future c1.1\nc1.0 a1 = ActorDied\nc1.1 a1 = ActorDied\na1 dead\n",
            answer: Ok(()),
        },
        // limit_of_no_caller
        Row {
            script: "actor a1 counter max 1\n",
            output: "line 1: BadLine\n",
            answer: Err(ConsoleFault::Script),
        },
        // limit_of_nothing
        Row {
            script: "actor a1 counter max 0 c1\n",
            output: "line 1: BadLine\n",
            answer: Err(ConsoleFault::Script),
        },
    ]
}

fn rows_8() -> &'static [Row] {
    &[
        // limit_twice
        Row {
            script: "actor a1 counter max 1 max 1 c1\n",
            output: "line 1: BadLine\n",
            answer: Err(ConsoleFault::Script),
        },
        // limit_with_a_zero
        Row {
            script: "actor a1 counter max 01 c1\n",
            output: "line 1: BadLine\n",
            answer: Err(ConsoleFault::Script),
        },
        // limit_without_its_number
        Row {
            script: "actor a1 counter max c1\n",
            output: "line 1: BadLine\n",
            answer: Err(ConsoleFault::Script),
        },
        // lost_letter
        Row {
            script: "actor a1 counter c1\nsubmit c1 a1 add 1\nsubmit c1 a1 add 2\nsubmit c1 a1 add 3\nsend c1 0\nsend c1 1\nsend c1 2\ndeliver 0\ndeliver 2\nrun a1 c1\nrun a1 c1\nrun a1 c1\n",
            output: "0: future c1.0\n1: future c1.1\n2: future c1.2\n3: mail 0\n4: mail 1\n5: mail 2\n6: new\n7: new\n8: place 0 reply 0\n9: gap\n10: gap\nc1.0 a1 ?\nc1.1 a1 ?\nc1.2 a1 ?\na1 live counter 1\na1.0 c1.0 add 1\n",
            answer: Ok(()),
        },
        // no_last_line_end
        Row {
            script: "actor a1 counter c1",
            output: "a1 live counter 0\n",
            answer: Ok(()),
        },
        // nothing_there
        Row {
            script: "actor a1 counter c1\ndeliver 0\ncollect 0\ntake a1\nsend c1 0\nrun a1 c1\nrun a2 c1\nrun a1 c2\ntell a1 c1\n",
            output: "0: refused NoMail\n1: refused NoReply\n2: refused NoKill\n3: refused NoFuture\n4: gap\n5: refused NoActor\n6: refused NoCaller\n7: refused NotDead\na1 live counter 0\n",
            answer: Ok(()),
        },
        // one_call
        Row {
            script: "actor a1 counter c1\nsubmit c1 a1 add 5\nsend c1 0\ndeliver 0\nrun a1 c1\ncollect 0\n",
            output: "0: future c1.0\n1: mail 0\n2: new\n3: place 0 reply 0\n4: kept c1.0\nc1.0 a1 = 5\na1 live counter 5\na1.0 c1.0 add 5\n",
            answer: Ok(()),
        },
        // one_packet_for_good
        Row {
            script: "actor a1 counter c1\nactor a2 list c1\nsubmit c1 a1 add 5\nsubmit c1 a2 push @0\nsend c1 0\ndeliver 0\nrun a1 c1\nkill c1 a1\ntake a1\ntell a1 c1\ncollect 1\nsend c1 1\ncollect 0\nsend c1 1\ndeliver 2\ndeliver 1\nrun a2 c1\ncollect 2\n",
            output: "0: future c1.0\n1: future c1.1\n2: mail 0\n3: new\n4: place 0 reply 0\n5: asked\n6: dead\n7: reply 1\n8: died 1\n9: mail 1\n10: late c1.0\n11: mail 2\n12: new\n13: repeat\n14: place 0 reply 2\n15: kept c1.1\nc1.0 a1 = ActorDied\nc1.1 a2 = Dependency(0)\na1 dead\na1.0 c1.0 add 5\na2 live list\na2.0 c1.1 push !0\n",
            answer: Ok(()),
        },
    ]
}

fn rows_9() -> &'static [Row] {
    &[
        // quotes_in_a_text
        Row {
            script: "actor a1 counter c1\nsubmit c1 a1 put \"\"\" 1\n",
            output: "0: future c1.0\nc1.0 a1 ?\na1 live counter 0\n",
            answer: Ok(()),
        },
        // ran_and_yet_died
        Row {
            script: "actor a1 counter c1\nsubmit c1 a1 add 5\nsend c1 0\ndeliver 0\nrun a1 c1\nkill c1 a1\ntake a1\ntell a1 c1\ncollect 1\ncollect 0\n",
            output: "0: future c1.0\n1: mail 0\n2: new\n3: place 0 reply 0\n4: asked\n5: dead\n6: reply 1\n7: died 1\n8: late c1.0\nc1.0 a1 = ActorDied\na1 dead\na1.0 c1.0 add 5\n",
            answer: Ok(()),
        },
        // refused_submissions
        Row {
            script: "actor a1 counter c1\nsubmit c1 a1 add @0\nsubmit c1 a1 add 1 2 3 4 5\nsubmit c1 a2 get\nsubmit c2 a1 get\nsubmit c1 a1 add 1 2\nsend c1 0\ndeliver 0\nrun a1 c1\ncollect 0\n",
            output: "0: refused BadFuture\n1: refused TooManyArgs\n2: refused NoActor\n3: refused NoCaller\n4: future c1.0\n5: mail 0\n6: new\n7: place 0 reply 0\n8: kept c1.0\nc1.0 a1 = BadArgs\na1 live counter 0\na1.0 c1.0 add 1 2\n",
            answer: Ok(()),
        },
        // release_and_retire
        Row {
            script: "actor a1 counter c1\nsubmit c1 a1 add 2\nsend c1 0\ncopy c1 a1\nrelease c1 a1\nrelease c1 a1\nretire a1\ndeliver 1\nretire a1\ndeliver 1\ndeliver 0\nretire a1\nrun a1 c1\nretire a1\ndeliver 0\ncollect 0\n",
            output: "0: future c1.0\n1: mail 0\n2: copies 2\n3: copies 1\n4: mail 1\n5: refused NotDrained\n6: new\n7: refused NotDrained\n8: repeat\n9: new\n10: refused NotDrained\n11: place 0 reply 0\n12: retired\n13: refused ActorEnded\n14: kept c1.0\nc1.0 a1 = 2\na1 retired counter 2\na1.0 c1.0 add 2\n",
            answer: Ok(()),
        },
        // repeated_delivery
        Row {
            script: "actor a1 counter c1\nsubmit c1 a1 add 5\nsend c1 0\ndeliver 0\ndeliver 0\nrun a1 c1\ndeliver 0\nrun a1 c1\n",
            output: "0: future c1.0\n1: mail 0\n2: new\n3: repeat\n4: place 0 reply 0\n5: repeat\n6: gap\nc1.0 a1 ?\na1 live counter 5\na1.0 c1.0 add 5\n",
            answer: Ok(()),
        },
        // reversed_delivery
        Row {
            script: "actor a1 counter c1\nsubmit c1 a1 add 1\nsubmit c1 a1 add 2\nsubmit c1 a1 add 3\nsend c1 0\nsend c1 1\nsend c1 2\ndeliver 2\nrun a1 c1\ndeliver 1\nrun a1 c1\ndeliver 0\nrun a1 c1\nrun a1 c1\nrun a1 c1\n",
            output: "0: future c1.0\n1: future c1.1\n2: future c1.2\n3: mail 0\n4: mail 1\n5: mail 2\n6: new\n7: gap\n8: new\n9: gap\n10: new\n11: place 0 reply 0\n12: place 1 reply 1\n13: place 2 reply 2\nc1.0 a1 ?\nc1.1 a1 ?\nc1.2 a1 ?\na1 live counter 6\na1.0 c1.0 add 1\na1.1 c1.1 add 2\na1.2 c1.2 add 3\n",
            answer: Ok(()),
        },
        // sent_again
        Row {
            script: "actor a1 counter c1\nsubmit c1 a1 add 5\nsend c1 0\ndeliver 0\nrun a1 c1\ncollect 0\nsend c1 0\ndeliver 1\nrun a1 c1\n",
            output: "0: future c1.0\n1: mail 0\n2: new\n3: place 0 reply 0\n4: kept c1.0\n5: mail 1\n6: repeat\n7: gap\nc1.0 a1 = 5\na1 live counter 5\na1.0 c1.0 add 5\n",
            answer: Ok(()),
        },
        // skipped_lines
        Row {
            script: "\n# a comment\nactor a1 counter c1\n\n#\nsubmit c1 a1 add 5\n\n",
            output: "0: future c1.0\nc1.0 a1 ?\na1 live counter 0\n",
            answer: Ok(()),
        },
    ]
}

fn rows_10() -> &'static [Row] {
    &[
        // table_script
        Row {
            script: "actor a1 table c1\nsubmit c1 a1 put \"k\" 5\nsubmit c1 a1 get \"k\"\nsend c1 0\nsend c1 1\ndeliver 1\ndeliver 0\nrun a1 c1\nrun a1 c1\ncollect 1\ncollect 0\n",
            output: "0: future c1.0\n1: future c1.1\n2: mail 0\n3: mail 1\n4: new\n5: new\n6: place 0 reply 0\n7: place 1 reply 1\n8: kept c1.1\n9: kept c1.0\nc1.0 a1 = unit\nc1.1 a1 = 5\na1 live table \"k\" 5\na1.0 c1.0 put \"k\" 5\na1.1 c1.1 get \"k\"\n",
            answer: Ok(()),
        },
        // terminate_before_a_kill_is_taken
        Row {
            script: "actor a1 list c1\nsubmit c1 a1 push 4\nsubmit c1 a1 terminate\nsend c1 0\nsend c1 1\ndeliver 0\ndeliver 1\nkill c1 a1\nrun a1 c1\nrun a1 c1\ntake a1\ntell a1 c1\ncollect 2\ncollect 1\ncollect 0\n",
            output: "0: future c1.0\n1: future c1.1\n2: mail 0\n3: mail 1\n4: new\n5: new\n6: asked\n7: place 0 reply 0\n8: place 1 reply 1\n9: refused ActorEnded\n10: reply 2\n11: died 2\n12: late c1.1\n13: late c1.0\nc1.0 a1 = ActorDied\nc1.1 a1 = ActorDied\na1 dead\na1.0 c1.0 push 4\na1.1 c1.1 terminate\n",
            answer: Ok(()),
        },
        // terminate_held_by_a_gap
        Row {
            script: "actor a1 counter c1\nsubmit c1 a1 add 5\nsubmit c1 a1 terminate\nsend c1 0\nsend c1 1\ndeliver 1\nrun a1 c1\ntell a1 c1\ndeliver 0\nrun a1 c1\nrun a1 c1\ndeliver 0\ncollect 0\ncollect 1\n",
            output: "0: future c1.0\n1: future c1.1\n2: mail 0\n3: mail 1\n4: new\n5: gap\n6: refused NotDead\n7: new\n8: place 0 reply 0\n9: place 1 reply 1\n10: refused ActorEnded\n11: kept c1.0\n12: kept c1.1\nc1.0 a1 = 5\nc1.1 a1 = unit\na1 dead\na1.0 c1.0 add 5\na1.1 c1.1 terminate\n",
            answer: Ok(()),
        },
        // terminate_leaves_nothing_to_retire
        Row {
            script: "actor a1 account c1\nsubmit c1 a1 terminate\nrelease c1 a1\nsend c1 0\ndeliver 0\ndeliver 1\nretire a1\nrun a1 c1\nretire a1\ndeliver 0\ntell a1 c1\ncollect 0\n",
            output: "0: future c1.0\n1: mail 0\n2: mail 1\n3: new\n4: new\n5: refused NotDrained\n6: place 0 reply 0\n7: refused ActorEnded\n8: refused ActorEnded\n9: reply 1\n10: kept c1.0\nc1.0 a1 = unit\na1 dead\na1.0 c1.0 terminate\n",
            answer: Ok(()),
        },
        // terminate_waits_its_turn
        Row {
            script: "actor a1 counter c1\nsubmit c1 a1 add 5\nsubmit c1 a1 terminate\nsubmit c1 a1 add 1\nsend c1 0\nsend c1 1\nsend c1 2\ndeliver 2\ndeliver 1\ndeliver 0\nrun a1 c1\nrun a1 c1\nrun a1 c1\ncollect 0\ncollect 1\ntell a1 c1\ncollect 2\n",
            output: "0: future c1.0\n1: future c1.1\n2: future c1.2\n3: mail 0\n4: mail 1\n5: mail 2\n6: new\n7: new\n8: new\n9: place 0 reply 0\n10: place 1 reply 1\n11: refused ActorEnded\n12: kept c1.0\n13: kept c1.1\n14: reply 2\n15: died 1\nc1.0 a1 = 5\nc1.1 a1 = unit\nc1.2 a1 = ActorDied\na1 dead\na1.0 c1.0 add 5\na1.1 c1.1 terminate\n",
            answer: Ok(()),
        },
        // terminate_with_an_argument
        Row {
            script: "actor a1 counter c1\nsubmit c1 a1 terminate 1\nsubmit c1 a1 add 2\nsend c1 0\nsend c1 1\ndeliver 0\ndeliver 1\nrun a1 c1\nrun a1 c1\ncollect 0\ncollect 1\n",
            output: "0: future c1.0\n1: future c1.1\n2: mail 0\n3: mail 1\n4: new\n5: new\n6: place 0 reply 0\n7: place 1 reply 1\n8: kept c1.0\n9: kept c1.1\nc1.0 a1 = BadArgs\nc1.1 a1 = 2\na1 live counter 2\na1.0 c1.0 terminate 1\na1.1 c1.1 add 2\n",
            answer: Ok(()),
        },
        // terminate_with_calls_of_another_held
        Row {
            script: "actor a1 counter c1 c2\nsubmit c1 a1 terminate\nsubmit c2 a1 add 1\nsubmit c2 a1 add 2\nsend c2 0\nsend c2 1\nsend c1 0\ndeliver 0\ndeliver 2\nrun a1 c1\nrun a1 c2\ndeliver 1\ntell a1 c2\ntell a1 c1\ncollect 0\ncollect 1\ncollect 2\nsubmit c1 a1 get\nsubmit c2 a1 get\n",
            output: "0: future c1.0\n1: future c2.0\n2: future c2.1\n3: mail 0\n4: mail 1\n5: mail 2\n6: new\n7: new\n8: place 0 reply 0\n9: refused ActorEnded\n10: refused ActorEnded\n11: reply 1\n12: reply 2\n13: kept c1.0\n14: died 2\n15: died 0\n16: future c1.1\n17: future c2.2\nc1.0 a1 = unit\nc1.1 a1 = ActorDied\nc2.0 a1 = ActorDied\nc2.1 a1 = ActorDied\nc2.2 a1 = ActorDied\na1 dead\na1.0 c1.0 terminate\n",
            answer: Ok(()),
        },
        // terminate_with_failed_arguments
        Row {
            script: "actor a1 table c1\nsubmit c1 a1 get \"x\"\nsubmit c1 a1 size\nsend c1 0\nsend c1 1\ndeliver 0\ndeliver 1\nrun a1 c1\nrun a1 c1\ncollect 0\ncollect 1\nsubmit c1 a1 terminate @0\nsubmit c1 a1 terminate @1\nsubmit c1 a1 terminate 1 @0\nsubmit c1 a1 size\nsend c1 2\nsend c1 3\nsend c1 4\nsend c1 5\ndeliver 2\ndeliver 3\ndeliver 4\ndeliver 5\nrun a1 c1\nrun a1 c1\nrun a1 c1\nrun a1 c1\ncollect 2\ncollect 3\ncollect 4\ncollect 5\n",
            output: "0: future c1.0\n1: future c1.1\n2: mail 0\n3: mail 1\n4: new\n5: new\n6: place 0 reply 0\n7: place 1 reply 1\n8: kept c1.0\n9: kept c1.1\n10: future c1.2\n11: future c1.3\n12: future c1.4\n13: future c1.5\n14: mail 2\n15: mail 3\n16: mail 4\n17: mail 5\n18: new\n19: new\n20: new\n21: new\n22: place 2 reply 2\n23: place 3 reply 3\n24: place 4 reply 4\n25: place 5 reply 5\n26: kept c1.2\n27: kept c1.3\n28: kept c1.4\n29: kept c1.5\nc1.0 a1 = NoKey\nc1.1 a1 = 0\nc1.2 a1 = Dependency(0)\nc1.3 a1 = BadArgs\nc1.4 a1 = Dependency(0)\nc1.5 a1 = 0\na1 live table\na1.0 c1.0 get \"x\"\na1.1 c1.1 size\na1.2 c1.2 terminate !0\na1.3 c1.3 terminate 0\na1.4 c1.4 terminate 1 !0\na1.5 c1.5 size\n",
            answer: Ok(()),
        },
    ]
}

fn rows_11() -> &'static [Row] {
    &[
        // two_failed_arguments
        Row {
            script: "actor a1 list c1\nsubmit c1 a1 pop\nsubmit c1 a1 at 5\nsend c1 0\nsend c1 1\ndeliver 0\ndeliver 1\nrun a1 c1\nrun a1 c1\ncollect 0\ncollect 1\nsubmit c1 a1 push @1 @0\nsend c1 2\ndeliver 2\nrun a1 c1\ncollect 2\n",
            output: "0: future c1.0\n1: future c1.1\n2: mail 0\n3: mail 1\n4: new\n5: new\n6: place 0 reply 0\n7: place 1 reply 1\n8: kept c1.0\n9: kept c1.1\n10: future c1.2\n11: mail 2\n12: new\n13: place 2 reply 2\n14: kept c1.2\nc1.0 a1 = NoItems\nc1.1 a1 = NoItem\nc1.2 a1 = Dependency(1)\na1 live list\na1.0 c1.0 pop\na1.1 c1.1 at 5\na1.2 c1.2 push !1 !0\n",
            answer: Ok(()),
        },
    ]
}
