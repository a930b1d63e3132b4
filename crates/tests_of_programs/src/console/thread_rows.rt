//! The worked scripts for threads that lie beside the program, as tools/rows_in_test.py writes them.

use super::rows::Row;
use act_console::ConsoleFault;

/// All of the scripts.
pub fn tables() -> [&'static [Row]; 6] {
    [rows_1(), rows_2(), rows_3(), rows_4(), rows_5(), rows_6()]
}

fn rows_1() -> &'static [Row] {
    &[
        // a_failed_argument
        Row {
            script: "actor a1 table c1\nactor a2 list c1\nsubmit c1 a1 get \"x\"\nsubmit c1 a2 push @0\nsubmit c1 a2 push @1\nsubmit c1 a2 len\n",
            output: "c1.0 a1 = NoKey\nc1.1 a2 = Dependency(0)\nc1.2 a2 = Dependency(1)\nc1.3 a2 = 0\na1 retired table\na1.0 c1.0 get \"x\"\na2 retired list\na2.0 c1.1 push !0\na2.1 c1.2 push !1\na2.2 c1.3 len\n",
            answer: Ok(()),
        },
        // a_list_alone
        Row {
            script: "actor a1 list c1\n",
            output: "a1 retired list\n",
            answer: Ok(()),
        },
        // a_table_and_an_account
        Row {
            script: "actor a1 table c1 c2\nactor a2 account c2\nsubmit c1 a1 put \"k\" 5\nsubmit c1 a1 get \"k\"\nsubmit c2 a2 deposit 10\nsubmit c2 a2 withdraw @0\n",
            output: "c1.0 a1 = unit\nc1.1 a1 = 5\nc2.0 a2 = 10\nc2.1 a2 = 0\na1 retired table \"k\" 5\na1.0 c1.0 put \"k\" 5\na1.1 c1.1 get \"k\"\na2 retired account 0\na2.0 c2.0 deposit 10\na2.1 c2.1 withdraw 10\n",
            answer: Ok(()),
        },
        // all_callers_and_actors
        Row {
            script: "actor a8 counter c8 c9 c10 c11 c12 c13 c14 c15 c16\nactor a7 counter c7 c9 c10 c11 c12 c13 c14 c15 c16\nactor a6 counter c6 c9 c10 c11 c12 c13 c14 c15 c16\nactor a5 counter c5 c9 c10 c11 c12 c13 c14 c15 c16\nactor a4 counter c4 c9 c10 c11 c12 c13 c14 c15 c16\nactor a3 counter c3 c9 c10 c11 c12 c13 c14 c15 c16\nactor a2 counter c2 c9 c10 c11 c12 c13 c14 c15 c16\nactor a1 counter c1 c9 c10 c11 c12 c13 c14 c15 c16\nsubmit c1 a1 add 1\nsubmit c2 a2 add 2\nsubmit c3 a3 add 3\nsubmit c4 a4 add 4\nsubmit c5 a5 add 5\nsubmit c6 a6 add 6\nsubmit c7 a7 add 7\nsubmit c8 a8 add 8\nsubmit c1 a1 add @0\nsubmit c2 a2 add @0\nsubmit c3 a3 add @0\nsubmit c4 a4 add @0\nsubmit c5 a5 add @0\nsubmit c6 a6 add @0\nsubmit c7 a7 add @0\nsubmit c8 a8 add @0\ncopy c16 a8\nrelease c9 a1\n",
            output: "c1.0 a1 = 1\nc1.1 a1 = 2\nc2.0 a2 = 2\nc2.1 a2 = 4\nc3.0 a3 = 3\nc3.1 a3 = 6\nc4.0 a4 = 4\nc4.1 a4 = 8\nc5.0 a5 = 5\nc5.1 a5 = 10\nc6.0 a6 = 6\nc6.1 a6 = 12\nc7.0 a7 = 7\nc7.1 a7 = 14\nc8.0 a8 = 8\nc8.1 a8 = 16\na1 retired counter 2\na1.0 c1.0 add 1\na1.1 c1.1 add 1\na2 retired counter 4\na2.0 c2.0 add 2\na2.1 c2.1 add 2\na3 retired counter 6\na3.0 c3.0 add 3\na3.1 c3.1 add 3\na4 retired counter 8\na4.0 c4.0 add 4\na4.1 c4.1 add 4\na5 retired counter 10\na5.0 c5.0 add 5\na5.1 c5.1 add 5\na6 retired counter 12\na6.0 c6.0 add 6\na6.1 c6.1 add 6\na7 retired counter 14\na7.0 c7.0 add 7\na7.1 c7.1 add 7\na8 retired counter 16\na8.0 c8.0 add 8\na8.1 c8.1 add 8\n",
            answer: Ok(()),
        },
        // an_awaited_answer
        Row {
            script: "actor a1 counter c1\nsubmit c1 a1 add 1\nawait c1 0\nsubmit c1 a1 add @0\n",
            output: "c1.0 a1 = 1\nc1.1 a1 = 2\na1 retired counter 2\na1.0 c1.0 add 1\na1.1 c1.1 add 1\n",
            answer: Ok(()),
        },
        // an_earlier_call_waits
        Row {
            script: "actor a2 account c1\nactor a1 counter c1\nsubmit c1 a1 add 7\nsubmit c1 a2 deposit @0\nsubmit c1 a2 withdraw 5\nsubmit c1 a1 add @2\n",
            output: "c1.0 a1 = 7\nc1.1 a2 = 7\nc1.2 a2 = 2\nc1.3 a1 = 9\na1 retired counter 9\na1.0 c1.0 add 7\na1.1 c1.3 add 2\na2 retired account 2\na2.0 c1.1 deposit 7\na2.1 c1.2 withdraw 5\n",
            answer: Ok(()),
        },
        // bad_actor_of_another
        Row {
            script: "actor a1 counter c1\nactor a2 counter c2\nsubmit c1 a2 get\n",
            output: "line 3: BadPlan\n",
            answer: Err(ConsoleFault::Script),
        },
        // bad_actor_without_role
        Row {
            script: "actor a1 counter c1\nkill c1 a8\n",
            output: "line 2: BadPlan\n",
            answer: Err(ConsoleFault::Script),
        },
    ]
}

fn rows_2() -> &'static [Row] {
    &[
        // bad_await_after_a_kill
        Row {
            script: "actor a3 counter c16\nkill c16 a3\nawait c16 0\n",
            output: "line 3: BadPlan\n",
            answer: Err(ConsoleFault::Script),
        },
        // bad_await_of_nothing
        Row {
            script: "actor a1 counter c1\nawait c1 0\n",
            output: "line 2: BadPlan\n",
            answer: Err(ConsoleFault::Script),
        },
        // bad_await_of_the_next
        Row {
            script: "actor a1 counter c1\nsubmit c1 a1 get\nawait c1 1\nsubmit c1 a1 get\n",
            output: "line 3: BadPlan\n",
            answer: Err(ConsoleFault::Script),
        },
        // bad_copy_after_release
        Row {
            script: "actor a1 counter c1\nrelease c1 a1\ncopy c1 a1\n",
            output: "line 3: BadPlan\n",
            answer: Err(ConsoleFault::Script),
        },
        // bad_first_of_two
        Row {
            script: "actor a1 counter c1\nsubmit c1 a1 get\nawait c1 7\nawait c1 8\n",
            output: "line 3: BadPlan\n",
            answer: Err(ConsoleFault::Script),
        },
        // bad_five_arguments
        Row {
            script: "actor a1 list c1\nsubmit c1 a1 push 1 2 3 4\nsubmit c1 a1 push 1 2 3 4 5\n",
            output: "line 3: BadPlan\n",
            answer: Err(ConsoleFault::Script),
        },
        // bad_kill_after_release
        Row {
            script: "actor a1 counter c1 c2\nrelease c2 a1\ncopy c2 a1\nrelease c1 a1\nkill c1 a1\n",
            output: "line 5: BadPlan\n",
            answer: Err(ConsoleFault::Script),
        },
        // bad_line_counts_skipped_lines
        Row {
            script: "# c1 has no future\n\nactor a1 counter c1\n#\n\nawait c1 4294967295",
            output: "line 6: BadPlan\n",
            answer: Err(ConsoleFault::Script),
        },
    ]
}

fn rows_3() -> &'static [Row] {
    &[
        // bad_own_future
        Row {
            script: "actor a1 counter c1\nsubmit c1 a1 get\nsubmit c1 a1 add @1\n",
            output: "line 3: BadPlan\n",
            answer: Err(ConsoleFault::Script),
        },
        // bad_second_release
        Row {
            script: "actor a1 counter c1\ncopy c1 a1\nrelease c1 a1\nrelease c1 a1\nrelease c1 a1\n",
            output: "line 5: BadPlan\n",
            answer: Err(ConsoleFault::Script),
        },
        // bad_step_of_a_lower_caller
        Row {
            script: "actor a1 counter c1 c2\nawait c2 0\nsubmit c1 a1 get\nawait c1 1\n",
            output: "line 4: BadPlan\n",
            answer: Err(ConsoleFault::Script),
        },
        // bad_stranger
        Row {
            script: "actor a1 counter c1\nsubmit c2 a1 get\n",
            output: "line 2: BadPlan\n",
            answer: Err(ConsoleFault::Script),
        },
        // bad_stranger_after_a_bad_step
        Row {
            script: "actor a1 counter c1\nawait c1 0\nkill c3 a1\n",
            output: "line 3: BadPlan\n",
            answer: Err(ConsoleFault::Script),
        },
        // bad_stranger_without_roles
        Row {
            script: "await c1 0\n",
            output: "line 1: BadPlan\n",
            answer: Err(ConsoleFault::Script),
        },
        // bad_submit_after_release
        Row {
            script: "actor a1 counter c1\nrelease c1 a1\nsubmit c1 a1 get\n",
            output: "line 3: BadPlan\n",
            answer: Err(ConsoleFault::Script),
        },
        // copies_and_releases
        Row {
            script: "actor a1 counter c1\ncopy c1 a1\ncopy c1 a1\nrelease c1 a1\nrelease c1 a1\nsubmit c1 a1 add -3\nrelease c1 a1\n",
            output: "c1.0 a1 = -3\na1 retired counter -3\na1.0 c1.0 add -3\n",
            answer: Ok(()),
        },
    ]
}

fn rows_4() -> &'static [Row] {
    &[
        // empty
        Row {
            script: "",
            output: "",
            answer: Ok(()),
        },
        // fault_actor_twice
        Row {
            script: "actor a1 counter c1\nactor a1 list c2\n",
            output: "line 2: TwiceActor\n",
            answer: Err(ConsoleFault::Script),
        },
        // fault_before_a_bad_plan
        Row {
            script: "actor a1 counter c1\nawait c1 0\nawait c2 0\nawait c1\n",
            output: "line 4: BadLine\n",
            answer: Err(ConsoleFault::Script),
        },
        // fault_caller_twice
        Row {
            script: "actor a1 counter c2 c1 c2\n",
            output: "line 1: TwiceCaller\n",
            answer: Err(ConsoleFault::Script),
        },
        // fault_late_actor
        Row {
            script: "actor a1 counter c1\nsubmit c1 a1 get\nactor a2 list c1\n",
            output: "line 3: LateActor\n",
            answer: Err(ConsoleFault::Script),
        },
        // fault_line_of_play
        Row {
            script: "actor a1 counter c1\nsend c1 0\n",
            output: "line 2: BadLine\n",
            answer: Err(ConsoleFault::Script),
        },
        // faults_of_a_method
        Row {
            script: "actor a8 account c16\nsubmit c16 a8 withdraw 1\nsubmit c16 a8 deposit 0\nsubmit c16 a8 get\nsubmit c16 a8 deposit \"x\"\nsubmit c16 a8 balance\n",
            output: "c16.0 a8 = Insufficient\nc16.1 a8 = BadAmount\nc16.2 a8 = NoMethod\nc16.3 a8 = BadArgs\nc16.4 a8 = 0\na8 retired account 0\na8.0 c16.0 withdraw 1\na8.1 c16.1 deposit 0\na8.2 c16.2 get\na8.3 c16.3 deposit \"x\"\na8.4 c16.4 balance\n",
            answer: Ok(()),
        },
        // limit_and_a_chain_over_two_actors
        Row {
            script: "actor a1 counter max 1 c1\nactor a2 counter max 1 c1\nsubmit c1 a1 add 1\nsubmit c1 a2 add @0\nsubmit c1 a1 add @1\nsubmit c1 a2 add @2\nsubmit c1 a1 add @3\nsubmit c1 a2 add @4\n",
            output: "c1.0 a1 = 1\nc1.1 a2 = 1\nc1.2 a1 = 2\nc1.3 a2 = 3\nc1.4 a1 = 5\nc1.5 a2 = 8\na1 retired counter 5\na1.0 c1.0 add 1\na1.1 c1.2 add 1\na1.2 c1.4 add 3\na2 retired counter 8\na2.0 c1.1 add 1\na2.1 c1.3 add 2\na2.2 c1.5 add 5\n",
            answer: Ok(()),
        },
    ]
}

fn rows_5() -> &'static [Row] {
    &[
        // limit_and_a_terminate
        Row {
            script: "actor a1 counter max 1 c1\nsubmit c1 a1 add 5\nsubmit c1 a1 terminate\nsubmit c1 a1 add 1\nsubmit c1 a1 add 2\n",
            output: "c1.0 a1 = 5\nc1.1 a1 = unit\nc1.2 a1 = ActorDied\nc1.3 a1 = ActorDied\na1 dead\na1.0 c1.0 add 5\na1.1 c1.1 terminate\n",
            answer: Ok(()),
        },
        // limit_and_an_await
        Row {
            script: "actor a1 counter max 2 c1\nsubmit c1 a1 add 1\nsubmit c1 a1 add 2\nawait c1 1\nsubmit c1 a1 add @1\nrelease c1 a1\n",
            output: "c1.0 a1 = 1\nc1.1 a1 = 3\nc1.2 a1 = 6\na1 retired counter 6\na1.0 c1.0 add 1\na1.1 c1.1 add 2\na1.2 c1.2 add 3\n",
            answer: Ok(()),
        },
        // limit_before_a_bad_plan
        Row {
            script: "actor a1 list max 1 c1\nsubmit c1 a1 push 4\nsubmit c1 a1 push 5\nsubmit c1 a1 push 6\nsubmit c1 a1 push 1 2 3 4 5\n",
            output: "line 5: BadPlan\n",
            answer: Err(ConsoleFault::Script),
        },
        // limit_of_each_actor_and_caller
        Row {
            script: "actor a1 list max 1 c1 c2\nactor a2 list max 2 c1 c2\nsubmit c1 a1 push 1\nsubmit c2 a2 push 10\nsubmit c1 a1 push 2\nsubmit c2 a2 push 20\nsubmit c1 a1 push @1\nsubmit c2 a2 push @0\nsubmit c2 a2 len\n",
            output: "c1.0 a1 = 1\nc1.1 a1 = 2\nc1.2 a1 = 3\nc2.0 a2 = 1\nc2.1 a2 = 2\nc2.2 a2 = 3\nc2.3 a2 = 3\na1 retired list 1 2 2\na1.0 c1.0 push 1\na1.1 c1.1 push 2\na1.2 c1.2 push 2\na2 retired list 10 20 1\na2.0 c2.0 push 10\na2.1 c2.1 push 20\na2.2 c2.2 push 1\na2.3 c2.3 len\n",
            answer: Ok(()),
        },
        // limit_of_nothing
        Row {
            script: "actor a1 list max 0 c1\nsubmit c2 a1 len\n",
            output: "line 1: BadLine\n",
            answer: Err(ConsoleFault::Script),
        },
        // limit_of_one
        Row {
            script: "actor a1 list max 1 c1\nsubmit c1 a1 push 4\nsubmit c1 a1 push 5\nsubmit c1 a1 push 6\n",
            output: "c1.0 a1 = 1\nc1.1 a1 = 2\nc1.2 a1 = 3\na1 retired list 4 5 6\na1.0 c1.0 push 4\na1.1 c1.1 push 5\na1.2 c1.2 push 6\n",
            answer: Ok(()),
        },
        // no_last_line_end
        Row {
            script: "actor a1 list c2\nsubmit c2 a1 push \"\"\"\nsubmit c2 a1 at 0",
            output: "c2.0 a1 = 1\nc2.1 a1 = \"\"\"\na1 retired list \"\"\"\na1.0 c2.0 push \"\"\"\na1.1 c2.1 at 0\n",
            answer: Ok(()),
        },
        // terminate_before_other_calls
        Row {
            script: "actor a1 counter c1\nsubmit c1 a1 terminate\nsubmit c1 a1 get\nawait c1 1\nsubmit c1 a1 get\n",
            output: "c1.0 a1 = unit\nc1.1 a1 = ActorDied\nc1.2 a1 = ActorDied\na1 dead\na1.0 c1.0 terminate\n",
            answer: Ok(()),
        },
    ]
}

fn rows_6() -> &'static [Row] {
    &[
        // terminate_waits_its_turn
        Row {
            script: "actor a1 counter c1\nsubmit c1 a1 add 5\nsubmit c1 a1 terminate\n",
            output: "c1.0 a1 = 5\nc1.1 a1 = unit\na1 dead\na1.0 c1.0 add 5\na1.1 c1.1 terminate\n",
            answer: Ok(()),
        },
        // terminate_with_an_argument
        Row {
            script: "actor a1 counter c1\nsubmit c1 a1 add 5\nsubmit c1 a1 terminate @0\nsubmit c1 a1 get\n",
            output: "c1.0 a1 = 5\nc1.1 a1 = BadArgs\nc1.2 a1 = 5\na1 retired counter 5\na1.0 c1.0 add 5\na1.1 c1.1 terminate 5\na1.2 c1.2 get\n",
            answer: Ok(()),
        },
        // three_callers
        Row {
            script: "actor a1 counter c1 c2 c3\n",
            output: "a1 retired counter 0\n",
            answer: Ok(()),
        },
        // twenty_kills
        Row {
            script: "actor a1 counter c1\nkill c1 a1\nkill c1 a1\nkill c1 a1\nkill c1 a1\nkill c1 a1\nkill c1 a1\nkill c1 a1\nkill c1 a1\nkill c1 a1\nkill c1 a1\nkill c1 a1\nkill c1 a1\nkill c1 a1\nkill c1 a1\nkill c1 a1\nkill c1 a1\nkill c1 a1\nkill c1 a1\nkill c1 a1\nkill c1 a1\n",
            output: "a1 dead\n",
            answer: Ok(()),
        },
        // two_hundred_in_order
        Row {
            script: "actor a1 counter c1\nsubmit c1 a1 add 1\nsubmit c1 a1 add 1\nsubmit c1 a1 add 1\nsubmit c1 a1 add 1\nsubmit c1 a1 add 1\nsubmit c1 a1 add 1\nsubmit c1 a1 add 1\nsubmit c1 a1 add 1\nsubmit c1 a1 add 1\nsubmit c1 a1 add 1\nsubmit c1 a1 add 1\nsubmit c1 a1 add 1\nsubmit c1 a1 add 1\nsubmit c1 a1 add 1\nsubmit c1 a1 add 1\nsubmit c1 a1 add 1\nsubmit c1 a1 add 1\nsubmit c1 a1 add 1\nsubmit c1 a1 add 1\nsubmit c1 a1 add 1\nsubmit c1 a1 add 1\nsubmit c1 a1 add 1\nsubmit c1 a1 add 1\nsubmit c1 a1 add 1\nsubmit c1 a1 add 1\nsubmit c1 a1 add 1\nsubmit c1 a1 add 1\nsubmit c1 a1 add 1\nsubmit c1 a1 add 1\nsubmit c1 a1 add 1\nsubmit c1 a1 add 1\nsubmit c1 a1 add 1\nsubmit c1 a1 add 1\nsubmit c1 a1 add 1\nsubmit c1 a1 add 1\nsubmit c1 a1 add 1\nsubmit c1 a1 add 1\nsubmit c1 a1 add 1\nsubmit c1 a1 add 1\nsubmit c1 a1 add 1\nsubmit c1 a1 add 1\nsubmit c1 a1 add 1\nsubmit c1 a1 add 1\nsubmit c1 a1 add 1\nsubmit c1 a1 add 1\nsubmit c1 a1 add 1\nsubmit c1 a1 add 1\nsubmit c1 a1 add 1\nsubmit c1 a1 add 1\nsubmit c1 a1 add 1\nsubmit c1 a1 add 1\nsubmit c1 a1 add 1\nsubmit c1 a1 add 1\nsubmit c1 a1 add 1\nsubmit c1 a1 add 1\nsubmit c1 a1 add 1\nsubmit c1 a1 add 1\nsubmit c1 a1 add 1\nsubmit c1 a1 add 1\nsubmit c1 a1 add 1\nsubmit c1 a1 add 1\nsubmit c1 a1 add 1\nsubmit c1 a1 add 1\nsubmit c1 a1 add 1\nsubmit c1 a1 add 1\nsubmit c1 a1 add 1\nsubmit c1 a1 add 1\nsubmit c1 a1 add 1\nsubmit c1 a1 add 1\nsubmit c1 a1 add 1\nsubmit c1 a1 add 1\nsubmit c1 a1 add 1\nsubmit c1 a1 add 1\nsubmit c1 a1 add 1\nsubmit c1 a1 add 1\nsubmit c1 a1 add 1\nsubmit c1 a1 add 1\nsubmit c1 a1 add 1\nsubmit c1 a1 add 1\nsubmit c1 a1 add 1\nsubmit c1 a1 add 1\nsubmit c1 a1 add 1\nsubmit c1 a1 add 1\nsubmit c1 a1 add 1\nsubmit c1 a1 add 1\nsubmit c1 a1 add 1\nsubmit c1 a1 add 1\nsubmit c1 a1 add 1\nsubmit c1 a1 add 1\nsubmit c1 a1 add 1\nsubmit c1 a1 add 1\nsubmit c1 a1 add 1\nsubmit c1 a1 add 1\nsubmit c1 a1 add 1\nsubmit c1 a1 add 1\nsubmit c1 a1 add 1\nsubmit c1 a1 add 1\nsubmit c1 a1 add 1\nsubmit c1 a1 add 1\nsubmit c1 a1 add 1\nsubmit c1 a1 add 1\nsubmit c1 a1 add 1\nsubmit c1 a1 add 1\nsubmit c1 a1 add 1\nsubmit c1 a1 add 1\nsubmit c1 a1 add 1\nsubmit c1 a1 add 1\nsubmit c1 a1 add 1\nsubmit c1 a1 add 1\nsubmit c1 a1 add 1\nsubmit c1 a1 add 1\nsubmit c1 a1 add 1\nsubmit c1 a1 add 1\nsubmit c1 a1 add 1\nsubmit c1 a1 add 1\nsubmit c1 a1 add 1\nsubmit c1 a1 add 1\nsubmit c1 a1 add 1\nsubmit c1 a1 add 1\nsubmit c1 a1 add 1\nsubmit c1 a1 add 1\nsubmit c1 a1 add 1\nsubmit c1 a1 add 1\nsubmit c1 a1 add 1\nsubmit c1 a1 add 1\nsubmit c1 a1 add 1\nsubmit c1 a1 add 1\nsubmit c1 a1 add 1\nsubmit c1 a1 add 1\nsubmit c1 a1 add 1\nsubmit c1 a1 add 1\nsubmit c1 a1 add 1\nsubmit c1 a1 add 1\nsubmit c1 a1 add 1\nsubmit c1 a1 add 1\nsubmit c1 a1 add 1\nsubmit c1 a1 add 1\nsubmit c1 a1 add 1\nsubmit c1 a1 add 1\nsubmit c1 a1 add 1\nsubmit c1 a1 add 1\nsubmit c1 a1 add 1\nsubmit c1 a1 add 1\nsubmit c1 a1 add 1\nsubmit c1 a1 add 1\nsubmit c1 a1 add 1\nsubmit c1 a1 add 1\nsubmit c1 a1 add 1\nsubmit c1 a1 add 1\nsubmit c1 a1 add 1\nsubmit c1 a1 add 1\nsubmit c1 a1 add 1\nsubmit c1 a1 add 1\nsubmit c1 a1 add 1\nsubmit c1 a1 add 1\nsubmit c1 a1 add 1\nsubmit c1 a1 add 1\nsubmit c1 a1 add 1\nsubmit c1 a1 add 1\nsubmit c1 a1 add 1\nsubmit c1 a1 add 1\nsubmit c1 a1 add 1\nsubmit c1 a1 add 1\nsubmit c1 a1 add 1\nsubmit c1 a1 add 1\nsubmit c1 a1 add 1\nsubmit c1 a1 add 1\nsubmit c1 a1 add 1\nsubmit c1 a1 add 1\nsubmit c1 a1 add 1\nsubmit c1 a1 add 1\nsubmit c1 a1 add 1\nsubmit c1 a1 add 1\nsubmit c1 a1 add 1\nsubmit c1 a1 add 1\nsubmit c1 a1 add 1\nsubmit c1 a1 add 1\nsubmit c1 a1 add 1\nsubmit c1 a1 add 1\nsubmit c1 a1 add 1\nsubmit c1 a1 add 1\nsubmit c1 a1 add 1\nsubmit c1 a1 add 1\nsubmit c1 a1 add 1\nsubmit c1 a1 add 1\nsubmit c1 a1 add 1\nsubmit c1 a1 add 1\nsubmit c1 a1 add 1\nsubmit c1 a1 add 1\nsubmit c1 a1 add 1\nsubmit c1 a1 add 1\nsubmit c1 a1 add 1\nsubmit c1 a1 add 1\nsubmit c1 a1 add 1\nsubmit c1 a1 add 1\nsubmit c1 a1 add 1\nsubmit c1 a1 add 1\nsubmit c1 a1 add 1\nsubmit c1 a1 add 1\nsubmit c1 a1 add 1\n",
            output: "c1.0 a1 = 1\nc1.1 a1 = 2\nc1.2 a1 = 3\nc1.3 a1 = 4\nc1.4 a1 = 5\nc1.5 a1 = 6\nc1.6 a1 = 7\nc1.7 a1 = 8\nc1.8 a1 = 9\nc1.9 a1 = 10\nc1.10 a1 = 11\nc1.11 a1 = 12\nc1.12 a1 = 13\nc1.13 a1 = 14\nc1.14 a1 = 15\nc1.15 a1 = 16\nc1.16 a1 = 17\nc1.17 a1 = 18\nc1.18 a1 = 19\nc1.19 a1 = 20\nc1.20 a1 = 21\nc1.21 a1 = 22\nc1.22 a1 = 23\nc1.23 a1 = 24\nc1.24 a1 = 25\nc1.25 a1 = 26\nc1.26 a1 = 27\nc1.27 a1 = 28\nc1.28 a1 = 29\nc1.29 a1 = 30\nc1.30 a1 = 31\nc1.31 a1 = 32\nc1.32 a1 = 33\nc1.33 a1 = 34\nc1.34 a1 = 35\nc1.35 a1 = 36\nc1.36 a1 = 37\nc1.37 a1 = 38\nc1.38 a1 = 39\nc1.39 a1 = 40\nc1.40 a1 = 41\nc1.41 a1 = 42\nc1.42 a1 = 43\nc1.43 a1 = 44\nc1.44 a1 = 45\nc1.45 a1 = 46\nc1.46 a1 = 47\nc1.47 a1 = 48\nc1.48 a1 = 49\nc1.49 a1 = 50\nc1.50 a1 = 51\nc1.51 a1 = 52\nc1.52 a1 = 53\nc1.53 a1 = 54\nc1.54 a1 = 55\nc1.55 a1 = 56\nc1.56 a1 = 57\nc1.57 a1 = 58\nc1.58 a1 = 59\nc1.59 a1 = 60\nc1.60 a1 = 61\nc1.61 a1 = 62\nc1.62 a1 = 63\nc1.63 a1 = 64\nc1.64 a1 = 65\nc1.65 a1 = 66\nc1.66 a1 = 67\nc1.67 a1 = 68\nc1.68 a1 = 69\nc1.69 a1 = 70\nc1.70 a1 = 71\nc1.71 a1 = 72\nc1.72 a1 = 73\nc1.73 a1 = 74\nc1.74 a1 = 75\nc1.75 a1 = 76\nc1.76 a1 = 77\nc1.77 a1 = 78\nc1.78 a1 = 79\nc1.79 a1 = 80\nc1.80 a1 = 81\nc1.81 a1 = 82\nc1.82 a1 = 83\nc1.83 a1 = 84\nc1.84 a1 = 85\nc1.85 a1 = 86\nc1.86 a1 = 87\nc1.87 a1 = 88\nc1.88 a1 = 89\nc1.89 a1 = 90\nc1.90 a1 = 91\nc1.91 a1 = 92\nc1.92 a1 = 93\nc1.93 a1 = 94\nc1.94 a1 = 95\nc1.95 a1 = 96\nc1.96 a1 = 97\nc1.97 a1 = 98\nc1.98 a1 = 99\nc1.99 a1 = 100\nc1.100 a1 = 101\nc1.101 a1 = 102\nc1.102 a1 = 103\nc1.103 a1 = 104\nc1.104 a1 = 105\nc1.105 a1 = 106\nc1.106 a1 = 107\nc1.107 a1 = 108\nc1.108 a1 = 109\nc1.109 a1 = 110\nc1.110 a1 = 111\nc1.111 a1 = 112\nc1.112 a1 = 113\nc1.113 a1 = 114\nc1.114 a1 = 115\nc1.115 a1 = 116\nc1.116 a1 = 117\nc1.117 a1 = 118\nc1.118 a1 = 119\nc1.119 a1 = 120\nc1.120 a1 = 121\nc1.121 a1 = 122\nc1.122 a1 = 123\nc1.123 a1 = 124\nc1.124 a1 = 125\nc1.125 a1 = 126\nc1.126 a1 = 127\nc1.127 a1 = 128\nc1.128 a1 = 129\nc1.129 a1 = 130\nc1.130 a1 = 131\nc1.131 a1 = 132\nc1.132 a1 = 133\nc1.133 a1 = 134\nc1.134 a1 = 135\nc1.135 a1 = 136\nc1.136 a1 = 137\nc1.137 a1 = 138\nc1.138 a1 = 139\nc1.139 a1 = 140\nc1.140 a1 = 141\nc1.141 a1 = 142\nc1.142 a1 = 143\nc1.143 a1 = 144\nc1.144 a1 = 145\nc1.145 a1 = 146\nc1.146 a1 = 147\nc1.147 a1 = 148\nc1.148 a1 = 149\nc1.149 a1 = 150\nc1.150 a1 = 151\nc1.151 a1 = 152\nc1.152 a1 = 153\nc1.153 a1 = 154\nc1.154 a1 = 155\nc1.155 a1 = 156\nc1.156 a1 = 157\nc1.157 a1 = 158\nc1.158 a1 = 159\nc1.159 a1 = 160\nc1.160 a1 = 161\nc1.161 a1 = 162\nc1.162 a1 = 163\nc1.163 a1 = 164\nc1.164 a1 = 165\nc1.165 a1 = 166\nc1.166 a1 = 167\nc1.167 a1 = 168\nc1.168 a1 = 169\nc1.169 a1 = 170\nc1.170 a1 = 171\nc1.171 a1 = 172\nc1.172 a1 = 173\nc1.173 a1 = 174\nc1.174 a1 = 175\nc1.175 a1 = 176\nc1.176 a1 = 177\nc1.177 a1 = 178\nc1.178 a1 = 179\nc1.179 a1 = 180\nc1.180 a1 = 181\nc1.181 a1 = 182\nc1.182 a1 = 183\nc1.183 a1 = 184\nc1.184 a1 = 185\nc1.185 a1 = 186\nc1.186 a1 = 187\nc1.187 a1 = 188\nc1.188 a1 = 189\nc1.189 a1 = 190\nc1.190 a1 = 191\nc1.191 a1 = 192\nc1.192 a1 = 193\nc1.193 a1 = 194\nc1.194 a1 = 195\nc1.195 a1 = 196\nc1.196 a1 = 197\nc1.197 a1 = 198\nc1.198 a1 = 199\nc1.199 a1 = 200\na1 retired counter 200\na1.0 c1.0 add 1\na1.1 c1.1 add 1\na1.2 c1.2 add 1\na1.3 c1.3 add 1\na1.4 c1.4 add 1\na1.5 c1.5 add 1\na1.6 c1.6 add 1\na1.7 c1.7 add 1\na1.8 c1.8 add 1\na1.9 c1.9 add 1\na1.10 c1.10 add 1\na1.11 c1.11 add 1\na1.12 c1.12 add 1\na1.13 c1.13 add 1\na1.14 c1.14 add 1\na1.15 c1.15 add 1\na1.16 c1.16 add 1\na1.17 c1.17 add 1\na1.18 c1.18 add 1\na1.19 c1.19 add 1\na1.20 c1.20 add 1\na1.21 c1.21 add 1\na1.22 c1.22 add 1\na1.23 c1.23 add 1\na1.24 c1.24 add 1\na1.25 c1.25 add 1\na1.26 c1.26 add 1\na1.27 c1.27 add 1\na1.28 c1.28 add 1\na1.29 c1.29 add 1\na1.30 c1.30 add 1\na1.31 c1.31 add 1\na1.32 c1.32 add 1\na1.33 c1.33 add 1\na1.34 c1.34 add 1\na1.35 c1.35 add 1\na1.36 c1.36 add 1\na1.37 c1.37 add 1\na1.38 c1.38 add 1\na1.39 c1.39 add 1\na1.40 c1.40 add 1\na1.41 c1.41 add 1\na1.42 c1.42 add 1\na1.43 c1.43 add 1\na1.44 c1.44 add 1\na1.45 c1.45 add 1\na1.46 c1.46 add 1\na1.47 c1.47 add 1\na1.48 c1.48 add 1\na1.49 c1.49 add 1\na1.50 c1.50 add 1\na1.51 c1.51 add 1\na1.52 c1.52 add 1\na1.53 c1.53 add 1\na1.54 c1.54 add 1\na1.55 c1.55 add 1\na1.56 c1.56 add 1\na1.57 c1.57 add 1\na1.58 c1.58 add 1\na1.59 c1.59 add 1\na1.60 c1.60 add 1\na1.61 c1.61 add 1\na1.62 c1.62 add 1\na1.63 c1.63 add 1\na1.64 c1.64 add 1\na1.65 c1.65 add 1\na1.66 c1.66 add 1\na1.67 c1.67 add 1\na1.68 c1.68 add 1\na1.69 c1.69 add 1\na1.70 c1.70 add 1\na1.71 c1.71 add 1\na1.72 c1.72 add 1\na1.73 c1.73 add 1\na1.74 c1.74 add 1\na1.75 c1.75 add 1\na1.76 c1.76 add 1\na1.77 c1.77 add 1\na1.78 c1.78 add 1\na1.79 c1.79 add 1\na1.80 c1.80 add 1\na1.81 c1.81 add 1\na1.82 c1.82 add 1\na1.83 c1.83 add 1\na1.84 c1.84 add 1\na1.85 c1.85 add 1\na1.86 c1.86 add 1\na1.87 c1.87 add 1\na1.88 c1.88 add 1\na1.89 c1.89 add 1\na1.90 c1.90 add 1\na1.91 c1.91 add 1\na1.92 c1.92 add 1\na1.93 c1.93 add 1\na1.94 c1.94 add 1\na1.95 c1.95 add 1\na1.96 c1.96 add 1\na1.97 c1.97 add 1\na1.98 c1.98 add 1\na1.99 c1.99 add 1\na1.100 c1.100 add 1\na1.101 c1.101 add 1\na1.102 c1.102 add 1\na1.103 c1.103 add 1\na1.104 c1.104 add 1\na1.105 c1.105 add 1\na1.106 c1.106 add 1\na1.107 c1.107 add 1\na1.108 c1.108 add 1\na1.109 c1.109 add 1\na1.110 c1.110 add 1\na1.111 c1.111 add 1\na1.112 c1.112 add 1\na1.113 c1.113 add 1\na1.114 c1.114 add 1\na1.115 c1.115 add 1\na1.116 c1.116 add 1\na1.117 c1.117 add 1\na1.118 c1.118 add 1\na1.119 c1.119 add 1\na1.120 c1.120 add 1\na1.121 c1.121 add 1\na1.122 c1.122 add 1\na1.123 c1.123 add 1\na1.124 c1.124 add 1\na1.125 c1.125 add 1\na1.126 c1.126 add 1\na1.127 c1.127 add 1\na1.128 c1.128 add 1\na1.129 c1.129 add 1\na1.130 c1.130 add 1\na1.131 c1.131 add 1\na1.132 c1.132 add 1\na1.133 c1.133 add 1\na1.134 c1.134 add 1\na1.135 c1.135 add 1\na1.136 c1.136 add 1\na1.137 c1.137 add 1\na1.138 c1.138 add 1\na1.139 c1.139 add 1\na1.140 c1.140 add 1\na1.141 c1.141 add 1\na1.142 c1.142 add 1\na1.143 c1.143 add 1\na1.144 c1.144 add 1\na1.145 c1.145 add 1\na1.146 c1.146 add 1\na1.147 c1.147 add 1\na1.148 c1.148 add 1\na1.149 c1.149 add 1\na1.150 c1.150 add 1\na1.151 c1.151 add 1\na1.152 c1.152 add 1\na1.153 c1.153 add 1\na1.154 c1.154 add 1\na1.155 c1.155 add 1\na1.156 c1.156 add 1\na1.157 c1.157 add 1\na1.158 c1.158 add 1\na1.159 c1.159 add 1\na1.160 c1.160 add 1\na1.161 c1.161 add 1\na1.162 c1.162 add 1\na1.163 c1.163 add 1\na1.164 c1.164 add 1\na1.165 c1.165 add 1\na1.166 c1.166 add 1\na1.167 c1.167 add 1\na1.168 c1.168 add 1\na1.169 c1.169 add 1\na1.170 c1.170 add 1\na1.171 c1.171 add 1\na1.172 c1.172 add 1\na1.173 c1.173 add 1\na1.174 c1.174 add 1\na1.175 c1.175 add 1\na1.176 c1.176 add 1\na1.177 c1.177 add 1\na1.178 c1.178 add 1\na1.179 c1.179 add 1\na1.180 c1.180 add 1\na1.181 c1.181 add 1\na1.182 c1.182 add 1\na1.183 c1.183 add 1\na1.184 c1.184 add 1\na1.185 c1.185 add 1\na1.186 c1.186 add 1\na1.187 c1.187 add 1\na1.188 c1.188 add 1\na1.189 c1.189 add 1\na1.190 c1.190 add 1\na1.191 c1.191 add 1\na1.192 c1.192 add 1\na1.193 c1.193 add 1\na1.194 c1.194 add 1\na1.195 c1.195 add 1\na1.196 c1.196 add 1\na1.197 c1.197 add 1\na1.198 c1.198 add 1\na1.199 c1.199 add 1\n",
            answer: Ok(()),
        },
    ]
}
