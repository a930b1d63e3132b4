//! Two actors of a script that run at the same time.

use super::fakes::{FakeReader, FakeWriter};
use super::ran;
use crate::meeting::Meeting;
use act_rules::Mode;
use std::test::Fail;

/// Two actors run at the same time: the first run of each sees that of the other.
#[test]
fn gate_two_actors(rt: HostRuntime) -> Result<(), Fail> {
    let script =
        "actor a1 table c1 c2\nactor a2 account c2\nsubmit c1 a1 put \"k\" 5\nsubmit c1 a1 get \"k\"\nsubmit c2 a2 deposit 10\nsubmit c2 a2 withdraw @0\n";
    let report =
        "c1.0 a1 = unit\nc1.1 a1 = 5\nc2.0 a2 = 10\nc2.1 a2 = 0\na1 retired table \"k\" 5\na1.0 c1.0 put \"k\" 5\na1.1 c1.1 get \"k\"\na2 retired account 0\na2.0 c2.0 deposit 10\na2.1 c2.1 withdraw 10\n";
    let meeting = Meeting::new();
    let mut reader = FakeReader::new(script.as_bytes());
    let mut writer = FakeWriter::new(rt.alloc());
    let answer = ran(&rt, Mode::Threads, &meeting, &mut reader, &mut writer);
    assert_eq!(rt; answer, Ok(()));
    assert_eq!(rt; writer.written(), report.as_bytes());
    assert_eq!(rt; meeting.count(), 2);
    Ok(())
}
