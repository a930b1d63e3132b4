//! Lines of an actor with a limit, at the edge of the grammar.

use act_rules::{Mode, Wrong};
use act_scripts::{ScriptFault, read_script};
use std::alloc::Global;
use std::process::Abort;
use std::test::Fail;

/// The line has none of the forms.
const BAD: Result<Option<u32>, ScriptFault> = Err(ScriptFault::Line(1, Wrong::BadLine));

/// The limit of a script's first actor, or the script's fault.
fn first_limit(alloc: Global, script: &str, mode: Mode) -> Result<Option<u32>, ScriptFault> {
    let script = read_script(alloc, script.as_bytes(), mode)?;
    match script.casts.as_slice().first() {
        Some(role) => Ok(role.pending),
        None => Ok(None),
    }
}

/// A script of this one line has this limit, or is refused, in a play as in threads.
fn assert_limit<Rt: AllocGlobal + Abort>(
    rt: &Rt,
    line: &str,
    want: Result<Option<u32>, ScriptFault>,
) {
    assert_eq!(rt; first_limit(rt.alloc(), line, Mode::Play), want, "{line}");
    assert_eq!(rt;
        first_limit(rt.alloc(), line, Mode::Threads),
        want,
        "{line}"
    );
}

#[test]
fn limits_at_the_edge(rt: HostRuntime) -> Result<(), Fail> {
    for (line, want) in [
        ("actor a1 counter c1", Ok(None)),
        ("actor a1 counter max 1 c1", Ok(Some(1))),
        ("actor a1 counter max 65536 c1 c2", Ok(Some(65_536))),
        ("actor a1 counter max 0 c1", BAD),
        ("actor a1 counter max 65537 c1", BAD),
        ("actor a1 counter max 4294967297 c1", BAD),
        ("actor a1 counter max 01 c1", BAD),
        ("actor a1 counter max c1", BAD),
        ("actor a1 counter max", BAD),
        ("actor a1 counter max 1", BAD),
        ("actor a1 counter max 1 max 1 c1", BAD),
        ("actor a1 counter max 1 2 c1", BAD),
        ("actor a1 counter c1 max 1", BAD),
        ("actor a1 max 1 counter c1", BAD),
        ("actor a1 counter Max 1 c1", BAD),
        ("actor a1 counter max  1 c1", BAD),
    ] {
        assert_limit(&rt, line, want);
    }
    Ok(())
}
