//! The two parts of a history: the lines of its script, and those of what was left.

ghost use Rattle.std.specs.Prelude.{◌≡◌, ◌≤◌, drop, length, true};
ghost use Rattle.act_histories.specs.Cut.{tells_left, told_part};

use act_decisions::split_line;

/// Whether a line that begins here tells what was left: a caller or an actor stands first, by its
/// number.
fn tells_left(bytes: &[u8]) -> bool
    ensures { result ≡ tells_left bytes.now }
{
    match bytes {
        [b'a' | b'c', digit, ..] => digit.is_ascii_digit(),
        _ => false,
    }
}

/// Where the second part begins.
#[derive(Clone, Copy)]
pub(crate) struct Cut {
    /// How many bytes the first part has.
    pub(crate) at: usize,
    /// How many lines.
    pub(crate) lines: u32,
}

/// Where the first line stands that tells what was left.
pub(crate) fn cut_of(bytes: &[u8]) -> Cut
    ensures within { result.at ≤ length bytes.now }
    ensures told { drop result.at bytes.now ≡ told_part true bytes.now }
{
    let mut left = bytes;
    let mut lines = 0u32;
    while !left.is_empty() && !tells_left(left) {
        let (_, below) = split_line(left);
        left = below;
        lines = lines.wrapping_add(1);
    }
    Cut {
        at: bytes.len() - left.len(),
        lines,
    }
}
