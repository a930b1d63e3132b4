//! The words of a line.

use crate::Wrongly;

/// The largest number of a caller or an actor.
pub(crate) const MAX_NUMBER: usize = 65_535;

/// The first word of a line, and what comes after the space behind it.
pub(crate) fn cut(line: &[u8]) -> (&[u8], Option<&[u8]>) {
    match line.iter().position(|byte| *byte == b' ') {
        Some(at) => (&line[..at], Some(&line[at + 1..])),
        None => (line, None),
    }
}

/// The number that digits spell, in at most nine of them.
pub(crate) fn number_of(word: &[u8]) -> Result<usize, Wrongly> {
    if word.is_empty() || word.len() > 9 {
        return Err(Wrongly::BadLine);
    }
    if word.len() > 1 && word[0] == b'0' {
        return Err(Wrongly::BadLine);
    }
    let mut number = 0usize;
    for byte in word {
        match *byte {
            b'0'..=b'9' => {
                let digit = usize::from(*byte - b'0');
                number = number.saturating_mul(10).saturating_add(digit);
            }
            _ => return Err(Wrongly::BadLine),
        }
    }
    Ok(number)
}

/// The number of a caller or an actor, behind its letter.
pub(crate) fn name_of(letter: u8, word: &[u8]) -> Result<usize, Wrongly> {
    match word {
        [first, digits @ ..] => {
            let number = number_of(digits)?;
            if *first == letter && number > 0 && number <= MAX_NUMBER {
                Ok(number)
            } else {
                Err(Wrongly::BadLine)
            }
        }
        [] => Err(Wrongly::BadLine),
    }
}

/// The two numbers of a call or of a place in a run list, as `c1.0` and `a1.0`.
pub(crate) fn pair_of(letter: u8, word: &[u8]) -> Result<(usize, usize), Wrongly> {
    match word.iter().position(|byte| *byte == b'.') {
        Some(at) => {
            let name = name_of(letter, &word[..at])?;
            let number = number_of(&word[at + 1..])?;
            Ok((name, number))
        }
        None => Err(Wrongly::BadLine),
    }
}

/// Whether a word can be the name of a method.
fn is_method(word: &[u8]) -> bool {
    if word.is_empty() || word.len() > 18 {
        return false;
    }
    word.iter()
        .all(|byte| byte.is_ascii_alphanumeric() || *byte == b'_')
}

/// The method that stands first in these words, if one does, and the words after it.
pub(crate) fn cut_method(words: Option<&[u8]>) -> (Option<&[u8]>, Option<&[u8]>) {
    match words {
        Some(line) => {
            let (first, rest) = cut(line);
            if is_method(first) {
                (Some(first), rest)
            } else {
                (None, words)
            }
        }
        None => (None, None),
    }
}
