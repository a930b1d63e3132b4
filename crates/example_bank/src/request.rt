//! What a line asks for.

ghost use Rattle.std.specs.Prelude.{◌≡◌, ◌<◌, ◌^◌, map, IfSome};
ghost use Rattle.std.specs.List.{list_all};
ghost use Rattle.std.specs.Char.{is_ascii_digit};
ghost use Rattle.example_bank.specs.Requests.{number_at, account_of, amount_of, branch_of, pay_in_at, pay_out_at, transfer_at, funds_at, total_at, request_at};

use actors::ActorId;
use example_kinds::BankCall;
use std::fmt;

/// The accounts are numbered from 0, over all branches.
pub(crate) const ACCOUNTS: u64 = 1_000;

/// Each branch has so many.
pub(crate) const BRANCH_ACCOUNTS: u64 = 250;

/// The branches are numbered from 1.
pub(crate) const BRANCHES: u64 = 4;

/// A call of a branch.
#[derive(Clone, Copy, Debug)]
pub(crate) struct Request {
    pub(crate) branch: ActorId,
    /// Accounts are those of the branch, from 0.
    pub(crate) call: BankCall,
}

/// Why a line is no request.
#[derive(Clone, Copy, Debug, PartialEq, Eq)]
pub(crate) enum Wrong {
    /// The line is too long.
    TooLong,
    /// Its bytes are no UTF-8.
    NoText,
    /// No request has this word first, and as many after it.
    NoRequest,
    /// It names no account.
    NoAccount,
    /// It has no amount, or one that is too large.
    NoAmount,
    /// It names no branch.
    NoBranch,
    /// The accounts are of two branches.
    OtherBranch,
}

impl fmt::Display for Wrong {
    fn fmt<W: fmt::Write>(&self, f: &mut fmt::Formatter<W>) -> fmt::Result {
        f.write_str(match self {
            Wrong::TooLong => "line too long",
            Wrong::NoText => "no text",
            Wrong::NoRequest => "no such request",
            Wrong::NoAccount => "no such account",
            Wrong::NoAmount => "no amount",
            Wrong::NoBranch => "no such branch",
            Wrong::OtherBranch => "account of another branch",
        })
    }
}

/// Whether these are digits.
fn are_digits(bytes: &[u8]) -> bool
    ensures { result ≡ list_all is_ascii_digit bytes.now }
{
    bytes.iter().all(|byte| byte.is_ascii_digit())
}

/// The number that a word spells.
#[tactic(auto, using(crate::proofs::Numbers::number_from_parse), unfolding(crate::specs::Requests::number_at))]
fn number_of(word: &str) -> Option<u64>
    ensures value { result ≡ number_at word.now }
    ensures small { IfSome result (λ number. number < 2 ^ 63) }
{
    if word.is_empty() || !are_digits(word.as_bytes()) {
        return None;
    }
    match word.parse::<u64>() {
        Ok(number) if number < 1 << 63 => Some(number),
        _ => None,
    }
}

/// The branch and the place there of an account.
fn account_of(word: &str) -> Result<(ActorId, i64), Wrong>
    ensures { result ≡ account_of (number_at word.now) }
{
    match number_of(word) {
        Some(number) if number < ACCOUNTS => {
            let branch = ActorId::new((number / BRANCH_ACCOUNTS + 1) as u8).unwrap();
            Ok((branch, (number % BRANCH_ACCOUNTS) as i64))
        }
        _ => Err(Wrong::NoAccount),
    }
}

fn amount_of(word: &str) -> Result<i64, Wrong>
    ensures { result ≡ amount_of (number_at word.now) }
{
    match number_of(word) {
        Some(number) => Ok(number as i64),
        None => Err(Wrong::NoAmount),
    }
}

fn branch_of(word: &str) -> Result<ActorId, Wrong>
    ensures { result ≡ branch_of (number_at word.now) }
{
    match number_of(word) {
        Some(number) if 0 < number && number <= BRANCHES => {
            Ok(ActorId::new(number as u8).unwrap())
        }
        _ => Err(Wrong::NoBranch),
    }
}

fn pay_in_of(words: &[&str]) -> Result<Request, Wrong>
    ensures { result ≡ pay_in_at (map (λ w. w.now) words.now) }
{
    let [account, amount] = words else {
        return Err(Wrong::NoRequest);
    };
    let (branch, place) = account_of(account)?;
    let call = BankCall::PayIn(place, amount_of(amount)?);
    Ok(Request { branch, call })
}

fn pay_out_of(words: &[&str]) -> Result<Request, Wrong>
    ensures { result ≡ pay_out_at (map (λ w. w.now) words.now) }
{
    let [account, amount] = words else {
        return Err(Wrong::NoRequest);
    };
    let (branch, place) = account_of(account)?;
    let call = BankCall::PayOut(place, amount_of(amount)?);
    Ok(Request { branch, call })
}

/// A transfer within a branch: one between two would be two calls.
fn transfer_of(words: &[&str]) -> Result<Request, Wrong>
    ensures { result ≡ transfer_at (map (λ w. w.now) words.now) }
{
    let [from, to, amount] = words else {
        return Err(Wrong::NoRequest);
    };
    let (branch, from) = account_of(from)?;
    let (other, to) = account_of(to)?;
    let call = BankCall::Transfer(from, to, amount_of(amount)?);
    if branch != other {
        return Err(Wrong::OtherBranch);
    }
    Ok(Request { branch, call })
}

fn funds_of(words: &[&str]) -> Result<Request, Wrong>
    ensures { result ≡ funds_at (map (λ w. w.now) words.now) }
{
    let [account] = words else {
        return Err(Wrong::NoRequest);
    };
    let (branch, place) = account_of(account)?;
    let call = BankCall::Funds(place);
    Ok(Request { branch, call })
}

fn total_of(words: &[&str]) -> Result<Request, Wrong>
    ensures { result ≡ total_at (map (λ w. w.now) words.now) }
{
    let [branch] = words else {
        return Err(Wrong::NoRequest);
    };
    let branch = branch_of(branch)?;
    let call = BankCall::Total;
    Ok(Request { branch, call })
}

/// What the words of a line ask for.
pub(crate) fn request_of(words: &[&str]) -> Result<Request, Wrong>
    ensures { result ≡ request_at (map (λ w. w.now) words.now) }
{
    let [verb, rest @ ..] = words else {
        return Err(Wrong::NoRequest);
    };
    match *verb {
        "pay_in" => pay_in_of(rest),
        "pay_out" => pay_out_of(rest),
        "transfer" => transfer_of(rest),
        "funds" => funds_of(rest),
        "total" => total_of(rest),
        _ => Err(Wrong::NoRequest),
    }
}
