//! Opens the lines of a run, and gives each thread its passes.

ghost use Rattle.std.specs.Prelude.{◌≡◌, ◌≢◌, [], length, map, All, AllPairs, IfOk};
ghost use Rattle.std.specs.List.{range_with_len};
ghost use Rattle.act_actor.specs.Cast.{CallersDiffer};
ghost use Rattle.act_plans.specs.Setups.{AreMatched};
ghost use Rattle.act_executor.specs.Groups.{items_of_vec, AreHands, endpoint_at, AreGrown};
ghost use Rattle.act_executor.specs.Opened.{AreOpened};
ghost use Rattle.act_executor.specs.SoFar.{AreMade};

use act_actor::Cast;
use act_drive::CallerPasses;
use act_mailbox::{
    Control, ControlCaller, ControlExec, Endpoint, Mail, MailCaller, MailExec, Putter, Replies,
    ReplyCaller, ReplyExec,
};
use act_plans::CallerSetup;
use act_serve::ExecPasses;
use act_types::NoMemory;
use std::alloc::Global;

/// The mail and control lines stand by the places of the casts, the reply lines by those of the parts.
#[derive(Drop)]
pub struct Lines {
    pub mails: Vec<Mail>,
    pub controls: Vec<Control>,
    pub replies: Vec<Replies>,
}

/// Lines, with the passes of each executor and of each caller, which stand as their lines do, and
/// those of the starter.
#[derive(Drop)]
pub struct Opened {
    pub lines: Lines,
    pub execs: Vec<Endpoint<ExecPasses>>,
    pub callers: Vec<Endpoint<CallerPasses>>,
    pub starters: Vec<ControlCaller>,
}

/// A line as it is opened for an `F`, with a pass for each that the `F` names.
trait Opens<F>: Sized + Drop {
    ghost use Rattle.std.specs.Prelude.{◌≡◌, ℕ, List, map, IfOk};
    ghost use Rattle.atomic_table.specs.Seated.{TableId};
    ghost use Rattle.act_actor.specs.Cast.{CallersDiffer};

    type Pass: Numbered + Drop;

    /// The pass of the one whose line it is.
    type End: Drop;

    ghost id: { Self → TableId };

    ghost line: { TableId → F → Self };

    ghost end: { TableId → F → Self.End };

    ghost pass: { TableId → ℕ → Self.Pass };

    ghost names: { F → List ℕ };

    fn open_for(alloc: Global, given: &F) -> Result<(Self, Self::End, Vec<Self::Pass>), NoMemory>
        requires { CallersDiffer (names given.now) }
        ensures line { IfOk result (λ opened. opened.0 ≡ line (id opened.0) given.now) }
        ensures end { IfOk result (λ opened. opened.1 ≡ end (id opened.0) given.now) }
        ensures passes { IfOk result (λ opened. opened.2.items ≡ map (pass (id opened.0)) (names given.now)) };
}

impl<K> Opens<Cast<K>> for Mail {
    ghost use Rattle.act_mailbox.specs.Passes.{new_putter, new_taker};

    type Pass = MailCaller;

    type End = MailExec;

    ghost id = { λ mail. mail.line };

    ghost line = { λ id cast. record { line = id; actor = cast.actor } };

    ghost end = { λ id cast. new_taker id cast.callers };

    ghost pass = { new_putter };

    ghost names = { λ cast. cast.callers };

    fn open_for(
        alloc: Global,
        cast: &Cast<K>,
    ) -> Result<(Mail, MailExec, Vec<MailCaller>), NoMemory> {
        let (line, passes, exec) = Mail::open(alloc, cast.actor, cast.callers.as_slice())?;
        Ok((line, exec, passes))
    }
}

impl<K> Opens<Cast<K>> for Control {
    ghost use Rattle.std.specs.Prelude.{[], ◌∷◌};
    ghost use Rattle.act_mailbox.specs.Controls.{starter};
    ghost use Rattle.act_mailbox.specs.Passes.{new_putter};

    type Pass = ControlCaller;

    /// The executor's pass, and the starter's.
    type End = (ControlExec, ControlCaller);

    ghost id = { λ control. control.line };

    ghost line = { λ id cast. record { line = id; actor = cast.actor } };

    ghost end = { λ id cast. (
      record {
        line = id;
        actor = cast.actor;
        askers = starter ∷ cast.callers;
        taken = [];
        stamps = [];
        lengths = [];
        looked = 0;
      },
      new_putter id starter,
    ) };

    ghost pass = { new_putter };

    ghost names = { λ cast. cast.callers };

    fn open_for(
        alloc: Global,
        cast: &Cast<K>,
    ) -> Result<(Control, (ControlExec, ControlCaller), Vec<ControlCaller>), NoMemory> {
        let (line, passes, starter, exec) = Control::open(
            alloc,
            cast.actor,
            cast.callers.as_slice(),
        )?;
        Ok((line, (exec, starter), passes))
    }
}

impl Opens<CallerSetup> for Replies {
    ghost use Rattle.act_mailbox.specs.Passes.{new_taker};
    ghost use Rattle.act_mailbox.specs.Notices.{new_exec};

    type Pass = ReplyExec;

    type End = ReplyCaller;

    ghost id = { λ line. line.line };

    ghost line = { λ id setup. record { line = id; caller = setup.caller } };

    ghost end = { λ id setup. new_taker id setup.actors.items };

    ghost pass = { new_exec };

    ghost names = { λ setup. setup.actors.items };

    fn open_for(
        alloc: Global,
        setup: &CallerSetup,
    ) -> Result<(Replies, ReplyCaller, Vec<ReplyExec>), NoMemory> {
        let (line, passes, caller) = Replies::open(alloc, setup.caller, setup.actors.as_slice())?;
        Ok((line, caller, passes))
    }
}

/// Lines, the passes of those whose they are, and the other passes by whom they are for.
#[derive(Drop)]
struct OpenedLines<L, E, P> {
    lines: Vec<L>,
    ends: Vec<E>,
    hands: Vec<Vec<Endpoint<P>>>,
}

/// Opens a line for each that is given, and deals the passes of those that it names.
fn open_all<F, L: Opens<F>>(
    alloc: Global,
    given: &[F],
    numbers: &[u8],
) -> Result<OpenedLines<L, L::End, L::Pass>, NoMemory>
    requires names { All (λ one. CallersDiffer (L.names one)) given.now }
    requires numbers { AllPairs (λ one other. one ≢ other) numbers.now }
    ensures { IfOk result (λ opened.
        AreMade L.id L.line L.end L.pass L.Pass.number L.names given.now numbers.now opened) }
{
    let hands = empty_hands(alloc, numbers)?;
    let mut opened = OpenedLines {
        lines: Vec::new(alloc),
        ends: Vec::new(alloc),
        hands,
    };
    for place in 0..given.len() {
        let (line, end, passes) = L::open_for(alloc, &given[place])?;
        opened.lines.push(line)?;
        opened.ends.push(end)?;
        deal(numbers, &mut opened.hands, place, passes)?;
    }
    Ok(opened)
}

/// The firsts and the seconds of pairs.
pub(crate) fn unzip<X: Drop, Y: Drop>(
    alloc: Global,
    pairs: Vec<(X, Y)>,
) -> Result<(Vec<X>, Vec<Y>), NoMemory>
    ensures firsts { IfOk result (λ both. both.0.items ≡ map (λ pair. pair.0) pairs.items) }
    ensures seconds { IfOk result (λ both. both.1.items ≡ map (λ pair. pair.1) pairs.items) }
{
    let mut firsts = Vec::new(alloc);
    let mut seconds = Vec::new(alloc);
    for pair in pairs {
        let (first, second) = pair;
        firsts.push(first)?;
        seconds.push(second)?;
    }
    Ok((firsts, seconds))
}

/// The executors' passes, one by one.
fn exec_passes(
    alloc: Global,
    letters: Vec<MailExec>,
    kills: Vec<ControlExec>,
    notices: Vec<Vec<Endpoint<ReplyExec>>>,
) -> Result<Vec<Endpoint<ExecPasses>>, NoMemory>
    requires long { (length kills.items ≡ length letters.items) × (length notices.items ≡ length letters.items) }
    ensures places { IfOk result (λ execs.
        map (λ exec. exec.place) execs.items ≡ range_with_len 0 (length execs.items)) }
    ensures letters { IfOk result (λ execs. map (λ exec. exec.pass.letters) execs.items ≡ letters.items) }
    ensures kills { IfOk result (λ execs. map (λ exec. exec.pass.kills) execs.items ≡ kills.items) }
    ensures notices { IfOk result (λ execs.
        map (λ exec. exec.pass.notices.items) execs.items ≡ map items_of_vec notices.items) }
{
    let mut execs = Vec::new(alloc);
    for ((letters, kills), notices) in letters.into_iter().zip(kills).zip(notices) {
        let place = execs.len();
        let pass = ExecPasses {
            letters,
            kills,
            notices,
        };
        execs.push(Endpoint { place, pass })?;
    }
    Ok(execs)
}

/// The callers' passes, one by one.
fn caller_passes(
    alloc: Global,
    letters: Vec<Vec<Endpoint<MailCaller>>>,
    kills: Vec<Vec<Endpoint<ControlCaller>>>,
    collects: Vec<ReplyCaller>,
) -> Result<Vec<Endpoint<CallerPasses>>, NoMemory>
    requires long { (length kills.items ≡ length letters.items) × (length collects.items ≡ length letters.items) }
    ensures places { IfOk result (λ callers.
        map (λ caller. caller.place) callers.items ≡ range_with_len 0 (length callers.items)) }
    ensures letters { IfOk result (λ callers.
        map (λ caller. caller.pass.letters.items) callers.items ≡ map items_of_vec letters.items) }
    ensures kills { IfOk result (λ callers.
        map (λ caller. caller.pass.kills.items) callers.items ≡ map items_of_vec kills.items) }
    ensures collects { IfOk result (λ callers. map (λ caller. caller.pass.collects) callers.items ≡ collects.items) }
{
    let mut callers = Vec::new(alloc);
    for ((letters, kills), collects) in letters.into_iter().zip(kills).zip(collects) {
        let place = callers.len();
        let pass = CallerPasses {
            letters,
            kills,
            collects,
        };
        callers.push(Endpoint { place, pass })?;
    }
    Ok(callers)
}

/// Opens all lines of a run, with the passes of each executor, of each caller and of the starter.
pub fn open_lines<K>(
    alloc: Global,
    casts: &[Cast<K>],
    setups: &[CallerSetup],
) -> Result<Opened, NoMemory>
    requires matched { AreMatched casts.now setups.now }
    ensures { IfOk result (λ opened. AreOpened casts.now setups.now opened) }
{
    let actor_numbers: Vec<u8> = casts.iter().map(|cast| cast.actor.number()).collect(alloc)?;
    let caller_numbers: Vec<u8> = setups
        .iter()
        .map(|setup| setup.caller.number())
        .collect(alloc)?;
    let mails = open_all::<Cast<K>, Mail>(alloc, casts, caller_numbers.as_slice())?;
    let controls = open_all::<Cast<K>, Control>(alloc, casts, caller_numbers.as_slice())?;
    let replies = open_all::<CallerSetup, Replies>(alloc, setups, actor_numbers.as_slice())?;
    let (kills, starters) = unzip(alloc, controls.ends)?;
    let execs = exec_passes(alloc, mails.ends, kills, replies.hands)?;
    let callers = caller_passes(alloc, mails.hands, controls.hands, replies.ends)?;
    let lines = Lines {
        mails: mails.lines,
        controls: controls.lines,
        replies: replies.lines,
    };
    Ok(Opened {
        lines,
        execs,
        callers,
        starters,
    })
}

/// What belongs to a number: a caller's, or an actor's.
pub(crate) trait Numbered {
    ghost use Rattle.std.specs.Prelude.{◌≡◌, ℕ};

    ghost number: { Self → ℕ };

    fn number(&self) -> u8
        ensures { result ≡ number self.now };
}

impl<T, N> Numbered for Putter<T, N> {
    ghost number = { λ pass. pass.number };

    fn number(&self) -> u8 {
        Putter::number(self)
    }
}

impl Numbered for ReplyExec {
    ghost number = { λ pass. pass.actor };

    fn number(&self) -> u8 {
        self.actor().number()
    }
}

/// An empty hand for each number.
pub(crate) fn empty_hands<P: Numbered + Drop>(
    alloc: Global,
    numbers: &[u8],
) -> Result<Vec<Vec<Endpoint<P>>>, NoMemory>
    ensures { IfOk result (λ hands. AreHands P.number numbers.now [] hands.items) }
{
    let mut hands = Vec::new(alloc);
    for _ in numbers {
        hands.push(Vec::new(alloc))?;
    }
    Ok(hands)
}

/// Deals the passes of the line at this place: each goes, in order, to the hand of its number.
pub(crate) fn deal<P: Numbered + Drop>(
    numbers: &[u8],
    hands: &mut Vec<Vec<Endpoint<P>>>,
    place: usize,
    passes: Vec<P>,
) -> Result<(), NoMemory>
    requires differ { AllPairs (λ one other. one ≢ other) numbers.now }
    requires long { length hands.old.items ≡ length numbers.now }
    ensures { IfOk result (λ _.
        AreGrown P.number numbers.now (map (endpoint_at place) passes.items) hands.old.items hands.new.items) }
{
    for pass in passes {
        let number = pass.number();
        if let Some(owner) = numbers.iter().position(|other| *other == number) {
            hands[owner].push(Endpoint { place, pass })?;
        }
    }
    Ok(())
}
