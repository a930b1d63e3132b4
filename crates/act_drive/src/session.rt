//! What a caller's own code is lent: its caller, while it runs.

ghost use Rattle.std.specs.Prelude.{◌≡◌, ◌≢◌, ◌⊎◌, ◌<◌, ◌≤◌, [], ◌∷◌, ◌++◌, length, None, Ok, IfOk, OnOk, IfErr, OnErr, is_some, true, unwrap_or, nat_lt, if◌then◌else◌, option_copied, slice_index, Some, IsOk, All, map};
ghost use Rattle.act_types.specs.declared.limits.TheConstants.{MAX_CALLS};
ghost use Rattle.act_rules.specs.Submissions.{kept_at, copies_held};
ghost use Rattle.act_rules.specs.declared.outcome.SubmitRefusal.TheVariants.{NoMemory as NoRoom};
ghost use Rattle.act_rules.specs.declared.script.Step.TheVariants.{Submit, Copy, Release, Kill, Await};
ghost use Rattle.act_handles.specs.Handles.{copies_in, copy_answer, with_copy, or_else};
ghost use Rattle.act_drive.specs.declared.refusals.WaitRefusal.TheVariants.{NoFuture, NoMemory as NoRoomToWait};
ghost use Rattle.act_drive.specs.declared.refusals.KillRefusal.TheVariants.{NoMemory as NoRoomToAsk};
ghost use Rattle.act_drive.specs.declared.session.TheConstants.{MAX_KILLS};
ghost use Rattle.act_drive.specs.Sessions.{SessionView, pending_of, session_limit, kills_of, call_refusal, use_refusal, kill_refusal, are_known, may_wait_for, first_answered, IsLater, DoesMore, DoesSome, OnlyHears, Submits, LetsGo, AsksKill};

use crate::any::are_below;
use crate::refusals::{KillRefusal, WaitRefusal};
use act_handles::HandleRefusal;
use act_rules::SubmitRefusal;
use act_types::{ActorId, Answer, Arg, FutureId, ListOf, Method, NoMemory};
use std::alloc::Global;

/// How many kills of one actor a session asks at most.
pub const MAX_KILLS: u32 = 65_536;

/// A caller, as its own code has it while it runs. What is ready is sent, and what comes is
/// collected, in `turn` and in the calls that wait, and in `submit` and `kill` from time to time. The
/// calls that only tell (`answer`, `pending`, `count`) make no progress: code that polls takes a
/// `turn` each time. A call that was refused memory may be made again.
pub trait Session {
    ghost seen: { Self → SessionView };

    /// Submits a call, and gives its future. While as many calls of the actor have no answer as its
    /// limit allows, it waits, so that it is never refused by `PendingLimit`.
    fn submit(
        &mut self,
        actor: ActorId,
        method: Method,
        args: ListOf<Arg>,
    ) -> Result<FutureId, SubmitRefusal>
        ensures future { IfOk result (λ k. k ≡ length (seen self.old).calls) }
        ensures accepted { OnOk result (call_refusal (seen self.old) actor args ≡ None) }
        ensures submits { OnOk result (Submits (record { actor = actor; method = method; args = args })
            (seen self.old) (seen self.new)) }
        ensures does { OnOk result (DoesMore (Submit actor method args ∷ []) (seen self.old) (seen self.new)) }
        ensures does_nothing { OnErr result ((seen self.new).did ≡ (seen self.old).did) }
        ensures refusal { IfErr result (λ refusal.
            refusal ≡ unwrap_or (call_refusal (seen self.old) actor args) NoRoom) }
        ensures refused { IfErr result (λ refusal. refusal ≢ NoRoom → seen self.new ≡ seen self.old) }
        ensures hears { OnErr result (OnlyHears (seen self.old) (seen self.new)) }
        ensures on { IsLater (seen self.old) (seen self.new) };

    /// Goes on when a future of this caller has an answer. It is not refused where the answer is
    /// kept.
    fn wait(&mut self, k: FutureId) -> Result<(), WaitRefusal>
        ensures answered { OnOk result (is_some (kept_at (seen self.new).kept k) ≡ true) }
        ensures known { OnOk result (k < length (seen self.old).calls) }
        ensures does { OnOk result (DoesMore (Await k ∷ []) (seen self.old) (seen self.new)) }
        ensures does_nothing { OnErr result ((seen self.new).did ≡ (seen self.old).did) }
        ensures refusal { IfErr result (λ refusal.
            refusal ≡ (if nat_lt k (length (seen self.old).calls) then NoRoomToWait else NoFuture)) }
        ensures refused { IfErr result (λ refusal. refusal ≢ NoRoomToWait → seen self.new ≡ seen self.old) }
        ensures kept { is_some (kept_at (seen self.old).kept k) ≡ true → result ≡ Ok tt }
        ensures hears { OnlyHears (seen self.old) (seen self.new) }
        ensures on { IsLater (seen self.old) (seen self.new) };

    /// Goes on when one of these futures has an answer, and gives the place of the first that has: so
    /// none before it had one at the start. It counts as a wait for this one. An empty list is refused
    /// by `NoFuture`, since no answer would end the wait.
    fn wait_any(&mut self, futures: &[FutureId]) -> Result<usize, WaitRefusal>
        ensures first { IfOk result (λ at. first_answered (seen self.new) futures.now ≡ Some at) }
        ensures known { OnOk result (may_wait_for (seen self.old) futures.now ≡ true) }
        ensures does { IfOk result (λ at.
            DoesMore (Await (slice_index futures.now at) ∷ []) (seen self.old) (seen self.new)) }
        ensures does_nothing { OnErr result ((seen self.new).did ≡ (seen self.old).did) }
        ensures refusal { IfErr result (λ refusal.
            refusal ≡ (if may_wait_for (seen self.old) futures.now then NoRoomToWait else NoFuture)) }
        ensures refused { IfErr result (λ refusal. refusal ≢ NoRoomToWait → seen self.new ≡ seen self.old) }
        ensures kept { may_wait_for (seen self.old) futures.now ≡ true →
            is_some (first_answered (seen self.old) futures.now) ≡ true → IsOk result }
        ensures hears { OnlyHears (seen self.old) (seen self.new) }
        ensures on { IsLater (seen self.old) (seen self.new) };

    /// Goes on when each of these futures has an answer, which is a wait for each, one after another.
    fn wait_all(&mut self, futures: &[FutureId]) -> Result<(), WaitRefusal>
        ensures answered { OnOk result (All (λ k. is_some (kept_at (seen self.new).kept k) ≡ true) futures.now) }
        ensures known { OnOk result (are_known (seen self.old) futures.now ≡ true) }
        ensures does { OnOk result (DoesMore (map Await futures.now) (seen self.old) (seen self.new)) }
        ensures does_some { OnErr result (DoesSome (map Await futures.now) (seen self.old) (seen self.new)) }
        ensures refusal { IfErr result (λ refusal.
            refusal ≡ (if are_known (seen self.old) futures.now then NoRoomToWait else NoFuture)) }
        ensures refused { IfErr result (λ refusal. refusal ≢ NoRoomToWait → seen self.new ≡ seen self.old) }
        ensures hears { OnlyHears (seen self.old) (seen self.new) }
        ensures on { IsLater (seen self.old) (seen self.new) }
    {
        if !are_below(futures, self.count()) {
            return Err(WaitRefusal::NoFuture);
        }
        for k in futures {
            if self.wait(*k).is_err() {
                return Err(WaitRefusal::NoMemory);
            }
        }
        Ok(())
    }

    /// Sends what is ready, and collects what came, and waits for nothing. By `NoMemory` a call that is
    /// ready could not be sent: it is sent later.
    fn turn(&mut self) -> Result<(), NoMemory>
        ensures does_nothing { (seen self.new).did ≡ (seen self.old).did }
        ensures hears { OnlyHears (seen self.old) (seen self.new) }
        ensures on { IsLater (seen self.old) (seen self.new) };

    /// Submits a call, waits for its answer, and gives its future. By `NoMemory` it may be that the
    /// call was submitted, and only the waiting was refused: `count` tells.
    fn ask(
        &mut self,
        actor: ActorId,
        method: Method,
        args: ListOf<Arg>,
    ) -> Result<FutureId, SubmitRefusal>
        ensures future { IfOk result (λ k. k ≡ length (seen self.old).calls) }
        ensures accepted { OnOk result (call_refusal (seen self.old) actor args ≡ None) }
        ensures submits { OnOk result (Submits (record { actor = actor; method = method; args = args })
            (seen self.old) (seen self.new)) }
        ensures does { IfOk result (λ k.
            DoesMore (Submit actor method args ∷ Await k ∷ []) (seen self.old) (seen self.new)) }
        ensures answered { IfOk result (λ k. is_some (kept_at (seen self.new).kept k) ≡ true) }
        ensures refusal { IfErr result (λ refusal.
            refusal ≡ unwrap_or (call_refusal (seen self.old) actor args) NoRoom) }
        ensures refused { IfErr result (λ refusal. refusal ≢ NoRoom → seen self.new ≡ seen self.old) }
        ensures either { OnErr result ((OnlyHears (seen self.old) (seen self.new)
            × ((seen self.new).did ≡ (seen self.old).did))
            ⊎ (Submits (record { actor = actor; method = method; args = args }) (seen self.old) (seen self.new)
            × DoesMore (Submit actor method args ∷ []) (seen self.old) (seen self.new))) }
        ensures on { IsLater (seen self.old) (seen self.new) }
    {
        let k = self.submit(actor, method, args)?;
        match self.wait(k) {
            Ok(()) => Ok(k),
            Err(_) => Err(SubmitRefusal::NoMemory),
        }
    }

    /// The answer that is kept for a future, if one is. It waits for none.
    fn answer(&self, k: FutureId) -> Option<&Answer>
        ensures { option_copied result ≡ kept_at (seen self.now).kept k };

    /// Adds a copy of the actor's handle and gives their number. An `Err` changes nothing.
    fn copy(&mut self, actor: ActorId) -> Result<u32, HandleRefusal>
        ensures value { result ≡ copy_answer actor (seen self.old).handles }
        ensures ok { OnOk result (seen self.new ≡ record (seen self.old) {
          handles = with_copy actor (seen self.old).handles;
          did = (seen self.old).did ++ Copy actor ∷ [];
        }) }
        ensures err { OnErr result (seen self.new ≡ seen self.old) }
        ensures on { IsLater (seen self.old) (seen self.new) };

    /// Lets a copy of the actor's handle go. After the last one the actor is told that no call of this
    /// caller follows. An `Err` changes nothing.
    fn release(&mut self, actor: ActorId) -> Result<(), HandleRefusal>
        ensures value { result ≡ or_else (use_refusal (seen self.old) actor) tt }
        ensures ok { OnOk result (LetsGo actor (seen self.old) (seen self.new)) }
        ensures does { OnOk result (DoesMore (Release actor ∷ []) (seen self.old) (seen self.new)) }
        ensures err { OnErr result (seen self.new ≡ seen self.old) }
        ensures on { IsLater (seen self.old) (seen self.new) };

    /// Asks for the actor's kill. Where its death is known the kill is counted, and nothing is sent.
    fn kill(&mut self, actor: ActorId) -> Result<(), KillRefusal>
        ensures accepted { OnOk result (use_refusal (seen self.old) actor ≡ None) }
        ensures few { OnOk result (kills_of (seen self.old) actor < MAX_KILLS) }
        ensures asks { OnOk result (AsksKill actor (seen self.old) (seen self.new)) }
        ensures does { OnOk result (DoesMore (Kill actor ∷ []) (seen self.old) (seen self.new)) }
        ensures does_nothing { OnErr result ((seen self.new).did ≡ (seen self.old).did) }
        ensures refusal { IfErr result (λ refusal. refusal ≡ kill_refusal (seen self.old) actor) }
        ensures refused { IfErr result (λ refusal. refusal ≢ NoRoomToAsk → seen self.new ≡ seen self.old) }
        ensures hears { OnErr result (OnlyHears (seen self.old) (seen self.new)) }
        ensures on { IsLater (seen self.old) (seen self.new) };

    /// How many calls of the actor have no answer yet.
    fn pending(&self, actor: ActorId) -> u32
        ensures { result ≡ pending_of (seen self.now) actor };

    /// How many calls of the actor may have no answer yet: none where nothing limits them.
    fn limit(&self, actor: ActorId) -> Option<u32>
        ensures { result ≡ session_limit (seen self.now) actor };

    /// How many copies of the actor's handle are held.
    fn holds(&self, actor: ActorId) -> u32
        ensures { result ≡ copies_held (copies_in actor (seen self.now).handles) };

    /// How many kills of the actor were asked.
    fn kills(&self, actor: ActorId) -> u32
        ensures { result ≡ kills_of (seen self.now) actor };

    /// How many calls were submitted, which is the number of the next call's future.
    fn count(&self) -> u32
        ensures value { result ≡ length (seen self.now).calls }
        ensures limit { result ≤ MAX_CALLS };

    /// Where memory comes from.
    fn alloc(&self) -> Global;
}
