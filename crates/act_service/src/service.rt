//! What gives the callers their code, epoch after epoch.

ghost use Rattle.std.specs.Prelude.{option_map, map, OnOk, IfOk};
ghost use Rattle.act_actor.specs.Casts.{actor_spec};
ghost use Rattle.act_service.specs.Services.{Known, Given, CarriesOver, BecomesKnown};

use act_actor::{Cast, RunLog};
use act_drive::Code;
use act_executor::Joined;
use act_kinds::Actor;
use act_types::CallerId;

/// Gives each caller its code for the next epoch, and is lent what that one left. Its ghost members
/// say what it keeps of all epochs; where they are left out, nothing is proved of that.
pub trait Service<K: Actor> {
    /// The code of a caller.
    type One: Code + Send;

    /// What each actor keeps of the calls that it runs, for `look`: all of them in a `Vec<RunItem>`, or with a `Past`
    /// how many they are.
    type Log: RunLog + Send;

    /// Why it fails, as where it is refused memory. The actors are gone then. A service that wants them
    /// back keeps what failed, and comes to its end.
    type Fault: Drop;

    /// What it knows of all epochs so far, the first of which opened with these casts.
    ghost knows: { Self → Known Self.One } = { λ _ _ _. Unit {0} };

    /// What it knows of them once it gave these codes for the next one, or came to its end.
    ghost gave: { Self → Given Self.One } = { λ _ _ _ _. Unit {0} };

    /// The code of each caller for the next epoch, or `None` at the end. A caller without code does
    /// nothing. The casts are of the actors that are left: one that died is cast no more.
    fn codes(
        &mut self,
        casts: &[Cast<K>],
    ) -> Result<Option<Vec<(CallerId, Self::One)>>, Self::Fault>
        ensures { IfOk result (λ codes. CarriesOver (knows self.old)
            (gave self.new (option_map (λ codes. codes.items) codes)) (map (actor_spec K.state) casts.now)) };

    /// Looks at what an epoch left, before it is let go: each caller's answers, what each actor kept of
    /// the calls that it ran, and how it ended.
    fn look(&mut self, joined: &Joined<K, Self::Log>) -> Result<(), Self::Fault>
        ensures { OnOk result (BecomesKnown Self.One.tells K.state (gave self.old) (knows self.new) joined.now) };
}
