//! One call without a world: whoever holds the caller and the actor carries what goes between them.

ghost use Rattle.std.specs.Prelude.{◌≡◌, [], ◌∷◌, Some, IfOk, OnOk};
ghost use Rattle.actors.specs.Actors.{after_item, item_of};
ghost use Rattle.actors.specs.Callers.{kept_at, open_owner};
ghost use Rattle.example_uses.specs.OneCall.{asking_owner, question, step_of_question};

use actors::{
    Actor, ActorId, Arg, CallerId, ListOf, Live, Method, NoMemory, Notice, Owner, Packet, Reply,
    Value,
};
use std::alloc::Global;

/// A caller that heard the answer of its one call, and the actor that ran it.
#[derive(Drop)]
pub struct Heard<K> {
    pub owner: Owner,
    pub live: Live<K>,
}

/// A new caller submits the call and sends it.
fn pose_question(
    alloc: Global,
    owner: &mut Owner,
    method: Method,
    value: Value,
) -> Result<Packet, NoMemory>
    requires { owner.old ≡ open_owner 1 (1 ∷ []) }
    ensures owner { OnOk result (owner.new ≡ asking_owner method value) }
    ensures packet { IfOk result (λ packet. packet ≡ question method value) }
{
    let a = ActorId::new(1).unwrap();
    let mut args = ListOf::new(alloc);
    args.push(Arg::Plain(value))?;
    let Ok(k) = owner.submit(a, method, args) else {
        return Err(NoMemory);
    };
    let Ok(packet) = owner.packet(alloc, k) else {
        return Err(NoMemory);
    };
    Ok(packet)
}

/// The caller's side: it is opened, submits the call and sends it.
fn send_call(alloc: Global, method: Method, value: Value) -> Result<(Owner, Packet), NoMemory>
    ensures owner { IfOk result (λ sent. sent.0 ≡ asking_owner method value) }
    ensures packet { IfOk result (λ sent. sent.1 ≡ question method value) }
{
    let c = CallerId::new(1).unwrap();
    let a = ActorId::new(1).unwrap();
    let mut owner = Owner::open(alloc, c, &[a])?;
    let packet = pose_question(alloc, &mut owner, method, value)?;
    Ok((owner, packet))
}

/// The actor's side: the call arrives and runs.
fn run_call<K: Actor>(alloc: Global, kind: K, packet: Packet) -> Result<(Live<K>, Reply), NoMemory>
    requires caller { packet.caller ≡ 1 }
    requires actor { packet.actor ≡ 1 }
    requires first { packet.number ≡ 0 }
    ensures state { IfOk result (λ ran.
        K.state ran.0.state ≡ (after_item (K.state kind) (item_of packet)).0) }
    ensures reply { IfOk result (λ ran. ran.1 ≡
        record {
          actor = 1;
          caller = 1;
          future = packet.future;
          place = 0;
          answer =
              (after_item (K.state kind) (item_of packet)).1;
        }) }
{
    let c = CallerId::new(1).unwrap();
    let a = ActorId::new(1).unwrap();
    let mut live = Live::open(alloc, a, &[c], kind)?;
    let Ok(_) = live.arrive(packet) else {
        return Err(NoMemory);
    };
    let reply = live.run(c)?.unwrap();
    Ok((live, reply))
}

/// Opens a caller and an actor, and carries one call there and its answer back.
pub fn ask_once<K: Actor>(
    alloc: Global,
    kind: K,
    method: Method,
    value: Value,
) -> Result<Heard<K>, NoMemory>
    // What the caller keeps is what the kind answers in the state that it came with.
    ensures answer { IfOk result (λ heard.
        kept_at heard.owner.kept 0 ≡ Some (step_of_question (K.state kind) method value).1) }
    ensures state { IfOk result (λ heard.
        K.state heard.live.state ≡ (step_of_question (K.state kind) method value).0) }
{
    let (mut owner, packet) = send_call(alloc, method, value)?;
    let (live, reply) = run_call(alloc, kind, packet)?;
    owner.collect(Notice::Answered(reply));
    Ok(Heard { owner, live })
}
