//! What is chosen of a play, and what comes after a choice.

ghost use Rattle.std.specs.Prelude.{◌≡◌, length, IfOk};
ghost use Rattle.act_actor.specs.Cast.{IsFitting};
ghost use Rattle.act_actor.specs.Casts.{limits_that_name};
ghost use Rattle.act_owner.specs.Owner.{opened_with};
ghost use Rattle.act_code_ends.specs.declared.rehearsed.Standing.TheVariants.{Ended};
ghost use Rattle.act_code_ends.specs.Rehearsals.{HasEnded};

use crate::fault::CodeFault;
use crate::opening::Codes;
use crate::play::{Play, Player};
use crate::rehearsal::Pause;
use crate::rehearsed::{Rehearsed, Standing, new_owner, rehearse};
use act_actor::Cast;
use act_compare::same_event;
use act_drive::Code;
use act_kinds::Actor;
use act_rules::Event;
use act_types::{Arg, CallerId, NoMemory, Notice, Value};
use std::alloc::{AllocError, Global};

/// What is chosen next. Actors and callers are named by their places.
#[derive(Clone, Copy, Debug, PartialEq, Eq)]
pub(crate) enum Choice {
    /// The actor runs the caller's next call.
    Run(usize, usize),
    /// The actor takes a kill.
    Kill(usize),
    /// So many notices came by the caller's turn.
    Look(usize, usize),
}

/// The code of a caller once more, from its start, over what the caller knows.
pub(crate) fn rehearse_again<K, C: Code, M: Codes<C>>(
    alloc: Global,
    casts: &[Cast<K>],
    codes: &M,
    c: CallerId,
    known: &[(u32, Notice)],
    looks: &[usize],
) -> Result<Rehearsed, NoMemory>
    requires fit { IsFitting casts.now }
    ensures ended { IfOk result (λ rehearsed. rehearsed.standing ≡ Ended →
        (code : C) × M.makes codes.now c code × HasEnded (C.tells code)
        (opened_with c (limits_that_name c casts.now)) rehearsed.owner.calls rehearsed.owner.kept) }
    ensures places { IfOk result (λ rehearsed. length rehearsed.owner.kept ≡ length rehearsed.owner.calls) }
{
    let owner = new_owner(alloc, casts, c)?;
    let code = codes.code(alloc, c)?;
    Ok(rehearse(alloc, owner, code, known, looks))
}

impl<K: Actor> Play<K> {
    /// The actor is dead, and tells its callers.
    fn bury(&mut self, s: usize) -> Result<(), NoMemory> {
        for p in 0..self.players.len() {
            let (Some(server), Some(player)) = (self.servers.get_mut(s), self.players.get(p)) else {
                return Ok(());
            };
            server.is_dead = true;
            let a = server.live.id();
            let c = player.owner.id();
            if server.callers.as_slice().contains(&c) {
                self.events.push(Event::Tell(a, c))?;
                self.tell(p, Notice::Death(a))?;
            }
        }
        Ok(())
    }

    /// The actor runs the caller's next call. A call that ended the actor is the last.
    fn run(&mut self, s: usize, p: usize) -> Result<(), NoMemory> {
        let (Some(server), Some(player)) = (self.servers.get_mut(s), self.players.get(p)) else {
            return Ok(());
        };
        let a = server.live.id();
        let c = player.owner.id();
        let Some(reply) = server.live.run(c)? else {
            return Ok(());
        };
        let has_ended = server.live.terminated();
        self.events.push(Event::Run(a, c))?;
        self.tell(p, Notice::Answered(reply))?;
        if has_ended { self.bury(s) } else { Ok(()) }
    }

    /// The actor takes a kill.
    fn kill(&mut self, s: usize) -> Result<(), NoMemory> {
        let Some(server) = self.servers.get(s) else {
            return Ok(());
        };
        let a = server.live.id();
        self.events.push(Event::TakeKill(a))?;
        self.bury(s)
    }

    /// The caller hears so many notices at its turn.
    fn look(&mut self, p: usize, count: usize) -> Result<(), NoMemory> {
        if let Some(player) = self.players.get_mut(p) {
            player.looks.push(count)?;
            player.is_behind = true;
        }
        Ok(())
    }

    /// Does what the code of a caller did in its last rehearsal, beyond what it did before.
    fn add_events(&mut self, p: usize, events: Vec<Event>) -> Result<(), CodeFault> {
        for (place, event) in events.into_iter().enumerate() {
            let Some(player) = self.players.get(p) else {
                return Ok(());
            };
            let c = player.owner.id();
            match player.acts.get(place) {
                None => self.act(p, event)?,
                Some(at) => {
                    let before = self.events.get(*at);
                    if !before.is_some_and(|before| same_event(before, &event)) {
                        return Err(CodeFault::Changed(c));
                    }
                }
            }
        }
        Ok(())
    }

    /// Runs the code of a caller again, where it knows more than before.
    fn go_on_with<C: Code, M: Codes<C>>(
        &mut self,
        casts: &[Cast<K>],
        codes: &M,
        p: usize,
    ) -> Result<(), CodeFault>
        requires fit { IsFitting casts.now }
    {
        let Some(player) = self.players.get_mut(p) else {
            return Ok(());
        };
        if !player.is_behind {
            return Ok(());
        }
        player.is_behind = false;
        let c = player.owner.id();
        let Rehearsed {
            owner,
            events,
            standing,
        } = rehearse_again(self.alloc, casts, codes, c, &player.known, &player.looks)?;
        drop(owner);
        player.standing = standing;
        if events.len() < player.acts.len() {
            return Err(CodeFault::Changed(c));
        }
        match standing {
            Standing::Stopped(Pause::Memory) => Err(CodeFault::NoMemory),
            Standing::GaveUp => Err(CodeFault::GaveUp(c)),
            _ => self.add_events(p, events),
        }
    }

    /// Runs the codes again of the callers that know more than before.
    pub(crate) fn go_on<C: Code, M: Codes<C>>(
        &mut self,
        casts: &[Cast<K>],
        codes: &M,
    ) -> Result<(), CodeFault>
        requires fit { IsFitting casts.now }
    {
        for p in 0..self.players.len() {
            self.go_on_with(casts, codes, p)?;
        }
        Ok(())
    }

    /// Does what is chosen.
    pub(crate) fn choose(&mut self, choice: Choice) -> Result<(), NoMemory> {
        match choice {
            Choice::Run(s, p) => self.run(s, p),
            Choice::Kill(s) => self.kill(s),
            Choice::Look(p, count) => self.look(p, count),
        }
    }

    /// Adds the choices at an actor.
    fn add_runs(&self, s: usize, choices: &mut Vec<Choice>) -> Result<(), NoMemory> {
        let Some(server) = self.servers.get(s) else {
            return Ok(());
        };
        if server.is_dead {
            return Ok(());
        }
        for (p, player) in self.players.iter().enumerate() {
            if server.live.has_next(player.owner.id()) {
                choices.push(Choice::Run(s, p))?;
            }
        }
        if server.is_asked {
            choices.push(Choice::Kill(s))?;
        }
        Ok(())
    }

    /// Adds the choices of a caller that takes a turn: none came by then, or some that are known.
    fn add_looks(&self, p: usize, choices: &mut Vec<Choice>) -> Result<(), NoMemory> {
        let Some(player) = self.players.get(p) else {
            return Ok(());
        };
        if player.standing == Standing::Stopped(Pause::Looks) {
            for count in 0..=player.known.len().saturating_sub(player.taken) {
                choices.push(Choice::Look(p, count))?;
            }
        }
        Ok(())
    }

    /// All choices that there are.
    pub(crate) fn choices(&self) -> Result<Vec<Choice>, NoMemory> {
        let mut choices = Vec::new(self.alloc);
        for s in 0..self.servers.len() {
            self.add_runs(s, &mut choices)?;
        }
        for p in 0..self.players.len() {
            self.add_looks(p, &mut choices)?;
        }
        Ok(choices)
    }

    /// Whether each code came to its end, and each call has an answer.
    pub(crate) fn is_end(&self) -> bool {
        self.players.iter().all(|player| player.is_through())
    }

    /// What tells the play apart from those that can end otherwise: which callers' calls each actor ran,
    /// and of each caller what its code did, or where it isn't at its end, in which order it was told what,
    /// and what it heard by its turns.
    pub(crate) fn key(&self) -> Result<String, NoMemory> {
        let mut key = String::new(self.alloc);
        for server in &self.servers {
            for item in server.live.log() {
                let caller = item.caller.number();
                write!(key, "{caller} ")?;
            }
            key.push(if server.is_dead { '!' } else { '.' })?;
            key.push(if server.is_asked { '?' } else { '.' })?;
        }
        for player in &self.players {
            if player.standing == Standing::Ended {
                push_calls(&mut key, &self.events, player)?;
            } else {
                push_known(&mut key, player)?;
            }
        }
        Ok(key)
    }
}

fn push_arg(key: &mut String, arg: &Arg) -> Result<(), AllocError> {
    match arg {
        Arg::Plain(Value::Text(text)) => {
            let bytes = text.len();
            write!(key, " {bytes}{text}")
        }
        Arg::Plain(value) => write!(key, " {value}"),
        Arg::Fut(future) => write!(key, " @{future}"),
    }
}

/// Adds the calls of a caller.
fn push_calls(key: &mut String, events: &[Event], player: &Player) -> Result<(), AllocError> {
    for at in &player.acts {
        if let Some(Event::Submit(_, a, method, args)) = events.get(*at) {
            write!(key, "\n{a} {method}")?;
            for arg in args.as_slice() {
                push_arg(key, arg)?;
            }
        }
    }
    key.push_str("\nend")
}

/// Adds what a caller was told, and what it heard by its turns.
fn push_known(key: &mut String, player: &Player) -> Result<(), AllocError> {
    key.push('\n')?;
    for (_, notice) in &player.known {
        match notice {
            Notice::Answered(reply) => {
                let actor = reply.actor.number();
                write!(key, "{actor} ")?;
            }
            Notice::Death(actor) => write!(key, "!{actor} ")?,
        }
    }
    for look in &player.looks {
        write!(key, "/{look}")?;
    }
    Ok(())
}
