//! A play that is explored: what callers did, what actors ran, and the events of it so far.
//!
//! What isn't chosen is done as early as it can be: a call is sent once its arguments are known, and is
//! brought to its actor at once, and a reply or a death is told at once. A caller takes it when its code
//! waits, or at a turn.

ghost use Rattle.act_actor.specs.Cast.{IsFitting, CallersDiffer};

use crate::rehearsal::Pause;
use crate::rehearsed::{Standing, new_owner};
use act_actor::{Cast, Live};
use act_kinds::Actor;
use act_owner::Owner;
use act_rules::{Event, SubmitRefusal};
use act_types::{
    ActorId, CallerId, CopyOf, ListOf, MAX_CALLERS, MAX_CALLS, NoMemory, Notice, Packet,
    ReleaseNote,
};
use std::alloc::Global;

/// A caller, and what it knows.
#[derive(Drop)]
pub(crate) struct Player {
    pub(crate) owner: Owner,
    /// All that was told to it, each with its place among the notices of all callers.
    pub(crate) known: Vec<(u32, Notice)>,
    /// How many notices came by each of its turns.
    pub(crate) looks: Vec<usize>,
    /// How many notices it took.
    pub(crate) taken: usize,
    /// The places of its own events.
    pub(crate) acts: Vec<usize>,
    /// Whether it knows more than in its last rehearsal.
    pub(crate) is_behind: bool,
    pub(crate) standing: Standing,
}

/// An actor, and how it stands.
#[derive(Drop)]
pub(crate) struct Server<K> {
    pub(crate) live: Live<K>,
    pub(crate) callers: ListOf<CallerId>,
    pub(crate) is_asked: bool,
    pub(crate) is_dead: bool,
}

/// A play that is explored.
#[derive(Drop)]
pub(crate) struct Play<K> {
    pub(crate) alloc: Global,
    pub(crate) players: Vec<Player>,
    pub(crate) servers: Vec<Server<K>>,
    pub(crate) events: Vec<Event>,
    /// How many letters were sent, and how many notices told.
    letters: u32,
    notices: u32,
}

impl Player {
    /// Takes the next notice.
    fn collect(&mut self, alloc: Global) -> Result<(), NoMemory> {
        let Some((_, notice)) = self.known.get(self.taken) else {
            return Ok(());
        };
        let notice = notice.copy_of(alloc)?;
        self.taken = self.taken.wrapping_add(1);
        self.owner.collect(notice);
        Ok(())
    }

    /// Does one of its events. After the release of a last handle it gives the note.
    fn act(&mut self, alloc: Global, event: &Event) -> Result<Option<ReleaseNote>, NoMemory> {
        match event {
            Event::Submit(_, a, method, args) => {
                let args = args.copy_of(alloc)?;
                match self.owner.submit(*a, *method, args) {
                    Err(SubmitRefusal::NoMemory) => Err(NoMemory),
                    _ => Ok(None),
                }
            }
            Event::Copy(_, a) => {
                let _ = self.owner.copy(*a);
                Ok(None)
            }
            Event::Release(_, a) => Ok(self.owner.release(*a).unwrap_or(None)),
            Event::Collect(_) => {
                self.collect(alloc)?;
                Ok(None)
            }
            _ => Ok(None),
        }
    }

    /// Whether its code came to its end, and each of its calls has an answer.
    pub(crate) fn is_through(&self) -> bool {
        self.standing == Standing::Ended && self.owner.all_answered()
    }
}

/// The callers that the casts name.
fn players_of<K>(alloc: Global, casts: &[Cast<K>]) -> Result<Vec<Player>, NoMemory>
    requires fit { IsFitting casts.now }
{
    let mut players = Vec::new(alloc);
    for before in 0..MAX_CALLERS {
        let c = CallerId::new(before + 1).unwrap();
        if casts
            .iter()
            .any(|cast| cast.callers.as_slice().contains(&c))
        {
            players.push(Player {
                owner: new_owner(alloc, casts, c)?,
                known: Vec::new(alloc),
                looks: Vec::new(alloc),
                taken: 0,
                acts: Vec::new(alloc),
                is_behind: true,
                standing: Standing::Stopped(Pause::Waits),
            })?;
        }
    }
    Ok(players)
}

/// An actor in its opening state.
fn server_of<K: Actor>(alloc: Global, cast: Cast<K>) -> Result<Server<K>, NoMemory>
    requires callers { CallersDiffer cast.callers }
{
    let Cast {
        actor,
        callers,
        kind,
        pending: _,
    } = cast;
    let live = Live::open(alloc, actor, callers.as_slice(), kind)?;
    Ok(Server {
        live,
        callers,
        is_asked: false,
        is_dead: false,
    })
}

impl<K: Actor> Play<K> {
    /// All callers and actors as they begin.
    pub(crate) fn open(alloc: Global, casts: Vec<Cast<K>>) -> Result<Play<K>, NoMemory>
        requires fit { IsFitting casts.items }
    {
        let players = players_of(alloc, casts.as_slice())?;
        let mut servers = Vec::new(alloc);
        for cast in casts {
            servers.push(server_of(alloc, cast)?)?;
        }
        Ok(Play {
            alloc,
            players,
            servers,
            events: Vec::new(alloc),
            letters: 0,
            notices: 0,
        })
    }

    /// The place of an actor that isn't dead.
    fn living(&self, a: ActorId) -> Option<usize> {
        self.servers
            .iter()
            .position(|server| server.live.id() == a && !server.is_dead)
    }

    /// Counts a letter, and gives its place.
    fn next_letter(&mut self) -> u32 {
        let letter = self.letters;
        self.letters = letter.wrapping_add(1);
        letter
    }

    /// Sends a call, and brings it to its actor.
    fn post_call(&mut self, packet: Packet) -> Result<(), NoMemory> {
        let event = Event::Send(packet.caller, packet.future);
        self.events.push(event)?;
        let letter = self.next_letter();
        let place = self.living(packet.actor);
        let Some(server) = self.servers.get_mut(place.unwrap_or(usize::MAX)) else {
            return Ok(());
        };
        if server.live.arrive(packet).is_err() {
            return Err(NoMemory);
        }
        self.events.push(Event::Deliver(letter))?;
        Ok(())
    }

    /// Brings the note of a last handle to its actor.
    fn post_note(&mut self, note: ReleaseNote) -> Result<(), NoMemory> {
        let letter = self.next_letter();
        let place = self.living(note.actor);
        let Some(server) = self.servers.get_mut(place.unwrap_or(usize::MAX)) else {
            return Ok(());
        };
        let _ = server.live.released(note);
        self.events.push(Event::Deliver(letter))?;
        Ok(())
    }

    /// Sends what the caller may send.
    fn send_ready(&mut self, p: usize) -> Result<(), NoMemory> {
        for _ in 0..MAX_CALLS {
            let Some(player) = self.players.get_mut(p) else {
                return Ok(());
            };
            let Some(packet) = player.owner.next_packet(self.alloc)? else {
                return Ok(());
            };
            self.post_call(packet)?;
        }
        Ok(())
    }

    /// A kill of the actor is asked.
    fn ask_kill(&mut self, a: ActorId) {
        let place = self.living(a);
        if let Some(server) = self.servers.get_mut(place.unwrap_or(usize::MAX)) {
            server.is_asked = true;
        }
    }

    /// The caller does one event more.
    pub(crate) fn act(&mut self, p: usize, event: Event) -> Result<(), NoMemory> {
        let place = self.events.len();
        let Some(player) = self.players.get_mut(p) else {
            return Ok(());
        };
        let note = player.act(self.alloc, &event)?;
        player.acts.push(place)?;
        if let Event::AskKill(_, a) = &event {
            self.ask_kill(*a);
        }
        self.events.push(event)?;
        if let Some(note) = note {
            self.post_note(note)?;
        }
        self.send_ready(p)
    }

    /// A caller is told something.
    pub(crate) fn tell(&mut self, p: usize, notice: Notice) -> Result<(), NoMemory> {
        let place = self.notices;
        self.notices = place.wrapping_add(1);
        let Some(player) = self.players.get_mut(p) else {
            return Ok(());
        };
        player.known.push((place, notice))?;
        player.is_behind = true;
        Ok(())
    }
}
