//! A play made of what the threads noted.
//!
//! What an event is refused for depends on what its own thread did before, and on one cause in another
//! thread: a letter that was sent, a notice that was given, a kill that was asked. So the threads take
//! turns, and each puts its next event where the cause of it stands.
//!
//! No contract says that what is made is a play: a world plays it, and the two ends are compared.

ghost use Rattle.std.specs.Prelude.{◌≡◌, IfOk, IfSome, length};
ghost use Rattle.act_replay.specs.Notes.{AreWhole, HaveAll, marks_of};

use crate::causes::Causes;
use act_executor::{Finished, Mark, Page, Pages};
use act_kinds::Actor;
use act_owner::Owner;
use act_rules::Event;
use act_types::{ActorId, CopyOf, NoMemory};
use std::alloc::Global;

/// A play that is being made. Of each thread it has how many of its marks are events by now.
#[derive(Drop)]
struct Merged {
    alloc: Global,
    events: Vec<Event>,
    causes: Causes,
    of_callers: Vec<usize>,
    of_actors: Vec<usize>,
}

/// The next mark of a thread.
fn next_mark(pages: &[Page], done: &[usize], at: usize) -> Option<Mark> {
    let page = pages.get(at)?;
    let place = done.get(at)?;
    match page.marks.get(*place) {
        Some(mark) => Some(*mark),
        None => None,
    }
}

/// Of so many threads no mark is an event.
fn nothing_done(alloc: Global, threads: usize) -> Result<Vec<usize>, NoMemory> {
    let mut done = Vec::new(alloc);
    for _thread in 0..threads {
        done.push(0)?;
    }
    Ok(done)
}

/// A mark more of a thread is an event.
fn go_on(done: &mut Vec<usize>, at: usize) {
    if let Some(place) = done.get_mut(at) {
        *place = place.wrapping_add(1);
    }
}

/// The letter is brought, where it stands.
fn deliver_event(letter: Option<u32>) -> Option<Event> {
    match letter {
        Some(place) => Some(Event::Deliver(place)),
        None => None,
    }
}

/// The notice is collected, where it stands.
fn collect_event(notice: Option<u32>) -> Option<Event> {
    match notice {
        Some(place) => Some(Event::Collect(place)),
        None => None,
    }
}

/// How many marks the pages have, or none where one isn't whole.
fn count_marks(pages: &[Page]) -> Option<usize>
    ensures whole { IfSome result (λ _. AreWhole pages.now) }
    ensures count { IfSome result (λ marks. marks ≡ marks_of pages.now) }
{
    let mut marks: usize = 0;
    for page in pages {
        if !page.is_whole {
            return None;
        }
        marks = marks.checked_add(page.marks.len())?;
    }
    Some(marks)
}

/// How many marks all pages have, or none where one isn't whole.
fn count_all(pages: &Pages<Page>) -> Option<usize>
    ensures { IfSome result (HaveAll pages.now) }
{
    let called = count_marks(pages.of_callers.as_slice())?;
    let served = count_marks(pages.of_actors.as_slice())?;
    called.checked_add(served)
}

impl Merged {
    /// No event, for so many callers and actors.
    fn open(alloc: Global, callers: usize, actors: usize) -> Result<Merged, NoMemory> {
        let of_callers = nothing_done(alloc, callers)?;
        let of_actors = nothing_done(alloc, actors)?;
        let causes = Causes::open(alloc)?;
        Ok(Merged {
            alloc,
            events: Vec::new(alloc),
            causes,
            of_callers,
            of_actors,
        })
    }

    /// The submission of the caller's next call.
    fn submission(&mut self, owner: &Owner) -> Result<Option<Event>, NoMemory> {
        let Some(k) = self.causes.submit(owner.id())? else {
            return Ok(None);
        };
        let Some(call) = owner.call(k) else {
            return Ok(None);
        };
        let args = call.args.copy_of(self.alloc)?;
        Ok(Some(Event::Submit(owner.id(), call.actor, call.method, args)))
    }

    /// The event of a caller's mark, where its cause stands.
    fn event_of_caller(&mut self, owner: &Owner, mark: Mark) -> Result<Option<Event>, NoMemory> {
        let c = owner.id();
        let event = match mark {
            Mark::Submit(_) => self.submission(owner)?,
            Mark::Copy(a) => Some(Event::Copy(c, a)),
            Mark::Release(a) => Some(Event::Release(c, a)),
            Mark::LastRelease(a) => {
                self.causes.let_go(c, a);
                Some(Event::Release(c, a))
            }
            Mark::Send(k) => {
                self.causes.send(c, k);
                Some(Event::Send(c, k))
            }
            Mark::AskKill(a) => {
                self.causes.ask_kill(a);
                Some(Event::AskKill(c, a))
            }
            Mark::CollectReply(a, place) => collect_event(self.causes.reply(a, place)),
            Mark::CollectDeath(a) => collect_event(self.causes.death(a, c)),
            _ => None,
        };
        Ok(event)
    }

    /// The event of an actor's mark, where its cause stands.
    fn event_of_actor(&mut self, a: ActorId, mark: Mark) -> Result<Option<Event>, NoMemory> {
        let event = match mark {
            Mark::DeliverCall(c, k) => deliver_event(self.causes.call(c, k)),
            Mark::DeliverNote(c) => deliver_event(self.causes.note(c, a)),
            Mark::Run(c) => {
                self.causes.run(a)?;
                Some(Event::Run(a, c))
            }
            Mark::TakeKill => {
                if self.causes.is_asked(a) {
                    Some(Event::TakeKill(a))
                } else {
                    None
                }
            }
            Mark::Tell(c) => {
                self.causes.tell(a, c);
                Some(Event::Tell(a, c))
            }
            Mark::Retire => Some(Event::Retire(a)),
            _ => None,
        };
        Ok(event)
    }

    /// Puts the caller's next event, where there is one and its cause stands.
    fn put_of_caller(
        &mut self,
        owner: &Owner,
        at: usize,
        pages: &[Page],
    ) -> Result<bool, NoMemory> {
        let Some(mark) = next_mark(pages, self.of_callers.as_slice(), at) else {
            return Ok(false);
        };
        let Some(event) = self.event_of_caller(owner, mark)? else {
            return Ok(false);
        };
        self.events.push(event)?;
        go_on(&mut self.of_callers, at);
        Ok(true)
    }

    /// Puts the actor's next event, where there is one and its cause stands.
    fn put_of_actor(&mut self, a: ActorId, at: usize, pages: &[Page]) -> Result<bool, NoMemory> {
        let Some(mark) = next_mark(pages, self.of_actors.as_slice(), at) else {
            return Ok(false);
        };
        let Some(event) = self.event_of_actor(a, mark)? else {
            return Ok(false);
        };
        self.events.push(event)?;
        go_on(&mut self.of_actors, at);
        Ok(true)
    }

    /// Each caller's turn.
    fn call_round(&mut self, owners: &[Owner], pages: &[Page]) -> Result<bool, NoMemory> {
        let mut has_moved = false;
        for (at, owner) in owners.iter().enumerate() {
            has_moved = self.put_of_caller(owner, at, pages)? || has_moved;
        }
        Ok(has_moved)
    }

    /// Each actor's turn.
    fn serve_round<K: Actor>(
        &mut self,
        actors: &[Finished<K>],
        pages: &[Page],
    ) -> Result<bool, NoMemory> {
        let mut has_moved = false;
        for (at, actor) in actors.iter().enumerate() {
            has_moved = self.put_of_actor(actor.ended.id(), at, pages)? || has_moved;
        }
        Ok(has_moved)
    }

    /// Puts events until no thread has one whose cause stands.
    fn put_all<K: Actor>(
        &mut self,
        owners: &[Owner],
        actors: &[Finished<K>],
        pages: &Pages<Page>,
    ) -> Result<(), NoMemory> {
        for _round in 0..MAX_ROUNDS {
            let has_called = self.call_round(owners, pages.of_callers.as_slice())?;
            let has_served = self.serve_round(actors, pages.of_actors.as_slice())?;
            if !has_called && !has_served {
                break;
            }
        }
        Ok(())
    }
}

/// More rounds than there are events in any play.
const MAX_ROUNDS: u32 = 4_294_967_295;

/// The events that the threads of these callers and actors noted, in an order in which each stands
/// after its cause. None where a page isn't whole, or a cause stands nowhere.
pub(crate) fn merge<K: Actor>(
    alloc: Global,
    owners: &[Owner],
    actors: &[Finished<K>],
    pages: &Pages<Page>,
) -> Result<Option<Vec<Event>>, NoMemory>
    ensures { IfOk result (λ found. IfSome found (λ events. HaveAll pages.now (length events.items))) }
{
    let Some(marks) = count_all(pages) else {
        return Ok(None);
    };
    let mut merged = Merged::open(alloc, owners.len(), actors.len())?;
    if let Err(error) = merged.put_all(owners, actors, pages) {
        drop(merged);
        return Err(error);
    }
    let Merged { events, .. } = merged;
    if events.len() == marks {
        Ok(Some(events))
    } else {
        drop(events);
        Ok(None)
    }
}
