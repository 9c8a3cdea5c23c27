//! A lane as plain lists, for one thread: what each event does, and nothing else.

ghost use Rattle.std.specs.Prelude.{◌≡◌, ◌≢◌, ◌≤◌, ◌<◌, ◌⊎◌, IfOk, IfErr, OnErr, OnOk, MatchResult, slice_get, option_map, ℕ, List, []};
ghost use Rattle.aa_lane.specs.WorldState.{WorldState, IsLawful, opening, after, answer_to, after_all, Grows, Replayed};
ghost use Rattle.aa_lane.specs.WorldLaws.{WorldLaws};
ghost use Rattle.aa_lane.specs.Worlds.{WorldsApart};
ghost use Rattle.aa_lane.specs.Ends.{IsCapacity, Denies};

use crate::event::{
    Event, LaneFault, MOST_ACCEPTED, MOST_SLOTS, NoMemory, Reply, SendFault, Unapplied,
};
use aa_machine::Machine;
use std::alloc::Global;
use std::collections::VecDeque;
use std::marker::Model;

/// What a lane is, in plain data: the lists of accepted requests and of answers, how many were taken and collected, the
/// machine's state, whether it is shut, and the capacity. The running lane is told by it.
#[derive(Drop)]
pub struct World<'m, M: Machine> {
    machine: &'m M,
    accepted: Vec<M::Request>,
    answers: Vec<M::Answer>,
    taken: usize,
    collected: usize,
    start: M::State,
    state: M::State,
    shut: bool,
    capacity: u32,
}

impl<'m, M: Machine> Model for World<'m, M> {
    ghost use Rattle.aa_lane.specs.WorldState.{WorldState, IsLawful};

    ghost Value = { WorldState M M.State M.Request M.Answer };

    ghost view = { λ w. record { machine = w.machine.now; start = w.start; capacity = w.capacity; accepted = w.accepted.items; answers = w.answers.items; taken = w.taken; collected = w.collected; state = w.state; shut = w.shut } };

    ghost invariant = { λ w. IsLawful M.next M.reply record { machine = w.machine.now; start = w.start; capacity = w.capacity; accepted = w.accepted.items; answers = w.answers.items; taken = w.taken; collected = w.collected; state = w.state; shut = w.shut } };
}

impl<'m, M: Machine> World<'m, M> {
    /// A world in which nothing has happened. It takes no memory.
    ///
    /// Errors: `BadCapacity` where the capacity is 0 or over 1,024.
    pub fn new(
        alloc: Global,
        machine: &'m M,
        capacity: u32,
        start: M::State,
    ) -> Result<Self, LaneFault>
        ensures ok { IfOk result (λ w. (w ≡ opening machine.now start capacity) × IsCapacity capacity) }
        ensures err { IfErr result (λ f. (f ≡ LaneFault.BadCapacity) × ((capacity ≡ 0) ⊎ (1024 < capacity))) }
    {
        if capacity == 0 || capacity > MOST_SLOTS {
            return Err(LaneFault::BadCapacity);
        }
        Ok(World {
            machine,
            accepted: Vec::new(alloc),
            answers: Vec::new(alloc),
            taken: 0,
            collected: 0,
            start,
            state: start,
            shut: false,
            capacity,
        })
    }

    fn send(&mut self, request: M::Request) -> Result<Reply<M>, Unapplied<M>>
        ensures after { OnOk result (self.new ≡ after M.next M.reply self.old (Event.Send request)) }
        ensures reply { IfOk result (λ r. r ≡ answer_to M.next M.reply self.old (Event.Send request)) }
        ensures refused { IfErr result (λ u. (u.event ≡ Event.Send request) × (self.new ≡ self.old)) }
        ensures grows { OnErr result (Grows (answer_to M.next M.reply self.old (Event.Send request))) }
    {
        if self.accepted.len() as u64 == MOST_ACCEPTED {
            return Ok(Reply::Unsent(SendFault::Spent, request));
        }
        if self.accepted.len() - self.collected == self.capacity as usize {
            return Ok(Reply::Unsent(SendFault::Full, request));
        }
        if self.shut {
            return Ok(Reply::Unsent(SendFault::Closed, request));
        }
        if self.accepted.reserve(1).is_err() {
            return Err(Unapplied {
                event: Event::Send(request),
            });
        }
        let number = self.accepted.len();
        self.accepted.push_reserved(request);
        Ok(Reply::Accepted(number as u64))
    }

    fn take(&mut self) -> Reply<M>
        ensures after { self.new ≡ after M.next M.reply self.old Event.Take }
        ensures reply { result ≡ answer_to M.next M.reply self.old Event.Take }
    {
        if self.taken > self.answers.len() {
            return Reply::Held;
        }
        if self.taken < self.accepted.len() {
            let number = self.taken;
            self.taken += 1;
            return Reply::Taken(number as u64);
        }
        if self.shut {
            Reply::Settled
        } else {
            Reply::Idle
        }
    }

    fn finish(&mut self) -> Result<Reply<M>, NoMemory>
        ensures after { OnOk result (self.new ≡ after M.next M.reply self.old Event.Finish) }
        ensures reply { IfOk result (λ r. r ≡ answer_to M.next M.reply self.old Event.Finish) }
        ensures refused { OnErr result (self.new ≡ self.old) }
        ensures grows { OnErr result (Grows (answer_to M.next M.reply self.old Event.Finish)) }
    {
        let number = self.answers.len();
        if self.taken == number {
            return Ok(Reply::NoJob);
        }
        if self.answers.reserve(1).is_err() {
            return Err(NoMemory);
        }
        let mut state = self.state;
        let answer = self.machine.step(&mut state, &self.accepted[number]);
        self.answers.push_reserved(answer);
        self.state = state;
        Ok(Reply::Finished(number as u64))
    }

    fn collect(&mut self) -> Reply<M>
        ensures after { self.new ≡ after M.next M.reply self.old Event.Collect }
        ensures reply { result ≡ answer_to M.next M.reply self.old Event.Collect }
    {
        if self.collected < self.answers.len() {
            let number = self.collected;
            self.collected += 1;
            return Reply::Given(number as u64);
        }
        Reply::Nothing
    }

    fn shut(&mut self) -> Reply<M>
        ensures after { self.new ≡ after M.next M.reply self.old Event.Shut }
        ensures reply { result ≡ answer_to M.next M.reply self.old Event.Shut }
    {
        self.shut = true;
        Reply::Count(self.accepted.len() as u64)
    }

    /// Makes one event happen, and gives the reply to it.
    ///
    /// Errors: no memory, for a request that would be accepted or an answer that would be given. The event comes back, and
    /// the world is as before it. `Take`, `Collect` and `Shut` take no memory.
    pub fn apply(&mut self, event: Event<M>) -> Result<Reply<M>, Unapplied<M>>
        ensures after { OnOk result (self.new ≡ after M.next M.reply self.old event) }
        ensures reply { IfOk result (λ r. r ≡ answer_to M.next M.reply self.old event) }
        ensures refused { IfErr result (λ u. (u.event ≡ event) × (self.new ≡ self.old)) }
        ensures grows { OnErr result (Grows (answer_to M.next M.reply self.old event)) }
    {
        match event {
            Event::Send(request) => self.send(request),
            Event::Take => Ok(self.take()),
            Event::Finish => match self.finish() {
                Ok(reply) => Ok(reply),
                Err(NoMemory) => Err(Unapplied {
                    event: Event::Finish,
                }),
            },
            Event::Collect => Ok(self.collect()),
            Event::Shut => Ok(self.shut()),
        }
    }

    /// The accepted request of number `n`, if there are so many.
    pub fn request(&self, n: u64) -> Option<&M::Request>
        ensures { option_map (λ r. r.now) result ≡ slice_get self.now.accepted n }
    {
        self.accepted.get(n as usize)
    }

    /// The answer to the request of number `n`, if it is given.
    pub fn answer(&self, n: u64) -> Option<&M::Answer>
        ensures { option_map (λ r. r.now) result ≡ slice_get self.now.answers n }
    {
        self.answers.get(n as usize)
    }

    /// The machine's state after all answered requests.
    pub fn label(&self) -> M::State
        ensures state { result ≡ self.now.state }
        ensures lawful { IsLawful M.next M.reply self.now }
    {
        self.state
    }
}

/// Makes the events happen, from the front on, and appends one reply for each.
///
/// Errors: no memory. The event that failed is then at the front, and the world and the replies are as after those before it.
// Room for the reply is made before the event is taken, so a refused growth leaves the event in front. An empty list takes
// none.
pub fn replay<M: Machine>(
    world: &mut World<M>,
    events: &mut VecDeque<Event<M>>,
    replies: &mut Vec<Reply<M>>,
) -> Result<(), NoMemory>
    ensures replayed { Replayed M.next M.reply world.old events.old.items replies.old.items world.new events.new.items replies.new.items }
    ensures ok { OnOk result (events.new.items ≡ []) }
    ensures err { OnErr result (events.new.items ≢ []) }
{
    while !events.is_empty() {
        if replies.reserve(1).is_err() {
            return Err(NoMemory);
        }
        let Some(event) = events.pop_front() else {
            unreachable!();
        };
        match world.apply(event) {
            Ok(reply) => replies.push_reserved(reply),
            Err(Unapplied { event }) => {
                if events.push_front(event).is_err() {
                    unreachable!();
                }
                return Err(NoMemory);
            }
        }
    }
    Ok(())
}

/// Whatever events happen, in whatever order, the world that they leave is lawful.
pub fn always_lawful<M: Machine>()
    ensures { (m : M) (s : M.State) (c : ℕ) (events : List (Event M M.State M.Request M.Answer)) → IsLawful M.next M.reply (after_all M.next M.reply (opening m s c) events) }
{}

/// What holds of a world for good: shut, settled, accepted and answered.
pub fn world_laws<M: Machine>()
    ensures { WorldLaws M.next M.reply }
{}

/// The worlds of an engine, one for each task, don't touch one another: an event with a tag is an event of the world of
/// that tag alone, so each world is what its own events, in their order, make of it.
pub fn worlds_apart<M: Machine>()
    ensures { WorldsApart M.next M.reply }
{}
