//! A lane with what it is to be fed.
ghost use Rattle.std.specs.Prelude.{◌≡◌, ◌≢◌, map, true, false, ◌+◌, ◌-◌, ◌<◌, ◌≤◌, ◌++◌, [], ◌∷◌, length, vec_len, vec_capacity, IfOk, MatchOption, MatchResult, List};
ghost use Rattle.std.specs.VecDeque.{deque_len, deque_capacity};
ghost use Rattle.aa_machine.specs.Run.{state_after};
ghost use Rattle.aa_lane.specs.Ends.{known, new_owner, IsCapacity};
ghost use Rattle.aa_lane.specs.Answers.{answered_from};
ghost use Rattle.aa_pool.specs.Fed.{IsFed, MayGoOn, HasLeft, HasCollected, answers_of};

use aa_lane::{Answered, Lane, Leaver, Owner};
use aa_machine::Machine;
use std::collections::VecDeque;
use std::marker::Model;

// How many turns a burst has at most: as many answers are collected and requests sent as the widest lane has slots.
const MOST_TURNS: u32 = 2048;

// Collects an answer, if there is one; where all that was sent is answered, there is none.
fn collect<'m, M: Machine>(
    lane: &Lane<'m, M>,
    owner: &mut Owner<M>,
    answered: &mut Vec<Answered<M>>,
    sent: u64,
) -> bool
    requires fed { IsFed M.next M.reply lane.now owner.old answered.old.items }
    requires room { length owner.old.sent ≤ vec_capacity answered.old }
    ensures fed { IsFed M.next M.reply lane.now owner.new answered.new.items }
    ensures sent { (owner.new.sent ≡ owner.old.sent) × (owner.new.closed ≡ owner.old.closed) }
    ensures room { vec_capacity answered.new ≡ vec_capacity answered.old }
{
    if sent == answered.len() as u64 {
        return false;
    }
    match owner.collect(lane) {
        Some(given) => {
            answered.push_reserved(given);
            true
        }
        None => false,
    }
}

// How many requests more a lane of that many slots has room for, after so many were sent and so many answers collected.
fn room_for(capacity: u64, sent: u64, got: u64) -> u64
    ensures { result ≡ capacity - (sent - got) }
{
    capacity.saturating_sub(sent.saturating_sub(got))
}

// The first request that is left, where the lane may accept one more.
fn next_to_send<Q>(is_open: bool, room: u64, left: &mut VecDeque<Q>) -> Option<Q>
    ensures { MatchOption result
        ((left.new.items ≡ left.old.items) × (is_open ≡ true → 0 < room → left.new.items ≡ []))
        (λ q. (0 < room) × (left.old.items ≡ q ∷ left.new.items) × (deque_len left.new < deque_capacity left.new)) }
{
    if !is_open {
        return None;
    }
    if room == 0 {
        return None;
    }
    left.pop_front()
}

// Sends a request, and counts it. Where the lane accepts nothing more it stays the first that is left. Whether it was accepted.
fn send<'m, M: Machine>(
    lane: &Lane<'m, M>,
    owner: &mut Owner<M>,
    answered: &Vec<Answered<M>>,
    request: M::Request,
    left: &mut VecDeque<M::Request>,
    sent: &mut u64,
) -> bool
    requires fed { IsFed M.next M.reply lane.now owner.old answered.now.items }
    requires sent { sent.old ≡ length owner.old.sent }
    requires slots { length owner.old.sent < owner.old.got + lane.now.table.slots }
    requires room { deque_len left.old < deque_capacity left.old }
    ensures fed { IsFed M.next M.reply lane.now owner.new answered.now.items }
    ensures sent { sent.new ≡ length owner.new.sent }
    ensures all { owner.new.sent ++ left.new.items ≡ owner.old.sent ++ request ∷ left.old.items }
    ensures refused { result ≡ false → MayGoOn owner.new → ⊥ }
{
    let _ = answered;
    match owner.send(lane, request) {
        Ok(number) => {
            *sent = number + 1;
            true
        }
        Err(unsent) => {
            match left.push_front(unsent.request) {
                Ok(()) => {}
                Err(_) => unreachable!(),
            }
            false
        }
    }
}

// Leaves the lane, if all answers are there: then nothing is left, or the lane accepts nothing more.
fn leave<'m, M: Machine>(
    lane: &Lane<'m, M>,
    owner: Owner<M>,
    answered: &Vec<Answered<M>>,
    left: &VecDeque<M::Request>,
    sent: u64,
) -> Result<Leaver<M>, Owner<M>>
    requires fed { IsFed M.next M.reply lane.now owner answered.now.items }
    requires sent { sent ≡ length owner.sent }
    requires all { vec_len answered.now ≡ sent → MayGoOn owner → left.now.items ≡ [] }
    ensures { MatchResult result (λ l. HasLeft M.next M.reply lane.now l answered.now.items left.now.items × (l.sent ≡ owner.sent)) (λ o. o ≡ owner) }
{
    let _ = left;
    if answered.len() as u64 == sent {
        Ok(owner.exit(lane))
    } else {
        Err(owner)
    }
}

/// What a turn at a lane came to, or a burst of them.
#[derive(Clone, Copy, PartialEq, Eq)]
pub enum Turned {
    /// An answer was collected, or a request sent.
    Did,
    /// A request was sent, and the lane has room for no other.
    Filled,
    /// There is nothing to do before the lane is served.
    Waits,
    /// The owner has left.
    Left,
}

// What a turn came to that sent a request, where there was room for so many.
fn turned_by(accepted: bool, room: u64) -> Turned
    ensures { result ≢ Turned.Left }
{
    if accepted && room == 1 {
        Turned::Filled
    } else {
        Turned::Did
    }
}

/// An owner that has left its lane, with the answers to all that the lane was to be fed.
#[derive(Drop)]
pub struct Finished<M: Machine> {
    pub leaver: Leaver<M>,
    pub answers: Vec<Answered<M>>,
    pub ghost all: { HasCollected leaver answers.items },
}

/// A lane, its owner until it leaves, what is left to be sent, and what was answered.
#[derive(Drop)]
pub struct Feed<'l, 'm, M: Machine> {
    lane: &'l Lane<'m, M>,
    owner: Option<Owner<M>>,
    leaver: Option<Leaver<M>>,
    is_open: bool,
    capacity: u64,
    sent: u64,
    start: M::State,
    left: VecDeque<M::Request>,
    answered: Vec<Answered<M>>,
    ghost opened: { start ≡ lane.now.start },
    ghost slots: { (0 < capacity) × (capacity ≡ lane.now.table.slots) },
}

impl<'l, 'm, M: Machine> Model for Feed<'l, 'm, M> {
    ghost use Rattle.std.specs.Prelude.{◌≤◌, length, vec_capacity, is_none};
    ghost use Rattle.aa_pool.specs.Fed.{FeedSeen, all_of, IsFeed};

    ghost Value = { FeedSeen M M.State M.Request };

    ghost view = { λ f. record { lane = f.lane.now; all = all_of f.owner f.leaver f.left.items; finished = is_none f.owner } };

    ghost invariant = { λ f. IsFeed M.next M.reply f.lane.now f.owner f.leaver f.answered.items f.left.items f.sent f.is_open × (length (all_of f.owner f.leaver f.left.items) ≤ vec_capacity f.answered) };
}

impl<'l, 'm, M: Machine> Feed<'l, 'm, M> {
    /// A lane of that capacity that is to be fed these requests. There is to be room for all answers: nothing takes memory later.
    pub fn new(
        lane: &'l Lane<'m, M>,
        capacity: u32,
        owner: Owner<M>,
        start: M::State,
        left: VecDeque<M::Request>,
        room: Vec<Answered<M>>,
    ) -> Feed<'l, 'm, M>
        requires owner { owner ≡ new_owner lane.now }
        requires start { start ≡ lane.now.start }
        requires capacity { IsCapacity capacity × (lane.now.table.slots ≡ capacity) }
        requires empty { room.items ≡ [] }
        requires room { deque_len left ≤ vec_capacity room }
        ensures { (result.lane ≡ lane.now) × (result.all ≡ left.items) }
    {
        Feed {
            lane,
            owner: Some(owner),
            leaver: None,
            is_open: true,
            capacity: u64::from(capacity),
            sent: 0,
            start,
            left,
            answered: room,
        }
    }

    /// How many requests are on their way: sent, and their answers not collected yet.
    pub fn on_their_way(&self) -> u64 {
        self.sent.saturating_sub(self.answered.len() as u64)
    }

    /// Collects an answer, if there is one, and sends a request, if there is room for one; or leaves the lane, if there is nothing
    /// more to come: no answer, and no request that the lane accepts. No answer is looked for where none is to come, and no
    /// request is sent to a full lane.
    pub fn turn(&mut self) -> Turned
        ensures same { (self.new.lane ≡ self.old.lane) × (self.new.all ≡ self.old.all) }
        ensures finished { result ≡ Turned.Left → self.new.finished ≡ true }
    {
        let Some(mut owner) = self.owner.take() else {
            return Turned::Left;
        };
        let collected = collect(self.lane, &mut owner, &mut self.answered, self.sent);
        let room = room_for(self.capacity, self.sent, self.answered.len() as u64);
        if let Some(request) = next_to_send(self.is_open, room, &mut self.left) {
            let accepted = send(
                self.lane,
                &mut owner,
                &self.answered,
                request,
                &mut self.left,
                &mut self.sent,
            );
            self.is_open = accepted;
            self.owner = Some(owner);
            return turned_by(accepted, room);
        }
        match leave(self.lane, owner, &self.answered, &self.left, self.sent) {
            Ok(leaver) => {
                self.leaver = Some(leaver);
                Turned::Left
            }
            Err(owner) => {
                self.owner = Some(owner);
                if collected {
                    Turned::Did
                } else {
                    Turned::Waits
                }
            }
        }
    }

    /// Turns at the lane, until there is nothing to do before it is served. `Waits` where no turn did anything.
    pub fn burst(&mut self) -> Turned
        ensures same { (self.new.lane ≡ self.old.lane) × (self.new.all ≡ self.old.all) }
        ensures finished { result ≡ Turned.Left → self.new.finished ≡ true }
    {
        let mut did = false;
        let before = self.sent;
        'turns: for _ in 0..MOST_TURNS {
            match self.turn() {
                Turned::Did => did = true,
                Turned::Filled => {
                    // (what was sent before may have been answered)
                    if self.sent.saturating_sub(before) >= self.capacity {
                        return Turned::Filled;
                    }
                    did = true;
                }
                Turned::Waits => return if did { Turned::Did } else { Turned::Waits },
                Turned::Left => return Turned::Left,
            }
        }
        Turned::Did
    }

    /// The owner, once it has left, with all answers. What the lane didn't accept is decided here, from the state that the
    /// accepted requests leave.
    pub fn finish(self, machine: &M) -> Finished<M>
        requires machine { machine.now ≡ self.lane.machine }
        requires finished { self.finished ≡ true }
        ensures answers { result.answers.items ≡ answers_of M.next M.reply self.entry }
        ensures of { result.leaver.lane ≡ known self.entry.lane }
    {
        let Feed {
            start,
            leaver,
            left,
            answered,
            ..
        } = self;
        let Some(leaver) = leaver else { unreachable!() };
        let answers = decide_rest(machine, start, answered, left);
        Finished { leaver, answers }
    }
}

// The state that requests which were answered leave.
fn state_behind<M: Machine>(machine: &M, start: M::State, answered: &[Answered<M>]) -> M::State
    ensures { result ≡ state_after (M.next machine.now) (M.reply machine.now) start (map (λ a. a.request) answered.now) }
{
    let mut state = start;
    for given in answered {
        drop(machine.step(&mut state, &given.request));
    }
    state
}

// Decides the requests that are left, behind those that were answered.
fn decide_rest<M: Machine>(
    machine: &M,
    start: M::State,
    answered: Vec<Answered<M>>,
    left: VecDeque<M::Request>,
) -> Vec<Answered<M>>
    requires right { answered.items ≡ answered_from M.next M.reply machine.now 0 start (map (λ a. a.request) answered.items) }
    requires room { vec_len answered + deque_len left ≤ vec_capacity answered }
    ensures { result.items ≡ answered_from M.next M.reply machine.now 0 start (map (λ a. a.request) answered.items ++ left.items) }
{
    if left.is_empty() {
        return answered;
    }
    let mut answered = answered;
    let mut left = left;
    let mut state = state_behind(machine, start, answered.as_slice());
    'left: while let Some(request) = left.pop_front() {
        let number = answered.len() as u64;
        let answer = machine.step(&mut state, &request);
        answered.push_reserved(Answered {
            number,
            request,
            answer,
        });
    }
    answered
}
