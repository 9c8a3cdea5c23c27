//! How those who feed lanes and those who serve them wait for one another.
//!
//! Where requests take less time than it costs to hand them to another thread, one worker serves all lanes and feeds them too, and all
//! others rest, the thread that feeds among them. From time to time each of them looks how many requests were answered meanwhile.
//! Where those were few, the one that serves may have no processor just now: who has looked serves in its place. Where they stay few,
//! requests take long, and all go to work. Every now and then they rest again but for one, to see whether that is still so. How long a
//! rest takes is the only clock.
//!
//! Who has nothing more to do wakes the other side, looks once more, and sleeps. No clause speaks of it: a wake that is lost costs the
//! time that a sleep takes at most. A worker doesn't wake the feeder after each answer, but when it has nothing more to do, and when
//! it and the others have served half the lanes: so one hand-over carries what all lanes have. A sleeper is counted before it looks
//! the last time, so a wake can hardly be lost. Giving the processor up in place of sleeping costs, where others want it, a slice of
//! theirs each time.

use crate::watch::{Tended, Watch};
use std::sync::Wait;
use std::sync::atomic::{AtomicU64, Ordering};
use std::thread::Parker;
use std::time::Duration;

// How many microseconds a sleep or a rest takes at most.
const LONGEST: u64 = 2000;

// How many the first sleep takes where nobody feeds who would wake a worker.
const FIRST_SLEEP: u64 = 20;

// How many the first rest takes, and how many more than it was to take.
const FIRST_REST: u64 = 100;

const LATER: u64 = 50;

// How many answers a microsecond are many.
const MANY_ANSWERS: u64 = 1;

// After how many turns in a row that did something a worker tells the others of them.
const MANY_TURNS: u32 = 8;

// How many looks in a row that found few tell that requests take long.
const MANY_LOOKS: u64 = 3;

// After how many requests it is seen the first time whether they still take long, and after how many at most.
const FIRST_TRIAL: u64 = 256;

const LAST_TRIAL: u64 = 16_384;

// Where nobody serves alone.
const NOBODY: u64 = 0;

/// What the feeder of some lanes and the workers that serve them share, to know of one another and to wake each other.
#[derive(Drop)]
pub struct Bell {
    is_fed: bool,
    feeder: Parker,
    drowsy: AtomicU64,
    unsettled: AtomicU64,
    takes_long: AtomicU64,
    comers: AtomicU64,
    serves_alone: AtomicU64,
    awake: AtomicU64,
    sleepers: AtomicU64,
    rings: AtomicU64,
    rests: AtomicU64,
    answered: AtomicU64,
    few_looks: AtomicU64,
    trial: AtomicU64,
    next_trial: AtomicU64,
}

/// How a worker gets on.
#[derive(Drop)]
pub struct Shift {
    number: u64,
    turns: u64,
    idle_turns: u64,
    busy_turns: u32,
    answered: u64,
    owes: u64,
    heard: Option<u32>,
    nap: u64,
}

impl Shift {
    fn new(number: u64) -> Shift {
        Shift {
            number,
            turns: 0,
            idle_turns: 0,
            busy_turns: 0,
            answered: 0,
            owes: 0,
            heard: None,
            nap: FIRST_SLEEP,
        }
    }
}

// What can be slept on of a word.
fn low(word: &AtomicU64) -> u32 {
    (word.load(Ordering::SeqCst) & 0xffff_ffff) as u32
}

impl Bell {
    /// For lanes whose feeder wakes workers by it.
    pub fn new() -> Bell {
        Bell::with(true)
    }

    /// For lanes whose feeders, if there are any, know nothing of it.
    pub fn without_feeder() -> Bell {
        Bell::with(false)
    }

    fn with(is_fed: bool) -> Bell {
        Bell {
            is_fed,
            feeder: Parker::new(),
            drowsy: AtomicU64::new(0),
            unsettled: AtomicU64::new(0),
            takes_long: AtomicU64::new(if is_fed { 0 } else { 1 }),
            comers: AtomicU64::new(0),
            serves_alone: AtomicU64::new(NOBODY),
            awake: AtomicU64::new(0),
            sleepers: AtomicU64::new(0),
            rings: AtomicU64::new(0),
            rests: AtomicU64::new(0),
            answered: AtomicU64::new(0),
            few_looks: AtomicU64::new(0),
            trial: AtomicU64::new(FIRST_TRIAL),
            next_trial: AtomicU64::new(FIRST_TRIAL),
        }
    }

    // Whether requests take long, as was seen last.
    fn takes_long(&self) -> bool {
        self.takes_long.load(Ordering::SeqCst) == 1
    }

    fn awake(&self) -> u64 {
        self.awake.load(Ordering::SeqCst)
    }

    /// The feeder has looked at all lanes, and says whether there was nothing to do. If there was something, a worker that sleeps is
    /// woken, where requests take long or none is awake. If there wasn't, or a worker feeds, the feeder is to look once more, and
    /// then it sleeps.
    pub fn fed<R: Wait>(&self, rt: &R, idle: bool) {
        let is_needed = self.takes_long();
        if !idle && (is_needed || self.awake() == 0) {
            self.wake_worker();
        }
        if self.drowsy.load(Ordering::SeqCst) == 0 {
            if idle || !is_needed {
                self.drowsy.store(1, Ordering::SeqCst);
            }
            return;
        }
        if idle || !is_needed {
            self.feeder.park_timeout(rt, Duration::from_micros(LONGEST));
        }
        self.drowsy.store(0, Ordering::SeqCst);
    }

    // Wakes the feeder, if it sleeps or is about to.
    fn wake_feeder(&self) {
        let drowsy = &self.drowsy;
        if drowsy.load(Ordering::SeqCst) == 1 && drowsy.swap(0, Ordering::SeqCst) == 1 {
            self.feeder.unpark();
        }
    }

    // Wakes one worker that had nothing to do, if one sleeps or is about to.
    fn wake_worker(&self) {
        if self.sleepers.load(Ordering::SeqCst) > 0 {
            self.rings.fetch_add(1, Ordering::SeqCst);
            self.rings.wake_one();
        }
    }

    // Wakes all workers that rest.
    fn wake_resting(&self) {
        self.rests.fetch_add(1, Ordering::SeqCst);
        self.rests.wake_all();
    }

    /// All workers are woken: what is to be fed was fed, or a worker has found nothing left to serve.
    pub fn wake_all(&self) {
        self.rings.fetch_add(1, Ordering::SeqCst);
        self.rings.wake_all();
        self.wake_resting();
    }

    /// So many lanes are to be served.
    pub fn begins(&self, lanes: usize) {
        self.unsettled.store(lanes as u64, Ordering::SeqCst);
    }

    /// A lane is settled.
    pub fn settles(&self) {
        self.unsettled.fetch_sub(1, Ordering::SeqCst);
    }

    // The next worker, and the number that it alone has.
    fn next_shift(&self) -> Shift {
        self.awake.fetch_add(1, Ordering::SeqCst);
        Shift::new(self.comers.fetch_add(1, Ordering::SeqCst).wrapping_add(1))
    }

    /// A worker comes. Where another is at work it rests first.
    pub fn comes<R: Wait>(&self, rt: &R) -> Shift {
        let mut shift = self.next_shift();
        self.rests_if_spare(rt, &mut shift);
        shift
    }

    /// One comes that serves a single lane and feeds none, so the feeder does from now on.
    pub fn comes_to_one(&self) -> Shift {
        self.must_share();
        self.trial.store(u64::MAX, Ordering::SeqCst);
        self.next_shift()
    }

    // All go to work, until the next trial.
    fn must_share(&self) {
        let answered = self.answered.load(Ordering::SeqCst);
        let trial = self.next_trial.load(Ordering::SeqCst);
        self.trial
            .store(answered.saturating_add(trial), Ordering::SeqCst);
        self.next_trial
            .store(trial.saturating_mul(2).min(LAST_TRIAL), Ordering::SeqCst);
        self.takes_long.store(1, Ordering::SeqCst);
        self.wake_feeder();
        self.wake_resting();
    }

    /// A worker has had a turn. After as many as there are lanes it feeds them, while requests don't take long. Whether it fed one.
    pub fn tends<W: Watch>(&self, watch: &W, shift: &mut Shift) -> bool {
        shift.turns = shift.turns.saturating_add(1);
        if self.takes_long() || shift.turns < self.unsettled.load(Ordering::SeqCst) {
            return false;
        }
        shift.turns = 0;
        match watch.tend() {
            Tended::Fed => true,
            Tended::Nothing => false,
            Tended::Finished => {
                self.wake_feeder();
                false
            }
        }
    }

    /// A worker has had a turn, in which it answered so many requests, and says whether it fed a lane too. After as many turns with
    /// nothing to do as there are lanes for each that is awake it has made a round.
    pub fn turned<R: Wait>(&self, rt: &R, shift: &mut Shift, did: u64, fed: bool) {
        if did > 0 {
            self.served(rt, shift, did);
            return;
        }
        shift.idle_turns = if fed {
            0
        } else {
            shift.idle_turns.saturating_add(1)
        };
        let seen = shift.idle_turns.saturating_mul(self.awake().max(1));
        if seen > 0 && seen >= self.unsettled.load(Ordering::SeqCst) {
            self.looked(rt, shift);
        }
    }

    /// One that serves a single lane has had a turn.
    pub fn looked_at<R: Wait>(&self, rt: &R, shift: &mut Shift, did: u64) {
        if did == 0 {
            self.looked(rt, shift);
        } else {
            self.served(rt, shift, did);
        }
    }

    /// A worker has answered requests.
    pub fn served<R: Wait>(&self, rt: &R, shift: &mut Shift, did: u64) {
        self.stay_awake(shift);
        shift.idle_turns = 0;
        shift.nap = FIRST_SLEEP;
        shift.owes = shift.owes.saturating_add(1);
        shift.answered = shift.answered.saturating_add(did);
        shift.busy_turns = shift.busy_turns.wrapping_add(1);
        if shift.busy_turns % MANY_TURNS == 0 || !self.takes_long() {
            self.tells(shift);
        }
        if self.takes_long() {
            self.pays_in_time(shift);
        } else {
            self.rests_if_spare(rt, shift);
        }
    }

    // A worker tells how many requests it has answered. Where they take long, one that sleeps is woken, and after many of them it is seen
    // whether they still do.
    fn tells(&self, shift: &mut Shift) {
        if self.is_fed {
            let did = shift.answered;
            let answered = self
                .answered
                .fetch_add(did, Ordering::SeqCst)
                .wrapping_add(did);
            if self.takes_long() && answered >= self.trial.load(Ordering::SeqCst) {
                self.few_looks.store(0, Ordering::SeqCst);
                self.serves_alone.store(shift.number, Ordering::SeqCst);
                self.takes_long.store(0, Ordering::SeqCst);
            }
        }
        shift.answered = 0;
        if self.takes_long() {
            self.wake_worker();
        }
    }

    // A worker wakes the feeder, if it has answered requests since it last did.
    fn pays(&self, shift: &mut Shift) {
        if shift.owes > 0 {
            self.wake_feeder();
            shift.owes = 0;
        }
    }

    // The same, once it and the others that are awake have served half the lanes.
    fn pays_in_time(&self, shift: &mut Shift) {
        let served = shift.owes.saturating_mul(self.awake());
        if served.saturating_mul(2) >= self.unsettled.load(Ordering::SeqCst) {
            self.pays(shift);
        }
    }

    // Whether this worker now serves alone in place of that one.
    fn takes_over(&self, from: u64, shift: &Shift) -> bool {
        self.serves_alone
            .compare_exchange(from, shift.number, Ordering::SeqCst, Ordering::SeqCst)
            .is_ok()
    }

    // A worker rests, where requests don't take long and another serves alone.
    fn rests_if_spare<R: Wait>(&self, rt: &R, shift: &mut Shift) {
        if self.takes_long() || self.serves_alone.load(Ordering::SeqCst) == shift.number {
            return;
        }
        self.awake.fetch_sub(1, Ordering::SeqCst);
        self.rests(rt, shift);
        self.awake.fetch_add(1, Ordering::SeqCst);
        shift.idle_turns = 0;
    }

    // A worker rests until requests take long, or it serves alone.
    fn rests<R: Wait>(&self, rt: &R, shift: &Shift) {
        let mut rest = FIRST_REST;
        'resting: for _ in rt.forever() {
            let other = self.serves_alone.load(Ordering::SeqCst);
            if other == NOBODY && self.takes_over(NOBODY, shift) {
                return;
            }
            let heard = low(&self.rests);
            let before = self.answered.load(Ordering::SeqCst);
            self.rests
                .park_timeout(rt, heard, Duration::from_micros(rest));
            if low(&self.rests) != heard || self.takes_long() {
                return;
            }
            if self.serves_alone.load(Ordering::SeqCst) == other {
                let answered = self.answered.load(Ordering::SeqCst);
                if self.has_to_serve(before, answered, rest, shift) {
                    return;
                }
            }
            rest = rest.saturating_mul(2).min(LONGEST);
        }
    }

    // Whether who has rested for so many microseconds is to serve, since there were few answers between these two numbers of them.
    fn has_to_serve(&self, before: u64, answered: u64, rest: u64, shift: &Shift) -> bool {
        if !were_few(answered.wrapping_sub(before), answered, rest) {
            self.few_looks.store(0, Ordering::SeqCst);
            self.next_trial.store(FIRST_TRIAL, Ordering::SeqCst);
            return false;
        }
        if self
            .few_looks
            .fetch_add(1, Ordering::SeqCst)
            .wrapping_add(1)
            >= MANY_LOOKS
        {
            self.must_share();
        }
        self.serves_alone.store(shift.number, Ordering::SeqCst);
        true
    }

    /// A worker has made a round, and there was nothing to do. It wakes the feeder, if it has answered requests since it last did, and
    /// is to look once more; where that finds nothing either, it sleeps.
    pub fn looked<R: Wait>(&self, rt: &R, shift: &mut Shift) {
        shift.idle_turns = 0;
        shift.busy_turns = 0;
        if let Some(heard) = shift.heard {
            let nap = if self.is_fed { LONGEST } else { shift.nap };
            shift.nap = shift.nap.saturating_mul(2).min(LONGEST);
            self.rings
                .park_timeout(rt, heard, Duration::from_micros(nap));
            self.stay_awake(shift);
            return;
        }
        self.pays(shift);
        self.tells(shift);
        self.awake.fetch_sub(1, Ordering::SeqCst);
        self.sleepers.fetch_add(1, Ordering::SeqCst);
        shift.heard = Some(low(&self.rings));
    }

    // A worker isn't about to sleep.
    fn stay_awake(&self, shift: &mut Shift) {
        if shift.heard.take().is_some() {
            self.sleepers.fetch_sub(1, Ordering::SeqCst);
            self.awake.fetch_add(1, Ordering::SeqCst);
        }
    }

    /// A worker has found nothing left to serve. The others, if they sleep or rest, are to find that too.
    pub fn leaves(&self, shift: Shift) {
        let mut shift = shift;
        self.stay_awake(&mut shift);
        self.pays(&mut shift);
        self.awake.fetch_sub(1, Ordering::SeqCst);
        let alone = &self.serves_alone;
        if alone.load(Ordering::SeqCst) == shift.number {
            alone.store(NOBODY, Ordering::SeqCst);
        }
        self.wake_all();
    }
}

// Whether so many answers, of so many in all, are few for a rest of so many microseconds. Where there are none at all, the lanes may not
// have been fed yet.
fn were_few(answers: u64, all: u64, rest: u64) -> bool {
    let took = rest.saturating_add(LATER);
    answers < took.saturating_mul(MANY_ANSWERS) && (all > 0 || rest > FIRST_REST)
}
