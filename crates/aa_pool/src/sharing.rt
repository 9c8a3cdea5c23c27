//! Lanes that are fed by one thread at a time, whichever it is.
ghost use Rattle.std.specs.Prelude.{◌≡◌, ◌<◌, Bool, [], true, All, List};
ghost use Rattle.aa_pool.specs.Fed.{AreSame, AreAllFed, FeedSeen};

use crate::bell::Bell;
use crate::feed::{Feed, Turned};
use crate::watch::{Feeder, Tended, Watch};
use aa_machine::Machine;
use std::marker::{Brand, PhantomData};
use std::sync::ledger::{Blank, Book, Ledger, Share};
use std::sync::{Mutex, Wait};

/// Which lanes are fed, and with what. Each run picks it.
pub trait Course<M, S, Q> {
    ghost lanes: { List (FeedSeen M S Q) };
}

impl<M, S, Q> Course<M, S, Q> for Brand {
    ghost lanes = { [] };
}

/// The lanes of a run, and whether each owner has left.
#[derive(Drop)]
pub struct Feeds<'l, 'm, M: Machine, C: Course<M, M::State, M::Request>> {
    // (so that it is known to outlive the lanes)
    machine: &'m M,
    feeds: Vec<Feed<'l, 'm, M>>,
    finished: bool,
    course: PhantomData<C>,
    ghost same: { AreSame C.lanes feeds.items },
    ghost fed: { finished ≡ true → AreAllFed C.lanes feeds.items },
}

/// What is fed in rounds, until it is over.
pub trait Rounds {
    ghost is_over: { Self → Bool };

    /// Feeds each lane once.
    fn round(&mut self) -> Tended
        ensures over { result ≡ Tended.Finished → is_over self.new ≡ true }
        ensures stays { is_over self.old ≡ true → is_over self.new ≡ true };
}

impl<'l, 'm, M: Machine, C: Course<M, M::State, M::Request>> Rounds for Feeds<'l, 'm, M, C> {
    ghost is_over = { λ f. f.finished };

    fn round(&mut self) -> Tended {
        if self.finished {
            return Tended::Finished;
        }
        let (finished, idle) = round(self.feeds.as_mut_slice());
        self.finished = finished;
        if finished {
            Tended::Finished
        } else if idle {
            Tended::Nothing
        } else {
            Tended::Fed
        }
    }
}

// A burst at each lane. Whether all have finished, and whether there was nothing to do at any.
fn round<'l, 'm, M: Machine>(feeds: &mut [Feed<'l, 'm, M>]) -> (bool, bool)
    ensures same { AreSame feeds.old feeds.new }
    ensures finished { result.0 ≡ true → All (λ f. f.finished ≡ true) feeds.new }
{
    let mut finished = true;
    let mut idle = true;
    for i in 0..feeds.len() {
        let turned = feeds[i].burst();
        let done = turned == Turned::Left;
        let nothing = turned == Turned::Waits;
        finished = finished && done;
        idle = idle && (done || nothing);
    }
    (finished, idle)
}

// What is fed, and how many times who feeds has found that it is over.
#[derive(Drop)]
struct Counted<L: Ledger, F: Rounds> {
    feeds: F,
    endings: Book<L>,
    ghost over: { 0 < endings.total → F.is_over feeds ≡ true },
}

impl<L: Ledger, F: Rounds> Counted<L, F> {
    // Feeds each lane once.
    fn round(&mut self) -> Tended {
        self.feeds.round()
    }

    // The same, and where it is over that counts.
    fn round_counted(&mut self, mine: &mut Share<L>) -> Tended
        requires part { 0 < mine.old.parts }
        ensures part { mine.new.parts ≡ mine.old.parts }
        ensures finished { result ≡ Tended.Finished → 0 < mine.new.amount }
    {
        let tended = self.feeds.round();
        if tended == Tended::Finished {
            self.endings.add(mine, 1);
        }
        tended
    }
}

/// What the thread that feeds and the workers share. A round is one thread's alone.
#[derive(Drop)]
pub struct Shared<L: Ledger, F: Rounds + Drop> {
    counted: Mutex<Counted<L, F>>,
}

impl<L: Ledger, F: Rounds + Drop> Watch for Shared<L, F> {
    fn tend(&self) -> Tended {
        match self.counted.try_lock() {
            Some(mut counted) => counted.round(),
            None => Tended::Nothing,
        }
    }
}

impl<L: Ledger, F: Rounds + Drop> Feeder<L> for Shared<L, F> {
    fn feed(&self, mine: &mut Share<L>) -> Tended {
        match self.counted.try_lock() {
            Some(mut counted) => counted.round_counted(mine),
            None => Tended::Nothing,
        }
    }
}

/// These lanes, to be shared, and what who feeds them counts by.
pub fn share<'l, 'm, M: Machine, C: Course<M, M::State, M::Request>, L: Ledger>(
    machine: &'m M,
    feeds: Vec<Feed<'l, 'm, M>>,
    blank: Blank,
) -> (Shared<L, Feeds<'l, 'm, M, C>>, Share<L>)
    requires course { C.lanes ≡ feeds.items }
    requires name { blank.name ≡ L.name }
    requires parts { blank.parts ≡ L.parts }
    requires part { 0 < blank.parts }
    ensures { 0 < result.1.parts }
{
    let (endings, mine) = blank.open::<L>();
    let feeds = Feeds {
        machine,
        feeds,
        finished: false,
        course: PhantomData,
    };
    let counted = Counted { feeds, endings };
    let shared = Shared {
        counted: Mutex::new(counted),
    };
    (shared, mine)
}

/// The lanes that were shared, as they were left.
pub fn unshare<'l, 'm, M: Machine, C: Course<M, M::State, M::Request>, L: Ledger>(
    shared: Shared<L, Feeds<'l, 'm, M, C>>,
) -> Vec<Feed<'l, 'm, M>>
    ensures { AreSame C.lanes result.items }
{
    let Shared { counted } = shared;
    let Counted { feeds, .. } = counted.into_inner();
    let Feeds { feeds, .. } = feeds;
    feeds
}

/// The lanes that were shared, once who fed them has found that each owner has left.
pub fn unshare_fed<'l, 'm, M: Machine, C: Course<M, M::State, M::Request>, L: Ledger>(
    shared: Shared<L, Feeds<'l, 'm, M, C>>,
    mine: Share<L>,
) -> Vec<Feed<'l, 'm, M>>
    requires { 0 < mine.amount }
    ensures { AreAllFed C.lanes result.items }
{
    let Shared { counted } = shared;
    let Counted { feeds, mut endings } = counted.into_inner();
    let mut mine = mine;
    endings.audit(&mut mine);
    let Feeds { feeds, .. } = feeds;
    feeds
}

/// All lanes are fed by turns, until each owner has left. Where there is nothing to do at any, or a worker feeds them, those who serve them
/// come first.
pub fn feed_all<L: Ledger, W: Feeder<L>, R: Wait>(
    rt: &R,
    bell: &Bell,
    feeds: &W,
    mine: Share<L>,
) -> Share<L>
    requires { 0 < mine.parts }
    ensures { 0 < result.amount }
{
    let mut mine = mine;
    'feeding: for _ in rt.forever() {
        let tended = feeds.feed(&mut mine);
        if tended == Tended::Finished {
            bell.wake_all();
            return mine;
        }
        bell.fed(rt, tended == Tended::Nothing);
    }
    unreachable!()
}
