//! Workers, each with a pass of the queue.
ghost use Rattle.std.specs.Prelude.{◌≡◌, ◌++◌, [], ◌∷◌, ◌<◌, List, map, true, All, MatchOption, length};
ghost use Rattle.crossbeam_queue.specs.Passes.{view, IsPassOf, IsSamePass};
ghost use Rattle.aa_pool.specs.Once.{hand};
ghost use Rattle.aa_pool.specs.Crew.{IsWorking};

use crate::bell::{Bell, Shift};
use crate::hand::{Hold, Puts, Queue, Takes};
use crate::serving::{Serving, Turn};
use crate::watch::Watch;
use std::sync::Wait;
use std::thread;
use std::thread::Threads;

/// A worker: its pass of the queue, and what settled while it served it.
#[derive(Drop)]
pub struct Worker<T: Serving + Drop> {
    pub pass: Hold<T>,
    pub kept: Vec<T>,
}

// Serves what was taken last for one turn, and puts it back, unless it has settled. Where the queue refuses it, another turn follows.
// Says how many requests were answered.
pub fn serve_on<T: Serving, R: Wait>(
    rt: &R,
    queue: &Queue<T>,
    pass: &mut Hold<T>,
    taken: T,
    did: &mut u64,
) -> Option<T>
    requires queue { IsPassOf queue.now pass.old }
    requires part { 0 < (view pass.old).parts }
    requires taken { (held : List T.Place) × ((view pass.old).held ≡ held ++ T.place taken ∷ []) }
    ensures queue { IsSamePass pass.old pass.new }
    ensures back { MatchOption result ((held : List T.Place) → (view pass.old).held ≡ held ++ T.place taken ∷ [] → view pass.new ≡ hand (view pass.old).parts (view pass.old).handed held) (λ t. (view pass.new ≡ view pass.old) × (T.place t ≡ T.place taken) × (T.is_settled t ≡ true)) }
{
    let mut taken = taken;
    'turns: for _ in rt.forever() {
        match taken.serve(did) {
            Turn::Settled(done) => return Some(done),
            Turn::GoesOn(next) => match queue.push_as::<Puts, R>(rt, pass, next) {
                Ok(()) => return None,
                Err(next) => taken = next,
            },
        }
    }
    unreachable!()
}

// Takes, serves and puts back, until there is nothing to take. What settles is kept.
fn take_turns<T: Serving + Drop, W: Watch, R: Wait>(
    rt: &R,
    queue: &Queue<T>,
    bell: &Bell,
    watch: &W,
    shift: &mut Shift,
    worker: &mut Worker<T>,
)
    requires { IsWorking T.place T.is_settled queue.now worker.old.pass worker.old.kept.items }
    ensures { IsWorking T.place T.is_settled queue.now worker.new.pass worker.new.kept.items }
{
    'serving: for _ in rt.forever() {
        if worker.kept.len() >= worker.kept.capacity() {
            break;
        }
        let Some(taken) = queue.pop_as::<Takes, R>(rt, &mut worker.pass) else {
            break;
        };
        let mut did = 0;
        if let Some(done) = serve_on(rt, queue, &mut worker.pass, taken, &mut did) {
            worker.kept.push_reserved(done);
            bell.settles();
        }
        let fed = bell.tends(watch, shift);
        bell.turned(rt, shift, did, fed);
    }
}

// The same, and who sleeps at its end is woken.
pub fn work<T: Serving + Drop, W: Watch, R: Wait>(
    rt: &R,
    queue: &Queue<T>,
    bell: &Bell,
    watch: &W,
    worker: &mut Worker<T>,
)
    requires { IsWorking T.place T.is_settled queue.now worker.old.pass worker.old.kept.items }
    ensures { IsWorking T.place T.is_settled queue.now worker.new.pass worker.new.kept.items }
{
    let mut shift = bell.comes(rt);
    take_turns(rt, queue, bell, watch, &mut shift, worker);
    bell.leaves(shift);
}

// All workers serve, each on a thread where one can be started, until each finds nothing to take.
pub fn all_work<T: Serving + Drop + Send, W: Watch + Sync, R: Threads + Wait + Sync>(
    rt: &R,
    queue: &Queue<T>,
    bell: &Bell,
    watch: &W,
    crew: &mut [Worker<T>],
)
    requires { All (λ w. IsWorking T.place T.is_settled queue.now w.pass w.kept.items) crew.old }
    ensures working { All (λ w. IsWorking T.place T.is_settled queue.now w.pass w.kept.items) crew.new }
    ensures len { length crew.new ≡ length crew.old }
{
    let threads = crew.len().max(1);
    thread::for_each_mut(
        rt,
        crew,
        threads,
        &|_, worker| work(rt, queue, bell, watch, worker),
    );
}
