//! A pool: what is handed in, the queue that it goes through, and the workers.
ghost use Rattle.std.specs.Prelude.{◌≡◌, ◌+◌, ◌<◌, ◌≤◌, ◌++◌, [], ◌∷◌, List, map, true, All, length, vec_len, vec_capacity, IfOk};
ghost use Rattle.std.specs.List.Sorted.{IsPermutation};
ghost use Rattle.crossbeam_queue.specs.Passes.{view, IsPassOf, IsSamePass, ruled_capacity};
ghost use Rattle.aa_pool.specs.Once.{hand};
ghost use Rattle.aa_pool.specs.Crew.{IsWorking, IsLeading};

use crate::bell::Bell;
use crate::crew::{Worker, all_work};
use crate::hand::{HandsIn, Hold, Part, Queue, Room, TakesRest};
use crate::serving::{Serving, Turn};
use crate::watch::Watch;
use std::alloc::{AllocError, Global};
use std::marker::Model;
use std::sync::Wait;
use std::thread::Threads;

// Serves until it has settled.
fn settle<T: Serving, R: Wait>(rt: &R, bell: &Bell, taken: T) -> T
    ensures place { T.place result ≡ T.place taken }
    ensures settled { T.is_settled result ≡ true }
{
    let mut taken = taken;
    let mut shift = bell.comes_to_one();
    'turns: for _ in rt.forever() {
        let mut did = 0;
        match taken.serve(&mut did) {
            Turn::Settled(done) => {
                bell.leaves(shift);
                return done;
            }
            Turn::GoesOn(next) => taken = next,
        }
        bell.looked_at(rt, &mut shift, did);
    }
    unreachable!()
}

// A worker with a pass of its own.
fn hire<T: Serving + Drop>(queue: &Queue<T>, pass: &mut Hold<T>, kept: Vec<T>) -> Worker<T>
    requires queue { IsPassOf queue.now pass.old }
    requires parts { 1 < (view pass.old).parts }
    requires empty { kept.items ≡ [] }
    ensures queue { IsSamePass pass.old pass.new }
    ensures parts { (view pass.new).parts + 1 ≡ (view pass.old).parts }
    ensures same { ((view pass.new).handed ≡ (view pass.old).handed) × ((view pass.new).held ≡ (view pass.old).held) }
    ensures working { IsWorking T.place T.is_settled queue.now result.pass result.kept.items }
{
    let theirs = queue.another::<Part>(pass);
    Worker { pass: theirs, kept }
}

// A worker gives its pass back, with what it kept.
fn take_in<T: Serving + Drop>(
    queue: &Queue<T>,
    pass: &mut Hold<T>,
    kept: &mut Vec<T>,
    worker: Worker<T>,
)
    requires leading { IsLeading T.place T.is_settled queue.now pass.old kept.old.items }
    requires working { IsWorking T.place T.is_settled queue.now worker.pass worker.kept.items }
    requires room { length (view pass.old).handed ≤ vec_capacity kept.old }
    ensures leading { IsLeading T.place T.is_settled queue.now pass.new kept.new.items }
    ensures parts { (view pass.new).parts ≡ (view pass.old).parts + 1 }
    ensures handed { (view pass.new).handed ≡ (view pass.old).handed }
    ensures room { vec_capacity kept.old ≤ vec_capacity kept.new }
{
    let Worker {
        pass: theirs,
        kept: mut more,
    } = worker;
    queue.absorb::<Part>(pass, theirs);
    queue.learn_as::<Room>(pass);
    match kept.append(&mut more) {
        Ok(()) => {}
        Err(_) => unreachable!(),
    }
}

// What the queue still holds is served until it has settled.
fn serve_rest<T: Serving + Drop, R: Wait>(
    rt: &R,
    queue: &Queue<T>,
    bell: &Bell,
    pass: &mut Hold<T>,
    kept: &mut Vec<T>,
)
    requires leading { IsLeading T.place T.is_settled queue.now pass.old kept.old.items }
    requires all { (view pass.old).parts ≡ 17 }
    requires room { length (view pass.old).handed ≤ vec_capacity kept.old }
    ensures all { IsPermutation (view pass.old).handed (map T.place kept.new.items) }
    ensures settled { All (λ t. T.is_settled t ≡ true) kept.new.items }
{
    'rest: for _ in rt.forever() {
        let Some(taken) = queue.pop_as::<TakesRest, R>(rt, pass) else {
            return;
        };
        let done = settle(rt, bell, taken);
        kept.push_reserved(done);
    }
    unreachable!()
}

// The workers give their passes back, with what they kept.
fn take_all_in<T: Serving + Drop>(
    queue: &Queue<T>,
    pass: &mut Hold<T>,
    kept: &mut Vec<T>,
    crew: Vec<Worker<T>>,
)
    requires leading { IsLeading T.place T.is_settled queue.now pass.old kept.old.items }
    requires working { All (λ w. IsWorking T.place T.is_settled queue.now w.pass w.kept.items) crew.items }
    requires room { length (view pass.old).handed ≤ vec_capacity kept.old }
    ensures leading { IsLeading T.place T.is_settled queue.now pass.new kept.new.items }
    ensures parts { (view pass.new).parts ≡ (view pass.old).parts + vec_len crew }
    ensures handed { (view pass.new).handed ≡ (view pass.old).handed }
    ensures room { vec_capacity kept.old ≤ vec_capacity kept.new }
{
    let mut crew = crew;
    while let Some(worker) = crew.pop() {
        take_in(queue, pass, kept, worker);
    }
}

/// A pool: its queue with the first pass, the workers, and room for what settles.
#[derive(Drop)]
pub struct Pool<T: Serving + Drop> {
    queue: Queue<T>,
    pass: Hold<T>,
    crew: Vec<Worker<T>>,
    kept: Vec<T>,
}

impl<T: Serving + Drop> Model for Pool<T> {
    ghost use Rattle.std.specs.Prelude.{vec_capacity};
    ghost use Rattle.crossbeam_queue.specs.Passes.{view as knows};
    ghost use Rattle.aa_pool.specs.Crew.{PoolSeen, IsReady};

    ghost Value = { PoolSeen T.Place };

    ghost view = { λ p. record { handed = (knows p.pass).handed; room = vec_capacity p.kept } };

    ghost invariant = { λ p. IsReady T.place T.is_settled p.queue p.pass p.crew.items p.kept.items (vec_capacity p.kept) };
}

impl<T: Serving + Drop> Pool<T> {
    /// A pool for `count` and so many workers. Nothing takes memory later.
    pub fn new(alloc: Global, count: usize, workers: usize) -> Result<Pool<T>, AllocError>
        requires { workers ≤ 16 }
        ensures handed { IfOk result (λ p. p.handed ≡ []) }
        ensures room { IfOk result (λ p. count ≤ p.room) }
    {
        let (queue, mut pass) = Queue::<T>::ruled(alloc, count.max(1))?;
        let mut crew = Vec::with_capacity(alloc, workers)?;
        'hiring: while crew.len() < workers {
            let kept = Vec::with_capacity(alloc, count)?;
            crew.push_reserved(hire(&queue, &mut pass, kept));
        }
        let kept = Vec::with_capacity(alloc, count)?;
        Ok(Pool {
            queue,
            pass,
            crew,
            kept,
        })
    }

    /// Hands something in to be served.
    pub fn hand_in<R: Wait>(&mut self, rt: &R, task: T)
        requires { length self.old.handed < self.old.room }
        ensures { self.new ≡ record self.old { handed = self.old.handed ++ T.place task ∷ [] } }
    {
        match self.queue.push_as::<HandsIn, R>(rt, &mut self.pass, task) {
            Ok(()) => {}
            Err(_) => unreachable!(),
        }
    }
}

impl<T: Serving + Drop + Send> Pool<T> {
    /// All that was handed in, once it has settled.
    pub fn serve<W: Watch + Sync, R: Threads + Wait + Sync>(
        self,
        rt: &R,
        bell: &Bell,
        watch: &W,
    ) -> Vec<T>
        requires { length self.handed ≤ self.room }
        ensures all { IsPermutation self.handed (map T.place result.items) }
        ensures settled { All (λ t. T.is_settled t ≡ true) result.items }
    {
        let Pool {
            queue,
            mut pass,
            mut crew,
            mut kept,
        } = self;
        all_work(rt, &queue, bell, watch, crew.as_mut_slice());
        take_all_in(&queue, &mut pass, &mut kept, crew);
        serve_rest(rt, &queue, bell, &mut pass, &mut kept);
        kept
    }
}
