// The four steps that choose the worker of a task.
ghost use Rattle.std.specs.Prelude.{◌≡◌, ℕ, ◌<◌, ◌≤◌, Err, Option};
ghost use Rattle.scans.specs.Bids.{bidder, bids, best as best_of, best_bid};
ghost use Rattle.scans.specs.declared.Aim.TheVariants.{Smallest, Largest};
ghost use Rattle.steps.specs.Desks.{graph_of};
ghost use Rattle.plans.specs.declared.fault.PlanFault.TheVariants.{Parameter};
ghost use Rattle.steps.specs.Seats.{Marks, free as free_tick, start_on_worker};
ghost use Rattle.steps.specs.Steps.{near_by, spent_by, roomy_by, unopened, choice, seat as seat_of};
ghost use Rattle.steps.specs.Laws.{InWords};

use crate::desk::Desk;
use crate::desk::ask::successors;
use crate::{TASKS, WORKERS};
use links::{CEILING, Link};
use plans::{Limits, PlanFault, Row};
use scans::{Aim, Bid, outbid};

// The worker whose bid wins by the aim, if one bids; the lowest of those with equal bids.
fn best<F: Fn(usize) -> Option<u64>>(aim: Aim, workers: usize, bid: F) -> Option<usize>
    requires { (w : ℕ) → F.pre bid w }
    ensures { (key : ℕ → Option ℕ) → ((w : ℕ) (r : Option ℕ) → F.post bid w r → r ≡ key w) → result ≡ bidder (best_bid aim key workers) }
{
    let leader: Option<Bid> = (0..workers).fold(None, |leader, w| outbid(aim, leader, w, bid(w)));
    leader.map(|bid| bid.by)
}

impl<'a> Desk<'a> {
    // What w bids in step 1: the start of t there.
    fn near<L: Link>(&self, memory: u64, link: &L, level: u64, t: usize, w: usize) -> Option<u64>
        ensures { result ≡ bids (near_by memory level (L.arrives link.now) (graph_of self.now) self.now.seats t w) (start_on_worker (L.arrives link.now) (graph_of self.now) self.now.seats t w) }
    {
        self.lane(w)?;
        if !self.holds(t, w) || !self.fits(memory, t, w) {
            return None;
        }
        let start = self.start_on(link, t, w);
        (start < level).then_some(start)
    }

    // What w bids in step 2, given the marks of the successors of t: its free tick.
    fn spent(
        &self,
        memory: u64,
        level: u64,
        marks: &[bool; TASKS],
        t: usize,
        w: usize,
    ) -> Option<u64>
        requires { Marks (graph_of self.now) t marks.now }
        ensures { result ≡ bids (spent_by memory level (graph_of self.now) self.now.seats t w) (free_tick (graph_of self.now) self.now.seats w) }
    {
        let lane = self.lane(w)?;
        if !self.fits(memory, t, w) || lane.free > level || !self.closed(marks, w) {
            return None;
        }
        Some(lane.free)
    }

    // What w bids in step 4: its free tick.
    fn roomy(&self, memory: u64, t: usize, w: usize) -> Option<u64>
        ensures { result ≡ bids (roomy_by memory (graph_of self.now) self.now.seats t w) (free_tick (graph_of self.now) self.now.seats w) }
    {
        let lane = self.lane(w)?;
        self.fits(memory, t, w).then_some(lane.free)
    }

    // Step 1: the smallest start strictly below the level, among the open workers that hold an input of t and fit.
    fn first<L: Link>(&self, limits: Limits, link: &L, level: u64, t: usize) -> Option<usize>
        ensures { result ≡ best_of Smallest (near_by limits.memory level (L.arrives link.now) (graph_of self.now) self.now.seats t) (start_on_worker (L.arrives link.now) (graph_of self.now) self.now.seats t) limits.workers }
    {
        best(
            Aim::Smallest,
            limits.workers,
            |w| self.near(limits.memory, link, level, t, w),
        )
    }

    // Step 2: the largest free tick, among the open workers that fit, are free by the level, and whose tasks'
    // successors are placed or marked.
    fn second(&self, limits: Limits, level: u64, t: usize) -> Option<usize>
        ensures { result ≡ best_of Largest (spent_by limits.memory level (graph_of self.now) self.now.seats t) (free_tick (graph_of self.now) self.now.seats) limits.workers }
    {
        let marks = successors(self.graph, t);
        best(
            Aim::Largest,
            limits.workers,
            |w| self.spent(limits.memory, level, &marks, t, w),
        )
    }

    // Step 3: the lowest unopened worker.
    fn third(&self, workers: usize) -> Option<usize>
        ensures { result ≡ unopened (graph_of self.now) self.now.seats workers }
    {
        (0..workers).find(|w| !self.is_open(*w))
    }

    // Step 4: the smallest free tick, among the open workers that fit.
    fn fourth(&self, limits: Limits, t: usize) -> Option<usize>
        ensures { result ≡ best_of Smallest (roomy_by limits.memory (graph_of self.now) self.now.seats t) (free_tick (graph_of self.now) self.now.seats) limits.workers }
    {
        best(
            Aim::Smallest,
            limits.workers,
            |w| self.roomy(limits.memory, t, w),
        )
    }

    // The worker of t, by the first step that gives one. A chain of `or_else` was tried: what its closures answer did not reach the proof.
    #[tactic(auto, unfolding(crate::specs::Steps::choice, crate::specs::Steps::step1, crate::specs::Steps::step2, crate::specs::Steps::step3, crate::specs::Steps::step4))]
    fn choose<L: Link>(&self, limits: Limits, link: &L, t: usize) -> Option<usize>
        ensures { result ≡ choice limits (L.arrives link.now) (graph_of self.now) self.now.seats t }
    {
        let level = self.t_level(link, t);
        if let Some(w) = self.first(limits, link, level, t) {
            return Some(w);
        }
        if let Some(w) = self.second(limits, level, t) {
            return Some(w);
        }
        if let Some(w) = self.third(limits.workers) {
            return Some(w);
        }
        self.fourth(limits, t)
    }

    // The row of t where the steps put it, or why there is none.
    #[tactic(auto, unfolding(crate::specs::Steps::seat))]
    fn seat_within<L: Link>(&self, limits: Limits, link: &L, t: usize) -> Result<Row, PlanFault>
        ensures { result ≡ seat_of limits (L.arrives link.now) (graph_of self.now) self.now.seats t }
    {
        let Some(worker) = self.choose(limits, link, t) else {
            return Err(PlanFault::NoneFits { task: t });
        };
        let start = self.start_on(link, t, worker);
        if start + u64::from(self.graph.time(t)) > CEILING {
            return Err(PlanFault::TooLate { task: t });
        }
        Ok(Row { worker, start })
    }

    // The row of t by the four steps; there are at most 16 workers.
    pub fn seat<L: Link>(&self, limits: Limits, link: &L, t: usize) -> Result<Row, PlanFault>
        ensures is { limits.workers ≤ 16 → result ≡ seat_of limits (L.arrives link.now) (graph_of self.now) self.now.seats t }
        ensures refused { 16 < limits.workers → result ≡ Err (Parameter 1) }
        ensures words { InWords limits (L.arrives link.now) (graph_of self.now) self.now.seats t }
    {
        if limits.workers > WORKERS {
            return Err(PlanFault::Parameter { position: 1 });
        }
        self.seat_within(limits, link, t)
    }
}
