// Strengths spread along branches, the strongest first. A node's list is walked, and a queue emptied, as in `joined`, which does other things on the
// way: a walk for both would take a closure that writes the work area, and say of it what each loop keeps.
#![tactic(auto)]

ghost use Rattle.std.specs.Prelude.{◌≡◌, min, ◌+◌, ◌*◌, ◌-◌, ◌/◌, ◌≤◌, ◌<◌, length};
ghost use Rattle.branches.specs.Branch.{Wires, end_of, ceiling_of};
ghost use Rattle.strengths.specs.Spread.{member_at, HasMember, Ready, Told, FilledAny};
ghost use Rattle.strengths.specs.Level.{Visitable, Visited, Followed, Noted, Gathered, Fannable, FannedAny, Waiting, EmptiedAny, Spreadable, LevelAny};

use branches::Wiring;

// Which strengths spread, and where: those of the table that begins at the cell `table`, along sure branches, and along unsure ones too if `all`. A
// transistor lets no more pass than its ceiling; without one, 3. `members` nodes take part: by the list that begins at the cell `order`, or the first
// ones where there is no list. The cells from `queue` on are for those that wait.
#[derive(Clone, Copy)]
pub struct Spread<'a> {
    pub wiring: Wiring<'a>,
    pub ceilings: &'a [u8],
    pub all: bool,
    pub table: usize,
    pub order: Option<usize>,
    pub members: usize,
    pub queue: usize,
}

// Where a queue ends, and how many branches were visited.
#[derive(Clone, Copy)]
struct Reached {
    tail: usize,
    visits: usize,
}

impl Spread<'_> {
    // The k-th of the nodes that take part.
    pub fn member(&self, work: &[u16], k: usize) -> usize
        requires { HasMember self.now.order k work.now }
        ensures { result ≡ member_at self.now.order work.now k }
    {
        match self.order {
            None => k,
            Some(first) => usize::from(work[first + k]),
        }
    }

    // The most that transistor t lets pass.
    #[tactic(auto, unfolding(branches::specs::Branch::ceiling_of))]
    fn ceiling(&self, t: usize) -> u16
        ensures { result ≡ ceiling_of self.now.ceilings.now t }
    {
        self.ceilings.get(t).map_or(3, |most| u16::from(*most))
    }

    // Branch h of a node of the strength s: what it brings, where that is more than is there; the queue's end.
    #[tactic(auto, using(crate::proofs::Visits::visit_still, crate::proofs::Visits::visit_less, crate::proofs::Visits::visit_whole))]
    fn visit(&self, work: &mut [u16], s: u16, h: usize, tail: usize) -> usize
        requires { Visitable self.now s h work.old tail }
        ensures { let b = end_of self.now.wiring.drains.now self.now.wiring.sources.now h in
            let x = min s (ceiling_of self.now.ceilings.now (h / 2)) in
            Visited self.now.table self.now.queue s b x work.old tail work.new result }
    {
        let b = self.wiring.far(h);
        let x = s.min(self.ceiling(h / 2));
        if 2 * x <= work[self.table + b] {
            return tail;
        }
        work[self.table + b] = 2 * x + 1;
        if x < s {
            return tail;
        }
        work[self.queue + tail] = b as u16;
        tail + 1
    }

    // The branch of the entry e, unless it is unsure and only the sure ones are followed; the queue's end.
    fn follow(&self, work: &mut [u16], s: u16, e: usize, tail: usize) -> usize
        requires { (2 ≤ e) × Visitable self.now s (e / 2 - 1) work.old tail }
        ensures { Followed self.now s e work.old tail work.new result }
    {
        if self.all || e % 2 == 0 {
            return self.visit(work, s, e / 2 - 1, tail);
        }
        tail
    }

    // All branches of node a, which has the strength s.
    fn fan(&self, work: &mut [u16], s: u16, a: usize, end: usize) -> Reached
        requires { Fannable self.now s a work.old end × (s ≤ 255) }
        ensures { FannedAny self.now s a work.old end work.new result.tail result.visits }
    {
        let n = self.wiring.nodes;
        let mut tail = end;
        let mut visits = 0;
        let mut e = usize::from(work[3 * n + a]);
        while e != 0 {
            tail = self.follow(work, s, e, tail);
            visits += 1;
            e = usize::from(work[4 * n + (e / 2 - 1)]);
        }
        Reached { tail, visits }
    }

    // Puts node v at the queue's end if its cell is c; the queue's end.
    #[tactic(auto, using(crate::specs::Level::noted, crate::specs::Level::other))]
    fn note(&self, work: &mut [u16], c: u16, v: usize, tail: usize) -> usize
        requires { let room = length work.old in
            (self.now.table + v < room) × (self.now.queue + tail < room) × (v < 4096) × (self.now.table ≤ 4096) × (self.now.queue + tail < 12288) }
        ensures { Noted self.now.table self.now.queue c v work.old tail work.new result }
    {
        if work[self.table + v] == c {
            work[self.queue + tail] = v as u16;
            return tail + 1;
        }
        tail
    }

    // Those of the nodes that take part whose cell is c, in the queue; its end.
    fn gather(&self, work: &mut [u16], c: u16) -> usize
        requires { (G : Wires) × Ready G self.now.table self.now.order self.now.members self.now.queue work.old }
        ensures { Gathered self.now.table self.now.order self.now.members self.now.queue c work.old self.now.members work.new result }
    {
        let mut tail = 0;
        for k in 0..self.members {
            let v = self.member(work, k);
            tail = self.note(work, c, v, tail);
        }
        tail
    }

    // Takes the nodes from the queue until none waits.
    #[inline(always)]
    fn empty(&self, work: &mut [u16], s: u16, end: usize) -> Reached
        requires { Waiting self.now s work.old end × (s ≤ 255) }
        ensures { EmptiedAny self.now s work.old end work.new result.tail result.visits }
    {
        let mut tail = end;
        let mut visits = 0;
        let mut k = 0;
        // The queue grows while it is emptied.
        while k < tail {
            let a = usize::from(work[self.queue + k]);
            let r = self.fan(work, s, a, tail);
            tail = r.tail;
            visits += r.visits;
            k += 1;
        }
        Reached { tail, visits }
    }

    // Spreads the strength s; how many branches were visited: those of the nodes that then have it.
    #[inline(always)]
    fn spread(&self, work: &mut [u16], s: u16) -> usize
        requires { Spreadable self.now work.old × (s ≤ 255) }
        ensures { LevelAny self.now s work.old work.new result }
    {
        let end = self.gather(work, 2 * s + 1);
        self.empty(work, s, end).visits
    }

    // Spreads the strengths from `top` down to the one above `last`, the strongest first; how many branches were visited: no more than there are.
    // Inlined, and so are the two above: what is fixed where a spread is made is then fixed in the loops.
    #[inline(always)]
    pub fn spread_all(&self, work: &mut [u16], top: u16, last: u16) -> usize
        requires { Told self.now last top work.old }
        ensures { FilledAny self.now last work.old work.new × (result ≤ 2 * length self.now.wiring.sources.now) }
    {
        let mut visits = 0;
        for s in (last + 1..=top).rev() {
            visits += self.spread(work, s);
        }
        visits
    }
}
