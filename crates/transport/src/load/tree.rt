// The tree of a phase: it grows from a sink that wants more, over sources and the sinks that they serve, until it comes
// to a source that still has something.
ghost use Rattle.std.specs.Prelude.{◌≡◌, ℕ, ◌+◌, ◌<◌, ◌≤◌, true, length};
ghost use Rattle.transport.specs.Transport.{at, cell, sum_to};
ghost use Rattle.transport.specs.Solver.{round_at, Grown, Joined, Absorbed, Found, Relaxed, Raised, Lowered, Nearest, Rising, Tightened};

use crate::case::Case;
use crate::load::Market;

mod phases;

pub use phases::solve;

// How a sink was reached: in which round, through which source that serves it, and how much can be sent anew
// to it. The root was reached through no source. Places of sources and sinks are as wide here as the other numbers: in
// usize a plan of 64 pins takes 1.37 times as long.
#[derive(Clone, Copy)]
struct Reached {
    round: u32,
    parent: u32,
    room: u32,
}

#[derive(Clone, Copy)]
struct Tree {
    root: usize,
    // Of each source: how far it is from being tight with a reached sink, and with which one it is least far.
    slack: [u32; 64],
    toward: [u32; 64],
    // u32::MAX for a source that was taken in, so that no slack passes it, and 0 for the others. With bools here a plan
    // takes 1.25 times as long, and with one array of structs for the three 2.3 times.
    closed: [u32; 64],
    reached: [Option<Reached>; 64],
}

// The next loops take one row by its items and the other by index: with a zip a plan took up to 1.16 times as long.

// Takes a reached sink into the slacks.
fn relax(market: &Market, slack: &mut [u32; 64], toward: &mut [u32; 64], sink: usize)
    requires { sink < market.now.case.now.sinks }
    ensures { Relaxed market.now.case.now market.now.marks sink slack.old toward.old slack.new toward.new }
{
    let Market { case, marks, .. } = market;
    let mark = marks.sink[sink];
    for (i, slack) in slack[..case.sources].iter_mut().enumerate() {
        let gap = marks.source[i] + case.cost[64 * i + sink] - mark;
        // By index and with no branch: after a zip a proof knows nothing of what was written, and a branch costs a tenth.
        let was = *slack;
        let there = toward[i];
        *slack = if gap < was { gap } else { was };
        toward[i] = if gap < was { sink as u32 } else { there };
    }
}

// The first source with the least slack that is not closed.
fn nearest(slack: &[u32], closed: &[u32]) -> usize
    requires { (0 < length slack.now) × (length slack.now ≤ length closed.now) }
    ensures { Nearest slack.now closed.now result }
{
    let mut source = 0;
    let mut least = u32::MAX;
    for (i, slack) in slack.iter().enumerate() {
        let here = (*slack).max(closed[i]);
        if here < least {
            least = here;
            source = i;
        }
    }
    source
}

// Raises the marks that are in the tree.
fn raise_marks<F: Fn(usize) -> bool>(marks: &mut [u32], is_inside: F, by: u32)
    requires asks { (k : ℕ) → k < length marks.old → F.pre is_inside k }
    requires rises { (k : ℕ) → k < length marks.old → F.post is_inside k true → at marks.old k + by ≤ 4000000 }
    ensures { Raised (F.post is_inside) by marks.old marks.new }
{
    for (k, mark) in marks.iter_mut().enumerate() {
        let rise = if is_inside(k) { by } else { 0 };
        *mark += rise;
    }
}

// Lowers the slacks of the sources that are not closed.
fn lower_slacks(slack: &mut [u32; 64], closed: &[u32], by: u32)
    requires few { length closed.now ≤ 64 }
    requires falls { (i : ℕ) → i < length closed.now → at closed.now i ≡ 0 → by ≤ at slack.old i }
    ensures { Lowered closed.now by slack.old slack.new }
{
    for (i, slack) in slack[..closed.len()].iter_mut().enumerate() {
        let fall = if closed[i] == 0 { by } else { 0 };
        *slack -= fall;
    }
}

impl Tree {
    // The tree of a root alone.
    fn rooted(market: &Market, root: usize) -> Tree
        requires { (root < market.now.case.now.sinks) × (0 < at market.now.load.want root) }
        ensures grown { Grown market.now.case.now market.now.marks market.now.load result }
        ensures early { (j : ℕ) → round_at result.reached j ≤ 1 }
        ensures closed { sum_to (at result.closed) market.now.case.now.sources ≡ 0 }
        ensures root { result.root ≡ root }
    {
        let mut slack = [u32::MAX; 64];
        let mut toward = [root as u32; 64];
        relax(market, &mut slack, &mut toward, root);
        let mut reached = [None; 64];
        reached[root] = Some(Reached {
            round: 0,
            parent: 0,
            room: market.load.want[root],
        });
        Tree {
            root,
            slack,
            toward,
            closed: [0; 64],
            reached,
        }
    }

    // Reaches a sink through a source that serves it.
    fn join(&mut self, market: &Market, source: usize, sink: usize, round: u32)
        requires grown { Grown market.now.case.now market.now.marks market.now.load self.old }
        requires inside { (source < market.now.case.now.sources) × (sink < market.now.case.now.sinks) }
        requires serves { (at self.old.slack source ≡ 0) × (0 < cell market.now.load.flow source sink) }
        requires anew { (round_at self.old.reached sink ≡ 0) × (round_at self.old.reached (at self.old.toward source) ≤ round) }
        ensures { Joined market.now.case.now market.now.marks market.now.load source sink (round + 1) self.old self.new }
    {
        let ahead = self.reached[self.toward[source] as usize].unwrap();
        self.reached[sink] = Some(Reached {
            round,
            parent: source as u32,
            room: ahead.room.min(market.load.flow[64 * source + sink]),
        });
        relax(market, &mut self.slack, &mut self.toward, sink);
    }

    // Takes in a source that has nothing left, with every sink that it serves.
    fn absorb(&mut self, market: &Market, source: usize, round: u32)
        requires grown { Grown market.now.case.now market.now.marks market.now.load self.old }
        requires inside { source < market.now.case.now.sources }
        requires still { (at self.old.closed source ≡ 0) × ((at self.old.slack source ≡ 0) × (at market.now.load.stock source ≡ 0)) }
        requires early { (j : ℕ) → j < market.now.case.now.sinks → round_at self.old.reached j ≤ round }
        ensures { Absorbed market.now.case.now market.now.marks market.now.load (round + 1) self.old self.new }
    {
        let served = &market.load.flow[64 * source..64 * source + market.case.sinks];
        for (j, &flow) in served.iter().enumerate() {
            if flow > 0 && self.reached[j].is_none() {
                self.join(market, source, j, round);
            }
        }
        self.closed[source] = u32::MAX;
    }

    // Raises the marks in the tree until a source is tight with it, and lowers the slack of the sources outside as much.
    fn raise(&mut self, market: &mut Market, source: usize)
        requires grown { Grown market.old.case.now market.old.marks market.old.load self.old }
        requires rises { Rising market.old.case.now market.old.marks self.old source }
        ensures tightened { Tightened market.old.case.now market.old.load source self.old market.new.marks self.new }
        ensures case { market.new.case.now ≡ market.old.case.now }
        ensures load { market.new.load ≡ market.old.load }
    {
        let by = self.slack[source];
        if by == 0 {
            return;
        }
        let Case { sources, sinks, .. } = *market.case;
        let marks = &mut market.marks;
        raise_marks(&mut marks.source[..sources], |i| self.closed[i] > 0, by);
        // The slacks go whole: no proof covers the loan of a part of them while another field is read.
        let closed = &self.closed[..sources];
        lower_slacks(&mut self.slack, closed, by);
        raise_marks(&mut marks.sink[..sinks], |j| self.reached[j].is_some(), by);
    }

    // Grows the tree to a source that has something left, and raises the marks so that it is tight.
    fn grow(&mut self, market: &mut Market) -> usize
        requires grown { Grown market.old.case.now market.old.marks market.old.load self.old }
        requires stocked { 0 < sum_to (at market.old.load.stock) market.old.case.now.sources }
        requires early { (((j : ℕ) → round_at self.old.reached j ≤ 1)) × (sum_to (at self.old.closed) market.old.case.now.sources ≡ 0) }
        ensures found { Found market.old.case.now market.new.marks market.old.load self.old.root self.new result }
        ensures case { market.new.case.now ≡ market.old.case.now }
        ensures load { market.new.load ≡ market.old.load }
    {
        let sources = market.case.sources;
        for n in 0..sources {
            let source = nearest(&self.slack[..sources], &self.closed[..sources]);
            self.raise(market, source);
            if market.load.stock[source] > 0 {
                return source;
            }
            // The root was reached in round 0.
            self.absorb(market, source, n as u32 + 1);
        }
        // Some source has something left, and such a one is never closed.
        unreachable()
    }
}
