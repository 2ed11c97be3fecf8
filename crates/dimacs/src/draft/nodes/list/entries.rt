// A line put to its questions, and then entered in the draft.
ghost use Rattle.std.specs.Prelude.{◌≡◌, ◌+◌, ◌^◌, ◌<◌, ◌≤◌, true, false, OnOk};
ghost use Rattle.audit.specs.Questions.{allowed, outcome};
ghost use Rattle.dimacs.specs.Contents.{draft_of, left_by};
ghost use Rattle.dimacs.specs.Scan.{arc_asked, entered, node_asked, nothing, on_site, problem_asked, sites_of, taken, with_arc, with_node, with_problem};

use crate::document::{Arc, Node, Problem};
use crate::draft::Draft;
use crate::draft::nodes::Nodes;
use crate::sites::Sites;
use audit::current::is_allowed;
use audit::refusal::Refusal as TerminalRefusal;
use bounded::bounded::Bounded;
use reader::line::{ArcLine, NodeLine, ProblemLine};
use reader::refusal::{Fault, Refusal};
use ruler::refusal::Refusal as LegRefusal;

mod scanning;

pub use scanning::scan;

impl Draft {
    fn nothing() -> Draft
        ensures { draft_of result ≡ nothing }
    {
        Draft {
            problem: None,
            nodes: Nodes::none(),
            arcs: Bounded::new(),
            lines: 0,
        }
    }

    // How many sites the problem has; 0 without one.
    pub fn sites(&self) -> u32
        ensures value { result ≡ sites_of self.now.problem }
        ensures bound { result ≤ 64 }
    {
        self.problem.map_or(0, |problem| problem.sites)
    }

    // The nodes in their order.
    pub fn nodes(&self) -> &[Node]
        ensures { result.now ≡ (draft_of self.now).nodes }
    {
        self.nodes.as_slice()
    }

    // The arcs in their order, 2,000 at the most.
    pub fn arcs(&self) -> &[Arc]
        ensures { result.now ≡ (draft_of self.now).arcs }
    {
        self.arcs.as_slice()
    }

    fn is_site(&self, id: u64) -> bool
        ensures { result ≡ on_site (draft_of self.now) id }
    {
        (1..=u64::from(self.sites())).contains(&id)
    }

    fn problem_question(&self, line: usize, problem: ProblemLine) -> Result<(), Refusal>
        ensures asked { result ≡ outcome (problem_asked line (draft_of self.now) problem.is_min problem.sites problem.arcs) tt }
        ensures few { OnOk result (problem.sites ≤ 64) }
        ensures short { OnOk result (problem.arcs ≤ 2000) }
    {
        if self.problem.is_some() {
            return Err(Fault::LineOrder.at(line, 0));
        }
        if !problem.is_min {
            return Err(Fault::ProblemLine.at(line, 2));
        }
        if !(1..=64).contains(&problem.sites) {
            return Err(Fault::ProblemLine.at(line, 3));
        }
        if 2000 < problem.arcs {
            return Err(Fault::ProblemLine.at(line, 4));
        }
        Ok(())
    }

    fn node_question<S: Sites>(&self, sites: &S, line: usize, node: NodeLine) -> Result<(), Refusal>
        ensures asked { result ≡ outcome (node_asked (S.known sites.now) line (draft_of self.now) node.id node.flow) tt }
        ensures low { OnOk result (1 ≤ node.id) }
        ensures high { OnOk result (node.id ≤ 64) }
        ensures free { OnOk result (taken (draft_of self.now).nodes node.id ≡ false) }
        ensures flow { OnOk result (allowed node.flow ≡ true) }
    {
        if self.problem.is_none() || self.lines != 0 {
            return Err(Fault::LineOrder.at(line, 0));
        }
        if !self.is_site(node.id) {
            return Err(Fault::SiteOutOfRange.at(line, 2));
        }
        let id = node.id as u32;
        if self.nodes.has(id) {
            return Err(Fault::from(TerminalRefusal::IdTaken { id }).at(line, 0));
        }
        if !is_allowed(node.flow) {
            return Err(Fault::from(TerminalRefusal::CurrentOutOfRange { id }).at(line, 0));
        }
        if !sites.knows(id) {
            return Err(Fault::from(TerminalRefusal::SiteUnknown { id }).at(line, 0));
        }
        Ok(())
    }

    fn arc_question(&self, line: usize, arc: ArcLine) -> Result<(), Refusal>
        ensures asked { result ≡ outcome (arc_asked line (draft_of self.now) arc.from arc.to arc.low arc.cap arc.cost) tt }
        ensures from { OnOk result (arc.from ≤ 64) }
        ensures to { OnOk result (arc.to ≤ 64) }
        ensures cost { OnOk result (arc.cost ≤ 4000000) }
    {
        if self.problem.is_none() {
            return Err(Fault::LineOrder.at(line, 0));
        }
        if !self.is_site(arc.from) {
            return Err(Fault::SiteOutOfRange.at(line, 2));
        }
        if !self.is_site(arc.to) {
            return Err(Fault::SiteOutOfRange.at(line, 3));
        }
        if arc.low != 0 {
            return Err(Fault::ArcBounds.at(line, 4));
        }
        if arc.cap < self.nodes.supply() {
            return Err(Fault::ArcBounds.at(line, 5));
        }
        if 4_000_000 < arc.cost {
            return Err(Fault::from(LegRefusal::LegTooLong).at(line, 0));
        }
        Ok(())
    }

    fn enter_problem(&mut self, line: usize, problem: ProblemLine) -> Result<(), Refusal>
        ensures lines { self.new.lines ≡ self.old.lines }
        ensures entry { left_by result (draft_of self.new) ≡ outcome (problem_asked line (draft_of self.old) problem.is_min problem.sites problem.arcs) (with_problem (draft_of self.old) problem.sites problem.arcs) }
    {
        self.problem_question(line, problem)?;
        self.problem = Some(Problem {
            sites: problem.sites as u32,
            arcs: problem.arcs as u32,
        });
        Ok(())
    }

    fn enter_node<S: Sites>(
        &mut self,
        sites: &S,
        line: usize,
        node: NodeLine,
    ) -> Result<(), Refusal>
        ensures lines { self.new.lines ≡ self.old.lines }
        ensures entry { left_by result (draft_of self.new) ≡ outcome (node_asked (S.known sites.now) line (draft_of self.old) node.id node.flow) (with_node (draft_of self.old) node.id node.flow) }
    {
        self.node_question(sites, line, node)?;
        self.nodes.add(Node {
            id: node.id as u32,
            flow: node.flow as i32,
        });
        Ok(())
    }

    // One arc more; past 2,000 they are only counted, since such a file is refused at its end.
    fn keep_arc(&mut self, arc: Arc)
        requires { self.old.lines < 2 ^ 32 }
        ensures lines { self.new.lines ≡ self.old.lines + 1 }
        ensures entry { draft_of self.new ≡ with_arc (draft_of self.old) arc.from arc.to arc.cost }
    {
        let _ = self.arcs.push(arc);
        self.lines += 1;
    }

    fn enter_arc(&mut self, line: usize, arc: ArcLine) -> Result<(), Refusal>
        requires { self.old.lines < 2 ^ 32 }
        ensures lines { self.new.lines ≤ self.old.lines + 1 }
        ensures entry { left_by result (draft_of self.new) ≡ outcome (arc_asked line (draft_of self.old) arc.from arc.to arc.low arc.cap arc.cost) (with_arc (draft_of self.old) arc.from arc.to arc.cost) }
    {
        self.arc_question(line, arc)?;
        self.keep_arc(Arc {
            from: arc.from as u32,
            to: arc.to as u32,
            cost: arc.cost as u32,
        });
        Ok(())
    }
}
