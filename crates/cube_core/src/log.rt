//! The log as a type. It is seen as its protocol, budget, nodes, events and mark, and is legal for its protocol, so whatever
//! a call does to it is one legal event or nothing. What a node is worth is judged apart from it (`judge`), on a list of
//! cubes that may be a copy of the first nodes' cubes; the commit looks at what the log gained since. The cubes of the
//! nodes stand in a finder beside the log, which each call that changes the log is handed.

use crate::copies::{copied_events, copied_nodes};
use crate::fault::AdmitFault;
use crate::given::{given, given_of_node};
use crate::outcome::Outcome;
use crate::refusing::{outcome_of, refused, treated};
use crate::waiting::{least_open, next_from};
use cub_base::Memory;
use cub_proto::{Budget, Protocol};
use log_form::{LogEvent, LogVerdict, Mark, Node, PreImages, verdict};
use log_steps::{Decisions, Expands, Verdict, commit, consistent_goals, judge, judge_list};
use std::alloc::Global;
use std::marker::{Model, PhantomData};
use subsume::Finder;

/// The log of a search, by the relation `M` of pre-images.
#[derive(Drop)]
pub struct Log<M: PreImages> {
    protocol: Protocol,
    budget: Budget,
    nodes: Vec<Node>,
    events: Vec<LogEvent>,
    mark: Mark,
    // before this number no node may be expanded
    next: usize,
    of: PhantomData<M>,
}

impl<M: PreImages> Model for Log<M> {
    ghost use Rattle.log_form.specs.Log.{LogValue};
    ghost use Rattle.cube_core.specs.Kept.{IsKept};

    ghost Value = { LogValue };

    ghost view = { λ s. record { protocol = s.protocol; budget = s.budget; nodes = s.nodes.items; events = s.events.items; mark = s.mark } };

    ghost invariant = { λ s. IsKept M.pieces (record { protocol = s.protocol; budget = s.budget; nodes = s.nodes.items; events = s.events.items; mark = s.mark }) s.next };
}

impl<M: PreImages> Log<M> {
    ghost use Rattle.std.specs.Prelude.{◌≡◌, ◌<◌, [], None, Some, All, length, IfOk, IfErr, OnOk, OnErr};
    ghost use Rattle.log_form.specs.Log.{no_log, node_at, cubes_of};
    ghost use Rattle.log_form.specs.Verdict.{verdict_of};
    ghost use Rattle.log_form.specs.Legal.{Leads, IsLegalLog};
    ghost use Rattle.log_form.specs.Later.{GoesOn};
    ghost use Rattle.cube_core.specs.Answers.{LeadsBy, Answers};
    ghost use Rattle.cube_core.specs.Chosen.{AreChosen};
    ghost use Rattle.cube_core.specs.Waiting.{IsLeastOpen};
    ghost use Rattle.log_steps.specs.Readable.{IsReadable};
    ghost use Rattle.cube_core.specs.Admits.{NamesFault};
    ghost use Rattle.cube_core.specs.Judgements.{IsJudgement};

    /// The log after the first event, which adds the consistent unsafe conjunctions. The finder must be empty; after want
    /// of memory it is to be dropped.
    pub fn new<S: Decisions, F: Finder<S>>(
        alloc: Global,
        scratch: &mut S,
        protocol: &Protocol,
        finder: &mut F,
        budget: Budget,
    ) -> Result<Log<M>, Memory>
        requires made { S.made_for scratch.old protocol.now }
        requires empty { F.list finder.old ≡ [] }
        ensures roots { IfOk result (λ log. LeadsBy M.pieces (no_log protocol.now budget) None log) }
        ensures chosen { IfOk result (λ log. AreChosen S.chosen M.pieces log) }
        ensures cubes { IfOk result (λ log. F.list finder.new ≡ cubes_of log.nodes) }
        ensures serves { F.serves finder.new protocol.now }
        ensures made { S.made_for scratch.new protocol.now }
    {
        let list = consistent_goals(alloc, scratch, protocol)?;
        let picks = judge_list(alloc, scratch, protocol, finder, list.as_slice())?;
        let protocol_copy = protocol.copy()?;
        let mut nodes = Vec::new(alloc);
        let mut events = Vec::new(alloc);
        let committed = commit(
            alloc,
            scratch,
            protocol,
            finder,
            budget,
            &mut nodes,
            &mut events,
            None,
            picks.as_slice(),
            0,
        )?;
        let next = next_from(budget, nodes.as_slice(), 0);
        Ok(Log {
            protocol: protocol_copy,
            budget,
            nodes,
            events,
            mark: committed.mark,
            next,
            of: PhantomData,
        })
    }

    /// Commits a judgement of a node that was made on the first nodes of this log.
    pub fn apply<S: Decisions, F: Finder<S>>(
        &mut self,
        scratch: &mut S,
        protocol: &Protocol,
        finder: &mut F,
        verdict: Verdict,
    ) -> Result<Outcome, (Verdict, Memory)>
        requires made { S.made_for scratch.old protocol.now }
        requires serves { F.serves finder.old protocol.now }
        requires protocol { protocol.now ≡ self.old.protocol }
        requires cubes { F.list finder.old ≡ cubes_of self.old.nodes }
        requires judged { IsJudgement S.chosen M.pieces self.old verdict }
        ensures answer { IfOk result (λ o. Answers M.pieces self.old verdict.node o self.new) }
        ensures chosen { AreChosen S.chosen M.pieces self.old → AreChosen S.chosen M.pieces self.new }
        ensures later { GoesOn self.old self.new }
        ensures cubes { F.list finder.new ≡ cubes_of self.new.nodes }
        ensures err { OnErr result (self.new ≡ self.old) }
        ensures back { IfErr result (λ e. e.0 ≡ verdict) }
        ensures serves { F.serves finder.new protocol.now }
        ensures made { S.made_for scratch.new protocol.now }
    {
        if let Some(outcome) = refused(
            self.budget,
            self.nodes.as_slice(),
            self.mark,
            verdict.node,
        ) {
            return Ok(outcome);
        }
        let first = finder.count();
        match commit(
            verdict.picks.allocator(),
            scratch,
            protocol,
            finder,
            self.budget,
            &mut self.nodes,
            &mut self.events,
            Some(verdict.node),
            verdict.picks.as_slice(),
            verdict.seen,
        ) {
            Ok(committed) => {
                self.mark = committed.mark;
                self.next = next_from(self.budget, self.nodes.as_slice(), self.next);
                let count = finder.count();
                Ok(outcome_of(committed.mark, committed.links, first, count))
            }
            Err(error) => Err((verdict, error)),
        }
    }

    /// Judges the node on the whole log and commits that, where it may be expanded.
    pub fn expand<S: Expands<M>, F: Finder<S>>(
        &mut self,
        scratch: &mut S,
        protocol: &Protocol,
        finder: &mut F,
        node: u32,
    ) -> Result<Outcome, Memory>
        requires made { S.made_for scratch.old protocol.now }
        requires serves { F.serves finder.old protocol.now }
        requires protocol { protocol.now ≡ self.old.protocol }
        requires cubes { F.list finder.old ≡ cubes_of self.old.nodes }
        requires inside { node < length self.old.nodes }
        ensures answer { IfOk result (λ o. Answers M.pieces self.old node o self.new) }
        ensures chosen { AreChosen S.chosen M.pieces self.old → AreChosen S.chosen M.pieces self.new }
        ensures later { GoesOn self.old self.new }
        ensures cubes { F.list finder.new ≡ cubes_of self.new.nodes }
        ensures err { OnErr result (self.new ≡ self.old) }
        ensures serves { F.serves finder.new protocol.now }
        ensures made { S.made_for scratch.new protocol.now }
    {
        if let Some(outcome) = refused(self.budget, self.nodes.as_slice(), self.mark, node) {
            return Ok(outcome);
        }
        let alloc = *self.events.allocator();
        let cube = &self.nodes[node as usize].cube;
        let verdict = judge(alloc, scratch, protocol, finder, node, cube)?;
        match self.apply(scratch, protocol, finder, verdict) {
            Ok(outcome) => Ok(outcome),
            Err((_verdict, error)) => Err(error),
        }
    }

    /// The log after a given first event. The finder must be empty; after a fault it is empty again.
    pub fn admit_roots<S: Decisions, F: Finder<S>>(
        alloc: Global,
        scratch: &mut S,
        protocol: &Protocol,
        finder: &mut F,
        budget: Budget,
        event: &LogEvent,
    ) -> Result<Log<M>, AdmitFault>
        requires made { S.made_for scratch.old protocol.now }
        requires empty { F.list finder.old ≡ [] }
        requires readable { All (λ a. IsReadable protocol.now a.cube) event.now.added }
        ensures legal { IfOk result (λ log. Leads M.pieces (no_log protocol.now budget) event.now log) }
        ensures cubes { IfOk result (λ log. F.list finder.new ≡ cubes_of log.nodes) }
        ensures fault { IfErr result (NamesFault M.pieces (no_log protocol.now budget) event.now) }
        ensures err { OnErr result (F.list finder.new ≡ []) }
        ensures serves { F.serves finder.new protocol.now }
        ensures made { S.made_for scratch.new protocol.now }
    {
        if let Some(_number) = event.node {
            return Err(AdmitFault::Not { added: None });
        }
        let list = consistent_goals(alloc, scratch, protocol)?;
        let shown = list.as_slice();
        let picks = match given(alloc, scratch, protocol, finder, shown, event, budget.cubes) {
            Ok(picks) => picks,
            Err(fault) => return Err(fault),
        };
        let protocol_copy = protocol.copy()?;
        let mut nodes = Vec::new(alloc);
        let mut events = Vec::new(alloc);
        let committed = commit(
            alloc,
            scratch,
            protocol,
            finder,
            budget,
            &mut nodes,
            &mut events,
            None,
            picks.as_slice(),
            0,
        )?;
        let next = next_from(budget, nodes.as_slice(), 0);
        Ok(Log {
            protocol: protocol_copy,
            budget,
            nodes,
            events,
            mark: committed.mark,
            next,
            of: PhantomData,
        })
    }

    /// Changes the log by a given event, where it is legal on it. After a fault log and finder are as before.
    pub fn admit<S: Expands<M>, F: Finder<S>>(
        &mut self,
        scratch: &mut S,
        protocol: &Protocol,
        finder: &mut F,
        event: &LogEvent,
    ) -> Result<(), AdmitFault>
        requires made { S.made_for scratch.old protocol.now }
        requires serves { F.serves finder.old protocol.now }
        requires protocol { protocol.now ≡ self.old.protocol }
        requires cubes { F.list finder.old ≡ cubes_of self.old.nodes }
        requires readable { All (λ a. IsReadable protocol.now a.cube) event.now.added }
        ensures legal { OnOk result (Leads M.pieces self.old event.now self.new) }
        ensures fault { IfErr result (NamesFault M.pieces self.old event.now) }
        ensures cubes { F.list finder.new ≡ cubes_of self.new.nodes }
        ensures err { OnErr result (self.new ≡ self.old) }
        ensures serves { F.serves finder.new protocol.now }
        ensures made { S.made_for scratch.new protocol.now }
    {
        let alloc = *self.events.allocator();
        let number = match treated(self.budget, self.nodes.as_slice(), self.mark, event.node) {
            Some(number) => number,
            None => return Err(AdmitFault::Not { added: None }),
        };
        let cube = &self.nodes[number as usize].cube;
        let room = self.budget.cubes - self.nodes.len() as u32;
        let picks = match given_of_node(alloc, scratch, protocol, finder, cube, event, room) {
            Ok(picks) => picks,
            Err(fault) => return Err(fault),
        };
        let seen = finder.count();
        let committed = commit(
            alloc,
            scratch,
            protocol,
            finder,
            self.budget,
            &mut self.nodes,
            &mut self.events,
            Some(number),
            picks.as_slice(),
            seen,
        )?;
        self.mark = committed.mark;
        self.next = next_from(self.budget, self.nodes.as_slice(), self.next);
        Ok(())
    }

    /// An equal log.
    pub fn copy(&self) -> Result<Log<M>, Memory>
        ensures { IfOk result (λ log. log ≡ self.now) }
    {
        let alloc = *self.events.allocator();
        let protocol = self.protocol.copy()?;
        let nodes = copied_nodes(alloc, self.nodes.as_slice())?;
        let events = copied_events(alloc, self.events.as_slice())?;
        Ok(Log {
            protocol,
            budget: self.budget,
            nodes,
            events,
            mark: self.mark,
            next: self.next,
            of: PhantomData,
        })
    }

    /// The verdict of the log; none where it may and should go on.
    pub fn verdict(&self) -> Option<LogVerdict>
        ensures { result ≡ verdict_of self.now }
    {
        verdict(self.mark, self.budget, self.nodes.as_slice())
    }

    /// The number of nodes.
    pub fn count(&self) -> u32
        ensures { result ≡ length self.now.nodes }
    {
        self.nodes.len() as u32
    }

    /// The node with that number.
    pub fn node(&self, number: u32) -> &Node
        requires { number < length self.now.nodes }
        ensures { result.now ≡ node_at self.now.nodes number }
    {
        &self.nodes[number as usize]
    }

    /// The nodes; and the log is legal for its protocol.
    pub fn nodes(&self) -> &[Node]
        ensures value { result.now ≡ self.now.nodes }
        ensures legal { IsLegalLog M.pieces self.now }
    {
        self.nodes.as_slice()
    }

    /// The events.
    pub fn events(&self) -> &[LogEvent]
        ensures { result.now ≡ self.now.events }
    {
        self.events.as_slice()
    }

    /// Whether the log may go on.
    pub fn mark(&self) -> Mark
        ensures { result ≡ self.now.mark }
    {
        self.mark
    }

    /// The protocol that the log was made for.
    pub fn protocol(&self) -> &Protocol
        ensures { result.now ≡ self.now.protocol }
    {
        &self.protocol
    }

    /// The budget.
    pub fn budget(&self) -> Budget
        ensures { result ≡ self.now.budget }
    {
        self.budget
    }

    /// The least node that waits within the width.
    pub fn next_waiting(&self) -> Option<u32>
        ensures { IsLeastOpen self.now.budget self.now.nodes result }
    {
        match least_open(self.budget, self.nodes.as_slice(), self.next) {
            Some(number) => Some(number as u32),
            None => None,
        }
    }
}
