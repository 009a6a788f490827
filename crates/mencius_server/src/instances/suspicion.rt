//! The instances that a suspicion of a server would revoke, and the first phases that it starts.
ghost use Rattle.mencius_base.specs.Limits.{greatest_front, instance_count};
ghost use Rattle.mencius_base.specs.Members.{numbers_below};
ghost use Rattle.mencius_server.specs.Instances.{instances_after_suspect, is_open_in, prepares_in, prepares_stored, reach_stored, with_first_phases, with_open_stored};
ghost use Rattle.mencius_server.specs.OwnedIntervals.{IsOwnedInterval};
ghost use Rattle.mencius_server.specs.Tallies.{IsOpenInterval, IsSurvey};
ghost use Rattle.std.specs.List.{count_by};
ghost use Rattle.mencius_server.specs.Calls.{CanBeginCovered, CanBeginOpen};
ghost use Rattle.std.specs.Prelude.{◌≡◌, ◌+◌, ◌<◌, ◌≤◌, ◌++◌, OnErr, OnOk};

use super::Instances;
use crate::owned_interval::OwnedInterval;
use crate::tally::Tally;
use mencius_base::{INSTANCES, NoMemory, Outbox};

impl Instances {
    /// Returns the place below which a suspicion of a server covers its open instances, for a given front. The place is
    /// `front + 2 * beta + 1` if the server's lowest unlearned instance is below `front + beta`. Otherwise, the
    /// suspicion covers nothing and the place is 0.
    ///
    /// The search leaps over the interval of learned instances that the last call found, because learned instances stay
    /// learned. So all calls together look at each instance once, and each call looks at one additional instance.
    pub(crate) fn reach(&mut self, suspected: u8, front: u32) -> u32
        requires suspected { suspected < self.old.members.count }
        requires near { front ≤ greatest_front }
        ensures reach { result ≡ reach_stored self.old suspected front }
        ensures same { self.new ≡ self.old }
    {
        let members = self.stored.members;
        let _within_limit = members.count(); // proof: at most 7 servers
        let beta = members.beta();
        let near = (front + beta).min(INSTANCES);
        // The server's first instance has the server's number.
        let from = u32::from(suspected);
        let learned_intervals = &mut self.learned_intervals;
        let first = self.stored.open_from(learned_intervals, from, near);
        if first < near {
            front + 2 * beta + 1
        } else {
            0
        }
    }

    /// Counts the instances that a suspicion of a server would revoke below `reach`.
    ///
    /// The count continues from the reach of the last call, because each change below that reach was counted when it
    /// happened. So all calls together look at each instance once.
    pub(crate) fn tally(&mut self, suspected: u8, reach: u32) -> Tally
        requires { suspected < self.old.members.count }
        ensures survey { IsSurvey self.old suspected reach result }
        ensures same { self.new ≡ self.old }
    {
        let members = self.stored.members;
        let _within_limit = members.count(); // proof: at most 7 servers
        let stop = reach.min(INSTANCES);
        // The front never moves back. So this is the whole earlier tally, unless the suspicion covers nothing.
        let start = self.tallies.up_to(suspected, stop);
        if start.stop == stop {
            return start;
        }
        let first = start.stop.max(self.learned_below).min(stop);
        let further = self.stored.tally_from(suspected, first, stop);
        let tally = start.plus(further);
        self.tallies.put(suspected, tally);
        tally
    }

    /// Starts a first phase at each unlearned instance of a server below `reach`.
    ///
    /// `out` has room for their Prepares.
    pub(crate) fn begin_all(
        &mut self,
        id: u8,
        suspected: u8,
        reach: u32,
        out: &mut Outbox,
    ) -> Result<(), NoMemory>
        requires { CanBeginCovered self.old id suspected reach out.old }
        ensures sent { OnOk result (out.new.messages
            ≡ out.old.messages ++ prepares_stored self.old id suspected reach) }
        ensures after { OnOk result (self.new ≡ instances_after_suspect self.old id suspected reach) }
        ensures limit { out.new.limit ≡ out.old.limit }
        ensures same { OnErr result (self.new ≡ self.old) }
        ensures unsent { OnErr result (out.new ≡ out.old) }
    {
        let interval = self.open_interval(suspected, reach);
        self.store_open(&interval)?;
        self.begin_open(&interval, id, out);
        Ok(())
    }

    // Stores slots at the unlearned instances of an interval.
    fn store_open(&mut self, interval: &OwnedInterval) -> Result<(), NoMemory>
        requires interval { IsOwnedInterval interval.now }
        requires members { interval.now.members ≡ self.old.members }
        requires small { interval.now.stop ≤ instance_count }
        ensures ok { OnOk result (self.new ≡ with_open_stored self.old interval.now) }
        ensures err { OnErr result (self.new ≡ self.old) }
    {
        let server = interval.server;
        let skipped = &self.stored.skipped[server as usize];
        self.stored
            .slots
            .store_all(*interval, skipped, &self.learned_intervals)?;
        Ok(())
    }

    // Starts a first phase at each unlearned instance of an interval. Each of these instances has a slot.
    fn begin_open(&mut self, interval: &OwnedInterval, id: u8, out: &mut Outbox)
        requires { CanBeginOpen self.old interval.now id out.old }
        ensures after { self.new ≡ with_first_phases self.old id interval.now }
        ensures sent { out.new.messages ≡ out.old.messages ++ prepares_in self.old id interval.now }
        ensures limit { out.new.limit ≡ out.old.limit }
    {
        let server = interval.server;
        let is_last = self
            .stored
            .slots
            .begin_all(*interval, id, &mut self.learned_intervals, out);
        let _within_limit = self.stored.members.count(); // proof: at most 7 servers
        self.tallies.forget_changed(server, is_last);
    }

    // Returns the interval of a server's instances below `reach`.
    fn open_interval(&self, suspected: u8, reach: u32) -> OwnedInterval
        requires { suspected < self.now.members.count }
        ensures { IsOpenInterval self.now suspected reach result }
    {
        let members = self.stored.members;
        OwnedInterval {
            members,
            server: suspected,
            // The server's first instance has the server's number.
            first: u32::from(suspected),
            stop: reach.min(INSTANCES),
        }
    }
}
