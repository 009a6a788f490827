//! Schedules, and clusters that were stepped through them.

use mencius_app::{Events, Scenario, read_plan, read_scenario};
use mencius_base::{Members, Refusal};
use mencius_board::{Board, Plan};
use mencius_cluster::Cluster;
use std::alloc::Global;
use std::panic::Expect;
use std::process::Abort;
use std::sync::Wait;

/// Server 0 sets `a`, and no server suspects it.
pub const ONE_COMMAND: &str = "{\"version\":1,\"servers\":3,\"events\":[\
    \"submit 0 1.0 set a x\",\"deliver 0 1\",\"deliver 0 0\",\"deliver 1 0\",\"deliver 2 0\",\"execute 0\"]}";

/// The only server compares and sets `a` three times. The first time `a` is absent, the second time it has another
/// text, and the third time it has the expected text. The third time leaves the empty text.
pub const COMPARED_AND_SET: &str = "{\"version\":2,\"servers\":1,\"events\":[\
    \"submit 0 1.0 cas a  x\",\"submit 0 1.1 set a x\",\"submit 0 1.2 cas a y z\",\"submit 0 1.3 cas a x \",\
    \"submit 0 1.4 get a\",\"deliver 0 0\",\"deliver 1 0\",\"deliver 2 0\",\"deliver 3 0\",\"deliver 4 0\",\
    \"deliver 5 0\",\"deliver 6 0\",\"deliver 7 0\",\"deliver 8 0\",\"deliver 9 0\",\
    \"execute 0\",\"execute 0\",\"execute 0\",\"execute 0\",\"execute 0\"]}";

/// Server 0 sets `a`, and server 1 looks it up.
pub const GET_AT_ANOTHER_SERVER: &str = "{\"version\":1,\"servers\":3,\"events\":[\
    \"submit 0 1.0 set a x\",\"deliver 0 0\",\"deliver 0 1\",\"deliver 1 0\",\"deliver 2 0\",\"execute 0\",\
    \"submit 1 2.0 get a\",\"deliver 4 0\",\"deliver 4 1\",\"deliver 5 1\",\"deliver 6 1\",\"deliver 3 1\",\
    \"execute 1\",\"execute 1\"]}";

/// Server 0 loses its instance, and suggests its command again.
pub const REVOKED_AND_SUGGESTED_AGAIN: &str = "{\"version\":1,\"servers\":3,\"events\":[\
    \"submit 0 1.0 set a x\",\"lose 0 1\",\"lose 0 2\",\"suspect 1 0\",\"deliver 1 1\",\"deliver 1 2\",\
    \"deliver 2 1\",\"deliver 3 1\",\"deliver 4 1\",\"deliver 4 2\",\"deliver 5 1\",\"deliver 6 1\",\
    \"deliver 7 0\",\"retry 0\"]}";

/// Reads a scenario with a schedule.
pub fn scenario_of<R: Abort>(rt: &R, alloc: Global, text: &str) -> Scenario<Events> {
    read_scenario(alloc, text.as_bytes()).expect(rt, "a scenario")
}

/// Reads the scenario of a run.
pub fn plan_of<R: Abort>(rt: &R, alloc: Global, text: &str) -> Scenario<Plan> {
    read_plan(alloc, text.as_bytes()).expect(rt, "a plan")
}

/// Creates a cluster of these members. No event has happened to it yet.
pub fn new_cluster<R: Abort>(rt: &R, alloc: Global, members: Members) -> Cluster {
    Cluster::new(alloc, members).expect(rt, "memory")
}

/// Creates a board over a cluster, with room for one reader.
pub fn new_board<R: Abort + Wait>(rt: &R, alloc: Global, cluster: Cluster) -> Board {
    Board::new(rt, alloc, cluster, 1).expect(rt, "a board")
}

/// Returns a cluster after the events of a schedule. The cluster may refuse some of the events.
pub fn cluster_after<R: Abort>(rt: &R, alloc: Global, text: &str) -> Cluster {
    let scenario = scenario_of(rt, alloc, text);
    let mut cluster = new_cluster(rt, alloc, scenario.members);
    for event in scenario.course {
        if let Err(refusal) = cluster.step(event) {
            assert!(rt; refusal != Refusal::NoMemory);
        }
    }
    cluster
}
