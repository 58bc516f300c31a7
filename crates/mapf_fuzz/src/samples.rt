//! The readers, and the texts of one small problem that are damaged for each of them.
/// The text that is damaged. The others of its problem stay as they are.
#[derive(Clone, Copy, Debug, PartialEq, Eq)]
pub enum Reader {
    Map,
    Scenario,
    Plan,
    Certificate,
    Events,
    Requests,
}

pub const READERS: [Reader; 6] = [
    Reader::Map,
    Reader::Scenario,
    Reader::Plan,
    Reader::Certificate,
    Reader::Events,
    Reader::Requests,
];

/// Two agents whose shortest paths meet in the middle, so that one has to wait.
pub const MAP: &str = "type octile\nheight 3\nwidth 3\nmap\n...\n...\n...\n";

pub const SCENARIO: &str =
    "version 1\n0\topen3.map\t3\t3\t0\t1\t2\t1\t2\n0\topen3.map\t3\t3\t1\t0\t1\t2\t2\n";

pub const AGENTS: u32 = 2;

/// The least sum of costs, in ticks.
pub const LEAST: u64 = 5;

pub const PLAN: &str =
    "mapf-plan 2\nagents 2\ncost 5\npath 0 3 0,1 0,1 1,1 2,1\npath 1 2 1,0 1,1 1,2\nend\n";

// A plan that isn't optimal, one in version 1, and answers without a plan.
const PLANS: [&str; 5] = [
    PLAN,
    "mapf-plan 2\nagents 2\ncost 6\npath 0 4 0,1 0,1 0,1 1,1 2,1\npath 1 2 1,0 1,1 1,2\nend\n",
    "mapf-plan 1\nagents 2\ncost 5\npath 0 3 0,1 0,1 1,1 2,1\npath 1 2 1,0 1,1 1,2\nend\n",
    "mapf-plan 2\nagents 2\nlimit 0 bound 4\nend\n",
    "mapf-plan 2\nagents 2\nimpossible\nend\n",
];

pub const CERTIFICATE: &str =
    "mapf-cert 2\nagents 2\nclaim cost 5\nvertex 0 1 1,1 1 0\nleaf 1\nagent 0 1\nat 0,1 0 3\n\
leaf 1\nagent 1 1\nat 1,0 0 3\nend\n";

// Certificates of each version, in version 3 with prices, a lemma of two agents, lemmas by cases and a split on costs.
// The last one is refused: its joint cells would show that the two agents can't both arrive.
const CERTIFICATES: [&str; 7] = [
    CERTIFICATE,
    "mapf-cert 1\nagents 2\nclaim cost 5\nvertex 0 1 1,1 1\nleaf 1\nagent 0 1\nat 0,1 0 3\nleaf 1\nagent 1 1\n\
at 1,0 0 3\nend\n",
    "mapf-cert 3\nagents 2\nclaim cost 5\nprices 1\nlist 1 1\nprice 1,1 1 1\nlemmas 2\none 0 0 1 0\nat 0,1 0 3\n\
one 1 0 1 0\nat 1,0 0 3\nleaf 2 0 0\nuse 0\nuse 1\nend\n",
    "mapf-cert 3\nagents 2\nclaim cost 5\nprices 0\nlemmas 1\ntwo 0 1 0 0 0 1 -\nat 0,1 1,0 0 5\nleaf 0 1 -\n\
group 1 1\nuse 0 1\nend\n",
    "mapf-cert 3\nagents 2\nclaim cost 5\nprices 0\nlemmas 3\none 0 1 1 -\nnot 0 1,1 1\nat 0,1 0 3\none 1 1 1 -\n\
not 1 1,1 1\nat 1,0 0 3\ncases 2 0 5\nagent 0\nagent 1\nvertex 0 1 1,1 1\nleaf 1 0 -\nuse 0\nleaf 1 0 -\nuse 1\n\
leaf 0 1 -\ngroup 1 1\nuse 2 1\nend\n",
    "mapf-cert 3\nagents 2\nclaim cost 5\nprices 0\nlemmas 3\ntwo 0 1 0 0 0 1 -\nat 0,1 1,0 0 5\none 1 1 0 -\n\
least 1 3\none 0 1 0 -\nleast 0 3\ncosts 0 2 1 3 0\nleaf 1 0 -\nuse 1\nleaf 1 0 -\nuse 2\nend\n",
    "mapf-cert 3\nagents 2\nclaim cost 5\nprices 0\nlemmas 1\nnever 0 1 1\ncells 0,1 1,0\nleaf 0 1 -\ngroup 1 1\n\
use 0 1\nend\n",
];

pub const EVENTS: &str = "mapf-events 1\n0\n1\n0\n1\n0\n0\n0\nend\n";

pub const REQUESTS: &str = "mapf-events 1\n0\nstatus\n1\n2\nno\n1\n0\n0\nend\n";

/// Returns the texts that are damaged for a reader.
pub fn samples(reader: Reader) -> &'static [&'static str] {
    match reader {
        Reader::Map => &[MAP],
        Reader::Scenario => &[SCENARIO],
        Reader::Plan => &PLANS,
        Reader::Certificate => &CERTIFICATES,
        Reader::Events => &[EVENTS],
        Reader::Requests => &[REQUESTS],
    }
}
