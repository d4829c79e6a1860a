// The plan that is built in: commands, each shown before its answer.
use crate::session::Session;

const PLAN: &[u8] =
    b"# Six ARFCNs, C0 is 10, BCC 3; one block of access grants, five multiframes of paging.
start 10 3 1 5 10 20 30 40 50 60
# Line 0: the combined common channels.
open 0 0 1 0 0 5 3
# Line 1: eight SDCCHs.
open 1 1 2 0 0 7 3
# Lines 2 and 3: full-rate traffic that hops; line 4: half-rate traffic.
open 2 2 62 17 0 1 3
open 3 2 62 17 1 1 3
open 4 2 62 17 2 2 3
# Some calls.
seize 0 1 4711
seize 1 0 4712
seize 1 5 4713
seize 2 0 4714
seize 4 0 4715
seize 4 1 4716
# Where and when a phone is paged.
page 262011234567890 0
table 0 0 0 51
table 1 0 0 51
table 2 0 0 52
";

pub(crate) fn run(rt: HostRuntime) {
    let mut session = Session::new(rt);
    session.shown = true;
    session.answer_lines(PLAN);
    session.output.flush();
}
