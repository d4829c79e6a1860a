// What `schedule --help` prints: how the program is run, its commands with what each answers, and what a refusal and an error look like.
// docs/SCHEDULE.md has the whole format.
use crate::output::complain;

const HELP: &[u8] = b"schedule: the timetable of a GSM cell, asked and answered line by line

Usage:
  schedule                    runs the plan that is built in, with its timetable
  schedule FILE               answers the commands of a file
  schedule -                  answers the commands of standard input
  schedule --help, -h         prints this text (./--help is a file)

Commands, one to a line, and the answer when accepted:
  split FN                    ok T1 T2 T3 T3'   (- where T3' isn't given)
  join T1 T2 T3               ok FN
  hop MASK HSN MAIO FN ARFCN..
                              ok ARFCN MAI POSITION
  map COMBINATION TN FN DIRECTION
                              ok idle
                              ok CHANNEL S BLOCK PLACE [BLOCK PLACE]
  start C0 BCC AG P ARFCN..   ok
  open LINE TN MASK HSN MAIO COMBINATION TSC
                              ok
  close LINE                  ok
  seize LINE S OWNER          ok
  release LINE S OWNER        ok
  line LINE FN DIRECTION      ok ARFCN MAI POSITION idle
                              ok ARFCN MAI POSITION CHANNEL S OWNER
                                BLOCK PLACE [BLOCK PLACE]
  who TN ARFCN FN DIRECTION   ok nobody
                              ok LINE, and then as line
  page IMSI FN                ok TN BLOCK FRAME
  build normal TSC BITS       ok BITS
  build sync BITS             ok BITS
  build access BITS           ok BITS
  build frequency             ok BITS
  build dummy                 ok BITS
  take normal TSC BITS        ok BITS
  take sync BITS              ok BITS
  take access BITS            ok BITS
  table TN DIRECTION FN COUNT
                              a timetable: the open lines of a timeslot

Numbers are decimal. ARFCN.. is a list, the cell allocation: 1 to 64 ARFCNs,
each once and in the order 1, 2, .., 1023, 0. Bit p of MASK stands for its
position p. MAI counts the mask's ones below the one that is used; POSITION is
the place of the ARFCN in the cell allocation, from 0. DIRECTION is 0 for
downlink, 1 for uplink. BITS are characters 0 and 1. COUNT is how many frames,
at most 2715648. A line that is empty or starts with # is passed over.

Other answers:
  refused N                   the lowest of these that applies:
       1 cell allocation          9 clash, followed by the line in the way
       2 C0, BCC, AG or P        10 no such S in this combination
       3 out of range, or IMSI   11 seize of an S that is held
       4 mask                    12 release of an S that OWNER doesn't hold
       5 MAIO                    13 close with some S held
       6 line is open            14 T1, T2 or T3; a length; a bit above 1
       7 line is closed          15 fixed bit differs, followed by its number
       8 common channel          16 no common line is open
         misplaced
  error LINENUMBER REASON     no command: nothing of the line is carried out
";

pub(crate) fn print(rt: HostRuntime) {
    if let Err(error) = rt.write_all(HELP) {
        complain(rt, "standard output", error);
    }
}
