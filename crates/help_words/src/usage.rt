//! What a person reads of the program. The script `dover` takes these lines from here.

/// The version, as the file `VERSION` has it.
pub const VERSION: &str = "2026.11";

/// The usage. A row of words is two blanks, the words, in which names in capitals stand for numbers and what stands in
/// brackets may be left out, and what goes in and comes out.
pub const USAGE: &str = r"usage: dover WORD.. [< INPUT]
  serve                  a feed of jobs in, the trace of its run out, each decision as soon as it is settled
  judge                  a text in, its verdict out: accepted, wrong or short
  report text            a trace in, a report on its run out
  report csv             a trace in, a table of its jobs out
  report chrome          a trace in, its run as events for a viewer of traces out
  report why N           a trace in, what happened to job N out
  report timeline [FROM UNTIL]  a trace in, a picture of its run for a terminal out
  report svg [FROM UNTIL]  a trace in, a picture of its run as SVG out
  report any csv         a schedule of any policy in, a table of its jobs out
  report any timeline [FROM UNTIL]  a schedule of any policy in, a picture of it for a terminal out
  report any svg [FROM UNTIL]  a schedule of any policy in, a picture of it as SVG out
  report tasks           periodic tasks and a trace behind them in, what became of the jobs with each task's numbers out
  report tasks timeline [FROM UNTIL]  the same in, a picture of the run for a terminal, each task below its name, out
  report tasks svg [FROM UNTIL]  the same in, a picture of the run as SVG, each task in lanes of its own, out
  feasible               a feed in, whether all its deadlines can be met out, with a schedule or a window
  feasible tasks         periodic tasks in, whether they can be met for all time out, or a window with too much work
  best                   a feed of at most 20 jobs in, the best schedule of its jobs out
  compare                a feed in, what the rules, version Four of them and two simpler policies complete out
  loss                   a feed in, what its overload costs at most, and where, out
  lanes                  up to 64 feeds in one input, the trace of each out
  pause                  as serve, but where the input ends early, a snapshot of the feed stands behind its trace
  resume [pause]         a snapshot and the feed's further lines in, the rest of its trace out; with pause as above
  unroll UNTIL           periodic tasks in, the feed of all jobs that they release before tick UNTIL out
  sure                   periodic tasks in, of each whether it passes a test by which no job of it is lost, out
  budget C               periodic tasks in, the same with works that pay for changes of hands of at most C ticks out
  ratio                  a feed or periodic tasks in, the least k that all of them keep, and its bound, out
  trial SEED COUNT P Q   the summary of the run of COUNT made-up jobs, for k = P/Q
  draw SEED COUNT P Q    a made-up feed of COUNT jobs, some of which are done early, for k = P/Q
  bait P Q N [B C]       how far N rounds of baiting jobs lead the rules on, for k = P/Q, or by the factor B/C
  duel P Q A B [L]       the feed of jobs, or of L, on which no on-line scheduler gets A/B of the best, for k = P/Q
brackets: what stands in them may be left out; FROM UNTIL are the ticks from FROM on and before UNTIL alone
example:  printf 'k 1 1 4 2 1\njob 0 2 2 2\nend\n' | dover serve
status:   0 done, 1 no, 2 refused, 3 read failed, 4 write failed, 5 no memory, 6 wrong words, 7 not begun
version:  dover version says which one this is
more:     dover WORD --help, man dover, and docs/MANUAL.md
";
