//! What the help says of the commands that read a trace.

/// What the help says of `check`.
pub(crate) const CHECK_HELP: &str = "\
CFG is a configuration, and TRACE a trace as `fmpsim calls` writes it: one line for each
event, with its number, its processor, who made the call, the event, the answer, and what
it changed:

  1 P1 T1 act_tsk(T2) E_OK run=T2

The machine of the configuration answers the events of the trace. The verdict, on standard
output, is `yes` where these answers are the trace, and else `no` and the number of the
first line that differs.

With --show the machine's state before that line stands under the verdict, then the line, and
below it the machine's own:

  no 57
    P1 run=T1
    end
  - 57 P1 T1 act_tsk(T2) E_OK
  + 57 P1 T1 act_tsk(T2) E_OK run=T2

With --all there is a unified diff in place of the verdict, which `patch TRACE` reads. It has
every line that differs; after one the machine goes on with its own answers. Where none does
it is empty. Of a partial trace in which calls overlap it has the line of `no` alone.

With --partial each line may leave out its number, who made the call, and each field after its
answer; `*` stands for a value or a code that is not told, and `?` for such an answer. What is not
written is not judged, and what is written is judged exactly:

  P1 act_tsk(T2) E_OK
  P1 get_tid() E_OK:*

Where calls of two processors overlap, ` by=9` at the end of a line says that line 9 is the last
that may take effect before it, and the answer `open` that its end is not told. Then the verdict
is `yes` if some order within these bounds is the machine's, `no 57` if none has line 57 and all
before it, and `not known` if there are too many. With --show the state is then that after such an
order of the lines before it.

With --order, which goes with --partial and stands for it, the machine's own lines are written in
place of a `yes`, in the order in which it plays them. So a partial trace becomes a whole one,
which `fmpsim view` and `fmpsim wave` draw. Where the verdict is another nothing is written.

Its last line may be `ends 812`: the trace ends at line 812 of its log, before that. Then the
verdict is `yes to 812` in place of `yes`.

Exit status:
  0  yes
  1  a fault in a text, reported on standard error with its line
  2  the command line is wrong
  3  a file could not be read, or the output not be written
  4  want of memory
  5  no
  6  yes to a line of the log, and the trace has no more of it; or not known";

/// What the help says of `wave`.
pub(crate) const WAVE_HELP: &str = "\
CFG is a configuration, and TRACE a trace as `fmpsim calls` or `fmpsim smp` writes it. The machine
of the configuration answers the events of the trace, and what its processors and tasks did
is written to standard output as a Value Change Dump (IEEE 1364). Each event is a unit of
time: line 57 of the trace is drawn at 57.

  fmpsim wave machine.cfg trace.txt > trace.vcd
  fmpsim wave machine.cfg --gtkw > trace.gtkw
  gtkwave trace.vcd trace.gtkw

For each processor there are the task that runs, the last call with its answer, whether it is
locked or its dispatching disabled, its latch, the handler that is due, and its ticks; for each
task its state, what it waits for, its priority, and the activations and wakeups that are queued
for it; for each semaphore, eventflag, data queue and pool its count, its pattern, its values, and
how many blocks are free; and who holds each spin lock. Of a trace that is not the machine's own
nothing is written.

With --gtkw TRACE is left out, and GTKWave's save file for the configuration is written, by which
it shows all these signals at once.

Exit status:
  0  done
  1  a fault in a text, reported on standard error with its line
  2  the command line is wrong
  3  a file could not be read, or the output not be written
  4  want of memory
  5  the trace is not the machine's own: the first line that differs is reported on standard error";

/// What the help says of `view`.
pub(crate) const VIEW_HELP: &str = "\
CFG is a configuration, and TRACE a trace as `fmpsim calls` or `fmpsim smp` writes it. The machine
of the configuration answers the events of the trace, and one HTML file is written to
standard output, which a browser opens from the disk, without a network:

  fmpsim view machine.cfg trace.txt > timeline.html

The page has lanes of processors, tasks and objects over the lines of the trace, and beside them
what each line changed, why it could happen and what came of it. It holds the trace, so that
whoever gets the page can save and replay it. Of a trace that is not the machine's own nothing is
written. The key `?` shows the keys of the page: `m` measures lines and ticks between two lines,
`p` shows the share of the lines that each task ran, its longest wait and the longest time it was
ready, and `h` hides a lane.

With --differences any trace is shown as the machine would have it, with each line of TRACE
that is not the machine's own in red below the machine's: a log of a target, say. After such
a line the machine goes on with its own answers.

With --partial TRACE may leave out parts, as for `fmpsim check --partial`. The page is that of the
machine's own lines, in the order in which it plays them. Where the verdict is `no`, nothing is
written; with --differences it is the page up to the line of `no`, which stands in red with what
it says, and with the machine's own answer where it says nothing.

Exit status:
  0  done
  1  a fault in a text, reported on standard error with its line
  2  the command line is wrong
  3  a file could not be read, or the output not be written
  4  want of memory
  5  the trace is not the machine's own: the first line that differs is told, or with --differences all
  6  with --partial: yes to a line of the log, and the trace has no more of it; or not known";
