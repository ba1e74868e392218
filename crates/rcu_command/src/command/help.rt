//! The help texts behind the options, and the version.

/// The version of the library.
pub const VERSION: &str = "0.3.0";

/// The help of the program.
pub const PROGRAM: &str = "\
Each line on standard input is an event. The reply to it is a line on standard output. Try:
  printf 'begin\\nnote 0\\nquiet 0\\ndeliver 1\\nend\\n' | rcu script --leaf 2 --inner 2 --cpus 1

'rcu script --help', 'rcu pair --help' and 'rcu torture --help' say more.

Exit status: 0; 1 if the run was refused ('fault N') or a stream failed; 2 if the command line was
refused or asked for help.";

/// The help of `script`.
pub const SCRIPT: &str = "\
--leaf and --inner are one of these pairs, with the most processors that it can hold:
  2 2: 16    2 3: 54    4 4: 256    16 64: 4096    64 64: 4096
Another pair gives 'fault 18', no processor or too many 'fault 17', another last number 'fault 19'.
At first only processor 0 is online.

Lines on standard input (C is a processor, counted from 0):
  begin, end, turn         begins or ends a grace period; turn does whichever is due
  awaits                   lists the awaited processors
  note C, quiet C          a processor notes the number; passes a quiescent state, and reports it
  deliver K                report K arrives
  enter C, exit C          a read-side critical section of a processor begins; ends
  online C, offline C      a processor arrives; departs
  idle C, wake C           a processor goes idle: it has no section until it wakes
  scan C                   counts the quiescent state of an idle processor
  take, start              takes a cookie; start also requests its grace period
  poll K, poll K E         tests if the cookie K is done, of epoch 0 or of epoch E
  renumber                 begins the next epoch, if the number is the last one
  queue C ID, tend C       queues a callback; advances the callbacks of a processor
  run C MOST               hands out callbacks that are done
  bar, visit C, bartest    a barrier begins; visits a processor; is tested

The reply to each line is a line on standard output: 'fault N' if the line is refused. There are no
comments. The exit status is 0 at the end of the input, and 1 if the run was refused at its opening
or a stream failed.

Examples:
  printf 'begin\\nnote 0\\nquiet 0\\ndeliver 1\\nend\\n' | rcu script --leaf 2 --inner 2 --cpus 1
  rcu script --leaf 2 --inner 2 --cpus 1 < FILE";

/// The help of `pair`.
pub const PAIR: &str = "\
--leaf and --inner, and --leaf2 and --inner2, are each one of these pairs, with the most processors
that it can hold:
  2 2: 16    2 3: 54    4 4: 256    16 64: 4096    64 64: 4096
Another pair gives 'fault 18', no processor or too many 'fault 17', another last number 'fault 19'.

Lines on standard input (X is a or b, C a processor, counted from 0):
  X begin C ..             begins a grace period of X that awaits these processors
  X report C V             a report of a processor, with the number V that it noted, arrives at X
  X depart C               a processor departs
  X end                    ends the grace period of X
  X awaits                 lists the processors that X awaits
  X merge                  X takes in the reports and departures that the other one has
  same                     tests if both await the same processors

The reply to each line is a line on standard output: 'fault N' if the line is refused. The exit
status is 0 at the end of the input, and 1 if the run was refused at its opening or a stream failed.

Example:
  printf 'a begin 0 1\\nb begin 0 1\\na report 0 1\\nb merge\\nsame\\n' |
    rcu pair --leaf 2 --inner 2 --leaf2 4 --inner2 4 --cpus 2";

/// The help of `torture`.
pub const TORTURE: &str = "\
It reads no input, and prints six lines: the workers, the rounds, the callbacks that were queued and
those that ran, the callbacks and cookies that were done too early, and the callbacks that ran
twice. The last two have to be 0. Out of memory, it prints only 'fault 16'.

The exit status is 0 if the ledger was printed, whatever it says; 1 at a fault, or if standard
output failed.

Example:
  rcu torture --workers 4 --rounds 100 --seed 1";
