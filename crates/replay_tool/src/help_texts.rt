//! What `--help` and `--version` print.

/// What `s6_tree --help` prints.
pub const HELP: &[u8] = b"usage: s6_tree TOOL ..
       s6_tree help [TOOL]
       s6_tree TOOL --help
       s6_tree --help | --version

The programs of a proved s6 supervision tree.

tools:
  svscan        run a supervision tree, and serve its clients
  svcheck       say what svscan would do with a scan directory
  svc           send letters to a service
  svstat        print fields of the status of a service
  list          print the state of all services
  follow        print what happens to services, as it happens
  svwait        wait for services
  svlisten      wait for services, with a program started meanwhile
  svscanctl     tell the tree to scan or to end
  record        have the record of the tree written up to now
  connect       send requests by hand, and print the answers
  mkfifodir     make an event directory
  ftrig-notify  send letters to an event directory
  ftrig-wait    wait for letters of an event directory
  permafailon   tell whether a service fails for good
  replay        read a script of inputs, write what the tree answers

options:
  -h, --help    print this text; behind a TOOL, that of the tool
  --version     print the version

exit status:
  0             done; of a wait: held; of permafailon: it doesn't fail for
                good; of svcheck: nothing is wrong
  1             refused by the server; of a wait: failed for good; of
                ftrig-wait also: the text got too long; of list also: a
                name is of no service; of replay --check: a reply differs;
                of svcheck: something is wrong
  2             of a wait: gone, the supervisor of a service has ended
  99            of a wait: timed out, also where the server was busy all
                the time
  100           the words are not those of the tool; of replay also: the
                input is no script
  111           the server can't be reached or is busy, or the system
                refused something; of a wait also: refused by the server
  125           of permafailon: it fails for good
At 100 and 111, and where the server refused something, standard error
has two lines: one for programs, which stays as it is, and one for
people; of replay one.
";

/// What `s6_tree --version` prints.
pub const VERSION: &[u8] = b"s6_tree (Reskjavin) 0.1.0\n";

/// What `s6_tree replay --help` prints.
pub const REPLAY_HELP: &[u8] = b"usage: s6_tree replay < SCRIPT
       s6_tree replay --check < RECORDED
       s6_tree replay --migrate < SCRIPT
       s6_tree replay --story [--since TIME] < SCRIPT
       s6_tree replay --timeline < SCRIPT > PICTURE

Reads a script on standard input and writes its transcript to standard
output: for each input line a reply, and then its events, orders,
matches and releases. A script of version 2 has a reply line behind
each input line.

options:
  --check     compare each reply of a script of version 2 with what the
              tree answers: print legal N for N inputs, or differs at
              line N, the first reply that is another
  --migrate   read a script of version 1, and write that of version 2
  --story     write in words what happened, a line for each event;
              with --since TIME, as 2026-11-27T11:18:48Z, by times of
              day, where TIME is that of the line since of svscan
  --timeline  write a picture in SVG, with a row for each service
  -h, --help  print this text

limits:
  65,536 bytes an input line, with its newline
  262,144 bytes a reply line, with its newline
  1,000,000 input lines

exit status, and the line on standard error:
  0           the whole script was read, and all was written
  1           a reply differs
  100         replay: no head line
              replay: line N
              replay: pattern in line N
              replay: truncated
              replay: usage
  111         replay: read
              replay: write
              replay: no memory
Lines are counted from 1, the head line included. At a fault the
transcript or the story of the inputs before it was written, and
nothing of a picture.
";
