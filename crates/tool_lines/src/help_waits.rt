//! What `TOOL --help` prints, for the tools that wait and those about event directories, and for
//! `permafailon`.

/// What `svwait --help` prints.
pub const SVWAIT: &str = "usage: s6_tree svwait SOCKET [-u | -U | -d | -D] [-a | -o] [-t MS] NAME..

Waits for services.

options:
  -u          until they are up, as without an option
  -U          until they are up and ready
  -d          until they are down
  -D          until they are down, and their finish is done
  -a          all of them at one moment, as without an option
  -o          one of them
  -t MS       at most so many milliseconds; 0, as without: for ever

limits:
  At most 16 names. A service that failed for good before the wait began
  is not seen as failed: give -t. At most ten waits stand at one time,
  since an eleventh connection is kept for short requests. Where there is
  no room for one more (busy, Busy) it is tried again until MS are over.

exit status:
  0           what it waited for holds
  1           it can't hold any more: a service failed for good
  2           it can't hold any more: a supervisor has ended
  99          the time is up
  100         wrong usage
  111         refused, no server, or the system refused something
";

/// What `svlisten --help` prints.
pub const SVLISTEN: &str = "usage: s6_tree svlisten SOCKET [-u | -U | -d | -D | -r | -R] [-a | -o]
                        [-t MS] NAME.. -- PROGRAM..

Begins to wait as svwait does, starts PROGRAM, and waits on. So nothing
that PROGRAM brings about is missed. PROGRAM itself isn't waited for.

options:
  -u          until they are up, as without an option
  -U          until they are up and ready
  -d          until they are down
  -D          until they are down, and their finish is done
  -r          until they are up after a start that comes after the begin
  -R          until they are up and ready after such a start
  -a          all of them at one moment, as without an option
  -o          one of them
  -t MS       at most so many milliseconds; 0, as without: for ever

limits:
  Those of svwait. Where MS are over before there was room for the wait,
  PROGRAM isn't started.

example:
  s6_tree svlisten SOCKET -R web -- s6_tree svc SOCKET -r web

exit status:
  0           what it waited for holds
  1           it can't hold any more: a service failed for good
  2           it can't hold any more: a supervisor has ended
  99          the time is up
  100         wrong usage
  111         refused, no server, no program, or the system refused
              something
";

/// What `mkfifodir --help` prints.
pub const MKFIFODIR: &str = "usage: s6_tree mkfifodir SOCKET NAME

Makes a free event directory in the tree on SOCKET. ftrig-notify sends
letters to it, and ftrig-wait waits for them.

limits:
  A tree has at most 256 of them, and none can be removed. A NAME has 1 to
  64 of A-Z a-z 0-9 . _ - @, and no dot in front.

exit status:
  0           done
  1           the server refused it: standard error says why
  100         wrong usage
  111         no server, or the system refused something
";

/// What `ftrig-notify --help` prints.
pub const FTRIG_NOTIFY: &str = "usage: s6_tree ftrig-notify SOCKET TARGET MESSAGE

Sends the letters of MESSAGE to an event directory. TARGET is NAME for a
free one that mkfifodir made, or NAME/event for that of a service, which
takes none.

limits:
  MESSAGE has 1 to 64 printable bytes, none of them a space.

exit status:
  0           done
  1           the server refused it: standard error says why
  100         wrong usage
  111         no server, or the system refused something
";

/// What `ftrig-wait --help` prints.
pub const FTRIG_WAIT: &str = "usage: s6_tree ftrig-wait SOCKET TARGET PATTERN

Waits until the letters of an event directory match PATTERN, and prints
the letter at which they do. TARGET is NAME for a free directory that
mkfifodir made, or NAME/event for that of a service, whose letters are
s u U d D O x.

patterns, regular expressions of the crate regex:
  u           this letter, anywhere in what has come since
  .           any letter
  u|d         one or the other
  [uU]        one of these
  (ud)        these, one after the other
  u* u+ u?    any number, at least one, at most one
  u{2}        two of them
  ^ $         the begin, the end of what has come
  \\.          the letter itself

limits:
  PATTERN has 1 to 256 printable bytes, and its automaton at most 16,384
  bytes and 256 states. After 1,024 letters without a match it ends.

exit status:
  0           they match
  1           refused, or too many letters came
  100         wrong usage
  111         no server, or the system refused something
";

/// What `permafailon --help` prints.
pub const PERMAFAILON: &str = "usage: s6_tree permafailon SOCKET NAME SECS COUNT LIST

Tells whether at least COUNT of the last deaths of a service are in LIST
and came no longer than SECS seconds ago.

A finish whose exit code is 125 makes its service fail for good. So this
is the last line of a finish that gives up after three deaths in a minute;
its third argument is the name of the service, and the codes above 98 are
those of tools that could not do their work:
  exec s6_tree permafailon \"$SOCKET\" \"$3\" 60 3 1-98

list, at most 32 items with commas between them:
  1           this exit code
  1-5         one of these
  SEGV        this signal, also as SIGSEGV

exit status:
  125         it fails for good
  0           it does not
  1           the server refused it: standard error says why
  100         wrong usage
  111         no server, or the system refused something
";
