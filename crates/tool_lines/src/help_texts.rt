//! What `TOOL --help` prints, for the tools about services. tools/manual.py makes docs/man and
//! docs/completion from these texts.
use crate::help_waits::{FTRIG_NOTIFY, FTRIG_WAIT, MKFIFODIR, PERMAFAILON, SVLISTEN, SVWAIT};
use crate::tool::Tool;

/// What `TOOL --help` prints.
pub fn help_of(tool: Tool) -> &'static str {
    match tool {
        Tool::Svc => SVC,
        Tool::Svstat => SVSTAT,
        Tool::List => LIST,
        Tool::Follow => FOLLOW,
        Tool::Record => RECORD,
        Tool::Svwait => SVWAIT,
        Tool::Svlisten => SVLISTEN,
        Tool::Svscanctl => SVSCANCTL,
        Tool::Mkfifodir => MKFIFODIR,
        Tool::FtrigNotify => FTRIG_NOTIFY,
        Tool::FtrigWait => FTRIG_WAIT,
        Tool::Permafailon => PERMAFAILON,
    }
}

const SVC: &str = "usage: s6_tree svc SOCKET -LETTERS.. NAME

Sends letters to a service of the tree on SOCKET: 1 to 63, in the order
in which they are written, all in one step.

letters:
  u           start it, and keep it up
  d           stop it, and keep it down
  o           start it once: it stays down once it is down
  O           it stays down once it is down
  r           stop it: it starts again where it is to be up
  x           its supervisor ends once it is down; while its directory
              is there, a new one begins a second later
  a           send it ALRM
  b           send it ABRT
  q           send it QUIT
  h           send it HUP
  k           send it KILL
  i           send it INT
  t           send it TERM
  1           send it USR1
  2           send it USR2
  p           send it STOP
  c           send it CONT
  y           send it WINCH

limits:
  A NAME has 1 to 64 of A-Z a-z 0-9 . _ - @, and no dot in front. One
  that begins with a dash can't be named here.

examples:
  s6_tree svc SOCKET -u web          start web
  s6_tree svc SOCKET -d web          stop it
  s6_tree svc SOCKET -h web          have it read its configuration

exit status:
  0           done
  1           the server refused it: standard error says why
  100         wrong usage
  111         no server, or the system refused something
";

const SVSTAT: &str = "usage: s6_tree svstat SOCKET -o FIELDS NAME

Prints fields of the status of a service, with a space between each two.
A table for people is printed by s6_tree list SOCKET.

fields, with commas between them:
  up          true or false: its run is there
  wantedup    it is to be started when it is down
  normallyup  there is no file down in its directory
  ready       while it is up: it has said that it is ready; while it is
              down: its finish is done, and it may be started anew
  paused      it was stopped by SIGSTOP
  pid         the number of its process; -1 while it is down
  exitcode    the exit code of its last run; -1 while it is up, and where
              a signal killed it
  signum      the signal that killed its last run; -1 where none did
  updownfor   for how many seconds it has been up, or down
  readyfor    for how many seconds it has been ready; -1 where it isn't
So up false and ready true is \"down and ready\": svwait -D waits for it.
Never send a signal to a pid of -1: kill takes that for every process.
svc sends signals.

exit status:
  0           done
  1           the server refused it: standard error says why
  100         wrong usage
  111         no server, or the system refused something
";

const LIST: &str = "usage: s6_tree list SOCKET [--json] [--] [NAME..]

Prints a line for each service of the tree, or for those of these names.

columns:
  NAME        its name
  STATE       its state in one word
  PID         the number of its process, while it is up
  SINCE       the time of day at which it came up, or went down
  FOR         for how long that is
  READY       for how long it has been ready, while it is up
  LAST-EXIT   how its last run ended, while it is down: code 1, signal 9;
              of one that is unread the fault, as NoRun
  WANTED      up: it is to be started when it is down; else down

states:
  ready        it is up, and has said that it is ready
  up           it is up, and has not said that
  paused       it is up, and was stopped by SIGSTOP
  finishing    it has died, and its finish is not done
  restarting   its finish is done: it starts once its pause is over
  starting     it is to start, and has not run yet
  startfailed  the system refused its start: it is tried again within a minute
  down         it is down, and stays so until it is told to start
  failed       it failed for good: it stays down until it is told to start
  gone         its supervisor has ended: no letter reaches it now
  unread       the last scan could not read its directory

options:
  --json      print an object a line: name serial state up wantedup
              normallyup ready paused pid exitcode signal updownfor
              readyfor since fault. Ages are in seconds, and null is
              what there is not
  --          what follows are names, also with a dash in front

exit status:
  0           done
  1           a NAME is no service of the tree: the others are printed;
              or the server refused it: standard error says why
  100         wrong usage
  111         no server, or the system refused something
";

const FOLLOW: &str = "usage: s6_tree follow SOCKET [--json] [--] [NAME..]

Prints each letter of each service, or of those of these names, as it
comes, until the connection ends. A line is the time of day, the name,
the letter and what it says: 2026-11-27T11:18:48.123Z web u up

letters, each with its word:
  s           supervised: its supervisor begins
  u           up
  U           ready
  d           died
  D           down: it has died, and its finish is done
  O           failed: for good
  x           gone: its supervisor has ended

options:
  --json      print an object a line: time at serial name letter event.
              at is in milliseconds from the start of the tree
  --          what follows are names, also with a dash in front

exit status:
  1           the server refused it: standard error says why
  100         wrong usage
  111         the tree has ended, no server, or the system refused something
";

const RECORD: &str = "usage: s6_tree record SOCKET

Has svscan hand its run over now, so that RECORD holds all that came up to
here, and prints recorded N: how many steps it has then. Services, waiters
and subscriptions go on. Then s6_tree replay --check < RECORD says whether
the tree did what it is to do.

exit status:
  0           done
  1           the server refused it, as Record where svscan was started
              without RECORD
  100         wrong usage
  111         no server, or the system refused something
";

const SVSCANCTL: &str = "usage: s6_tree svscanctl SOCKET -LETTERS..

Tells the supervisor of the scan directory what to do, letter by letter;
the first refusal ends it.

letters:
  a           look at the scan directory: services that are new start
  n           services whose directories are gone leave
  h           a, then n
  t q         end: all services leave, and then svscan ends

limits:
  At most 63 letters, and 256 services in the tree.

exit status:
  0           all done
  1           the server refused one: standard error says why
  100         wrong usage
  111         no server, or the system refused something
";
