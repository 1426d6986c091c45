//! What `svscan --help`, `svcheck --help` and `connect --help` print.

/// What `svscan --help` prints.
pub const SVSCAN_HELP: &str = "usage: s6_tree svscan DIRECTORY SOCKET [RECORD]

Runs a supervision tree of the service directories in DIRECTORY, and
serves clients on SOCKET, until a client says svscanctl -t and every
service is gone. What is wrong with a service directory is told on
standard error; svcheck tells it before.

RECORD is made empty, for its owner alone, and each run is appended to it
at its end, as a script with replies: see replay --check. The tool record
has that done at once.

limits:
  A tree has at most 256 services. A name has 1 to 64 of A-Z a-z 0-9 . _ -
  @, and no dot in front: what has one there is passed over. SOCKET has at
  most 101 bytes: it is made in SOCKET.new, a folder that is gone
  afterwards. Eleven clients may be connected, and ten of them wait; for
  one more an idle one makes way, or it is told busy. A new run of the same tree goes on after 260,000
  steps; each is told of on standard error.

environment:
  Services get that of svscan, and it sets none of its own. They run in
  their own directories, so a SOCKET that they are to use is absolute.

  S6_TREE_HANDOVER   after how many steps a new run goes on, 1 to 260000:
                     what happened since takes 0.5 KB a step of memory

A signal ends it at once, and its services live on: send none.

exit status, and the line on standard error:
  0           the tree has ended
  100         svscan: usage
  111         svscan: signals      CHLD is ignored: no end of a service
                                   could be seen
              svscan: no shell     /bin/sh can't be run: no service could
                                   be signalled
              svscan: socket       there is a server, or one starts just
                                   now, or no socket could be made
              svscan: directory    DIRECTORY could not be read, or a line
                                   of a script can't say what is in it
              svscan: no memory
              svscan: thread
              svscan: clock
              svscan: full
              svscan: close        a run could not go over into the next
              svscan: record       RECORD could not be made or written, as
                                   on a full disk, is no regular file, or
                                   is used by another server. Services
                                   were ended in order first, in ten
                                   seconds at most
";

/// What `svcheck --help` prints.
pub const SVCHECK_HELP: &str = "usage: s6_tree svcheck DIRECTORY

Reads a scan directory as svscan does, and says of each entry what svscan
would do. It starts nothing. A name that begins with a dot is passed over.

lines:
  NAME: supervised, ..          whether it starts at once, on which
                                descriptor it tells its readiness, and
                                whether it has a finish
  NAME: noted NOTE: ..          a file doesn't mean what it says, and what
                                it means: a line each
  NAME: refused FAULT: ..       it is not supervised

faults:
  NoRun       there is no file run in its directory
  NotLongrun  its file type says something else than longrun
  Io          it is no directory, or a file in it can't be read
  BadName     a name has 1 to 64 of A-Z a-z 0-9 . _ - @, no dot in front
  full        there are more than 256 services

notes:
  NotifyFd TimeoutKill TimeoutFinish MaxDeathTally DownSignal
              what the file of this name says can't be taken
  RunMode RunFile RunInterpreter FinishMode FinishFile FinishInterpreter
              the program can't be started, or not as it is written
  Log LockFd NewPidns Instances
              s6 knows it, and svscan passes it over

exit status:
  0           all runs as it is written
  1           something is refused or noted
  100         wrong usage
  111         DIRECTORY can't be read, or the system refused something
";

/// What `connect --help` prints.
pub const CONNECT_HELP: &str = "usage: s6_tree connect SOCKET

Sends what comes on standard input to the server at SOCKET, and prints what
the server sends, until it ends the connection: once all was answered where
the input has ended. A line is a request, as status web; an empty line ends
each answer. docs/PROTOCOL.md has the requests.

exit status:
  0           the server ended the connection
  100         wrong usage
  111         there is no server, or the system refused something
";
