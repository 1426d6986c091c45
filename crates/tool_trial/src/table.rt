//! Who answers the requests of the trial: each request of the table has its lines, and another one
//! is refused.
use line_server::{AfterLine, Answers, Mailbox};
use std::sync::Wait;
use std::sync::atomic::{AtomicBool, Ordering};
use std::time::Clock;

/// The requests, each before the lines that answer it.
const TABLE: &str = "svc web uO=done\n\n\
#svc nobody u=refused NoService\n\n\
#status web=row 1 web true true true false false 7 -1 -1 1 -1\n\n\
#status nobody=refused NoService\n\n\
#clock=clock 1795000000000\n\n\
#states=state ready 1000 row 1 web true true true true false 4711 -1 -1 18185 18180\n\
state failed 17994000 row 2 database-main false false true true false -1 1 -1 192 192\n\
state restarting 18183000 row 4 log false true false true false -1 -1 9 3 2\n\
unread broken NoRun\n\n\
#wait u a 0 web=wait 1\n\nr 1 held\n\n\
#wait U a 0 web log=wait 2\n\nr 2 failed\n\n\
#wait d o 0 web=wait 3\n\nr 3 gone\n\n\
#wait D a 5 web=wait 4\n\nr 4 timedout\n\n\
#wait u a 0 nobody=refused NoService\n\n\
#scanctl a=scanned -1 +2:log\n\n\
#scanctl n=done\n\n\
#scanctl t=refused Closing\n\n\
#mkdir queue=done\n\n\
#send dir queue ab=done\n\n\
#send svc web a=refused Reserved\n\n\
#subscribe dir queue once b$=sub 1\n\nm 1 b\n\n\
#subscribe svc web once u.*u=sub 2\n\nm 2 overlong\n\n\
#permafailon web 60 3 1-2,SIGKILL=permafail 125\n\n\
#status late=row 3 late true true true false false 7 -1 -1 1 -1\n\n\
#svc odd d=hello\n\n";

/// The requests at which the connection ends without an answer: the first only the first time that
/// it comes.
const ENDS_ONCE: &[u8] = b"status late";

const ENDS_ALWAYS: &[u8] = b"svc late u";

// The lines that answer a request.
fn lines_of(request: &[u8]) -> &'static [u8] {
    for row in TABLE.split('#') {
        if let Some((known, lines)) = row.split_once('=') {
            if known.as_bytes() == request {
                return lines.as_bytes();
            }
        }
    }
    b"refused Line\n\n"
}

/// Answers by the table. Its connections count as waiting, so that none of them makes way for
/// another.
#[derive(Drop)]
pub struct TableServer {
    // Whether a connection has ended at `ENDS_ONCE`.
    has_ended: AtomicBool,
}

impl TableServer {
    pub fn new() -> TableServer {
        TableServer {
            has_ended: AtomicBool::new(false),
        }
    }

    // Whether the connection ends at this request, without an answer.
    fn ends_at(&self, request: &[u8]) -> bool {
        request == ENDS_ALWAYS
            || (request == ENDS_ONCE && !self.has_ended.swap(true, Ordering::SeqCst))
    }
}

impl Answers for TableServer {
    fn answer<R: Wait + Clock>(
        &self,
        rt: &R,
        _slot: usize,
        line: &[u8],
        mailbox: &Mailbox,
    ) -> AfterLine {
        if self.ends_at(line) {
            return AfterLine::Close;
        }
        let _ = mailbox.post(rt, lines_of(line));
        AfterLine::GoOn
    }

    fn refuse_long_line<R: Wait>(&self, rt: &R, _slot: usize, mailbox: &Mailbox) {
        let _ = mailbox.post(rt, b"refused Line\n\n");
    }

    fn settle<R: Wait>(&self, _rt: &R, _slot: usize) {}

    fn keeps<R: Wait>(&self, _rt: &R, _slot: usize) -> bool {
        true
    }

    fn leave<R: Wait>(&self, _rt: &R, _slot: usize) {}
}
