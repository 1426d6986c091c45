//! Posting to connections: a post waits in the connection's mailbox, and is written once it is
//! woken.
use crate::clients::Clients;
use crate::run_board::RunBoard;
use arrayvec::ArrayVec;
use channel_names::Channels;
use server_rules::{
    Answer, Line, News, OwnAnswer, Post, Subject, Todo, clock_line, following_line, news_lines,
    recorded_line, reply_lines,
};
use server_threads::Context;
use std::alloc::{AllocError, Global};
use std::mem;
use std::sync::Wait;
use tree_core::Reply;

// Posts a text to the connection on this slot. Where memory for the text was refused, the
// connection is ended.
fn post_text<R: Wait>(context: &Context<'_, R>, slot: usize, text: &Result<Vec<u8>, AllocError>) {
    match text {
        Ok(text) => context.post(slot, Ok(text.as_slice())),
        Err(_) => context.post(slot, Err(AllocError)),
    }
}

impl Clients {
    /// Posts all of these, in order. They are what one step tells connections: answers, and news.
    /// `reply` is the reply to that step, the text of each answer `TheReply`: `post_line` ends the
    /// connection where there was no memory for the text.
    pub fn post_all<C: Channels, R: Wait>(
        &mut self,
        context: &Context<'_, R>,
        board: &mut RunBoard<C>,
        reply: &Reply<Global>,
        posts: &[Post],
    ) {
        for post in posts {
            match post.line {
                Line::Answer(Answer::TheReply) => {
                    self.post_line(context, post.slot, &reply_lines(context.alloc(), reply));
                }
                Line::Answer(answer) => self.give(context, board, post.slot, answer),
                Line::News(news) => self.post_news(context, post.slot, &news),
            }
        }
    }

    /// Posts an answer that is no reply to a step. A status is read from the board; the others are
    /// texts of the server's own.
    pub fn give<C: Channels, R: Wait>(
        &mut self,
        context: &Context<'_, R>,
        board: &mut RunBoard<C>,
        slot: usize,
        answer: Answer,
    ) {
        match answer {
            Answer::Status(subject) => self.post_status(context, board, slot, &subject),
            _ => self.post_own(context, slot, answer),
        }
    }

    // Posts the status of these services, read from the board. `refused NoMemory` is posted instead
    // where memory is refused, and where states are asked but the last step of the run is missing
    // on the board or was not noted in the roster.
    fn post_status<C: Channels, R: Wait>(
        &mut self,
        context: &Context<'_, R>,
        board: &mut RunBoard<C>,
        slot: usize,
        subject: &Subject,
    ) {
        // States are told only where the board shows the last of the `made` steps of the run, and
        // the roster has noted it.
        if !self.notes.tells_of(subject, board.made, board.is_shown) {
            return self.post_answer(context, slot, OwnAnswer::NoMemory.text());
        }
        let shared = context.shared();
        // The text of the status. The rows that are read are kept in `rows`, for the next status.
        let text = shared.rows.read(
            context.rt,
            shared.alloc,
            &mut board.reader,
            // The moment of the last step, where the board shows that step.
            board.is_shown.then_some(self.now),
            &self.notes.roster,
            subject,
        );
        match text {
            Ok(text) => self.post_answer(context, slot, text.as_slice()),
            Err(_) => self.post_answer(context, slot, OwnAnswer::NoMemory.text()),
        }
    }

    // Posts an own answer: one that the server gives by itself, and that is not the reply to a
    // step. A status is none: it is read from the board. `post_answer` posts a constant text;
    // `post_line` posts a text that is made here, which may have been refused memory.
    pub(crate) fn post_own<R: Wait>(
        &mut self,
        context: &Context<'_, R>,
        slot: usize,
        answer: Answer,
    ) {
        match answer {
            // Not posted here: they are told from a reply or from the board.
            Answer::TheReply | Answer::Status(_) => {}
            Answer::Following => self.post_answer(context, slot, following_line()),
            Answer::Own(reason) => self.post_answer(context, slot, reason.text()),
            Answer::Recorded(steps) => {
                self.post_line(context, slot, &recorded_line(context.alloc(), steps));
            }
            Answer::Clock => {
                // The time of day at which the server began.
                let since = context.shared().clock.since;
                self.post_line(context, slot, &clock_line(context.alloc(), since, self.now));
            }
        }
    }

    // Posts the text of an answer that was made for it. Where memory for the text was refused, the
    // connection is ended.
    fn post_line<R: Wait>(
        &mut self,
        context: &Context<'_, R>,
        slot: usize,
        text: &Result<Vec<u8>, AllocError>,
    ) {
        post_text(context, slot, text);
        self.note_answer(context, slot);
    }

    // Posts the text of an answer, of which no memory was refused, and notes that a request is
    // answered.
    pub(crate) fn post_answer<R: Wait>(
        &mut self,
        context: &Context<'_, R>,
        slot: usize,
        text: &[u8],
    ) {
        context.post(slot, Ok(text));
        self.note_answer(context, slot);
    }

    // Posts news to the connection on this slot. They answer no request; `keep` notes whether it
    // may still be told more though it asks nothing, so that it is not ended.
    fn post_news<R: Wait>(&mut self, context: &Context<'_, R>, slot: usize, news: &News) {
        post_text(context, slot, &news_lines(context.alloc(), news));
        self.mark_to_be_woken(slot);
        if let Some(caller) = context.caller(slot) {
            caller.keep(context.rt, self.is_told_more(slot));
        }
    }

    // Notes that a request of the connection is answered, so that it is woken, and its thread (by
    // `caller`) doesn't wait for this answer any more.
    fn note_answer<R: Wait>(&mut self, context: &Context<'_, R>, slot: usize) {
        self.mark_to_be_woken(slot);
        if let Some(caller) = context.caller(slot) {
            caller.note_answer(context.rt, self.is_told_more(slot));
        }
    }

    // Notes that something was posted to the connection, so that `wake_all` wakes it.
    fn mark_to_be_woken(&mut self, slot: usize) {
        if let Some(posted) = self.posted.get_mut(slot) {
            *posted = true;
        }
    }

    /// Refuses those that wait for the run to be recorded, since its file was removed. Wakes all to
    /// which something was posted.
    pub fn refuse_record<R: Wait>(&mut self, context: &Context<'_, R>) {
        let recorders = mem::replace(&mut self.recorders, ArrayVec::new());
        for slot in &recorders {
            self.refuse_errand(context, *slot, OwnAnswer::Record);
        }
        self.wake_all(context);
    }

    /// Tells the connections that wait for it that the run is recorded, and how many steps the
    /// record has now. Wakes all to which something was posted.
    pub fn tell_recorded<R: Wait>(&mut self, context: &Context<'_, R>, steps: u64) {
        // `recorders` are the slots that wait; nobody waits afterwards.
        let recorders = mem::replace(&mut self.recorders, ArrayVec::new());
        for slot in &recorders {
            // `recorded` gives an answer unless the client has left.
            let Some(connection) = self.connections.get_mut(*slot) else {
                continue;
            };
            if let Todo::Give(answer) = connection.recorded(steps) {
                self.post_own(context, *slot, answer);
            }
        }
        self.wake_all(context);
    }

    /// Wakes each connection to which something was posted since it was last woken, so that it is
    /// written.
    pub fn wake_all<R: Wait>(&mut self, context: &Context<'_, R>) {
        for (slot, posted) in self.posted.iter_mut().enumerate() {
            if *posted {
                *posted = false;
                context.wake(slot);
            }
        }
    }
}
