// The answer to the call `session`.
use crate::page::Page;
use crate::values::{put_feedback_state, put_value};
use session::{Head, Session};
use state_cache::Entry;
use state_feedback::FeedbackSnapshot;

pub(crate) fn put_session(page: &mut Page, session: &Session) {
    put_head(page, session.head, session.run.is_some());
    put_entries(page, b" replies", &session.replies);
    put_entries(page, b" acks", &session.acks);
}

fn put_head(page: &mut Page, head: Head, is_open: bool) {
    page.put_numbered(b"session last ", head.last.0);
    page.put_numbered(b" sequence ", head.feedback.sequence);
    page.put_numbered(b" run ", is_open);
    match head.feedback.latest {
        Some(snapshot) => put_snapshot(page, snapshot),
        None => page.put(b" latest none"),
    }
}

fn put_snapshot(page: &mut Page, snapshot: FeedbackSnapshot) {
    page.put_numbered(b" latest ", snapshot.sequence);
    page.put_next(snapshot.received_at.0);
    put_feedback_state(page, snapshot.state);
}

// The words and the entries that are held. A slot's place is its register's number.
fn put_entries(page: &mut Page, words: &[u8], slots: &[Entry]) {
    page.put(words);
    for (rid, entry) in slots.iter().enumerate() {
        if let Entry::Held(value, stamp) = *entry {
            page.put_next(rid as u64);
            put_value(page, value);
            page.put_next(stamp.0);
        }
    }
}
