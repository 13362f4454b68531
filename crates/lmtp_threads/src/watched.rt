//! A thing and its observer.

/// Something whose doings an observer of its own sees: a lane's clients, or a mailbox's spool. It is handed in so, and
/// handed back.
#[derive(Drop)]
pub struct Watched<T, O> {
    pub inner: T,
    pub observer: O,
}
