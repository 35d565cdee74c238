//! `Change`: what one message says of an entry.

/// What one message says of an entry: its new content, or that it was deleted. Its key says which
/// entry is meant.
#[derive(Drop)]
pub enum Change<T: Drop> {
    /// The entry is this now: an item of a dump, or an `RTM_NEW` message.
    Now(T),
    /// The entry was deleted: an `RTM_DEL` message.
    Gone(T),
}
