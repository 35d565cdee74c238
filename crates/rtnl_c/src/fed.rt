//! What is answered of a datagram that was fed to a session or a stream.

ghost use Rattle.std.specs.Prelude.{◌≡◌};
ghost use Rattle.rtnl_c.specs.Fed.{feed_place, session_fed, stream_fed, stream_refusal};
ghost use Rattle.rtnl_c.specs.Fed.{taken, untaken};

use nl_dump::{FeedError, Progress, StreamError, Streamed};

/// The answer: `struct rtnlc_fed` of include/rtnlc.h.
#[repr(C)]
#[derive(Clone, Copy)]
pub struct Fed {
    /// Of a stream: how many events of items are at the front of the buffer; after the error 17,
    /// how many it must have room for. Else 0.
    pub events: usize,
    /// How many messages were items of the dump, those that the table had no room for too.
    pub items: u32,
    /// How many were neither items nor the end of the dump.
    pub ignored: u32,
    /// The offset of the first header that breaks a rule; 0 where there is none.
    pub place: u32,
    /// Whether one of the messages ended the dump.
    pub ended: bool,
    /// 0 where the datagram was taken, else the error's number.
    pub code: u8,
}

impl Fed {
    /// The answer for a datagram that was taken.
    fn taken(events: usize, progress: Progress) -> Fed
        ensures { result ≡ taken events progress }
    {
        Fed {
            events,
            items: progress.items,
            ignored: progress.ignored,
            place: 0,
            ended: progress.ended,
            code: 0,
        }
    }

    /// The answer for a datagram that wasn't taken.
    pub(crate) fn untaken(events: usize, place: u32, code: u8) -> Fed
        ensures { result ≡ untaken events place code }
    {
        Fed {
            events,
            items: 0,
            ignored: 0,
            place,
            ended: false,
            code,
        }
    }

    /// The answer of a session.
    pub(crate) fn by_session(fed: Result<Progress, FeedError>) -> Fed
        ensures { result ≡ session_fed fed }
    {
        match fed {
            Ok(progress) => Fed::taken(0, progress),
            Err(error) => Fed::untaken(0, offset_in_error(error), error.code()),
        }
    }

    /// The answer of a stream.
    pub(crate) fn by_stream(fed: Result<Streamed, StreamError>) -> Fed
        ensures { result ≡ stream_fed fed }
    {
        match fed {
            Ok(streamed) => Fed::taken(streamed.events, streamed.progress),
            Err(error) => refusal(error),
        }
    }
}

/// The offset in a session's error, or 0.
fn offset_in_error(error: FeedError) -> u32
    ensures { result ≡ feed_place error }
{
    match error {
        FeedError::Layout(fault) => fault.place,
        FeedError::NotWaiting | FeedError::Total | FeedError::TooLarge | FeedError::Memory => 0,
    }
}

/// The answer for a stream's error.
fn refusal(error: StreamError) -> Fed
    ensures { result ≡ stream_refusal error }
{
    let code = error.code();
    match error {
        StreamError::Layout(fault) => Fed::untaken(0, fault.place, code),
        StreamError::Room(events) => Fed::untaken(events, 0, code),
        StreamError::NotWaiting | StreamError::Total | StreamError::TooLarge => {
            Fed::untaken(0, 0, code)
        }
    }
}
