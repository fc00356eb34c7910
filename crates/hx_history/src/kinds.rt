//! The kinds of events that few words tell.
ghost use Rattle.std.specs.Prelude.{◌≡◌};
ghost use Rattle.hx_history.specs.Columns.{words_of, kept_of};

/// What an event is.
#[derive(Clone, Copy)]
pub(crate) enum Kind {
    Line,
    /// A tick that ended no session.
    Tick,
    Begin,
    Live,
    Ideals,
    /// A fetch of an instance without a session.
    FetchNobody,
    // Of numbers that fit one word together, and of longer ones. A pair stands at an even place, so
    // that one test is for both.
    Mail,
    LongMail,
    States,
    LongStates,
    Fetch,
    LongFetch,
    Take,
    LongTake,
    /// A write of a handler's success.
    WriteOk,
    LongWriteOk,
    WriteFailed,
    LongWriteFailed,
    Ack,
    LongAck,
    /// An event of another sort, or one of large numbers. It is kept as it is.
    Whole,
}

impl Kind {
    /// How many words tell an event.
    #[inline(always)]
    pub(crate) fn words(self) -> usize
        ensures { result ≡ words_of self }
    {
        match self {
            Kind::Whole => 0,
            Kind::LongMail | Kind::LongStates | Kind::LongFetch => 2,
            Kind::LongTake | Kind::LongWriteOk | Kind::LongWriteFailed | Kind::LongAck => 2,
            Kind::Begin => 3,
            _ => 1,
        }
    }

    /// How many events are kept as they are.
    #[inline]
    pub(crate) fn events(self) -> usize
        ensures { result ≡ kept_of self }
    {
        match self {
            Kind::Whole => 1,
            _ => 0,
        }
    }
}
