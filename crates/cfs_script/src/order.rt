//! What a line without a caller in front begins with.

ghost use Rattle.std.specs.Prelude.{◌≡◌};
ghost use Rattle.cfs_script.specs.Reading.{order_of, order_of_runs, order_of_workers};

/// What a line without a caller in front begins with.
#[derive(Clone, Copy, Debug, PartialEq, Eq)]
pub(crate) enum Order {
    Dispatch,
    Apply,
    Finish,
    Skip,
    Trim,
    Settle,
    Turn,
    Drain,
    Caller,
    Queue,
    Stop,
    Crash,
    Mount,
    Fail,
    FailRead,
    Cut,
}

impl Order {
    /// The order that the word is.
    pub(crate) fn named(word: &[u8]) -> Option<Order>
        ensures { result ≡ order_of word.now }
    {
        if let Some(found) = Order::of_workers(word) {
            return Some(found);
        }
        Order::of_runs(word)
    }

    #[tactic(auto, unfolding(crate::specs::Reading::order_of_workers))]
    fn of_workers(word: &[u8]) -> Option<Order>
        ensures { result ≡ order_of_workers word.now }
    {
        if word == b"dispatch".as_slice() {
            Some(Order::Dispatch)
        } else if word == b"apply".as_slice() {
            Some(Order::Apply)
        } else if word == b"finish".as_slice() {
            Some(Order::Finish)
        } else if word == b"skip".as_slice() {
            Some(Order::Skip)
        } else if word == b"trim".as_slice() {
            Some(Order::Trim)
        } else if word == b"settle".as_slice() {
            Some(Order::Settle)
        } else if word == b"turn".as_slice() {
            Some(Order::Turn)
        } else if word == b"drain".as_slice() {
            Some(Order::Drain)
        } else {
            None
        }
    }

    #[tactic(auto, unfolding(crate::specs::Reading::order_of_runs))]
    fn of_runs(word: &[u8]) -> Option<Order>
        ensures { result ≡ order_of_runs word.now }
    {
        if word == b"caller".as_slice() {
            Some(Order::Caller)
        } else if word == b"queue".as_slice() {
            Some(Order::Queue)
        } else if word == b"stop".as_slice() {
            Some(Order::Stop)
        } else if word == b"crash".as_slice() {
            Some(Order::Crash)
        } else if word == b"mount".as_slice() {
            Some(Order::Mount)
        } else if word == b"fail".as_slice() {
            Some(Order::Fail)
        } else if word == b"failread".as_slice() {
            Some(Order::FailRead)
        } else if word == b"cut".as_slice() {
            Some(Order::Cut)
        } else {
            None
        }
    }
}
