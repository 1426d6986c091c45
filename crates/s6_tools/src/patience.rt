//! How long a tool goes on trying, where the server has no room for it or ends the connection.
//! Between two tries it makes a pause, which grows. Times are in milliseconds.
ghost use Rattle.std.specs.Prelude.{◌≡◌, is_none};
ghost use Rattle.s6_tools.specs.Patience.{first_pause, time_of_wait, timeout_within, time_of_try, pause_of, after_pause, left_after};

/// How long a tool first waits before it tries again, in milliseconds.
pub const FIRST_PAUSE: u64 = 20;

/// How long a tool waits at most before it tries again, in milliseconds.
pub const LONGEST_PAUSE: u64 = 500;

/// How long a tool that doesn't wait for services goes on trying, in milliseconds.
pub const TRY_TIME: u64 = 10_000;

/// How long a try takes at least before it is given up, in milliseconds: a busy server says so
/// within 250.
pub const SHORTEST_TRY: u64 = 500;

/// How long a tool goes on trying where the server is busy. The first pause is 20 milliseconds;
/// each is twice as long as the one before, up to half a second.
#[derive(Clone, Copy, PartialEq, Eq, Debug)]
pub struct Patience {
    /// The next pause, in milliseconds.
    pub pause: u64,
    /// The milliseconds that are left; None where there is no end.
    pub left: Option<u64>,
}

impl Patience {
    /// The patience of a tool that may try for `left` milliseconds; None means without end.
    pub fn of(left: Option<u64>) -> Patience
        ensures { result ≡ record { pause = first_pause; left = left } }
    {
        Patience {
            pause: FIRST_PAUSE,
            left,
        }
    }

    /// The patience of a wait with this timeout in milliseconds; 0 means that it has none.
    pub fn of_wait(timeout: u32) -> Patience
        ensures { result ≡ record { pause = first_pause; left = time_of_wait timeout } }
    {
        if timeout == 0 {
            Patience::of(None)
        } else {
            Patience::of(Some(u64::from(timeout)))
        }
    }

    /// The timeout that a wait gets now, in milliseconds: what is left, but at least 1; 0 means
    /// that it has none.
    pub fn timeout_left(&self) -> u32
        ensures { result ≡ timeout_within self.now.left }
    {
        match self.left {
            None => 0,
            Some(left) => left.clamp(1, 4_294_967_295) as u32,
        }
    }

    /// How long the next try may take, in milliseconds: what is left, but at least half a second.
    /// None where there is no end.
    pub fn time_of_try(&self) -> Option<u64>
        ensures { result ≡ time_of_try self.now.left }
    {
        match self.left {
            None => None,
            Some(left) => Some(left.max(SHORTEST_TRY)),
        }
    }

    /// Notes that so many milliseconds have passed.
    pub fn pass(&mut self, millis: u64)
        ensures { self.new ≡ record self.old { left = left_after self.old.left millis } }
    {
        self.left = match self.left {
            None => None,
            Some(left) => Some(left.saturating_sub(millis)),
        };
    }

    /// Whether no time is left. Where there is no end, some always is.
    pub fn is_over(&self) -> bool
        ensures { result ≡ is_none (pause_of self.now) }
    {
        self.left == Some(0)
    }

    /// How many milliseconds to wait before the next try, at most those that are left; None where
    /// no time is left.
    pub fn next_pause(&mut self) -> Option<u64>
        ensures pause { result ≡ pause_of self.old }
        ensures after { self.new ≡ after_pause self.old }
    {
        let pause = match self.left {
            // The next pause is twice as long, up to the longest.
            None => self.pause,
            Some(0) => return None,
            Some(left) => self.pause.min(left),
        };
        self.left = match self.left {
            None => None,
            Some(left) => Some(left.saturating_sub(pause)),
        };
        self.pause = self.pause.saturating_mul(2).min(LONGEST_PAUSE);
        Some(pause)
    }
}
