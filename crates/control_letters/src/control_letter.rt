//! The letters of `s6-svc`, and the signals that they stand for.
ghost use Rattle.std.specs.Prelude.{◌≡◌, ◌==◌, find};
ghost use Rattle.control_letters.specs.ControlLetter.{byte_of, letter_of_byte, signal_of};

use arrayvec::ArrayVec;

/// A command of a user to the supervisor of a service, each of one letter. Page `s6-svc`; the
/// letters that stand for a signal do something only while `run` is there.
#[derive(Clone, Copy, Debug, Default, PartialEq, Eq)]
pub enum ControlLetter {
    /// `a`: SIGALRM.
    Alarm,
    /// `b`: SIGABRT.
    Abort,
    /// `q`: SIGQUIT.
    Quit,
    /// `h`: SIGHUP.
    Hangup,
    /// `k`: SIGKILL.
    Kill,
    /// `i`: SIGINT.
    Interrupt,
    /// `t`: SIGTERM.
    Terminate,
    /// `1`: SIGUSR1.
    User1,
    /// `2`: SIGUSR2.
    User2,
    /// `p`: SIGSTOP.
    Pause,
    /// `c`: SIGCONT.
    Continue,
    /// `y`: SIGWINCH.
    WindowChange,
    /// `u`: up. It is started where it is down, and again when it dies.
    #[default]
    Up,
    /// `d`: down. It gets its down signal, and is not started again.
    Down,
    /// `O`: at most once. It is not started again.
    Once,
    /// `r`: restart. It gets its down signal, and whether it is started again stays as it was.
    Restart,
    /// `x`: exit. Its supervisor ends as soon as it is down.
    Exit,
}

/// The letters of one call, in the order written: at most 63. Page `s6-svc`; the number is chosen
/// here.
pub type Letters = ArrayVec<ControlLetter, 63>;

/// All control letters.
const ALL_LETTERS: [ControlLetter; 17] = [
    ControlLetter::Alarm,
    ControlLetter::Abort,
    ControlLetter::Quit,
    ControlLetter::Hangup,
    ControlLetter::Kill,
    ControlLetter::Interrupt,
    ControlLetter::Terminate,
    ControlLetter::User1,
    ControlLetter::User2,
    ControlLetter::Pause,
    ControlLetter::Continue,
    ControlLetter::WindowChange,
    ControlLetter::Up,
    ControlLetter::Down,
    ControlLetter::Once,
    ControlLetter::Restart,
    ControlLetter::Exit,
];

impl ControlLetter {
    /// The letter that this byte stands for, looked for among all 17; None where it stands for
    /// none.
    #[tactic(auto, unfolding(crate::specs::ControlLetter::letter_of_byte))]
    pub fn of_byte(byte: u8) -> Option<ControlLetter>
        ensures { result ≡ letter_of_byte byte }
    {
        among(ALL_LETTERS.as_slice(), byte)
    }

    /// The byte that stands for it.
    pub fn byte(self) -> u8
        ensures { result ≡ byte_of self }
    {
        match self {
            ControlLetter::Alarm => b'a',
            ControlLetter::Abort => b'b',
            ControlLetter::Quit => b'q',
            ControlLetter::Hangup => b'h',
            ControlLetter::Kill => b'k',
            ControlLetter::Interrupt => b'i',
            ControlLetter::Terminate => b't',
            ControlLetter::User1 => b'1',
            ControlLetter::User2 => b'2',
            ControlLetter::Pause => b'p',
            ControlLetter::Continue => b'c',
            ControlLetter::WindowChange => b'y',
            ControlLetter::Up => b'u',
            ControlLetter::Down => b'd',
            ControlLetter::Once => b'O',
            ControlLetter::Restart => b'r',
            ControlLetter::Exit => b'x',
        }
    }

    /// The number of the signal that it stands for, on Linux for x86-64; None for `u`, `d`, `O`,
    /// `r` and `x`.
    pub fn signal(self) -> Option<u8>
        ensures { result ≡ signal_of self }
    {
        match self {
            ControlLetter::Alarm => Some(14),
            ControlLetter::Abort => Some(6),
            ControlLetter::Quit => Some(3),
            ControlLetter::Hangup => Some(1),
            ControlLetter::Kill => Some(9),
            ControlLetter::Interrupt => Some(2),
            ControlLetter::Terminate => Some(15),
            ControlLetter::User1 => Some(10),
            ControlLetter::User2 => Some(12),
            ControlLetter::Pause => Some(19),
            ControlLetter::Continue => Some(18),
            ControlLetter::WindowChange => Some(28),
            ControlLetter::Up
            | ControlLetter::Down
            | ControlLetter::Once
            | ControlLetter::Restart
            | ControlLetter::Exit => None,
        }
    }
}

// The first of these letters that this byte stands for.
fn among(letters: &[ControlLetter], byte: u8) -> Option<ControlLetter>
    ensures { result ≡ find (λ letter. byte_of letter == byte) letters.now }
{
    letters.iter().copied().find(|letter| letter.byte() == byte)
}
