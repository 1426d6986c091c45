//! Which letters of svc leave a service down, so that a start of it is wanted no more.
ghost use Rattle.std.specs.Prelude.{◌≡◌, false};
ghost use Rattle.server_rules.specs.UnwantedStarts.{down_after, down_after_all};

use control_letters::ControlLetter;

// Whether the service is to be down after this letter, where it was so before or not.
fn down_after(letter: ControlLetter, before: bool) -> bool
    ensures { result ≡ down_after letter before }
{
    match letter {
        ControlLetter::Up => false,
        ControlLetter::Down | ControlLetter::Exit => true,
        _ => before,
    }
}

// The same of several letters.
fn down_after_all(letters: &[ControlLetter], before: bool) -> bool
    ensures { result ≡ down_after_all letters.now before }
{
    match letters {
        [] => before,
        [letter, rest @ ..] => down_after_all(rest, down_after(*letter, before)),
    }
}

/// Whether these letters of one `svc` take a service down: the last of `u`, `d` and `x` among them
/// isn't `u`. A start of it that is tried again is wanted no more then. Page `s6-svc`.
pub fn take_down(letters: &[ControlLetter]) -> bool
    ensures { result ≡ down_after_all letters.now false }
{
    down_after_all(letters, false)
}
