//! The sentences about a service.
ghost use Rattle.std.specs.Prelude.{◌≡◌};
ghost use Rattle.svcheck.specs.Sentences.{fault_sentence, start_words, finish_words};

use servicedir::DirFault;

/// The sentence for a fault.
pub fn fault_sentence(fault: DirFault) -> &'static str
    ensures { result.now ≡ fault_sentence fault }
{
    match fault {
        DirFault::NoRun => "there is no file run in its directory",
        DirFault::NotLongrun => "its file type says something else than longrun",
        DirFault::NotifyFd => "its notification-fd names none of 1 and 3 to 9",
        DirFault::Io => "it is no directory, or a file in it can't be read",
        DirFault::BadName => "a name has 1 to 64 of A-Z a-z 0-9 . _ - @, and no dot in front",
        DirFault::NoMemory => "the system refused memory",
    }
}

/// The words that say whether a service starts at once.
pub fn start_words(down: bool) -> &'static str
    ensures { result.now ≡ start_words down }
{
    if down {
        ", down until it is told to start"
    } else {
        ", starts at once"
    }
}

/// The words that say whether there is a `finish`.
pub fn finish_words(finish: bool) -> &'static str
    ensures { result.now ≡ finish_words finish }
{
    if finish {
        ", has a finish"
    } else {
        ", has no finish"
    }
}
