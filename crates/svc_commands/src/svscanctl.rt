//! The words of `s6-svscanctl`, letter by letter.
ghost use Rattle.std.specs.Prelude.{◌≡◌, ◌<◌, ◌≤◌, ◌++◌, ◌∷◌, [], true, None, Some, length, map, flat_map, MatchResult};
ghost use Rattle.svc_commands.specs.LetterWords.{letter_fault, run_fault, no_name, scan_letters, scan_fault};
ghost use Rattle.svc_commands.specs.ReadWords.{IsRead, IsRefused};
ghost use Rattle.svc_commands.specs.LetterCommands.{IsScanCommand};

use crate::letter_words::run_of;
use crate::usage_fault::UsageFault;
use arrayvec::ArrayVec;

/// What the supervisor of a scan directory may be told. Page `s6-svscanctl`.
#[derive(Clone, Copy, Debug, Default, PartialEq, Eq)]
pub enum ScanLetter {
    /// `a`: it scans its directory.
    #[default]
    Scan,
    /// `n`: it tells each service that is no longer listed to go down, and its supervisor to end.
    Nuke,
    /// `t`: it brings all services down and ends.
    Terminate,
}

/// The letters of one call, in the order written: at most 63, as for a service.
pub type ScanLetters = ArrayVec<ScanLetter, 63>;

/// What the supervisor of a scan directory is told: `letters`, in their order.
#[derive(Debug, Drop)]
pub struct ScanCommand {
    pub letters: ScanLetters,
}

/// Reads the words after `svscanctl`: runs of the letters a n h t q, each behind a dash; `h` is `a`
/// and `n`, and `q` is `t`. The fault is the first one, in the order of the words: Unknown for a
/// dash alone or another letter, TooMany for a 64th letter or a word that is no run. After all
/// words it is Missing, where there was no letter. Page `s6-svscanctl`; the limit, the faults and
/// what `h` and `q` become are chosen here.
pub fn compile_svscanctl(words: &[&str]) -> Result<ScanCommand, UsageFault>
    ensures { MatchResult result (IsScanCommand (map (λ w. w.now) words.now))
        (λ fault. scan_fault (map (λ w. w.now) words.now) ≡ Some fault) }
{
    let mut letters = ScanLetters::new();
    for word in words {
        read_word(&mut letters, word.as_bytes())?;
    }
    if letters.is_empty() {
        return Err(UsageFault::Missing);
    }
    Ok(ScanCommand { letters })
}

// Adds the letters of a run. TooMany where the word is none, since svscanctl takes no other word.
fn read_word(letters: &mut ScanLetters, word: &[u8]) -> Result<(), UsageFault>
    ensures { MatchResult result
        (λ _. IsRead scan_letters no_name word.now letters.old.items true letters.new.items true)
        (λ fault. IsRefused scan_letters no_name word.now letters.old.items true fault) }
{
    match run_of(word) {
        Some(run) => add_run(letters, run),
        None => Err(UsageFault::TooMany),
    }
}

// Adds what the letters of a run mean; `run` is what stands behind its dash. Unknown where it is
// empty or one of its letters means nothing, TooMany where the letters would be more than 63.
fn add_run(letters: &mut ScanLetters, run: &[u8]) -> Result<(), UsageFault>
    ensures { MatchResult result
        (λ _. (run_fault scan_letters (length letters.old.items) run.now ≡ None)
        × (letters.new.items ≡ letters.old.items ++ flat_map scan_letters run.now))
        (λ fault. run_fault scan_letters (length letters.old.items) run.now ≡ Some fault) }
{
    if run.is_empty() {
        return Err(UsageFault::Unknown);
    }
    for byte in run {
        add_byte(letters, *byte)?;
    }
    Ok(())
}

// Adds what one byte means: a letter that stands for itself, or `h`, which is `a` and `n`, or `q`,
// which is `t`. Unknown where it means nothing.
fn add_byte(letters: &mut ScanLetters, byte: u8) -> Result<(), UsageFault>
    ensures { MatchResult result
        (λ _. (letter_fault (length letters.old.items) (scan_letters byte) ≡ None)
        × (letters.new.items ≡ letters.old.items ++ scan_letters byte))
        (λ fault. letter_fault (length letters.old.items) (scan_letters byte) ≡ Some fault) }
{
    match byte {
        b'a' => add_letter(letters, ScanLetter::Scan),
        b'n' => add_letter(letters, ScanLetter::Nuke),
        b'h' => {
            add_letter(letters, ScanLetter::Scan)?;
            add_letter(letters, ScanLetter::Nuke)
        }
        b't' | b'q' => add_letter(letters, ScanLetter::Terminate),
        _ => Err(UsageFault::Unknown),
    }
}

// Adds one more letter to those that the supervisor of the scan directory is told; TooMany where
// there are 63 already.
fn add_letter(letters: &mut ScanLetters, letter: ScanLetter) -> Result<(), UsageFault>
    ensures { MatchResult result
        (λ _. (length letters.old.items < 63)
        × (letters.new.items ≡ letters.old.items ++ letter ∷ []))
        (λ fault. (63 ≤ length letters.old.items) × (fault ≡ UsageFault.TooMany)) }
{
    letters.try_push(letter).map_err(|_| UsageFault::TooMany)
}
