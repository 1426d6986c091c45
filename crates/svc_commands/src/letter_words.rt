//! What svc and svscanctl have in common: runs of letters, which are words that begin with a dash.
ghost use Rattle.std.specs.Prelude.{◌≡◌, true, false, drop, MatchOption};
ghost use Rattle.svc_commands.specs.LetterWords.{is_run};

// The letters of a run: what is behind its dash. None where the word is no run, since it does not
// begin with a dash.
pub fn run_of(word: &[u8]) -> Option<&[u8]>
    ensures { MatchOption result (is_run word.now ≡ false)
        (λ run. (is_run word.now ≡ true) × (run.now ≡ drop 1 word.now)) }
{
    if word.first() == Some(&b'-') {
        Some(&word[1..])
    } else {
        None
    }
}
