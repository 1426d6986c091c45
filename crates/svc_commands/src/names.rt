//! The names on a command line.
ghost use Rattle.std.specs.Prelude.{◌≡◌, ◌≤◌, ◌++◌, ◌∷◌, [], true, false, None, Some, MatchResult, length, map};
ghost use Rattle.std.specs.List.{list_all};
ghost use Rattle.s6_events.specs.Name.{is_name};
ghost use Rattle.svc_commands.specs.FirstFault.{names_fault};

use crate::usage_fault::UsageFault;
use arrayvec::ArrayVec;
use s6_events::Name;

/// The names of one wait: at most 16.
pub type WaitNames = ArrayVec<Name, 16>;

// The word as a name. BadName where it is none.
pub(crate) fn name_of(word: &[u8]) -> Result<Name, UsageFault>
    ensures { MatchResult result (λ name. (name ≡ word.now) × (is_name word.now ≡ true))
        (λ fault. (is_name word.now ≡ false) × (fault ≡ UsageFault.BadName)) }
{
    Name::new(word).ok_or(UsageFault::BadName)
}

// The words as names. BadName where one of them is none; else TooMany where they are more than 16.
pub(crate) fn names_in(words: &[&str]) -> Result<WaitNames, UsageFault>
    ensures { let texts = map (λ w. w.now) words.now in
        MatchResult result (λ names. (names.items ≡ texts) × (names_fault texts ≡ None))
        (λ fault. names_fault texts ≡ Some fault) }
{
    // All words are looked at before any is counted, so that BadName comes before TooMany.
    if !are_names(words) {
        return Err(UsageFault::BadName);
    }
    let mut names = WaitNames::new();
    for word in words {
        let name = name_of(word.as_bytes())?;
        add_name(&mut names, name)?;
    }
    Ok(names)
}

// Adds one more name to those of the command line; TooMany where there are 16 already.
fn add_name(names: &mut WaitNames, name: Name) -> Result<(), UsageFault>
    ensures { MatchResult result
        (λ _. (names.new.items ≡ names.old.items ++ name ∷ []) × (length names.new.items ≤ 16))
        (λ fault. (16 ≤ length names.old.items) × (fault ≡ UsageFault.TooMany)) }
{
    names.try_push(name).map_err(|_| UsageFault::TooMany)
}

// Whether each of these words can be the name of a service.
fn are_names(words: &[&str]) -> bool
    ensures { result ≡ list_all (λ w. is_name w.now) words.now }
{
    words
        .iter()
        .all(|word| Name::new(word.as_bytes()).is_some())
}
