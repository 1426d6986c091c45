//! Which words svc and svscanctl take, as laws that don't depend on the order in which faults are
//! looked for.
ghost use Rattle.std.specs.Prelude.{ℕ, List};
ghost use Rattle.svc_commands.specs.LetterLaw.{IsTakenBySvc, IsTakenBySvscanctl};

/// svc takes words exactly where each run (a word that begins with a dash) has a byte behind its
/// dash, each of these bytes has a meaning, the letters are 1 to 63 in all, and just one word is no
/// run, and that word is a name.
#[tactic(auto, using(crate::proofs::LetterLaw::svc_takes))]
pub fn law_of_svc()
    ensures { (words : List (List ℕ)) → IsTakenBySvc words }
{}

/// svscanctl takes words exactly where each is a run (a word that begins with a dash) with a byte
/// behind its dash, each of these bytes has a meaning, and the letters are 1 to 63 in all.
#[tactic(auto, using(crate::proofs::LetterLaw::svscanctl_takes))]
pub fn law_of_svscanctl()
    ensures { (words : List (List ℕ)) → IsTakenBySvscanctl words }
{}
