//! Laws of a subscription's list. Each is the contract of a function that does nothing, so that its
//! statement is proved.
ghost use Rattle.event_directory.specs.Laws.{BeginsAgain, LeastIsLeast, NoneIsNone, StartsLive, GrowsByLetters, MatchesRise};

/// A list begins with the last letter of the least match of its text. Where the subscription
/// repeats, the list of the text after that match follows, counted from 1 again; else it is Done.
/// Without a match the list is empty: Overlong from 1,025 letters on, else Live.
pub fn begins_again()
    ensures { BeginsAgain }
{}

/// The least match of a text is a match, from 1 to 1,024 letters long, and no shorter beginning of
/// the text has one; where there is none, no beginning of at most 1,024 letters has a match.
pub fn least_match_is_least()
    ensures some { LeastIsLeast }
    ensures none { NoneIsNone }
{}

/// The list of a text with one more letter is found from the list of the text alone, by one search
/// at most.
pub fn one_letter_more()
    ensures start { StartsLive }
    ensures next { GrowsByLetters }
{}

/// The matches of one letter come in rising serial, whether a supervisor told it or it was sent.
pub fn matches_rise()
    ensures { MatchesRise }
{}
