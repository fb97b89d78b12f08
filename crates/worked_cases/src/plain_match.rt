// Worked cases of the plain match, over a small game whose state is the list of all inputs.
ghost use Rattle.worked_cases.specs.PlainMatch.{PlainCases};

pub fn plain_match_cases()
    ensures { PlainCases }
{}
