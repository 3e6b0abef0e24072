// The cases that are theorems about the definitions.
ghost use Rattle.cases.specs.Starred.{Starred, RoundStarred};

/// Does nothing: its contract is the table of the starred cases.
pub fn starred_cases()
    ensures starred { Starred }
    ensures rounds { RoundStarred }
{}
