// What the two tests answer, in words: each contract is a theorem about their definitions.
ghost use Rattle.response.specs.Laws.{RoundingUpIsLeast, BlockingIsLongest, OneJobIsLeastSolution, WindowIsLongestDelay};

// An answer of the one-job test is the least solution within the deadline; it answers none exactly where there is none.
pub fn one_job_in_words()
    ensures rounding { RoundingUpIsLeast }
    ensures blocking { BlockingIsLongest }
    ensures answer { OneJobIsLeastSolution }
{}

// An answer of the window test is the longest delay of a busy window; it answers none exactly where there is none.
pub fn window_in_words()
    ensures { WindowIsLongestDelay }
{}
