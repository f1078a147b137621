// The worked cases of the tests, the first order and the search, as one theorem.
ghost use Rattle.std.specs.Prelude.{◌≡◌, ◌+◌, length};
ghost use Rattle.response.specs.Worked.{cases as answer_cases};
ghost use Rattle.search.specs.Worked.{Worked, cases, order_cases};

// How many cases the tables have, each of which the definitions answer as it says. The number is meant: the clause `counted` promises it.
pub fn worked_cases() -> u8
    ensures right { Worked }
    ensures counted { result ≡ length answer_cases + length cases + length order_cases }
{
    17
}
