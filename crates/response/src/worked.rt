// The worked cases of the two tests, as one theorem.
ghost use Rattle.std.specs.Prelude.{◌≡◌, length};
ghost use Rattle.response.specs.Worked.{Worked, cases};

// How many cases the table has, each of which the definitions answer as it says. The number is meant: the clause `counted` promises it.
pub fn worked_cases() -> u8
    ensures right { Worked }
    ensures counted { result ≡ length cases }
{
    8
}
