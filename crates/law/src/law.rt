// The law over every run, held by contracts.
ghost use Rattle.std.specs.Prelude.{ℕ, List};
ghost use Rattle.law.specs.declared.command.Command.{Command};
ghost use Rattle.law.specs.Meaning.{meaning};
ghost use Rattle.law.specs.Law.{EveryRunKeepsThePromises, PromisesThroughout};
ghost use Rattle.law.specs.Worked.{Worked};

use costs::cost::Cost;
use response::test::ResponseTest;

// For every test and every cost with the laws.
pub fn every_run_keeps_the_promises<V>()
    ensures { EveryRunKeepsThePromises V }
{}

// The same at a test and a cost: the shape that the contract of a run has.
pub fn promised<T: ResponseTest, C: Cost>(test: &T, cost: &C)
    ensures { (buffer : List ℕ) (commands : List Command) → PromisesThroughout (meaning T.ResponseTest.number (T.Admission.admitted test.now) (T.ResponseTest.answer test.now) C.Cost.number (C.Cost.prices cost.now)) buffer commands }
{}

// The worked runs are as they say.
pub fn worked_runs()
    ensures { Worked }
{}
