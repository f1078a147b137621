//! The tick machine, and that no job of an order outruns its response time on it. Each function here holds one theorem in its contract, under the
//! name of the theorem.
#![tactic(auto)]

ghost use Rattle.response.specs.Tests.{one_job, one_job_admits, window, window_admits};
ghost use Rattle.machine.specs.Claims.{Kept, Named};
ghost use Rattle.machine.specs.Premises.{PremisesNeeded};
ghost use Rattle.machine.specs.Worked.{Worked};

use response::test::ResponseTest;

pub mod level;

/// Whatever jobs the tasks may release, every job of a level that is answered ends, and takes at most the answer; under
/// either test.
pub fn answers_bound_jobs()
    ensures by_one_job { Kept one_job_admits one_job }
    ensures by_window { Kept window_admits window }
{}

/// The same of any test whose admission and answers are those of one of the two.
pub fn keeps_times<T: ResponseTest>(test: &T)
    ensures { Named (T.Admission.admitted test.now) (T.ResponseTest.answer test.now) → Kept (T.Admission.admitted test.now) (T.ResponseTest.answer test.now) }
{}

/// The worked runs are as they say.
pub fn worked_runs()
    ensures { Worked }
{}

/// Without one of its premises a response time may be outrun.
pub fn premises_are_needed()
    ensures { PremisesNeeded }
{}
