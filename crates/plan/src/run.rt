// Lists of commands.
ghost use Rattle.std.specs.Prelude.{◌≡◌, MatchResult, OnOk};
ghost use Rattle.law.specs.Law.{Ran};
ghost use Rattle.law.specs.Meaning.{meaning};
ghost use Rattle.plan.specs.Calls.{at, Unchanged};
ghost use Rattle.plan.specs.Leading.{LedOn, RanFrom};
ghost use Rattle.plan.specs.Model.{model, means};

use crate::plan::Plan;
use costs::cost::Cost;
use law::command::{Command, Outcome};
use response::test::ResponseTest;
use std::alloc::{AllocError, Global};
use tasks::fault::Fault;

// Gives a plan some commands, one after another, and lists the answers. Without memory for the answers nothing is done.
pub fn run<T: ResponseTest + Drop, C: Cost + Drop>(
    heap: Global,
    plan: &mut Plan<T, C>,
    commands: &[Command],
    out: &mut [u8],
) -> Result<Vec<Result<Outcome, Fault>>, AllocError>
    ensures ran { MatchResult result (λ v. RanFrom (means T.Admission T.ResponseTest.own C.Cost plan.old) commands.now (at plan.old out.old) v.items (at plan.new out.new)) (λ _. Unchanged plan.old plan.new out.old out.new) }
    ensures led { OnOk result (LedOn (means T.Admission T.ResponseTest.own C.Cost plan.old) commands.now (model plan.old) (model plan.new)) }
{
    let mut answers = Vec::with_capacity(heap, commands.len())?;
    for command in commands {
        answers.push_reserved(plan.apply(*command, out));
    }
    Ok(answers)
}

// Makes a plan and gives it some commands: the answers, the plan and the buffer are the defined ones, and every promise holds at
// every point. Without memory nothing is done.
pub fn run_new<T: ResponseTest + Drop, C: Cost + Drop>(
    heap: Global,
    test: T,
    cost: C,
    commands: &[Command],
    out: &mut [u8],
) -> Result<(Plan<T, C>, Vec<Result<Outcome, Fault>>), AllocError>
    ensures { MatchResult result (λ x. Ran (meaning T.ResponseTest.number (T.Admission.admitted test) (T.ResponseTest.answer test) C.Cost.number (C.Cost.prices cost)) out.old commands.now x.1.items (model x.0) out.new) (λ _. out.new ≡ out.old) }
{
    let mut plan = Plan::new(heap, test, cost)?;
    let answers = run(heap, &mut plan, commands, out)?;
    Ok((plan, answers))
}
