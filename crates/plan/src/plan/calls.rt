// The seven commands as calls. Those that answer nothing are alike but for the command; each is a call of its own for its callers.
ghost use Rattle.law.specs.declared.command.Command.TheVariants.{Load, Add, Drop, Start, Advance, Stop, Report};
ghost use Rattle.plan.specs.Answers.{done, progress, reported, Called, CalledWith};
ghost use Rattle.plan.specs.Model.{means};

use super::Plan;
use crate::answers::{Progress, Reported};
use crate::state::State;
use costs::cost::Cost;
use law::command::Command;
use response::test::ResponseTest;
use tasks::fault::{Fault, PlanFault};
use tasks::task::Candidate;

impl<T: ResponseTest + Drop, C: Cost + Drop> Plan<T, C> {
    // Replaces all tasks by those of a table, or none.
    pub fn load(&mut self, file: &[u8]) -> Result<(), Fault>
        ensures { Called done (means T.Admission T.ResponseTest.own C.Cost self.old) (Load file.entry) self.old self.new result }
    {
        self.act(Command::Load(file), &mut [])?;
        Ok(())
    }

    // Takes one task more.
    pub fn add(&mut self, candidate: Candidate) -> Result<(), Fault>
        ensures { Called done (means T.Admission T.ResponseTest.own C.Cost self.old) (Add candidate) self.old self.new result }
    {
        self.act(Command::Add(candidate), &mut [])?;
        Ok(())
    }

    // Lets go of the task of that id.
    pub fn drop(&mut self, id: u8) -> Result<(), Fault>
        ensures { Called done (means T.Admission T.ResponseTest.own C.Cost self.old) (Drop id) self.old self.new result }
    {
        self.act(Command::Drop(id), &mut [])?;
        Ok(())
    }

    // Makes the first order, and begins a search with it.
    pub fn start(&mut self) -> Result<(), Fault>
        ensures { Called done (means T.Admission T.ResponseTest.own C.Cost self.old) Start self.old self.new result }
    {
        self.act(Command::Start, &mut [])?;
        Ok(())
    }

    // Examines `count` vertices, at most 1,000,000, or all that are left if fewer. By a match of its own: through `act` the progress would have
    // to be taken out of an outcome again.
    pub fn advance(&mut self, count: u32) -> Result<Progress, Fault>
        ensures { Called progress (means T.Admission T.ResponseTest.own C.Cost self.old) (Advance count) self.old self.new result }
    {
        match self.state {
            State::Open => Err(Fault::Plan(PlanFault::Open)),
            State::Searching => self.examine(count),
            State::Finished => self.rest(count),
        }
    }

    // Gives up the search, or what it found.
    pub fn stop(&mut self) -> Result<(), Fault>
        ensures { Called done (means T.Admission T.ResponseTest.own C.Cost self.old) Stop self.old self.new result }
    {
        self.act(Command::Stop, &mut [])?;
        Ok(())
    }

    // Writes the best order of a finished plan, four bytes a level.
    pub fn report(&self, out: &mut [u8]) -> Result<Reported, Fault>
        ensures { CalledWith reported (means T.Admission T.ResponseTest.own C.Cost self.now) Report self.now self.now out.old out.new result }
    {
        self.state.must_be_finished()?;
        self.write_report(out)
    }
}
