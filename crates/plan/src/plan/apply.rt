// What a plan does at a command.
ghost use Rattle.std.specs.Prelude.{[], ◌∷◌};
ghost use Rattle.plan.specs.Calls.{Obeyed};
ghost use Rattle.plan.specs.Model.{model, means};
ghost use Rattle.plan.specs.Leading.{LedOn};

use super::Plan;
use crate::answers::advanced;
use crate::state::State;
use costs::cost::Cost;
use law::command::{Command, Outcome};
use response::test::ResponseTest;
use tasks::fault::{Fault, PlanFault};

impl<T: ResponseTest + Drop, C: Cost + Drop> Plan<T, C> {
    // Matches the state together with the command, which is data of the caller: the check sees that no pair is missing. Each step asks for the
    // state that its arm has seen; a value that stands for it would be made in the arm and say no more.
    pub(crate) fn act(&mut self, command: Command, out: &mut [u8]) -> Result<Outcome, Fault>
        ensures { Obeyed (means T.Admission T.ResponseTest.own C.Cost self.old) command.entry self.old self.new out.old out.new result }
    {
        match (self.state, command) {
            (
                State::Searching,
                Command::Load(_) | Command::Add(_) | Command::Drop(_) | Command::Start,
            ) => Err(Fault::Plan(PlanFault::Searching)),
            (State::Open, Command::Advance(_) | Command::Stop | Command::Report) => {
                Err(Fault::Plan(PlanFault::Open))
            }
            (State::Open | State::Finished, Command::Load(file)) => {
                self.replace_tasks(file).map(|()| Outcome::Done)
            }
            (State::Open | State::Finished, Command::Add(candidate)) => {
                self.add_task(candidate).map(|()| Outcome::Done)
            }
            (State::Open | State::Finished, Command::Drop(id)) => {
                self.drop_task(id).map(|()| Outcome::Done)
            }
            (State::Open | State::Finished, Command::Start) => {
                self.begin_search().map(|()| Outcome::Started)
            }
            (State::Searching, Command::Advance(count)) => { self.examine(count).map(advanced) }
            (State::Finished, Command::Advance(count)) => self.rest(count).map(advanced),
            (State::Searching | State::Finished, Command::Stop) => {
                self.end_search().map(|()| Outcome::Done)
            }
            (State::Searching, Command::Report) => Err(Fault::Plan(PlanFault::Unfinished)),
            (State::Finished, Command::Report) => self.write_report(out).map(Outcome::from),
        }
    }

    // Does what a command says, or says why not. Only a report writes into the buffer. Where some commands on a new plan led to
    // this one, they and this command lead to the plan after it, and every promise holds throughout.
    pub fn apply(&mut self, command: Command, out: &mut [u8]) -> Result<Outcome, Fault>
        ensures obeyed { Obeyed (means T.Admission T.ResponseTest.own C.Cost self.old) command.entry self.old self.new out.old out.new result }
        ensures led { LedOn (means T.Admission T.ResponseTest.own C.Cost self.old) (command.entry ∷ []) (model self.old) (model self.new) }
    {
        self.act(command, out)
    }
}
