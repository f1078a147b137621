// What a table or a task is refused for, by layer.
ghost use Rattle.std.specs.Prelude.{◌≡◌};
ghost use Rattle.tasks.specs.Faults.{number_of, layer_of, record_of};
ghost use Rattle.tasks.specs.declared.fault.Fault.TheVariants.{File, Task, Plan};

// Where a fault names no record, the number is 0, as the line of a refusal shows it: an Option would be turned back into that 0.

// A fault of the file; a spare bit names its record, and 0 for the header.
#[derive(Clone, Copy, Debug)]
pub enum FileFault {
    Length,
    Format,
    Spare(u8),
    Code,
    NoRecord,
}

// A fault of one task, with the record that it stands in, or 0.
#[derive(Clone, Copy, Debug)]
pub enum TaskFault {
    Range(u8),
    Deadline(u8),
    Section(u8),
    NotAdmitted(u8),
}

// A fault of the whole plan.
#[derive(Clone, Copy, Debug)]
pub enum PlanFault {
    // an id that is held already, or in a table is not above the one before
    Order(u8),
    Full,
    NotHeld,
    Searching,
    Open,
    Unfinished,
    NoTask,
    NoOrder,
    Steps,
    Buffer,
    AboveItself,
}

#[derive(Clone, Copy, Debug)]
pub enum Fault {
    File(FileFault),
    Task(TaskFault),
    Plan(PlanFault),
}

#[derive(Clone, Copy)]
pub enum Layer {
    File,
    Task,
    Plan,
}

// Number, layer and record are written out: the faults lie in three enums, and some hold a record, so no derive gives them.
impl Fault {
    pub fn number(self) -> u8
        ensures { result ≡ number_of self }
    {
        match self {
            Fault::File(FileFault::Length) => 1,
            Fault::File(FileFault::Format) => 2,
            Fault::File(FileFault::Spare(_)) => 3,
            Fault::File(FileFault::Code) => 4,
            Fault::File(FileFault::NoRecord) => 20,
            Fault::Task(TaskFault::Range(_)) => 5,
            Fault::Task(TaskFault::Deadline(_)) => 6,
            Fault::Task(TaskFault::Section(_)) => 7,
            Fault::Task(TaskFault::NotAdmitted(_)) => 8,
            Fault::Plan(PlanFault::Order(_)) => 9,
            Fault::Plan(PlanFault::Full) => 10,
            Fault::Plan(PlanFault::NotHeld) => 11,
            Fault::Plan(PlanFault::Searching) => 12,
            Fault::Plan(PlanFault::Open) => 13,
            Fault::Plan(PlanFault::Unfinished) => 14,
            Fault::Plan(PlanFault::NoTask) => 15,
            Fault::Plan(PlanFault::NoOrder) => 16,
            Fault::Plan(PlanFault::Steps) => 17,
            Fault::Plan(PlanFault::Buffer) => 18,
            Fault::Plan(PlanFault::AboveItself) => 19,
        }
    }

    pub fn layer(self) -> Layer
        ensures { result ≡ layer_of self }
    {
        match self {
            Fault::File(_) => Layer::File,
            Fault::Task(_) => Layer::Task,
            Fault::Plan(_) => Layer::Plan,
        }
    }

    // The record that the fault names, counted from 1; 0 where it names none.
    pub fn record(self) -> u8
        ensures { result ≡ record_of self }
    {
        match self {
            Fault::File(FileFault::Spare(n))
            | Fault::Task(
                TaskFault::Range(n)
                | TaskFault::Deadline(n)
                | TaskFault::Section(n)
                | TaskFault::NotAdmitted(n),
            )
            | Fault::Plan(PlanFault::Order(n)) => n,
            _ => 0,
        }
    }
}

// By hand, since the derive that writes a From asks for a text of each fault.
impl From<FileFault> for Fault {
    ghost from_gives = { λ e f. f ≡ File e };

    fn from(e: FileFault) -> Fault {
        Fault::File(e)
    }
}

impl From<TaskFault> for Fault {
    ghost from_gives = { λ e f. f ≡ Task e };

    fn from(e: TaskFault) -> Fault {
        Fault::Task(e)
    }
}

impl From<PlanFault> for Fault {
    ghost from_gives = { λ e f. f ≡ Plan e };

    fn from(e: PlanFault) -> Fault {
        Fault::Plan(e)
    }
}
