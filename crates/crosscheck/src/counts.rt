// What was compared, counted.
use std::fmt;

#[derive(Clone, Copy, Default)]
pub struct Counts {
    pub tables: u64,
    pub ordered: u64,
    pub vertices: u64,
    pub questions: u64,
    pub refused: u64,
    pub taken: u64,
    pub jobs: u64,
    pub commands: u64,
}

impl fmt::Display for Counts {
    fn fmt<W: fmt::Write>(&self, f: &mut fmt::Formatter<W>) -> fmt::Result {
        write!(
            f,
            "tables {} with an order {} vertices {} questions {} files taken {} refused {} jobs {} commands {}",
            self.tables,
            self.ordered,
            self.vertices,
            self.questions,
            self.taken,
            self.refused,
            self.jobs,
            self.commands
        )
    }
}
