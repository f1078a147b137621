// A task that is picked for a level, by its position, and its response time there.
#[derive(Clone, Copy)]
pub struct Pick {
    pub position: usize,
    pub time: u32,
}
