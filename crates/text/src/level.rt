// A level of a reported order: the id of the task that holds it, and its response time.
#[derive(Clone, Copy, Default)]
pub struct Level {
    pub id: u8,
    pub response: u32,
}
