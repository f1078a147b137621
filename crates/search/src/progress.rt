// How far a call of a search got. A count is meant whether it is finished or not, so neither Option nor Result says both.
#[derive(Clone, Copy, PartialEq, Eq, Debug)]
pub struct Progress<N> {
    // how many vertices were examined
    pub count: N,
    // whether none is left
    pub finished: bool,
}
