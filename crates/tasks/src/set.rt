// A set of positions, one bit each.
ghost use Rattle.std.specs.Prelude.{◌≡◌, ℕ, ◌<◌, ◌≤◌, true, not, ◌&&◌, ◌||◌, ◌==◌, nat_lt};
ghost use Rattle.tasks.specs.Sets.{holds, members};

#[derive(Clone, Copy)]
pub struct TaskSet {
    pub word: u64,
}

// No method asks for a position below 64, so its clauses say both cases.
impl TaskSet {
    pub const EMPTY: TaskSet = TaskSet { word: 0 };

    // The positions below `count`; all 64 where it is larger.
    pub fn first(count: usize) -> TaskSet
        ensures below { count < 64 → (j : ℕ) → holds result.word j ≡ nat_lt j count }
        ensures all { 64 ≤ count → (j : ℕ) → j < 64 → holds result.word j ≡ true }
    {
        let word = if count < 64 {
            (1 << count) - 1
        } else {
            u64::MAX
        };
        TaskSet { word }
    }

    pub fn contains(self, position: usize) -> bool
        ensures { result ≡ holds self.word position }
    {
        position < 64 && (self.word >> position) & 1 == 1
    }

    // One position more; the same set where it is past 63. This and `without` differ in an operator, which one function for both would hide.
    pub fn with(self, position: usize) -> TaskSet
        ensures added { position < 64 → (j : ℕ) → holds result.word j ≡ (j == position || holds self.word j) }
        ensures beyond { 64 ≤ position → result ≡ self }
    {
        if position >= 64 {
            return self;
        }
        TaskSet {
            word: self.word | (1 << position),
        }
    }

    // One position less; the same set where it is past 63.
    pub fn without(self, position: usize) -> TaskSet
        ensures removed { position < 64 → (j : ℕ) → holds result.word j ≡ (not (j == position) && holds self.word j) }
        ensures beyond { 64 ≤ position → result ≡ self }
    {
        if position >= 64 {
            return self;
        }
        TaskSet {
            word: self.word & !(1 << position),
        }
    }

    pub fn len(self) -> u32
        ensures { result ≡ members self.word }
    {
        self.word.count_ones()
    }
}
