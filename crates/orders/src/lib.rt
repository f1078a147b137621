// What holds of the first order and of the search by branch and bound, for every test and cost with the laws. Each function holds one theorem in its
// contract, under the name of the theorem.
#![tactic(auto)]

ghost use Rattle.orders.specs.Theorems.{FirstOrderIsExact, FirstOrderIsGreedy, SearchEnds, SearchIsOptimal, VerticesByLevel, StackStaysSmall, OnlyOwnTaskLate};

// The first order is none exactly where every order fails, and else it is an order that passes.
pub fn first_order_is_exact<V>()
    ensures { FirstOrderIsExact V }
{}

// Each level of the first order has the task of least cost among those that pass there, on a tie the smallest.
pub fn first_order_is_greedy<V>()
    ensures { FirstOrderIsGreedy V }
{}

// After V(n) examined vertices nothing is active.
pub fn search_ends<V>()
    ensures { SearchEnds V }
{}

// When nothing is active, the best order passes, and every order that passes costs at least as much.
pub fn search_is_optimal<V>()
    ensures { SearchIsOptimal V }
{}

// The active set never has more than n (n + 1) / 2 vertices.
pub fn stack_stays_small<V>()
    ensures { StackStaysSmall V }
{}

// When a vertex is examined, its ancestors pass with the times that it keeps: only its own task can be late.
pub fn only_own_task_late<V>()
    ensures { OnlyOwnTaskLate V }
{}

// V(n) is the sum over the levels l from 1 to n of n! / (n - l)!.
pub fn vertices_by_level()
    ensures { VerticesByLevel }
{}
