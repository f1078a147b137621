// How many vertices a search can examine.
ghost use Rattle.std.specs.Prelude.{◌≡◌, length};
ghost use Rattle.tasks.specs.Lists.{plains};
ghost use Rattle.orders.specs.Search.{vertices};

use tasks::list::TaskList;

// V(0) to V(16), each V(n) = n * (1 + V(n - 1)).
const VERTICES: [u64; 17] = [
    0,
    1,
    4,
    15,
    64,
    325,
    1956,
    13_699,
    109_600,
    986_409,
    9_864_100,
    108_505_111,
    1_302_061_344,
    16_926_797_485,
    236_975_164_804,
    3_554_627_472_075,
    56_874_039_553_216,
];

// The vertices of the whole tree over the held tasks.
pub fn vertex_bound(tasks: &TaskList) -> u64
    ensures { result ≡ vertices (length (plains tasks.now)) }
{
    let held = tasks.as_slice();
    VERTICES[held.len()]
}
