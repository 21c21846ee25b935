// A table after rounds, which is only read.

ghost use Rattle.std.specs.Prelude.{◌≤◌, ◌*◌, length};

use tables::Tables;

// The tables after rounds, and the numbers of moves and entries after round 0, 1 and so on in the first `count` rows of `sizes`.
#[derive(Clone, Copy)]
pub struct AfterRounds<'a> {
    pub tables: Tables<'a>,
    pub sizes: &'a [u64],
    pub count: usize,
    pub ghost sizes_lent: { count * 2 ≤ length sizes.now },
}
