ghost use Rattle.std.specs.Prelude.{◌≡◌, ◌≤◌, length};

use order::Order;

// An order and whether it was undone. Lines are numbered from 1. A mark and no `Option`: the order of an undone line
// stays.
#[derive(Clone, Copy)]
pub struct Line {
    pub order: Order,
    pub undone: bool,
}

// 64 lines and a count in a plain struct, which is the form that is asked of a lock's order table.
#[derive(Clone, Copy)]
pub struct Table {
    pub(crate) lines: [Line; 64],
    pub(crate) count: usize,
    ghost long: { length lines ≡ 64 },
    ghost few: { count ≤ 64 },
}
