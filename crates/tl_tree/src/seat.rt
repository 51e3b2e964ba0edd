//! Which row each row stands in.
ghost use Rattle.std.specs.Bool.{IsTrue};
ghost use Rattle.std.specs.List.{list_all};
ghost use Rattle.std.specs.Prelude.{length, nat_le, ◌<◌, ◌^◌};
ghost use Rattle.tl_tree.specs.Inner.Seating.{Chained, IsInnermost, Seated};

use crate::row::Row;

/// The innermost of these rows whose range has the row that comes next: its number and one more, or
/// 0 for none.
fn innermost(rows: &[Row]) -> u32
    requires few { length rows.now < 2 ^ 32 }
    requires chained { Chained rows.now }
    ensures { IsInnermost rows.now (length rows.now) result }
{
    let number = rows.len() as u32;
    let mut parent = number;
    while parent > 0 && rows[parent as usize - 1].end <= number {
        parent = rows[parent as usize - 1].parent;
    }
    parent
}

/// Fills in ends and parents, where `end` counted the rows behind what is below a row. What a row
/// stands in is on the way from the row before it outwards, and each row is left but once on
/// such ways.
pub(crate) fn seat(rows: &mut [Row])
    requires few { length rows.old < 2 ^ 32 }
    requires ends { IsTrue (list_all (λ row. nat_le row.end (length rows.old)) rows.old) }
    ensures { Seated rows.old rows.new }
{
    let total = rows.len() as u32;
    let mut number = 0;
    while number < rows.len() {
        let parent = innermost(&rows[..number]);
        let row = &mut rows[number];
        row.end = total - row.end;
        row.parent = parent;
        number += 1;
    }
}
