//! Rows in lexicographic order, each once.

ghost use Rattle.lift_core.specs.Inside.OrderedRows.{rows_behind, IsOrdered};

/// Sorts the rows in lexicographic order, and keeps each once. It takes no memory.
pub fn put_in_order(rows: &mut Vec<&[i64]>)
    ensures { IsOrdered (rows_behind rows.old.items) (rows_behind rows.new.items) }
{
    rows.sort_unstable();
    rows.dedup();
}
