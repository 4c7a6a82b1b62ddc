// The rules by which a list of operations is a tree.
ghost use Rattle.std.specs.Prelude.{◌≡◌, ◌&&◌, ◌==◌, not, drop};
ghost use Rattle.std.specs.List.{list_any};
ghost use Rattle.std.specs.Str.{bytes_eq};
ghost use Rattle.slp_tree.specs.Trees.{reads, is_after_copy, is_without_operations, begins_with_duplication, has_late_source, has_childless_after_copy, has_over_ten_operations, has_unknown_unit, has_later_backup, broken_rule};

use site_types::{Name, Operation, Retention};

/// An operation reads the copy that the one with this index made.
pub fn reads(operation: &Operation, source: usize) -> bool
    ensures { result ≡ reads source operation.now }
{
    !operation.backup && usize::from(operation.source) == source
}

fn is_after_copy(retention: Retention) -> bool
    ensures { result ≡ is_after_copy retention }
{
    matches!(retention, Retention::AfterCopy)
}

fn has_children(operations: &[Operation], source: usize) -> bool
    ensures { result ≡ list_any (reads source) operations.now }
{
    operations.iter().any(|operation| reads(operation, source))
}

fn begins_with_duplication(operations: &[Operation]) -> bool
    ensures { result ≡ begins_with_duplication operations.now }
{
    match operations {
        [] => false,
        [first, ..] => !first.backup,
    }
}

fn has_late_source(operations: &[Operation]) -> bool
    ensures { result ≡ has_late_source operations.now }
{
    operations.iter().enumerate().any(|(index, operation)| !operation.backup
        && usize::from(operation.source) >= index)
}

fn has_childless_after_copy(operations: &[Operation]) -> bool
    ensures { result ≡ has_childless_after_copy operations.now }
{
    operations.iter().enumerate().any(|(index, operation)| is_after_copy(operation.retention)
        && !has_children(operations, index))
}

fn is_known(unit: &Name, units: &[Name]) -> bool
    ensures { result ≡ list_any (λ known. bytes_eq known unit.now) units.now }
{
    units.iter().any(|known| known.bytes() == unit.bytes())
}

fn has_unknown_unit(units: &[Name], operations: &[Operation]) -> bool
    ensures { result ≡ has_unknown_unit units.now operations.now }
{
    operations
        .iter()
        .any(|operation| !is_known(&operation.unit, units))
}

fn has_later_backup(operations: &[Operation]) -> bool
    ensures { result ≡ has_later_backup operations.now }
{
    operations.iter().skip(1).any(|operation| operation.backup)
}

/// The number of the first rule that is broken.
pub fn broken_rule(units: &[Name], operations: &[Operation]) -> Option<u8>
    ensures { result ≡ broken_rule units.now operations.now }
{
    if operations.is_empty() {
        return Some(1);
    }
    if begins_with_duplication(operations) {
        return Some(2);
    }
    if has_late_source(operations) {
        return Some(3);
    }
    if has_childless_after_copy(operations) {
        return Some(4);
    }
    if operations.len() > 10 {
        return Some(5);
    }
    if has_unknown_unit(units, operations) {
        return Some(6);
    }
    if has_later_backup(operations) {
        return Some(7);
    }
    None
}
