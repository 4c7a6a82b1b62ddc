ghost use Rattle.std.specs.Prelude.{◌≡◌, ◌++◌, map, OnOk, OnErr};
ghost use Rattle.nbstl_reports.specs.Lines.{line, lines};
ghost use Rattle.nbstl_reports.specs.DueLines.{backup_fields, due_lines, duplicate_fields};
ghost use Rattle.nbstl_reports.specs.Fields.{StartsWith};

use crate::NoMemory;
use crate::line::{Field, push_line, whole_or_none};
use site_types::DueBackup;
use slp_tree::DueOp;
use std::alloc::Global;

/// What is due: a line `backup POLICY CLIENT SCHEDULE` for each backup, and then a line `duplicate ID OP` for each operation, in
/// the order of these lists.
pub fn due_lines(
    _alloc: Global,
    backups: &[DueBackup],
    operations: &[DueOp],
    out: &mut Vec<u8>,
) -> Result<(), NoMemory>
    ensures written { OnOk result (out.new.items ≡ out.old.items ++ due_lines backups.now operations.now) }
    ensures unchanged { OnErr result (out.new.items ≡ out.old.items) }
{
    let before = out.len();
    let written = push_due(backups, operations, out);
    whole_or_none(out, before, written)
}

fn push_due(backups: &[DueBackup], operations: &[DueOp], out: &mut Vec<u8>) -> Result<(), NoMemory>
    ensures written { OnOk result (out.new.items ≡ out.old.items ++ due_lines backups.now operations.now) }
    ensures begun { OnErr result (StartsWith out.old.items out.new.items) }
{
    push_backups(backups, out)?;
    push_duplications(operations, out)
}

fn push_backups(backups: &[DueBackup], out: &mut Vec<u8>) -> Result<(), NoMemory>
    ensures written { OnOk result (out.new.items ≡ out.old.items ++ lines (map backup_fields backups.now)) }
    ensures begun { OnErr result (StartsWith out.old.items out.new.items) }
{
    for due in backups {
        push_backup(due, out)?;
    }
    Ok(())
}

fn push_backup(due: &DueBackup, out: &mut Vec<u8>) -> Result<(), NoMemory>
    ensures written { OnOk result (out.new.items ≡ out.old.items ++ line (backup_fields due.now)) }
    ensures begun { OnErr result (StartsWith out.old.items out.new.items) }
{
    let fields = [
        Field::Text(b"backup"),
        Field::Text(due.policy.bytes()),
        Field::Text(due.client.bytes()),
        Field::Text(due.schedule.bytes()),
    ];
    push_line(out, &fields)
}

fn push_duplications(operations: &[DueOp], out: &mut Vec<u8>) -> Result<(), NoMemory>
    ensures written { OnOk result (out.new.items ≡ out.old.items ++ lines (map duplicate_fields operations.now)) }
    ensures begun { OnErr result (StartsWith out.old.items out.new.items) }
{
    for due in operations {
        push_duplication(due, out)?;
    }
    Ok(())
}

fn push_duplication(due: &DueOp, out: &mut Vec<u8>) -> Result<(), NoMemory>
    ensures written { OnOk result (out.new.items ≡ out.old.items ++ line (duplicate_fields due.now)) }
    ensures begun { OnErr result (StartsWith out.old.items out.new.items) }
{
    let fields = [
        Field::Text(b"duplicate"),
        Field::Id(&due.id),
        Field::Number(u64::from(due.op)),
    ];
    push_line(out, &fields)
}
