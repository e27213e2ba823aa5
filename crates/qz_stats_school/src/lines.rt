//! What is written of an analysis: a line for each slot, and after it a line for each choice.

ghost use Rattle.std.specs.Prelude.{◌≡◌, ◌++◌, flat_map, string_bytes, IfOk, OnOk};
ghost use Rattle.qz_stats_school.specs.Lines.{pick_line, row_text, rows_text, slot_line};

use qz_decimal::Mark;
use qz_grading::Spelled;
use qz_stats::{PickRow, SlotRow};
use qz_text::NoMemory;
use std::alloc::Global;

fn slot_line(alloc: Global, row: &SlotRow) -> Result<String, NoMemory>
    ensures { IfOk result (λ line. string_bytes line ≡ slot_line row.now) }
{
    let (slot, tried) = (row.slot, row.tried);
    let facility = Mark(row.facility.0).text(alloc)?;
    let facility = facility.as_str();
    Ok(format!(in alloc; "slot {slot} tried {tried} facility {facility}\n")?)
}

fn pick_line(alloc: Global, row: &PickRow) -> Result<String, NoMemory>
    ensures { IfOk result (λ line. string_bytes line ≡ pick_line row.now) }
{
    let (version, pick, count) = (row.version, row.pick, row.count);
    Ok(format!(in alloc; "version {version} pick {pick} count {count}\n")?)
}

fn picks_onto(alloc: Global, out: &mut String, picks: &[PickRow]) -> Result<(), NoMemory>
    ensures { OnOk result
        (string_bytes out.new ≡ string_bytes out.old ++ flat_map pick_line picks.now) }
{
    for pick in picks {
        let line = pick_line(alloc, pick)?;
        out.push_str(line.as_str())?;
    }
    Ok(())
}

fn row_onto(alloc: Global, out: &mut String, row: &SlotRow) -> Result<(), NoMemory>
    ensures { OnOk result (string_bytes out.new ≡ string_bytes out.old ++ row_text row.now) }
{
    let line = slot_line(alloc, row)?;
    out.push_str(line.as_str())?;
    picks_onto(alloc, out, row.picks.as_slice())
}

/// The lines of all slots.
pub(crate) fn text_of(alloc: Global, rows: &[SlotRow]) -> Result<String, NoMemory>
    ensures { IfOk result (λ text. string_bytes text ≡ rows_text rows.now) }
{
    let mut out = String::new(alloc);
    for row in rows {
        row_onto(alloc, &mut out, row)?;
    }
    Ok(out)
}
