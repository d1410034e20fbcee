// Sort: a file whose gates stand in any order, written in an order that Check accepts. Questions 1 to 10, where a gate may name any node, then 23 and 22.
#![tactic(auto)]

ghost use Rattle.std.specs.Prelude.{◌≡◌, ◌≤◌, length};
ghost use Rattle.netlist.specs.Limits.{row_work_bytes};
ghost use Rattle.netlist.specs.FileFormat.{netlist_of};
ghost use Rattle.row_sorter.specs.Placing.{RowsSorted};
ghost use Rattle.sort_answers.specs.SortAnswers.{sorting_refusal, rows_in};
ghost use Rattle.sort_answers.specs.SortOutcome.{Sorted};
ghost use Rattle.sort.specs.SortParts.{Sortable, SortPlanned};

use accept::Accepted;
use gate_rows::Layout;
use sort_answers::SortRefusal;

// 22, and the sorted file if it is passed.
fn sort_rows(file: &[u8], res: &mut [u8], work: &mut [u8], rows: usize) -> Result<u32, SortRefusal>
    requires { Sortable file.now rows × ((length file.now ≤ length res.old) × (row_work_bytes rows ≤ length work.old)) }
    ensures rows_sorted { RowsSorted (netlist_of file.now) res.old res.new (sorting_refusal result) (rows_in result) }
    ensures work_len_unchanged { length work.new ≡ length work.old }
{
    let first = row_sorter::sort_rows(file, Layout::File, res, work, rows);
    if first < rows {
        let row = first as u32;
        return Err(SortRefusal::Loop { row });
    }
    let count = rows as u32;
    Ok(count)
}

// 1 to 10 and 23: how many rows are to be sorted, or why they are not.
fn plan_sort(file: &[u8], res: usize, work: usize) -> Result<usize, SortRefusal>
    ensures { SortPlanned file.now res work result }
{
    let Accepted { rows, counts: _ } = accept::accept_unordered(file)?;
    let size = file.len();
    let least = netlist::row_work(rows);
    if size <= res && least <= work {
        Ok(rows)
    } else {
        Err(SortRefusal::Memory)
    }
}

// The sorted file in `result`, with zeros to its end; a refusal leaves it as it was. Work is cleared on every return.
pub fn sort(file: &[u8], res: &mut [u8], work: &mut [u8]) -> Result<u32, SortRefusal>
    ensures { Sorted file.now res.old res.new work.old work.new result }
{
    match plan_sort(file, res.len(), work.len()) {
        Err(refusal) => {
            memory::clear(work);
            Err(refusal)
        }
        Ok(rows) => {
            let answer = sort_rows(file, res, &mut *work, rows);
            memory::clear(work);
            answer
        }
    }
}
