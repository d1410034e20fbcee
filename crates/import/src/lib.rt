// Import: an AIGER text, written as a netlist file that Check accepts. Questions 23, 24, 25 and 22, in this order.
// The header and each line by itself are asked first, in no memory; then the names, in an array, where a pair of two numbers is kept for each row if the rows fit a file; then the sorter takes the pairs as its rows, and work for its slots.
#![tactic(auto)]

ghost use Rattle.std.specs.Prelude.{◌≡◌, cond, ◌*◌, ◌<◌, ◌≤◌, ◌^◌, length};
ghost use Rattle.netlist.specs.Limits.{import_result_bytes, import_work_bytes};
ghost use Rattle.aiger_lines.specs.Lines.{Counted};
ghost use Rattle.gate_rows.specs.Sources.{source_rows, Source};
ghost use Rattle.gate_rows.specs.declared.Layout.TheVariants as layout;
ghost use Rattle.row_sorter.specs.Placing.{RowsSorted};
ghost use Rattle.aiger_names.specs.Names.{name_bytes};
ghost use Rattle.import_answers.specs.ImportAnswers.{importing_refusal, rows_in};
ghost use Rattle.import_answers.specs.ImportOutcome.{Imported};
ghost use Rattle.import.specs.ImportParts.{pairs_in, TextImported};

use aiger_lines::Header;
use aiger_names::NAME_BYTES;
use gate_rows::{Layout, Pairs};
use import_answers::ImportRefusal;
use netlist::{IMPORT_RESULT_BYTES, IMPORT_WORK_BYTES, MOST_FILE_ROWS};

// 22, and the sorted file if it is passed: the pairs of the rows stand in `pairs`.
fn sort_pairs(
    h: Header,
    rows: usize,
    pairs: &[u8],
    res: &mut [u8],
    slots: &mut [u8],
) -> Result<u32, ImportRefusal>
    requires { Source (layout.Pairs (pairs_in h)) pairs.now rows × ((import_result_bytes ≤ length res.old) × (import_work_bytes ≤ length slots.old)) }
    ensures rows_sorted { RowsSorted (source_rows (layout.Pairs (pairs_in h)) pairs.now) res.old res.new (importing_refusal result) (rows_in result) }
    ensures slots_len_unchanged { length slots.new ≡ length slots.old }
{
    let counts = Pairs {
        inputs: h.inputs,
        registers: h.latches,
        gates: h.gates,
        outputs: h.outputs,
    };
    let first = row_sorter::sort_rows(pairs, Layout::Pairs(counts), res, slots, rows);
    if first < rows {
        let row = first as u32;
        return Err(ImportRefusal::Loop { row });
    }
    Ok(rows as u32)
}

// Where the tree of names begins: behind the pairs, if these are kept.
fn tree_offset(fits: bool, rows: usize) -> usize
    requires { rows < 2 ^ 60 }
    ensures { result ≡ cond fits (4 * rows) 0 }
{
    if fits { 4 * rows } else { 0 }
}

// What is left of 24, and 25 and 22, of a text whose lines are right by themselves: `names` is for the names and pairs, `slots` for the sorter.
fn import_names(
    text: &[u8],
    h: Header,
    from: usize,
    res: &mut [u8],
    names: &mut [u8],
    slots: &mut [u8],
) -> Result<u32, ImportRefusal>
    requires counted { Counted text.now h from × ((import_result_bytes ≤ length res.old) × (import_work_bytes ≤ length slots.old)) }
    requires name_bytes_in_bounds { name_bytes ≤ length names.old }
    ensures text_imported { TextImported text.now res.old res.new result }
    ensures slots_len_unchanged { length slots.new ≡ length slots.old }
{
    let rows = 1 + aiger_lines::line_count(h);
    let fits = rows <= MOST_FILE_ROWS;
    let base = tree_offset(fits, rows);
    if !aiger_names::names_right(text, h, from, fits, base, &mut *names) {
        return Err(ImportRefusal::Text);
    }
    if !fits {
        return Err(ImportRefusal::Rows);
    }
    sort_pairs(h, rows, names, res, slots)
}

// Memory for the names.
pub fn name_room() -> [u8; NAME_BYTES]
    ensures { name_bytes ≡ length result }
{
    [0; NAME_BYTES]
}

// The same, with an array for the names.
fn import_lines(
    text: &[u8],
    h: Header,
    from: usize,
    res: &mut [u8],
    work: &mut [u8],
) -> Result<u32, ImportRefusal>
    requires { Counted text.now h from × ((import_result_bytes ≤ length res.old) × (import_work_bytes ≤ length work.old)) }
    ensures text_imported { TextImported text.now res.old res.new result }
    ensures work_len_unchanged { length work.new ≡ length work.old }
{
    let mut names = name_room();
    import_names(text, h, from, res, &mut names, work)
}

// 24, 25 and 22.
fn import_text(text: &[u8], res: &mut [u8], work: &mut [u8]) -> Result<u32, ImportRefusal>
    requires { (import_result_bytes ≤ length res.old) × (import_work_bytes ≤ length work.old) }
    ensures text_imported { TextImported text.now res.old res.new result }
    ensures work_len_unchanged { length work.new ≡ length work.old }
{
    let Some((h, from)) = aiger_lines::read_header(text) else {
        return Err(ImportRefusal::Text);
    };
    if aiger_lines::lines_right(text, h, from) {
        import_lines(text, h, from, res, work)
    } else {
        Err(ImportRefusal::Text)
    }
}

// The text's netlist as a file in `result`, with zeros to its end, and how many rows it has; a refusal leaves it as it was. Work is cleared on every return.
pub fn import(text: &[u8], res: &mut [u8], work: &mut [u8]) -> Result<u32, ImportRefusal>
    ensures { Imported text.now res.old res.new work.old work.new result }
{
    if IMPORT_RESULT_BYTES <= res.len() && IMPORT_WORK_BYTES <= work.len() {
        let answer = import_text(text, res, &mut *work);
        memory::clear(work);
        answer
    } else {
        memory::clear(work);
        Err(ImportRefusal::Memory)
    }
}
