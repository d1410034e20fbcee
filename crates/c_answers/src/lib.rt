// What callers in C are answered: structs of numbers, with the refusal's number and place first, both 0 on success. What else a struct has is 0 where the operation refuses.
#![tactic(auto)]

ghost use Rattle.std.specs.Prelude.{◌≡◌, ◌<◌};
ghost use Rattle.netlist.specs.Limits.{most_blocks, most_rows};
ghost use Rattle.questions.specs.Questions.{no_refusal};
ghost use Rattle.blockfile.specs.CountCode.{counts_in, EachAtMost};
ghost use Rattle.accept.specs.Refusals.{refusal_in};
ghost use Rattle.show.specs.ShowOutcome.{part_offset};
ghost use Rattle.c_answers.specs.AnswerNumbers.{interface_number, refusal_numbers, accepted_counts, refused_counts, folded_numbers, written_numbers, traced_numbers};

use accept::FileRefusal;
use blockfile::count::Counts;
use fold_answers::FoldNumbers;
use fold_refusals::FoldRefusal;
use questions::Numbered;
use trace_answers::TraceRefusal;

const INTERFACE: u32 = 6;

// The number of the interface that this library has.
pub fn interface_number() -> u32
    ensures { result ≡ interface_number }
{
    INTERFACE
}

#[repr(C)]
#[derive(Clone, Copy)]
pub struct PfRefusal {
    pub number: u32,
    pub place: u32,
}

pub fn told(number: u32, place: u32) -> PfRefusal
    ensures { result ≡ record { number = number; place = place } }
{
    PfRefusal { number, place }
}

pub fn refusal_numbers<R: Numbered + Copy>(refusal: R) -> PfRefusal
    ensures { result ≡ refusal_numbers (R.refusal refusal) }
{
    told(refusal.number(), refusal.place())
}

#[repr(C)]
#[derive(Clone, Copy)]
pub struct PfCounts {
    pub number: u32,
    pub place: u32,
    pub nodes: u32,
    pub inputs: u32,
    pub registers: u32,
    pub unknown: u32,
    pub outputs: u32,
}

pub fn counts_numbers(counts: Counts) -> PfCounts
    requires { EachAtMost (counts_in counts) most_rows }
    ensures { result ≡ accepted_counts (counts_in counts) }
{
    PfCounts {
        number: 0,
        place: 0,
        nodes: counts.nodes as u32,
        inputs: counts.inputs as u32,
        registers: counts.registers as u32,
        unknown: counts.unknown as u32,
        outputs: counts.outputs as u32,
    }
}

// A refused Count.
pub fn refused_counts(refusal: FileRefusal) -> PfCounts
    ensures { result ≡ refused_counts (refusal_in refusal) }
{
    let cause = refusal_numbers(refusal);
    PfCounts {
        number: cause.number,
        place: cause.place,
        nodes: 0,
        inputs: 0,
        registers: 0,
        unknown: 0,
        outputs: 0,
    }
}

// Where the part that Show shows starts in the caller's file, and how many bytes it has.
#[repr(C)]
#[derive(Clone, Copy)]
pub struct PfShown {
    pub number: u32,
    pub place: u32,
    pub offset: u32,
    pub size: u32,
}

// The first byte of the part.
pub fn part_offset(number: u32, block: u32) -> u32
    requires { number ≡ 0 → block < most_blocks }
    ensures { result ≡ part_offset number block }
{
    if number == 0 { 512 * block + 4 } else { 0 }
}

#[repr(C)]
#[derive(Clone, Copy)]
pub struct PfFolded {
    pub number: u32,
    pub place: u32,
    pub stem: u32,
    pub cycle: u32,
    pub phases: u32,
    pub used: u32,
    pub before: u32,
    pub after: u32,
}

pub fn folded_numbers(answer: Result<FoldNumbers, FoldRefusal>) -> PfFolded
    ensures { result ≡ folded_numbers answer }
{
    match answer {
        Ok(numbers) => PfFolded {
            number: 0,
            place: 0,
            stem: numbers.stem,
            cycle: numbers.cycle,
            phases: numbers.phases,
            used: numbers.used,
            before: numbers.before,
            after: numbers.after,
        },
        Err(refusal) => {
            let refused = refusal_numbers(refusal);
            PfFolded {
                number: refused.number,
                place: refused.place,
                stem: 0,
                cycle: 0,
                phases: 0,
                used: 0,
                before: 0,
                after: 0,
            }
        }
    }
}

// What writes a file answers how many rows that has.
#[repr(C)]
#[derive(Clone, Copy)]
pub struct PfWritten {
    pub number: u32,
    pub place: u32,
    pub rows: u32,
}

pub fn written(rows: u32) -> PfWritten
    ensures { result ≡ written_numbers no_refusal rows }
{
    PfWritten {
        number: 0,
        place: 0,
        rows,
    }
}

// No file was written.
pub fn unwritten<R: Numbered + Copy>(refusal: R) -> PfWritten
    ensures { result ≡ written_numbers (R.refusal refusal) 0 }
{
    PfWritten {
        number: refusal.number(),
        place: refusal.place(),
        rows: 0,
    }
}

// A trace that is taken back: how many steps it has.
#[repr(C)]
#[derive(Clone, Copy)]
pub struct PfTraced {
    pub number: u32,
    pub place: u32,
    pub steps: u32,
}

pub fn traced_numbers(answer: Result<u32, TraceRefusal>) -> PfTraced
    ensures { result ≡ traced_numbers answer }
{
    match answer {
        Ok(steps) => PfTraced {
            number: 0,
            place: 0,
            steps,
        },
        Err(refusal) => {
            let untraced = refusal_numbers(refusal);
            PfTraced {
                number: untraced.number,
                place: untraced.place,
                steps: 0,
            }
        }
    }
}
