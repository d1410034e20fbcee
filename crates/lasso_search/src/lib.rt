// The lasso: the first state that equals an earlier one.
#![tactic(auto)]

ghost use Rattle.std.specs.Prelude.{◌≡◌, ◌+◌, ◌*◌, ◌≤◌, length};
ghost use Rattle.memory.specs.Lists.{all_below};
ghost use Rattle.netlist.specs.FileFormat.{netlist_of};
ghost use Rattle.netlist.specs.WellFormed.{FoldableRows};
ghost use Rattle.blockfile.specs.Ready.{Ready};
ghost use Rattle.ternary_step.specs.StateMap.{ClearedWork};
ghost use Rattle.lasso_search.specs.SearchStage.{word_at, same_word, LassoDone};

use netlist::LAST_STATE;

// Eight bytes as one number.
fn word_at(work: &[u8], at: usize) -> u64
    requires { at + 8 ≤ length work.now }
    ensures { result ≡ word_at work.now at }
{
    let low = u64::from(memory::read_u32(work, at));
    let high = u64::from(memory::read_u32(work, at + 4));
    low + 4294967296 * high
}

// Whether the words from a on are those from b on.
fn same_state(work: &[u8], a: usize, b: usize, words: usize) -> bool
    requires { (a + 8 * words ≤ length work.now) × (b + 8 * words ≤ length work.now) }
    ensures { result ≡ all_below words (same_word work.now a b) }
{
    for k in 0..words {
        let x = word_at(work, a + 8 * k);
        let y = word_at(work, b + 8 * k);
        if x != y {
            return false;
        }
    }
    true
}

// State stem + cycle is the first to equal an earlier one, state stem.
#[derive(Clone, Copy)]
pub struct Lasso {
    pub stem: usize,
    pub cycle: usize,
}

// Compares each new state with the earlier ones from state 0 up, until one is equal; none if none of states 1 to 256 is.
pub fn find_lasso(file: &[u8], rows: usize, work: &mut [u8]) -> Option<Lasso>
    requires ready { Ready FoldableRows file.now rows }
    requires cleared_work { ClearedWork work.old }
    ensures { LassoDone (netlist_of file.now) work.old work.new result }
{
    let registers = ternary_step::start(file, rows, work);
    let words = (registers + 31) / 32;
    let mut answer = None;
    'states: for m in 1..=LAST_STATE {
        ternary_step::advance(file, rows, registers, work, m);
        let new = fold_memory::state_offset(m);
        'history: for k in 0..m {
            let old = fold_memory::state_offset(k);
            if same_state(work, old, new, words) {
                answer = Some(Lasso {
                    stem: k,
                    cycle: m - k,
                });
                break 'states;
            }
        }
    }
    answer
}
