// The names of a text whose lines are right by themselves: one that is defined twice, or used and not defined.
// They are taken in windows, as many as a tree of names holds, and for each window the lines are walked two or three times.
ghost use Rattle.std.specs.Prelude.{◌≡◌, ◌≤◌, length};
ghost use Rattle.aiger_lines.specs.Lines.{FewHeader};
ghost use Rattle.name_tree.specs.Trees.{entry_of};
ghost use Rattle.aiger_faults.specs.Walks.{TreeInside};

use crate::{Cause, Fault, fault_at};
use aiger_lines::{Header, Line, Section};
use text::bytes::{get, put};

const WORK_BYTES: usize = 49152;

// How many names this work holds.
const MOST_NAMES: usize = 6144;

// ---- a walk over the lines

// What a walk does with the names of each line.
#[derive(Clone, Copy)]
enum Task {
    // Definitions go into the tree, up to one that is there already.
    AddDefinitions,
    // Looks for a definition that is in the tree.
    SeekDefinition,
    // Uses go into the tree, not marked.
    AddUses,
    // Marks what is defined.
    MarkDefinitions,
    // Looks for a use that is not marked.
    SeekUse,
}

// How a walk goes on behind a name: to the next one, or it ends before this line, as the tree is full, or for this literal.
#[derive(Clone, Copy)]
enum Step {
    On,
    Full,
    Found(u32),
}

// How many names the tree has, and how the walk goes on.
#[derive(Clone, Copy)]
struct Names {
    count: usize,
    step: Step,
}

fn asks_uses(task: Task) -> bool {
    matches!(task, Task::AddUses | Task::SeekUse)
}

// The first literal of a line that is a use or else a definition, as it is asked, and the second one; 0 if there is none.
fn first_asked(uses: bool, section: Section, l: Line) -> u32 {
    match section {
        Section::Input => if uses { 0 } else { l.first },
        Section::Output => if uses { l.first } else { 0 },
        _ => if uses { l.second } else { l.first },
    }
}

fn second_asked(uses: bool, section: Section, l: Line) -> u32 {
    match section {
        Section::Gate => if uses { l.third } else { 0 },
        _ => 0,
    }
}

// A variable that the tree has not goes into it, not marked, if there is room.
fn add_name(work: &mut [u8], marks: &mut [u8], count: usize, variable: u32) -> Names
    requires { TreeInside work.old count × (count ≤ entry_of work.old 0 count variable) }
    ensures { TreeInside work.new result.count }
{
    if MOST_NAMES <= count {
        return Names {
            count,
            step: Step::Full,
        };
    }
    put(marks, count, 0);
    name_tree::add_entry(work, 0, count, variable);
    Names {
        count: count + 1,
        step: Step::On,
    }
}

// A literal whose variable is this entry of the tree.
fn take_known(task: Task, marks: &mut [u8], entry: usize, literal: u32) -> Step {
    match task {
        Task::AddDefinitions | Task::SeekDefinition => Step::Found(literal),
        Task::SeekUse if get(marks, entry) == 0 => Step::Found(literal),
        Task::AddUses | Task::SeekUse => Step::On,
        Task::MarkDefinitions => {
            put(marks, entry, 1);
            Step::On
        }
    }
}

// What a walk does with a literal; the constants are no names.
fn take_name(task: Task, work: &mut [u8], marks: &mut [u8], count: usize, literal: u32) -> Names
    requires { TreeInside work.old count }
    ensures { TreeInside work.new result.count }
{
    if literal < 2 {
        return Names {
            count,
            step: Step::On,
        };
    }
    let variable = literal / 2;
    let entry = name_tree::find_entry(work, 0, count, variable);
    if entry < count {
        return Names {
            count,
            step: take_known(task, marks, entry, literal),
        };
    }
    match task {
        Task::AddDefinitions | Task::AddUses => add_name(work, marks, count, variable),
        _ => Names {
            count,
            step: Step::On,
        },
    }
}

// What it does with a line.
fn take_line(
    task: Task,
    section: Section,
    l: Line,
    work: &mut [u8],
    marks: &mut [u8],
    count: usize,
) -> Names
    requires { TreeInside work.old count }
    ensures { TreeInside work.new result.count }
{
    let uses = asks_uses(task);
    let first = first_asked(uses, section, l);
    let second = second_asked(uses, section, l);
    let taken = take_name(task, work, marks, count, first);
    match taken.step {
        Step::On => take_name(task, work, marks, taken.count, second),
        _ => taken,
    }
}

// A literal that is sought, on counted line `k`.
#[derive(Clone, Copy)]
struct Name {
    k: usize,
    literal: u32,
}

// A walk is before counted line `k`, which begins at `at`, with so many names in the tree; what it has ended for there, if it has found a name.
#[derive(Clone, Copy)]
struct Walk {
    k: usize,
    at: usize,
    count: usize,
    found: Option<Name>,
}

// Walks on to line `limit`, or to the one before which the walk ends.
fn walk_lines(
    task: Task,
    text: &[u8],
    h: Header,
    work: &mut [u8],
    marks: &mut [u8],
    start: Walk,
    limit: usize,
) -> Walk
    requires { TreeInside work.old start.count × (start.at ≤ length text.now) }
    ensures { TreeInside work.new result.count × (result.at ≤ length text.now) }
{
    let mut at = start.at;
    let mut count = start.count;
    for k in start.k..limit {
        let Some(l) = aiger_lines::read_line(text, at) else {
            break;
        };
        let section = aiger_lines::section_of(h, k);
        let taken = take_line(task, section, l, work, marks, count);
        count = taken.count;
        let found = match taken.step {
            Step::On => {
                at = l.next;
                continue;
            }
            Step::Full => None,
            Step::Found(literal) => Some(Name { k, literal }),
        };
        return Walk {
            k,
            at,
            count,
            found,
        };
    }
    Walk {
        k: limit,
        at,
        count,
        found: None,
    }
}

// The same from an empty tree.
fn fill_tree(
    task: Task,
    text: &[u8],
    h: Header,
    work: &mut [u8],
    marks: &mut [u8],
    k: usize,
    at: usize,
    limit: usize,
) -> Walk
    requires { (49152 ≤ length work.old) × (at ≤ length text.now) }
    ensures { TreeInside work.new result.count × (result.at ≤ length text.now) }
{
    let start = Walk {
        k,
        at,
        count: 0,
        found: None,
    };
    walk_lines(task, text, h, work, marks, start, limit)
}

// ---- windows

// Which names are sought.
#[derive(Clone, Copy)]
enum Sought {
    Twice,
    Undefined,
}

// Where the next window begins; and what was found, if anything.
#[derive(Clone, Copy)]
struct Window {
    k: usize,
    at: usize,
    found: Option<Name>,
}

// The definitions from line `k` on, as many as the tree holds: the first line that defines one of them a second time.
fn definition_window(
    text: &[u8],
    h: Header,
    work: &mut [u8],
    marks: &mut [u8],
    k: usize,
    at: usize,
    limit: usize,
) -> Window
    requires { (49152 ≤ length work.old) × (at ≤ length text.now) }
    ensures { result.at ≤ length text.now }
{
    let filled = fill_tree(Task::AddDefinitions, text, h, work, marks, k, at, limit);
    let later = match filled.found {
        Some(_) => filled,
        None => walk_lines(Task::SeekDefinition, text, h, work, marks, filled, limit),
    };
    Window {
        k: filled.k,
        at: filled.at,
        found: later.found,
    }
}

// Of the uses that are in the tree the first that no line defines; they are those of the lines from `start` to `limit`.
fn unmarked_use(
    text: &[u8],
    h: Header,
    from: usize,
    lines: usize,
    work: &mut [u8],
    marks: &mut [u8],
    start: Walk,
    limit: usize,
) -> Walk
    requires { TreeInside work.old start.count × ((start.at ≤ length text.now) × (from ≤ length text.now)) }
{
    let all = Walk {
        k: 0,
        at: from,
        count: start.count,
        found: None,
    };
    let marked = walk_lines(Task::MarkDefinitions, text, h, work, marks, all, lines);
    let again = Walk {
        count: marked.count,
        ..start
    };
    walk_lines(Task::SeekUse, text, h, work, marks, again, limit)
}

// The uses from line `k` on, as many as the tree holds: the first line with one that no line defines.
fn use_window(
    text: &[u8],
    h: Header,
    from: usize,
    work: &mut [u8],
    marks: &mut [u8],
    k: usize,
    at: usize,
    lines: usize,
) -> Window
    requires { (49152 ≤ length work.old) × ((at ≤ length text.now) × (from ≤ length text.now)) }
    ensures { result.at ≤ length text.now }
{
    let filled = fill_tree(Task::AddUses, text, h, work, marks, k, at, lines);
    let start = Walk {
        k,
        at,
        count: filled.count,
        found: None,
    };
    let missing = unmarked_use(text, h, from, lines, work, marks, start, filled.k);
    Window {
        k: filled.k,
        at: filled.at,
        found: missing.found,
    }
}

// A window from line `k` on, of what is sought.
fn ask_window(
    sought: Sought,
    text: &[u8],
    h: Header,
    from: usize,
    work: &mut [u8],
    marks: &mut [u8],
    k: usize,
    at: usize,
    limit: usize,
) -> Window
    requires { (49152 ≤ length work.old) × ((at ≤ length text.now) × (from ≤ length text.now)) }
    ensures { result.at ≤ length text.now }
{
    match sought {
        Sought::Twice => definition_window(text, h, work, marks, k, at, limit),
        Sought::Undefined => use_window(text, h, from, work, marks, k, at, limit),
    }
}

// The fault of a name that is found.
fn fault_of(sought: Sought, name: Name) -> Fault {
    let literal = name.literal;
    let cause = match sought {
        Sought::Twice => Cause::Twice { literal },
        Sought::Undefined => Cause::Undefined { literal },
    };
    fault_at(name.k, cause)
}

// The first line with a name that is sought. Once one is found, only the lines before it are left to ask.
fn find_name(
    sought: Sought,
    text: &[u8],
    h: Header,
    from: usize,
    work: &mut [u8],
    marks: &mut [u8],
) -> Option<Fault>
    requires { (49152 ≤ length work.old) × (FewHeader h × (from ≤ length text.now)) }
{
    let lines = aiger_lines::line_count(h);
    let mut limit = lines;
    let mut found = None;
    let mut k = 0;
    let mut at = from;
    for _ in 0..lines {
        if limit <= k {
            break;
        }
        let window = ask_window(sought, text, h, from, work, marks, k, at, limit);
        if let Some(name) = window.found {
            limit = name.k;
            found = window.found;
        }
        k = window.k;
        at = window.at;
    }
    Some(fault_of(sought, found?))
}

// The first name that is defined a second time; else the first that is used and not defined.
fn ask_names(text: &[u8], h: Header, from: usize, work: &mut [u8]) -> Option<Fault>
    requires { (49152 ≤ length work.old) × (FewHeader h × (from ≤ length text.now)) }
{
    let mut marks = [0u8; MOST_NAMES];
    let twice = find_name(Sought::Twice, text, h, from, work, &mut marks);
    if twice.is_some() {
        return twice;
    }
    find_name(Sought::Undefined, text, h, from, work, &mut marks)
}

// What is wrong with the names; nothing is found if work has less than 49,152 bytes.
pub fn name_fault(text: &[u8], h: Header, from: usize, work: &mut [u8]) -> Option<Fault>
    requires { FewHeader h × (from ≤ length text.now) }
{
    if work.len() < WORK_BYTES {
        return None;
    }
    ask_names(text, h, from, work)
}
