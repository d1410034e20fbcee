// Whether the names of an AIGER text are right: no variable is defined twice, and each that is used is defined, or constant. If the rows fit a file, each literal is put into its row's pair on the way, its node in place of its variable.
// A text may be longer than any memory, so nodes are taken in windows, as many as memory holds, and for each window the text is walked once. A later definition that the window has is a definition twice; a use that it has is counted. Nodes differ, so a use is counted once at most: all are defined exactly if as many are counted as there are uses.
#![tactic(auto)]

ghost use Rattle.std.specs.Prelude.{◌≡◌, true, cond, ◌&&◌, ◌+◌, ◌*◌, ◌<◌, ◌≤◌, ◌^◌, length, leb};
ghost use Rattle.aiger.specs.AigerText.{node_count, line_count, section_of, is_distinct, is_defined};
ghost use Rattle.aiger_lines.specs.Lines.{header_in, section_in, aiger_in, lines_stand, FewHeader, Counted};
ghost use Rattle.aiger_names.specs.Names.{name_bytes, defines_in, row_of_line, PlaceIs, CountsUp, found_in, WindowReady, WindowStands, use_count, FilledIs, defined_before, PairRoom, LiteralLooked, UsesLooked, LineLookedIs, LookedIs, TakenIs, NamesRoom, PairsStand};

use aiger_lines::{Header, Line, Section};

// What pairs and tree are lent: enough for the pairs of as many rows as a file has, and a tree of all their nodes.
pub const NAME_BYTES: usize = 393216;

// Nodes `start` to `end` - 1. The first window has the nodes that count up from the constant, whose variables are their numbers; the nodes of the others are the entries of a tree, which stands behind the pairs.
#[derive(Clone, Copy)]
pub struct Window {
    pub start: usize,
    pub end: usize,
    pub tree: bool,
}

// A line, how many nodes are defined before it, the constant among them, and where it begins.
#[derive(Clone, Copy)]
pub struct Place {
    pub line: usize,
    pub node: usize,
    pub at: usize,
}

// A variable is defined twice.
#[derive(Clone, Copy)]
struct DefinedTwice;

// Whether a line of the section defines a variable.
fn defines(section: Section) -> bool
    ensures { result ≡ defines_in (section_in section) }
{
    match section {
        Section::Input => true,
        Section::Latch => true,
        Section::Output => false,
        Section::Gate => true,
    }
}

// The row of line number `line`: nodes come before outputs.
fn row_of(h: Header, section: Section, line: usize) -> usize
    requires { FewHeader h × ((section_in section ≡ section_of (header_in h) line) × (line < line_count (header_in h))) }
    ensures { result ≡ row_of_line (header_in h) line }
{
    match section {
        Section::Input => line + 1,
        Section::Latch => line + 1,
        Section::Output => line + 1 + h.gates,
        Section::Gate => line + 1 - h.outputs,
    }
}

// How far nodes count up from the constant: the first line whose definition is not the next even literal.
fn measure_run(text: &[u8], h: Header, from: usize) -> Place
    requires { Counted text.now h from }
    ensures { PlaceIs text.now result × (CountsUp (aiger_in text.now) result.node × (0 < result.node)) }
{
    let lines = aiger_lines::line_count(h);
    let mut node = 1;
    let mut at = from;
    for line in 0..lines {
        let l = aiger_lines::read_line(text, at).unwrap();
        let section = aiger_lines::section_of(h, line);
        if defines(section) {
            if l.first as usize != 2 * node {
                return Place { line, node, at };
            }
            node += 1;
        }
        at = l.next;
    }
    Place {
        line: lines,
        node,
        at,
    }
}

// The nodes from `place` on, as many as there is room for, in a tree: where they end.
fn fill_tree(
    text: &[u8],
    h: Header,
    place: Place,
    base: usize,
    work: &mut [u8],
) -> Result<Place, DefinedTwice>
    requires text_value { (lines_stand text.now ≡ true) × ((header_in h ≡ (aiger_in text.now).header) × FewHeader h) }
    requires place_is { PlaceIs text.now place × (place.node < node_count (header_in h)) }
    requires base_bound { (base + 8 ≤ name_bytes) × (name_bytes ≤ length work.old) }
    ensures filled_is { FilledIs text.now place base work.old work.new result }
    ensures work_len_unchanged { length work.new ≡ length work.old }
{
    let lines = aiger_lines::line_count(h);
    let capacity = (NAME_BYTES - base) / 8;
    let mut at = place.at;
    let mut count = 0;
    for line in place.line..lines {
        if count == capacity {
            return Ok(Place {
                line,
                node: place.node + count,
                at,
            });
        }
        let l = aiger_lines::read_line(text, at).unwrap();
        let section = aiger_lines::section_of(h, line);
        if defines(section) {
            if !name_tree::add_entry(&mut *work, base, count, l.first / 2) {
                return Err(DefinedTwice);
            }
            count += 1;
        }
        at = l.next;
    }
    Ok(Place {
        line: lines,
        node: place.node + count,
        at,
    })
}

// The node of the window that has the variable; the window's end if none has.
// By number: so has `found_in` (specs/Names.antt), and the tree's entry counts on from the start with no test of its own.
fn find_node(work: &[u8], base: usize, window: Window, variable: u32) -> usize
    requires { WindowReady work.now base window }
    ensures { (result ≡ found_in work.now base window variable) × (result ≤ window.end) }
{
    if window.tree {
        let count = window.end - window.start;
        let entry = name_tree::find_entry(work, base, count, variable);
        window.start + entry
    } else {
        let node = variable as usize;
        if node < window.end { node } else { window.end }
    }
}

// Whether the window has the literal's node: 1 if it has, and then the row's field of the pair is set, if pairs are kept.
fn look_up_use(
    work: &mut [u8],
    fits: bool,
    base: usize,
    window: Window,
    offset: usize,
    literal: u32,
) -> usize
    requires { WindowReady work.old base window × PairRoom fits (offset + 2) base window.end work.old }
    ensures { LiteralLooked fits base window offset literal work.old work.new result }
{
    let node = find_node(work, base, window, literal / 2);
    if node == window.end {
        return 0;
    }
    if fits {
        let value = 2 * node as u32 + literal % 2;
        memory::write_u16(work, offset, value);
    }
    1
}

// A latch's reset as rows have it: missing is 0, and the latch itself is 2, unknown.
fn reset_code(l: Line) -> u32
    ensures { (result ≡ cond (leb l.third 1) l.third 2) × (result ≤ 2) }
{
    if l.third <= 1 { l.third } else { 2 }
}

// How many literals that the line uses the window has; their fields of the row's pair are set.
fn look_up_uses(
    work: &mut [u8],
    fits: bool,
    base: usize,
    window: Window,
    row: usize,
    section: Section,
    l: Line,
) -> usize
    requires window_ready { WindowReady work.old base window × (row < 2 ^ 60) }
    requires pair_room { PairRoom fits (4 * row + 4) base window.end work.old }
    ensures { UsesLooked fits base window row (section_in section) l work.old work.new result }
{
    let offset = 4 * row;
    let other = offset + 2;
    match section {
        Section::Input => 0,
        Section::Latch => {
            let found = look_up_use(&mut *work, fits, base, window, offset, l.second);
            if fits {
                let reset = reset_code(l);
                memory::write_u16(work, other, reset);
            }
            found
        }
        Section::Output => look_up_use(work, fits, base, window, offset, l.first),
        Section::Gate => {
            let first = look_up_use(&mut *work, fits, base, window, offset, l.second);
            let second = look_up_use(work, fits, base, window, other, l.third);
            first + second
        }
    }
}

// Whether the line defines a variable that an earlier node of the window has.
fn defined_before(
    work: &[u8],
    base: usize,
    window: Window,
    row: usize,
    section: Section,
    l: Line,
) -> bool
    requires { WindowReady work.now base window }
    ensures { result ≡ defined_before work.now base window row (section_in section) l }
{
    if !defines(section) {
        return false;
    }
    if row < window.end {
        return false;
    }
    find_node(work, base, window, l.first / 2) != window.end
}

// One line of the walk: how many of its uses the window has.
fn look_up_line(
    work: &mut [u8],
    h: Header,
    fits: bool,
    base: usize,
    window: Window,
    line: usize,
    l: Line,
) -> Result<usize, DefinedTwice>
    requires window_ready { WindowReady work.old base window × (FewHeader h × (line < line_count (header_in h))) }
    requires names_room { NamesRoom (header_in h) fits base work.old × (window.end ≤ node_count (header_in h)) }
    ensures line_looked_is { LineLookedIs (header_in h) fits base window line l work.old work.new result }
    ensures work_len_unchanged { length work.new ≡ length work.old }
{
    let section = aiger_lines::section_of(h, line);
    let row = row_of(h, section, line);
    if defined_before(work, base, window, row, section, l) {
        Err(DefinedTwice)
    } else {
        Ok(look_up_uses(work, fits, base, window, row, section, l))
    }
}

// The walk: all lines, for one window, and how many uses it has.
fn look_up(
    text: &[u8],
    h: Header,
    from: usize,
    fits: bool,
    base: usize,
    window: Window,
    work: &mut [u8],
) -> Result<usize, DefinedTwice>
    requires counted { Counted text.now h from × NamesRoom (header_in h) fits base work.old }
    requires window_stands { WindowStands (aiger_in text.now) work.old base window }
    ensures looked_is { LookedIs (aiger_in text.now) fits base window.start window.end work.old work.new result }
    ensures work_len_unchanged { length work.new ≡ length work.old }
{
    let lines = aiger_lines::line_count(h);
    let mut at = from;
    let mut found = 0;
    for line in 0..lines {
        let l = aiger_lines::read_line(text, at).unwrap();
        let more = look_up_line(&mut *work, h, fits, base, window, line, l)?;
        found += more;
        at = l.next;
    }
    Ok(found)
}

// The next window, filled and looked up: where it ends, and how many uses it has.
fn take_window(
    text: &[u8],
    h: Header,
    from: usize,
    fits: bool,
    base: usize,
    place: Place,
    work: &mut [u8],
) -> Result<(Place, usize), DefinedTwice>
    requires counted { Counted text.now h from × NamesRoom (header_in h) fits base work.old }
    requires place_is { PlaceIs text.now place × (place.node < node_count (header_in h)) }
    ensures taken_is { TakenIs text.now fits place.node work.old work.new result }
    ensures work_len_unchanged { length work.new ≡ length work.old }
{
    let next = fill_tree(text, h, place, base, &mut *work)?;
    let window = Window {
        start: place.node,
        end: next.node,
        tree: true,
    };
    let found = look_up(text, h, from, fits, base, window, work)?;
    Ok((next, found))
}

// The first window, of the nodes that count up.
fn take_run(
    text: &[u8],
    h: Header,
    from: usize,
    fits: bool,
    base: usize,
    work: &mut [u8],
) -> Result<(Place, usize), DefinedTwice>
    requires { Counted text.now h from × NamesRoom (header_in h) fits base work.old }
    ensures taken_is { TakenIs text.now fits 0 work.old work.new result }
    ensures work_len_unchanged { length work.new ≡ length work.old }
{
    let place = measure_run(text, h, from);
    let window = Window {
        start: 0,
        end: place.node,
        tree: false,
    };
    let found = look_up(text, h, from, fits, base, window, work)?;
    Ok((place, found))
}

// How many literals the lines use.
fn use_count(h: Header) -> usize
    requires { FewHeader h }
    ensures { result ≡ use_count (header_in h) }
{
    h.latches + h.outputs + 2 * h.gates
}

// Whether no variable is defined twice and each that is used is defined, or constant.
pub fn names_right(
    text: &[u8],
    h: Header,
    from: usize,
    fits: bool,
    base: usize,
    work: &mut [u8],
) -> bool
    requires { Counted text.now h from × NamesRoom (header_in h) fits base work.old }
    ensures value { result ≡ is_distinct (aiger_in text.now) && is_defined (aiger_in text.now) }
    ensures pairs_stand { result ≡ true → fits ≡ true → PairsStand (aiger_in text.now) work.new }
    ensures work_len_unchanged { length work.new ≡ length work.old }
{
    let nodes = 1 + h.inputs + h.latches + h.gates;
    let Ok((mut place, mut found)) = take_run(text, h, from, fits, base, &mut *work) else {
        return false;
    };
    while place.node < nodes {
        let Ok((next, uses)) = take_window(text, h, from, fits, base, place, &mut *work) else {
            return false;
        };
        place = next;
        found += uses;
    }
    found == use_count(h)
}
