// Which gates name a node, as lists in lent memory, the highest row first; 0 ends a list, since row 0 is no gate.
// The head of node y's list stands at 2 * y. Behind the heads each row has three entries: entry k of row x is the user that follows x in the list of the node that operand k of x names.
#![tactic(auto)]

ghost use Rattle.std.specs.Prelude.{◌≡◌, true, ◌+◌, ◌*◌, ◌<◌, ◌≤◌, length};
ghost use Rattle.netlist.specs.Limits.{most_rows};
ghost use Rattle.netlist.specs.Rows.{row_at};
ghost use Rattle.ordering.specs.GateOrder.{operands_of};
ghost use Rattle.gate_rows.specs.Sources.{source_rows, Source};
ghost use Rattle.gate_users.specs.Users.{uses, last_user, Listed, HeadsKept, HeadsSet};

use gate_rows::Layout;

// Where the row's entry number `index` stands.
fn entry_offset(rows: usize, row: usize, index: usize) -> usize
    requires { (rows ≤ most_rows) × ((row < rows) × (index < 3)) }
    ensures { result ≡ 2 * rows + 6 * row + 2 * index }
{
    let entries = 2 * rows + 6 * row;
    entries + 2 * index
}

// The row's entries: the heads of the lists of the nodes that it names.
fn keep_heads(source: &[u8], layout: Layout, users: &mut [u8], rows: usize, row: usize)
    requires { Source layout source.now rows × ((row < rows) × (8 * rows ≤ length users.old)) }
    ensures { HeadsKept (source_rows layout source.now) row (length (operands_of (row_at (source_rows layout source.now) row))) users.old users.new }
{
    let count = gate_rows::operand_count(source, layout, row);
    for index in 0..count {
        let node = gate_rows::operand_at(source, layout, row, index);
        let head = memory::slot_at(users, node);
        let offset = entry_offset(rows, row, index);
        memory::write_u16(users, offset, head as u32);
    }
}

// The row becomes the head of each of these lists.
fn set_heads(source: &[u8], layout: Layout, users: &mut [u8], row: usize)
    requires source { Source layout source.now (length (source_rows layout source.now)) }
    requires row_in_bounds { (row < length (source_rows layout source.now)) × (8 * length (source_rows layout source.now) ≤ length users.old) }
    ensures { HeadsSet (source_rows layout source.now) row (operands_of (row_at (source_rows layout source.now) row)) users.old users.new }
{
    let count = gate_rows::operand_count(source, layout, row);
    for index in 0..count {
        let node = gate_rows::operand_at(source, layout, row, index);
        memory::set_slot(users, node, row);
    }
}

// The row is put at the head of the lists of the nodes that it names.
fn list_row(source: &[u8], layout: Layout, users: &mut [u8], rows: usize, row: usize)
    requires source { Source layout source.now rows × ((row < rows) × (8 * rows ≤ length users.old)) }
    requires listed { Listed (source_rows layout source.now) users.old row }
    ensures listed_2 { Listed (source_rows layout source.now) users.new (row + 1) }
    ensures users_len_unchanged { length users.new ≡ length users.old }
{
    keep_heads(source, layout, &mut *users, rows, row);
    set_heads(source, layout, users, row);
}

pub fn list_users(source: &[u8], layout: Layout, users: &mut [u8], rows: usize)
    requires { Source layout source.now rows × (8 * rows ≤ length users.old) }
    ensures listed { Listed (source_rows layout source.now) users.new rows }
    ensures users_len_unchanged { length users.new ≡ length users.old }
{
    let heads = 2 * rows;
    memory::clear(&mut users[..heads]);
    for row in 0..rows {
        list_row(source, layout, &mut *users, rows, row);
    }
}

// The highest gate that names the node; 0 if none does.
pub fn first_user(source: &[u8], layout: Layout, users: &[u8], rows: usize, node: usize) -> usize
    requires source { Source layout source.now rows × ((node < rows) × (8 * rows ≤ length users.now)) }
    requires listed { Listed (source_rows layout source.now) users.now rows }
    ensures { result ≡ last_user (source_rows layout source.now) node rows }
{
    memory::slot_at(users, node)
}

// The next gate below `user`, which names the node, that names it too; 0 if none does.
pub fn next_user(
    source: &[u8],
    layout: Layout,
    users: &[u8],
    rows: usize,
    user: usize,
    node: usize,
) -> usize
    requires source { Source layout source.now rows × ((user < rows) × (8 * rows ≤ length users.now)) }
    requires listed { Listed (source_rows layout source.now) users.now rows × (uses (source_rows layout source.now) user node ≡ true) }
    ensures { result ≡ last_user (source_rows layout source.now) node user }
{
    let count = gate_rows::operand_count(source, layout, user);
    for index in 0..count {
        if gate_rows::operand_at(source, layout, user, index) == node {
            let offset = entry_offset(rows, user, index);
            return blockfile::field_at(users, offset);
        }
    }
    0
}
