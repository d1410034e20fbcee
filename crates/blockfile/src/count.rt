// How many rows of each sort a file has.
ghost use Rattle.std.specs.Prelude.{◌≡◌, cond, ◌≤◌};

#[derive(Clone, Copy)]
pub struct Counts {
    pub nodes: usize,
    pub inputs: usize,
    pub registers: usize,
    pub unknown: usize,
    pub outputs: usize,
}

pub fn one_if(x: bool) -> usize
    ensures { (result ≡ cond x 1 0) × (result ≤ 1) }
{
    usize::from(x)
}
