// A lent table of free stretches: its first seventeen, by value and back.
#![tactic(auto)]

ghost use Rattle.std.specs.Prelude.{◌≡◌, ◌+◌, ◌≤◌, length};
ghost use Rattle.free_table.specs.Table.{loaded, stored};

// Sixteen pilots leave at most so many gaps.
pub const FREE: usize = 17;

#[repr(C)]
#[derive(Clone, Copy)]
pub struct Stretch {
    pub start: u32,
    pub length: u32,
}

impl Stretch {
    // The row past its last.
    pub fn end(self) -> usize
        ensures defined { result ≡ self.start + self.length }
    {
        self.start as usize + self.length as usize
    }
}

pub const EMPTY: Stretch = Stretch {
    start: 0,
    length: 0,
};

pub type FreeTable = [Stretch; FREE];

// The first seventeen, or empty ones where there are fewer.
pub fn load(table: &[Stretch]) -> FreeTable
    ensures defined { result ≡ loaded table.now }
{
    let mut t = [EMPTY; FREE];
    if FREE <= table.len() {
        t.copy_from_slice(&table[..FREE]);
    }
    t
}

// The first seventeen become t.
pub fn store(table: &mut [Stretch], t: FreeTable)
    requires room { 17 ≤ length table.old }
    ensures defined { table.new ≡ stored table.old t }
{
    table[..FREE].copy_from_slice(&t);
}
