// The table of a pool's ranges, free and granted, in one lent block of words.
// Every function is total: any numbers and any contents are answered or refused, and a refusal leaves the block as it was.
#![tactic(auto)]

ghost use Rattle.std.specs.Prelude.{◌≡◌, ◌+◌, ◌<◌, length, get_or};
ghost use Rattle.table.specs.Held.{words_for};
ghost use Rattle.blocks.specs.Blocks.{Sound};
ghost use Rattle.table.specs.Contract.{Makes, Askable, FindsLowest, FindsHighest, Cuts, Melts, Shows, Says};

// Why no table was made. Unfit: no such pool, or a limit that is not 1 to 4,096. Short: too few words.
#[derive(Clone, Copy, PartialEq, Eq)]
pub enum MakeError {
    Unfit,
    Short,
}

// Why there is no first address of a window. Unfit: size 0, or an alignment that is no power of two.
#[derive(Clone, Copy, PartialEq, Eq)]
pub enum PlaceError {
    Nowhere,
    Unfit,
    NoTable,
}

// Why the table was not changed. Absent: what is asked for is not there. Full: the row would be longer than the limit.
// Unfit: size 0 or tag 0.
#[derive(Clone, Copy, PartialEq, Eq)]
pub enum ChangeError {
    Absent,
    Full,
    Unfit,
    NoTable,
}

// The range that an address lies in: its first and its last address, and its tag, 0 for a free one. The tag is the word that the block
// holds, of which the table knows no more than whether it is 0, and C is told it as it is.
#[derive(Clone, Copy, PartialEq, Eq)]
pub struct Stands {
    pub start: u64,
    pub end: u64,
    pub tag: u64,
}

// Why no range has the address. Outside: it is not one of the pool's.
#[derive(Clone, Copy, PartialEq, Eq)]
pub enum AtError {
    Outside,
    NoTable,
}

// How many words a table for `limit` ranges takes; 0 where the limit is not 1 to 4,096. This and the header's words are numbers and no
// Options: they could not fail, and C asks each.
pub fn words(limit: usize) -> usize
    ensures { result ≡ words_for limit }
{
    if limit == 0 || 4096 < limit {
        return 0;
    }
    136 + limit.div_ceil(32) * 193
}

// A table of one free range, from base to last, that may hold `limit` ranges.
pub fn make(mem: &mut [u64], base: u64, last: u64, limit: usize) -> Result<(), MakeError>
    ensures { Makes mem.old base last limit result mem.new }
{
    let need = words(limit);
    if last < base || need == 0 {
        return Err(MakeError::Unfit);
    }
    if mem.len() < need {
        return Err(MakeError::Short);
    }
    mem[0] = limit.div_ceil(32) as u64;
    mem[1] = 1;
    mem[2] = base;
    mem[3] = last;
    mem[4] = 1;
    mem[5] = limit as u64;
    mem[6] = blocks::MARK;
    mem[8] = last - base;
    mem[136] = 1;
    mem[137] = base;
    mem[201] = 0;
    Ok(())
}

// The blocks in use, where such a window can be asked for.
fn askable(mem: &[u64], size: u64, align: u64) -> Result<usize, PlaceError>
    ensures { Askable mem.now size align result }
{
    if size == 0 || !ranges::is_power_of_two(align) {
        return Err(PlaceError::Unfit);
    }
    blocks::header(mem).ok_or(PlaceError::NoTable)
}

// The lowest multiple of `align` from which `size` addresses lie in one free range. `highest` is written out beside it: what they promise
// differs, and two lines are left of each.
pub fn lowest(mem: &[u64], size: u64, align: u64) -> Result<u64, PlaceError>
    ensures { FindsLowest mem.now size align result }
{
    let nb = askable(mem, size, align)?;
    blocks::search_up(mem, nb, size - 1, align - 1).ok_or(PlaceError::Nowhere)
}

// The highest multiple of `align` from which `size` addresses lie in one free range.
pub fn highest(mem: &[u64], size: u64, align: u64) -> Result<u64, PlaceError>
    ensures { FindsHighest mem.now size align result }
{
    let nb = askable(mem, size, align)?;
    blocks::search_down(mem, nb, size - 1, align - 1).ok_or(PlaceError::Nowhere)
}

// Cuts the `size` addresses from a out of the free range that has them all, with the tag `tag`.
pub fn cut(mem: &mut [u64], a: u64, size: u64, tag: u64) -> Result<(), ChangeError>
    ensures { Cuts mem.old a size tag result mem.new }
{
    if size == 0 || tag == 0 {
        return Err(ChangeError::Unfit);
    }
    let nb = blocks::header(mem).ok_or(ChangeError::NoTable)?;
    let (b, i) = blocks::find(mem, nb, a).ok_or(ChangeError::Absent)?;
    if blocks::tag_of(mem, b, i) != 0 {
        return Err(ChangeError::Absent);
    }
    let e = blocks::end_of(mem, nb, b, i);
    if e < a || e - a < size - 1 {
        return Err(ChangeError::Absent);
    }
    if 61 < blocks::size_of(mem, b) {
        return Err(ChangeError::NoTable);
    }
    if !splice::cut(mem, nb, b, i, a, size, tag) {
        return Err(ChangeError::Full);
    }
    Ok(())
}

// Gives back the granted range that starts at s: it becomes free, and one with the free ranges that touch it.
pub fn melt(mem: &mut [u64], s: u64) -> Result<(), ChangeError>
    ensures { Melts mem.old s result mem.new }
{
    let nb = blocks::header(mem).ok_or(ChangeError::NoTable)?;
    let (b, i) = blocks::find(mem, nb, s).ok_or(ChangeError::Absent)?;
    if blocks::start_of(mem, b, i) != s || blocks::tag_of(mem, b, i) == 0 {
        return Err(ChangeError::Absent);
    }
    melting::melt(mem, nb, b, i);
    Ok(())
}

// The range that the address a lies in.
pub fn at(mem: &[u64], a: u64) -> Result<Stands, AtError>
    ensures { Shows mem.now a result }
{
    let nb = blocks::header(mem).ok_or(AtError::NoTable)?;
    let (b, i) = blocks::find(mem, nb, a).ok_or(AtError::Outside)?;
    let end = blocks::end_of(mem, nb, b, i);
    if end < a {
        return Err(AtError::Outside);
    }
    let start = blocks::start_of(mem, b, i);
    let tag = blocks::tag_of(mem, b, i);
    Ok(Stands { start, end, tag })
}

// Word i of the header; 0 where the header is not a table's.
fn word(mem: &[u64], i: usize) -> u64
    requires { i < 8 }
    ensures { Sound mem.now → result ≡ get_or mem.now i 0 }
{
    match blocks::header(mem) {
        Some(_) => mem[i],
        None => 0,
    }
}

// How many ranges there are, free and granted together; 0 where the header is not a table's.
pub fn count(mem: &[u64]) -> usize
    ensures { Says mem.now (λ t. length t.row) result }
{
    word(mem, 1) as usize
}

// How many ranges there may be; 0 where the header is not a table's.
pub fn limit(mem: &[u64]) -> usize
    ensures { Says mem.now (λ t. t.limit) result }
{
    word(mem, 5) as usize
}

// The pool's first address; 0 where the header is not a table's.
pub fn base(mem: &[u64]) -> u64
    ensures { Says mem.now (λ t. t.base) result }
{
    word(mem, 2)
}

// The pool's last address; 0 where the header is not a table's.
pub fn last(mem: &[u64]) -> u64
    ensures { Says mem.now (λ t. t.top) (result + 1) }
{
    word(mem, 3)
}
