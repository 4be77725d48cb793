// The address allocator: ranges of a pool are granted and given back. Everything that it knows lies in one lent block of words,
// and how it lies there only the table knows. Every function is total: any numbers and any contents of the block are answered or
// refused, and after a refusal the block is word for word as it was.
#![tactic(auto)]

ghost use Rattle.std.specs.Prelude.{◌≡◌, ◌+◌, ◌<◌, length};
ghost use Rattle.table.specs.Held.{words_for};
ghost use Rattle.addresses.specs.Meaning.{row_of};
ghost use Rattle.addresses.specs.Operations.{Pool, InOrder};
ghost use Rattle.addresses.specs.Held.{Holds};
ghost use Rattle.addresses.specs.Contract.{granted, freed, Performs, asking, returning, Starts, Says, Shows};
ghost use Rattle.addresses.specs.Steps.{why_no_place, why_unchanged, why_not_there, Grants, PastTheEnd, Places};

use ranges::{AllocPolicy, Constraint, Error, RangeInclusive};
use table::{AtError, ChangeError, PlaceError, Stands};

// What an operation answers: a range is granted, the range that was given back is free, or nothing is done. `allocate` and `free`
// return a `Result`; this stays beside it, since what is said of sequences of calls (specs/Runs.antt) speaks of the answers of both.
#[derive(Clone, Copy, PartialEq, Eq)]
pub enum Answer {
    Granted(RangeInclusive),
    Freed(RangeInclusive),
    Refused(Error),
}

impl Answer {
    // The answer to a request, of what `allocate` returns.
    pub fn granted(returned: Result<RangeInclusive, Error>) -> Answer
        ensures { result ≡ granted returned }
    {
        match returned {
            Ok(range) => Answer::Granted(range),
            Err(e) => Answer::Refused(e),
        }
    }

    // The answer to a give-back, of what `free` returns.
    pub fn freed(returned: Result<RangeInclusive, Error>) -> Answer
        ensures { result ≡ freed returned }
    {
        match returned {
            Ok(range) => Answer::Freed(range),
            Err(e) => Answer::Refused(e),
        }
    }
}

// How many words a block for `limit` ranges takes; 0 where the limit is not 1 to 4,096. A number and no Option, as `base`, `end` and `count`:
// it could not fail, and C asks it.
pub fn words(limit: usize) -> usize
    ensures { result ≡ words_for limit }
{
    table::words(limit)
}

// An allocator for the `size` addresses from base on, of which nothing is granted, with room for `limit` ranges, free and granted
// together. Refused, in this order: "underflow" for size 0; "overflow" where the pool would pass 2^64 - 1; "no room" for a limit
// that is not 1 to 4,096, and for a block that is too short for it.
pub fn new(mem: &mut [u64], base: u64, size: u64, limit: usize) -> Result<(), Error>
    ensures { Starts mem.old base size limit result mem.new }
{
    let more = size.checked_sub(1).ok_or(Error::Underflow)?;
    let last = base.checked_add(more).ok_or(Error::Overflow)?;
    table::make(mem, base, last, limit).map_err(|_| Error::NoRoom)
}

// Why a request is refused for which the table has no place.
fn no_place(e: PlaceError) -> Error
    ensures { result ≡ why_no_place e }
{
    match e {
        PlaceError::Nowhere => Error::ResourceNotAvailable,
        PlaceError::Unfit => Error::InvalidAlignment,
        PlaceError::NoTable => Error::NoState,
    }
}

// Why an operation is refused for which the table was not changed.
fn unchanged(e: ChangeError) -> Error
    ensures { result ≡ why_unchanged e }
{
    match e {
        ChangeError::Absent => Error::ResourceNotAvailable,
        ChangeError::Full => Error::NoRoom,
        ChangeError::Unfit => Error::InvalidSize,
        ChangeError::NoTable => Error::NoState,
    }
}

// Why an address is refused at which no range stands.
fn not_there(e: AtError) -> Error
    ensures { result ≡ why_not_there e }
{
    match e {
        AtError::Outside => Error::ResourceNotAvailable,
        AtError::NoTable => Error::NoState,
    }
}

// Why a range from a that would end past 2^64 - 1 is refused: "overflow" where the address is free.
fn past_the_end(mem: &[u64], a: u64) -> Error
    ensures { (p : Pool) → Holds mem.now p → PastTheEnd p a result }
{
    match table::at(mem, a) {
        Ok(stands) if stands.tag == 0 => Error::Overflow,
        Ok(_) => Error::ResourceNotAvailable,
        Err(e) => not_there(e),
    }
}

// Where the range for a request that is in order is to start. What an exact request gets, a line each and no other, is `Exactly`
// (specs/Exact.antt; `exact_called`).
fn place(mem: &[u64], q: Constraint) -> Result<u64, Error>
    requires { InOrder q }
    ensures { Places mem.now q result }
{
    match q.policy {
        AllocPolicy::FirstMatch => table::lowest(mem, q.size, q.align).map_err(no_place),
        AllocPolicy::LastMatch => table::highest(mem, q.size, q.align).map_err(no_place),
        AllocPolicy::ExactMatch(a) => match a.checked_add(q.size - 1) {
            Some(_) => Ok(a),
            None => Err(past_the_end(mem, a)),
        },
    }
}

// Grants the `size` addresses from a, if they are free and the table has room.
fn grant(mem: &mut [u64], a: u64, size: u64) -> Result<RangeInclusive, Error>
    requires { 0 < size }
    ensures { Grants mem.old a size (granted result) mem.new }
{
    table::cut(mem, a, size, 1).map_err(unchanged)?;
    Ok(RangeInclusive {
        start: a,
        end: a.wrapping_add(size - 1),
    })
}

// Grants the lowest, the highest, or the named range of `size` addresses from a multiple of the alignment on. Refused, in this
// order: a request that is not in order, with the reason that `Constraint::new` gives; "overflow" for an exact range whose address
// is free and whose end would pass 2^64 - 1; "not available" where there is no place; "no room" where the table is full.
// Of any sequence of calls (`calls_never_twice`): between two grants that share an address the whole range of the first was given back.
pub fn allocate(
    mem: &mut [u64],
    size: u64,
    align: u64,
    policy: AllocPolicy,
) -> Result<RangeInclusive, Error>
    ensures { Performs mem.old (asking size align policy) (granted result) mem.new }
{
    let q = Constraint::new(size, align, policy)?;
    let a = place(mem, q)?;
    grant(mem, a, q.size)
}

// Gives back the range from start to end, which must be granted, just so. Refused, in this order: "invalid range" for a pair that
// is no range; "not available" for any other that is not granted.
pub fn free(mem: &mut [u64], start: u64, end: u64) -> Result<RangeInclusive, Error>
    ensures { Performs mem.old (returning start end) (freed result) mem.new }
{
    let r = RangeInclusive::new(start, end)?;
    let stands = table::at(mem, start).map_err(not_there)?;
    if stands.tag == 0 || stands.start != start || stands.end != end {
        return Err(Error::ResourceNotAvailable);
    }
    table::melt(mem, start).map_err(unchanged)?;
    Ok(r)
}

// The pool's first address; 0 where the block holds no allocator.
pub fn base(mem: &[u64]) -> u64
    ensures { Says mem.now (λ p. p.state.base) result }
{
    table::base(mem)
}

// The pool's last address; 0 where the block holds no allocator.
pub fn end(mem: &[u64]) -> u64
    ensures { Says mem.now (λ p. p.state.top) (result + 1) }
{
    table::last(mem)
}

// How many ranges there are, free and granted together; 0 where the block holds no allocator.
pub fn count(mem: &[u64]) -> usize
    ensures { Says mem.now (λ p. length (row_of p.state)) result }
{
    table::count(mem)
}

// The range that the address a lies in: its first and its last address, and its tag, 0 for a free one. Refused: an address that is
// not the pool's, and a block that holds no allocator.
pub fn at(mem: &[u64], a: u64) -> Result<Stands, AtError>
    ensures { Shows mem.now a result }
{
    table::at(mem, a)
}
