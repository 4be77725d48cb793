// The address allocator's names.
ghost use Rattle.std.specs.Prelude.{◌≡◌, ◌+◌, length};
ghost use Rattle.table.specs.Held.{words_for};
ghost use Rattle.addresses.specs.Meaning.{row_of};
ghost use Rattle.addresses.specs.Contract.{Says};
ghost use Rattle.rangekeeper.specs.Address.{Starts, Allocates, Frees, Shows, Leaves};

use ranges::{AllocPolicy, Error};
use table::AtError;

// How many words a block for `limit` ranges, free and granted together, takes; 0 where the limit is not 1 to 4,096.
#[unsafe(no_mangle)]
pub extern "C" fn rk_address_words(limit: usize) -> usize
    ensures { result ≡ words_for limit }
{
    addresses::words(limit)
}

// Makes an allocator for the `size` addresses from base on, with room for `limit` ranges.
#[unsafe(no_mangle)]
pub extern "C" fn rk_address_new(mem: &mut [u64], base: u64, size: u64, limit: usize) -> u32
    ensures { Starts mem.old base size limit result mem.new }
{
    match addresses::new(mem, base, size, limit) {
        Ok(()) => 0,
        Err(e) => e.number(),
    }
}

// Grants `size` addresses from a multiple of the alignment on: the lowest for policy 0, the highest for 1, those from `address` on
// for 2. A policy of another number is refused before the rest is looked at.
#[unsafe(no_mangle)]
pub extern "C" fn rk_address_allocate(
    mem: &mut [u64],
    size: u64,
    alignment: u64,
    policy: u32,
    address: u64,
    start: &mut u64,
) -> u32
    ensures { Allocates mem.old start.old size alignment policy address result mem.new start.new }
{
    match AllocPolicy::from_number(policy, address) {
        Ok(p) => match addresses::allocate(mem, size, alignment, p) {
            Ok(r) => {
                *start = r.start;
                0
            }
            Err(e) => e.number(),
        },
        Err(e) => e.number(),
    }
}

// Gives back the range from start to end, which must be granted, just so.
#[unsafe(no_mangle)]
pub extern "C" fn rk_address_free(mem: &mut [u64], start: u64, end: u64) -> u32
    ensures { Frees mem.old start end result mem.new }
{
    match addresses::free(mem, start, end) {
        Ok(_) => 0,
        Err(e) => e.number(),
    }
}

// The range that an address lies in: its first and its last address, and its tag, 0 for a free one.
#[unsafe(no_mangle)]
pub extern "C" fn rk_address_at(
    mem: &[u64],
    address: u64,
    start: &mut u64,
    end: &mut u64,
    tag: &mut u64,
) -> u32
    ensures { Shows mem.now address start.old end.old tag.old result start.new end.new tag.new }
{
    match addresses::at(mem, address) {
        Ok(stands) => {
            *start = stands.start;
            *end = stands.end;
            *tag = stands.tag;
            0
        }
        Err(AtError::Outside) => Error::OutOfRange.number(),
        Err(AtError::NoTable) => Error::NoState.number(),
    }
}

// How many ranges there are, free and granted together; 0 where the block holds no allocator.
#[unsafe(no_mangle)]
pub extern "C" fn rk_address_count(mem: &[u64]) -> u64
    ensures { Says mem.now (λ p. length (row_of p.state)) result }
{
    addresses::count(mem) as u64
}

// The pool's first address; 0 where the block holds no allocator.
#[unsafe(no_mangle)]
pub extern "C" fn rk_address_base(mem: &[u64]) -> u64
    ensures { Says mem.now (λ p. p.state.base) result }
{
    addresses::base(mem)
}

// The pool's last address; 0 where the block holds no allocator.
#[unsafe(no_mangle)]
pub extern "C" fn rk_address_end(mem: &[u64]) -> u64
    ensures { Says mem.now (λ p. p.state.top) (result + 1) }
{
    addresses::end(mem)
}

// How many addresses of the pool are free, and the size of the largest free range: 0 and 0 where nothing is free.
#[unsafe(no_mangle)]
pub extern "C" fn rk_address_left(mem: &[u64], free: &mut u64, largest: &mut u64) -> u32
    ensures { Leaves mem.now free.old largest.old result free.new largest.new }
{
    match left::ask(mem) {
        Ok(left) => {
            *free = left.free;
            *largest = left.largest;
            0
        }
        Err(e) => e.number(),
    }
}
