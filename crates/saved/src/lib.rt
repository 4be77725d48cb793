// An address allocator written into lent bytes, to be read again by `loaded`. The block is walked range by range by the allocator's
// public functions alone. Every public function is total: it demands nothing of its caller.
#![tactic(auto)]

ghost use Rattle.std.specs.Prelude.{◌+◌, ◌*◌, ◌≤◌, length};
ghost use Rattle.addresses.specs.Contract.{Says};
ghost use Rattle.saved.specs.Format.{size};
ghost use Rattle.saved.specs.Contract.{Saves};
ghost use Rattle.saved.specs.Steps.{Numbers, Carries, Rows};

use frame::{Opened, SaveError};

// The letters RKsavedA: what the first eight bytes of a saved address allocator are.
pub const KIND: u64 = 0x4164_6576_6173_4b52;

// How many ranges the allocator has; none where the block's header is no allocator's.
fn range_count(mem: &[u64]) -> Option<usize>
    ensures { Numbers mem.now result }
{
    let n = addresses::count(mem);
    if n == 0 || 4096 < n { None } else { Some(n) }
}

// How many bytes the allocator takes when it is saved; 0 where the block's header is no allocator's.
// Kept a number and no Option: C asks it, and it could not fail.
pub fn bytes(mem: &[u64]) -> usize
    ensures { Says mem.now size result }
{
    let Some(n) = range_count(mem) else {
        return 0;
    };
    64 + 16 * n
}

// Writes what stands at a as range i, and answers where the next one starts.
fn carry(mem: &[u64], bs: &mut [u8], a: u64, i: usize) -> u64
    requires { 72 + 16 * i ≤ length bs.old }
    ensures { Carries mem.now bs.old a i result bs.new }
{
    let Ok(stands) = addresses::at(mem, a) else {
        return a;
    };
    octets::put(bs, 7 + 2 * i, stands.start);
    octets::put(bs, 8 + 2 * i, stands.tag);
    stands.end.wrapping_add(1)
}

// Writes the n ranges from base on.
fn rows(mem: &[u64], bs: &mut [u8], base: u64, n: usize)
    requires { 64 + 16 * n ≤ length bs.old }
    ensures { Rows mem.now bs.old base n bs.new }
{
    let mut a = base;
    for i in 0..n {
        a = carry(mem, bs, a, i);
    }
}

// Writes the allocator that the block holds into the first bytes. Refused, in this order: "no state" for a block whose header is no
// allocator's; "no room" for too few bytes. After a refusal no byte is changed, and no byte behind those that are written ever is.
pub fn save(mem: &[u64], bs: &mut [u8]) -> Result<usize, SaveError>
    ensures { Saves mem.now bs.old result bs.new }
{
    let n = range_count(mem).ok_or(SaveError::NoState)?;
    if bs.len() < 64 + 16 * n {
        return Err(SaveError::NoRoom);
    }
    let base = addresses::base(mem);
    let numbers = Opened {
        first: base,
        second: addresses::end(mem),
        third: table::limit(mem) as u64,
        words: 2 * n,
    };
    rows(mem, bs, base, n);
    frame::seal(bs, KIND, numbers);
    Ok(64 + 16 * n)
}
