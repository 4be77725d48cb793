// An id allocator written into lent bytes, to be read again by `loaded_ids`. The block is asked id by id, by the allocator's public
// functions alone. Every public function is total: it demands nothing of its caller.
#![tactic(auto)]

ghost use Rattle.std.specs.Prelude.{◌+◌, ◌*◌, ◌^◌, ◌≤◌, length};
ghost use Rattle.saved_ids.specs.Contract.{Saves, Sizes};
ghost use Rattle.saved_ids.specs.Steps.{Counts, Measures, Notes, Lists};

use frame::{Opened, SaveError};
use ids::Interval;

// The letters RKsavedI: what the first eight bytes of a saved id allocator are.
pub const KIND: u64 = 0x4964_6576_6173_4b52;

// The interval with the next new id, and how many ids were granted and are free now.
#[derive(Clone, Copy)]
struct Extent {
    ids: Interval,
    freed: usize,
}

// How many of the n ids from low on are not granted.
fn count(mem: &[u64], low: u32, n: usize) -> usize
    requires { low + n ≤ 2 ^ 32 }
    ensures { Counts mem.now low n result }
{
    let mut k = 0;
    for i in 0..n {
        if !ids::is_allocated(mem, low + i as u32) {
            k += 1;
        }
    }
    k
}

// What there is to write.
fn measure(mem: &[u64]) -> Option<Extent>
    ensures { Measures mem.now result }
{
    let ids = ids::bounds(mem)?;
    if ids.next < ids.low as u64 || ids.high as u64 + 1 < ids.next {
        return None;
    }
    let freed = count(mem, ids.low, (ids.next - ids.low as u64) as usize);
    Some(Extent { ids, freed })
}

// How many bytes the allocator takes when it is saved; 0 where the block's header is no allocator's.
// Kept a number and no Option: C asks it, and it could not fail.
pub fn bytes(mem: &[u64]) -> usize
    ensures { Sizes mem.now result }
{
    let Some(extent) = measure(mem) else {
        return 0;
    };
    64 + 8 * extent.freed
}

// Writes the id as freed id j of k where it is not granted, and answers how many are written now.
fn note(mem: &[u64], bs: &mut [u8], id: u32, j: usize, k: usize) -> usize
    requires { 64 + 8 * k ≤ length bs.old }
    ensures { Notes mem.now bs.old id j k result bs.new }
{
    if ids::is_allocated(mem, id) || k <= j {
        return j;
    }
    octets::put(bs, 7 + j, id as u64);
    j + 1
}

// Writes those of the n ids from low on that are not granted, k of them.
fn list(mem: &[u64], bs: &mut [u8], low: u32, n: usize, k: usize)
    requires n_bound { low + n ≤ 2 ^ 32 }
    requires k_in_bounds { 64 + 8 * k ≤ length bs.old }
    ensures { Lists mem.now bs.old low n k bs.new }
{
    let mut j = 0;
    for i in 0..n {
        j = note(mem, bs, low + i as u32, j, k);
    }
}

// Writes the allocator that the block holds into the first bytes. Refused, in this order: "no state" for a block whose header is no
// allocator's; "no room" for too few bytes. After a refusal no byte is changed, and no byte behind those that are written ever is.
pub fn save(mem: &[u64], bs: &mut [u8]) -> Result<usize, SaveError>
    ensures { Saves mem.now bs.old result bs.new }
{
    let Extent { ids, freed } = measure(mem).ok_or(SaveError::NoState)?;
    if bs.len() < 64 + 8 * freed {
        return Err(SaveError::NoRoom);
    }
    let numbers = Opened {
        first: ids.low as u64,
        second: ids.high as u64,
        third: ids.next,
        words: freed,
    };
    list(
        mem,
        bs,
        ids.low,
        (ids.next - ids.low as u64) as usize,
        freed,
    );
    frame::seal(bs, KIND, numbers);
    Ok(64 + 8 * freed)
}
