// The id allocator's names.
ghost use Rattle.std.specs.Prelude.{◌≡◌};
ghost use Rattle.ids.specs.Held.{Needs};
ghost use Rattle.ids.specs.Contract.{Leaves};
ghost use Rattle.rangekeeper_ids.specs.Id.{Starts, Allocates, Frees, Tells};

// How many words a block for the ids lowest to highest takes; 0 where there are no such ids.
#[unsafe(no_mangle)]
pub extern "C" fn rk_id_words(lowest: u32, highest: u32) -> usize
    ensures { Needs lowest highest result }
{
    ids::words_needed(lowest, highest)
}

// Makes an allocator for the ids lowest to highest.
#[unsafe(no_mangle)]
pub extern "C" fn rk_id_new(mem: &mut [u64], lowest: u32, highest: u32) -> u32
    ensures { Starts mem.old lowest highest result mem.new }
{
    match ids::new(mem, lowest, highest) {
        Ok(()) => 0,
        Err(e) => e.number(),
    }
}

// Grants the lowest id that is not granted. C has no `Result`: the number says how it went, and the id goes out beside it.
#[unsafe(no_mangle)]
pub extern "C" fn rk_id_allocate(mem: &mut [u64], id: &mut u32) -> u32
    ensures { Allocates mem.old id.old result mem.new id.new }
{
    match ids::allocate(mem) {
        Ok(i) => {
            *id = i;
            0
        }
        Err(e) => e.number(),
    }
}

// Takes an id back.
#[unsafe(no_mangle)]
pub extern "C" fn rk_id_free(mem: &mut [u64], id: u32) -> u32
    ensures { Frees mem.old id result mem.new }
{
    match ids::free(mem, id) {
        Ok(_) => 0,
        Err(e) => e.number(),
    }
}

// Whether an id is granted now: 1 where it is, 0 for every other number and where the block holds no allocator.
#[unsafe(no_mangle)]
pub extern "C" fn rk_id_is_allocated(mem: &[u64], id: u32) -> u32
    ensures { Tells mem.now id result }
{
    ids::is_allocated(mem, id) as u32
}

// How many ids are not granted now; 0 where the block holds no allocator.
#[unsafe(no_mangle)]
pub extern "C" fn rk_id_free_count(mem: &[u64]) -> u64
    ensures { Leaves mem.now result }
{
    ids::free_count(mem)
}
