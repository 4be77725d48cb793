// How a table's ranges lie in blocks of lent words, and what is looked up there. The table alone calls this; what its header
// showed is asked for, and what depends on the rest of the words is promised where they are a table's.
#![tactic(auto)]

ghost use Rattle.std.specs.Prelude.{◌≡◌, ◌+◌, ◌-◌, ◌*◌, ◌<◌, ◌≤◌, length, get_or};
ghost use Rattle.cells.specs.Cells.{Passed, Locates};
ghost use Rattle.places.specs.Places.{SearchUp, SearchDown};
ghost use Rattle.blocks.specs.Blocks.{blocks_of, size_at, bound_at, starts_at, tags_at, last_at, past_at, starts_of, tags_of, Within, Sound, Ready};
ghost use Rattle.blocks.specs.Looks.{Headed, There, Finds};

// The word that lent words with a table have.
pub const MARK: u64 = 0x524b_7461_626c_6532;

// How many blocks are in use, as the header says.
#[tactic(auto, unfolding(crate::specs::Looks::Headed))]
pub fn header(mem: &[u64]) -> Option<usize>
    ensures { Headed mem.now result }
{
    let len = mem.len();
    if len < 329 || mem[6] != MARK {
        return None;
    }
    let (room, n, nb, most) = (mem[0], mem[1], mem[4], mem[5]);
    if 128 < room
        || room < nb
        || nb == 0
        || len < 136 + (room as usize) * 193
        || room * 32 < most
        || most < n
    {
        return None;
    }
    Some(nb as usize)
}

// How many ranges block b has.
pub fn size_of(mem: &[u64], b: usize) -> usize
    requires { Sound mem.now × (b < blocks_of mem.now) }
    ensures { result ≡ size_at b mem.now }
{
    (mem[136 + b * 129] % 64) as usize
}

// The start of range i of block b, and its tag: two names for one line each are no longer than one with a switch.
pub fn start_of(mem: &[u64], b: usize, i: usize) -> u64
    requires { Sound mem.now × (b < blocks_of mem.now) × (i < size_at b mem.now) }
    ensures { result ≡ get_or (starts_at b mem.now) i 0 }
{
    mem[137 + b * 129 + i]
}

pub fn tag_of(mem: &[u64], b: usize, i: usize) -> u64
    requires { Sound mem.now × (b < blocks_of mem.now) × (i < size_at b mem.now) }
    ensures { result ≡ get_or (tags_at b mem.now) i 0 }
{
    mem[201 + b * 129 + i]
}

// Of the blocks `from`, from + by, from + 2 by .. before `to`: the last whose first start is at most a. A twin of `cells::pass`, which says why.
fn pass(mem: &[u64], from: usize, to: usize, by: usize, a: u64) -> usize
    requires { (0 < by) × (by ≤ 8) × (from < to) × (to ≤ 128) × (136 + to * 129 ≤ length mem.now) × (get_or mem.now (137 + from * 129) 0 ≤ a) }
    ensures { Passed (λ p. get_or mem.now (137 + p * 129) 0) a to by result }
{
    let mut last = from;
    let mut k = from + by;
    // no `for` in steps, as there
    while k < to {
        last = cells::step(mem[137 + k * 129], a, last, k);
        k += by;
    }
    last
}

// The block that has the address a, by the blocks' first starts: every eighth, and then those between two of them.
fn find_block(mem: &[u64], nb: usize, a: u64) -> usize
    requires { (0 < nb) × (nb ≤ 128) × (136 + nb * 129 ≤ length mem.now) × (get_or mem.now 137 0 ≤ a) }
    ensures { Passed (λ p. get_or mem.now (137 + p * 129) 0) a nb 1 result }
{
    let near = pass(mem, 0, nb, 8, a);
    let to = (near + 8).min(nb);
    pass(mem, near, to, 1, a)
}

// Where the address a lies among the starts of block b.
fn locate_in(mem: &[u64], b: usize, a: u64) -> Option<usize>
    requires { Sound mem.now × (b < blocks_of mem.now) }
    ensures { Locates (starts_at b mem.now) a result }
{
    let at = 137 + b * 129;
    let n = size_of(mem, b);
    cells::locate(&mem[at..at + n], a)
}

// The block and in it the range that starts at a or last below it.
pub fn find(mem: &[u64], nb: usize, a: u64) -> Option<(usize, usize)>
    requires { Sound mem.now × (nb ≡ blocks_of mem.now) }
    ensures { Finds mem.now a result }
{
    if a < mem[137] {
        return None;
    }
    let b = find_block(mem, nb, a);
    let i = locate_in(mem, b, a)?;
    Some((b, i))
}

// The last address of block b's last range.
#[tactic(auto, unfolding(crate::specs::Blocks::last_at))]
pub fn end_of_block(mem: &[u64], nb: usize, b: usize) -> u64
    requires { Sound mem.now × (nb ≡ blocks_of mem.now) × (b < nb) }
    ensures { result ≡ last_at b mem.now }
{
    let c = b + 1;
    if c < nb {
        mem[137 + c * 129].saturating_sub(1)
    } else {
        mem[3]
    }
}

// The last address of range i of block b.
#[tactic(auto, using(crate::proofs::Parts::start_at, crate::proofs::Parts::start_past))]
pub fn end_of(mem: &[u64], nb: usize, b: usize, i: usize) -> u64
    requires { Sound mem.now × (nb ≡ blocks_of mem.now) × There mem.now b i }
    ensures { result + 1 ≡ get_or (starts_at b mem.now) (i + 1) (past_at b mem.now) }
{
    let j = i + 1;
    let n = size_of(mem, b);
    if j < n {
        mem[137 + b * 129 + j].saturating_sub(1)
    } else {
        end_of_block(mem, nb, b)
    }
}

// Up and down are written out each, as in `places`: what is promised differs, not a constant.
// The lowest place in block b. A block whose bound is too low is passed over.
fn look_up(mem: &[u64], nb: usize, b: usize, more: u64, mask: u64) -> Option<u64>
    requires { Sound mem.now × (nb ≡ blocks_of mem.now) × (b < nb) }
    ensures { Within (past_at b mem.now) (starts_at b mem.now) (tags_at b mem.now) (bound_at b mem.now) → SearchUp (starts_at b mem.now) (tags_at b mem.now) (last_at b mem.now) more mask result }
{
    if mem[8 + b] < more {
        return None;
    }
    let at = 137 + b * 129;
    let n = size_of(mem, b);
    let e = end_of_block(mem, nb, b);
    places::scan_up(&mem[at..at + n], &mem[at + 64..at + 64 + n], e, more, mask)
}

// The highest place in block b.
fn look_down(mem: &[u64], nb: usize, b: usize, more: u64, mask: u64) -> Option<u64>
    requires { Sound mem.now × (nb ≡ blocks_of mem.now) × (b < nb) }
    ensures { Within (past_at b mem.now) (starts_at b mem.now) (tags_at b mem.now) (bound_at b mem.now) → SearchDown (starts_at b mem.now) (tags_at b mem.now) (last_at b mem.now) more mask result }
{
    if mem[8 + b] < more {
        return None;
    }
    let at = 137 + b * 129;
    let n = size_of(mem, b);
    let e = end_of_block(mem, nb, b);
    places::scan_down(&mem[at..at + n], &mem[at + 64..at + 64 + n], e, more, mask)
}

// The lowest place in the table.
pub fn search_up(mem: &[u64], nb: usize, more: u64, mask: u64) -> Option<u64>
    requires { Sound mem.now × (nb ≡ blocks_of mem.now) }
    ensures { Ready mem.now → SearchUp (starts_of mem.now) (tags_of mem.now) (get_or mem.now 3 0) more mask result }
{
    for b in 0..nb {
        if let Some(a) = look_up(mem, nb, b, more, mask) {
            return Some(a);
        }
    }
    None
}

// The highest place in the table.
pub fn search_down(mem: &[u64], nb: usize, more: u64, mask: u64) -> Option<u64>
    requires { Sound mem.now × (nb ≡ blocks_of mem.now) }
    ensures { Ready mem.now → SearchDown (starts_of mem.now) (tags_of mem.now) (get_or mem.now 3 0) more mask result }
{
    for b in (0..nb).rev() {
        if let Some(a) = look_down(mem, nb, b, more, mask) {
            return Some(a);
        }
    }
    None
}
