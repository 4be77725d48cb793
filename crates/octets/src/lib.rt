// Words in lent bytes, eight bytes each with the least first, and a check of the first words.
// Every public function is total: it demands nothing of its caller.
#![tactic(auto)]

ghost use Rattle.octets.specs.Octets.{Gets, Puts, Checks};

// Word i; 0 where the bytes end before its last.
// Kept a number and no Option: it could not fail, and its contract is of a number.
pub fn get(bs: &[u8], i: usize) -> u64
    ensures { Gets bs.now i result }
{
    let (words, _) = bs.as_chunks::<8>();
    match words.get(i) {
        Some(word) => u64::from_le_bytes(*word),
        None => 0,
    }
}

// Makes word i say x. Where the bytes end before its last, nothing is done.
pub fn put(bs: &mut [u8], i: usize, x: u64)
    ensures { Puts bs.old i x bs.new }
{
    if i < bs.len() / 8 {
        bs[8 * i..8 * i + 8].copy_from_slice(&x.to_le_bytes());
    }
}

// The check of the first n words; 0 where the bytes end before them.
// Kept a number and no Option, as `get` is.
pub fn check(bs: &[u8], n: usize) -> u64
    ensures { Checks bs.now n result }
{
    if bs.len() / 8 < n {
        return 0;
    }
    let mut c = 0u64;
    for i in 0..n {
        c = c.wrapping_mul(3).wrapping_add(get(bs, i));
    }
    c
}
