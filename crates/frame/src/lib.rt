// The frame of a saved allocator: a kind, a version, three numbers, how many words, a check of these; then the words, and a check of
// all. Every public function is total: it demands nothing of its caller.
#![tactic(auto)]

ghost use Rattle.std.specs.Prelude.{◌≡◌, ◌+◌, ◌*◌, ◌≤◌, length};
ghost use Rattle.octets.specs.Octets.{word, check as check_of, Puts};
ghost use Rattle.frame.specs.Frame.{Opens, Seals};
ghost use Rattle.frame.specs.Flaws.{number_of};
ghost use Rattle.frame.specs.declared.LoadError.TheVariants.{Bad};

// Why bytes are no saved allocator. The order is that of the numbers, which never change.
#[derive(Clone, Copy, PartialEq, Eq)]
pub enum Flaw {
    // They end too early.
    Short,
    // They are of another kind, or of another version.
    Kind,
    Version,
    // A check is not that of what stands before it.
    Check,
    // No allocator is made of these numbers: the pool or the interval, the limit, how many ranges, the next new id.
    Bounds,
    Limit,
    Count,
    // A range's state is neither free nor granted.
    State,
    // A range does not start where it is to: at the pool's first address, or behind the one before. A freed id is not above the one before.
    Order,
    // It starts past the pool's last address. A freed id is not below the next new one.
    Outside,
    // Two free ranges touch.
    Touching,
}

impl Flaw {
    // The number by which C knows the flaw: none is the number of a reason of the allocators.
    pub fn number(self) -> u32
        ensures { result ≡ number_of self }
    {
        match self {
            Flaw::Short => 101,
            Flaw::Kind => 102,
            Flaw::Version => 103,
            Flaw::Check => 104,
            Flaw::Bounds => 105,
            Flaw::Limit => 106,
            Flaw::Count => 107,
            Flaw::State => 108,
            Flaw::Order => 109,
            Flaw::Outside => 110,
            Flaw::Touching => 111,
        }
    }
}

// The three numbers of a frame, and how many words it is around.
#[derive(Clone, Copy, PartialEq, Eq)]
pub struct Opened {
    pub first: u64,
    pub second: u64,
    pub third: u64,
    pub words: usize,
}

// A flaw, and the place of the byte at which it stands.
#[derive(Clone, Copy, PartialEq, Eq)]
pub struct Fault {
    pub flaw: Flaw,
    pub place: usize,
}

impl Fault {
    // The flaw at this byte.
    pub fn at(flaw: Flaw, place: usize) -> Fault
        ensures flaw { result.flaw ≡ flaw }
        ensures place { result.place ≡ place }
    {
        Fault { flaw, place }
    }
}

// Why no allocator was written: too few bytes, or a block whose header is no allocator's.
#[derive(Clone, Copy, PartialEq, Eq)]
pub enum SaveError {
    NoRoom,
    NoState,
}

// Why no allocator was read: a block that is too short, or what is wrong with the bytes.
#[derive(Clone, Copy, PartialEq, Eq)]
pub enum LoadError {
    NoRoom,
    Bad(Fault),
}

impl From<Fault> for LoadError {
    ghost from_gives = { λ f e. e ≡ Bad f };

    fn from(fault: Fault) -> LoadError {
        LoadError::Bad(fault)
    }
}

// The frame of this kind with which the bytes begin.
pub fn read(bs: &[u8], kind: u64) -> Result<Opened, Fault>
    ensures { Opens bs.now kind result }
{
    let all = bs.len() / 8;
    if all < 8 {
        return Err(Fault::at(Flaw::Short, bs.len()));
    }
    if octets::get(bs, 0) != kind {
        return Err(Fault::at(Flaw::Kind, 0));
    }
    if octets::get(bs, 1) != 1 {
        return Err(Fault::at(Flaw::Version, 8));
    }
    if octets::get(bs, 6) != octets::check(bs, 6) {
        return Err(Fault::at(Flaw::Check, 48));
    }
    let n = octets::get(bs, 5);
    if ((all - 8) as u64) < n {
        return Err(Fault::at(Flaw::Short, bs.len()));
    }
    let words = n as usize;
    if octets::get(bs, 7 + words) != octets::check(bs, 7 + words) {
        return Err(Fault::at(Flaw::Check, 8 * (7 + words)));
    }
    Ok(Opened {
        first: octets::get(bs, 2),
        second: octets::get(bs, 3),
        third: octets::get(bs, 4),
        words,
    })
}

// Word i is the check of those before it.
fn close(bs: &mut [u8], i: usize)
    requires { 8 * i + 8 ≤ length bs.old }
    ensures { Puts bs.old i (check_of (word bs.old) i) bs.new }
{
    let c = octets::check(bs, i);
    octets::put(bs, i, c);
}

fn seal_in(bs: &mut [u8], kind: u64, numbers: Opened)
    requires { 8 * (8 + numbers.words) ≤ length bs.old }
    ensures { Seals kind numbers.first numbers.second numbers.third numbers.words bs.old bs.new }
{
    let Opened {
        first,
        second,
        third,
        words,
    } = numbers;
    let head = [kind, 1, first, second, third, words as u64];
    for (i, x) in head.iter().enumerate() {
        octets::put(bs, i, *x);
    }
    close(bs, 6);
    close(bs, 7 + words);
}

// Puts a frame with these numbers around the words from word 7 on. Where there is no room for it, nothing is done.
pub fn seal(bs: &mut [u8], kind: u64, numbers: Opened)
    ensures { Seals kind numbers.first numbers.second numbers.third numbers.words bs.old bs.new }
{
    let all = bs.len() / 8;
    if 8 <= all && numbers.words <= all - 8 {
        seal_in(bs, kind, numbers);
    }
}
