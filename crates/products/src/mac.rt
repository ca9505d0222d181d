// Kinds 1 to 7.
ghost use Rattle.std.specs.Prelude.{◌≡◌, ℕ, ◌-◌, ◌*◌, ◌<◌, ◌≤◌, true, List, length, ℤ, pos, slice_index_or, unsigned_abs};
ghost use Rattle.accumulator.specs.Limit.{is_accumulator};
ghost use Rattle.accumulator.specs.Mode.{mode_of};
ghost use Rattle.accumulator.specs.declared.mode.Target.{Target};
ghost use Rattle.address.specs.Region.{all_words, access_trap};
ghost use Rattle.operations.specs.Decode.{action_of, write_back_of};
ghost use Rattle.state.specs.State.{register};
ghost use Rattle.effects.specs.Access.{back_access};
ghost use Rattle.effects.specs.Mac.{mac_product, loaded, arrived, mac_accesses, mac_registers, exact_by};
ghost use Rattle.effects.specs.declared.effect.Value.TheVariants.{Scaled};
ghost use Rattle.machine.specs.Write.{value_word, put_register, put_memory};
ghost use Rattle.form.specs.Words.{kind_in, prefetch_in, mac_in};
ghost use Rattle.fields.specs.Carried.{Carries, Accumulators, always, exact_of};
ghost use Rattle.products.specs.Fetched.{SquareIs, Accumulates, Fetches, Fetching, is_pair};

use accumulator::mode::Mode;
use accumulator::product::{Factor, product};
use accumulator::store::store;
use address::region::Region;
use address::trap::Trap;
use address::word::ByteAddress;
use effects::access::Space;
use fields::pointer::{step_back, step_pointer, step_prefetch};
use fields::read::{prefetch, reach_back, read_at};
use fields::registers::{register, set_register};
use fields::words::Coded;
use state::settings::Settings;

// A register's word as a factor, read by US of the mode word.
fn factor(mode: u16, x: u16) -> Factor
    ensures { result ≡ record { word = x; unsigned = (mode_of mode).unsigned } }
{
    let taken = Mode::of(mode);
    Factor {
        word: x,
        unsigned: taken.unsigned,
    }
}

// The word of a prefetch arrives, where there is a read.
fn load(from: u16, to: u16, x: u16, w: &mut [u16; 14])
    requires { to < 14 }
    ensures { (c sum : ℕ) → w.new ≡ loaded (prefetch_in from c sum) to x w.old }
{
    if from != 0 {
        set_register(w, to, x);
    }
}

// The words of an operation of kinds 1 to 7.
#[derive(Clone, Copy)]
pub struct MacWords<'a> {
    pub coded: Coded<'a>,
    pub ghost class: { kind_in coded.code.now coded.at ≤ 7 },
}

// What an operation reads: what its pointers and W13 hold, and the words x and y.
#[derive(Clone, Copy)]
pub struct Fetched {
    pub xa: ByteAddress,
    pub ya: ByteAddress,
    pub ba: ByteAddress,
    pub x: u16,
    pub y: u16,
}

// The write-back of the other accumulator, word 10; a is what W13 held, t the target's number.
fn write_back(
    mode: u16,
    back: u16,
    a: ByteAddress,
    t: usize,
    acc: &[i64; 2],
    w: &mut [u16; 14],
    memory: &mut [u16],
)
    requires t_bound { t < 2 }
    requires a_value { 1 < back → access_trap (all_words (length memory.old)) a.0 ≡ 0 }
    ensures w_after { (settings : Settings) (old : List ℕ) → register old 13 ≡ a.0 → w.new ≡ put_register (back_access settings (write_back_of back) old (length memory.old)).place (value_word (mode_of mode) (Scaled true (slice_index_or acc.now (1 - t) (pos 0)))) w.old }
    ensures memory_after { (settings : Settings) (old : List ℕ) → register old 13 ≡ a.0 → memory.new ≡ put_memory (back_access settings (write_back_of back) old (length memory.old)).place (value_word (mode_of mode) (Scaled true (slice_index_or acc.now (1 - t) (pos 0)))) memory.old }
{
    if back != 0 {
        let other = 1 - t;
        let v = acc[other];
        let stored = store(Mode::of(mode), true, v);
        if back == 1 {
            w[13] = stored.word;
        } else {
            let i = a.word();
            let at = i.0;
            memory[at] = stored.word;
        }
    }
}

// The exact result of kinds 2 to 5 of the accumulator v and the product p: 3 adds, 4 subtracts, 2 and 5 replace. A square is a product of equal factors.
pub fn accumulated(kind: u16, v: i64, p: i64) -> i64
    requires v_value { is_accumulator v ≡ true }
    requires p_bound { unsigned_abs p ≤ 65535 * 65535 * 2 }
    ensures { Accumulates kind v p result }
{
    if kind == 3 {
        v + p
    } else if kind == 4 {
        v - p
    } else {
        p
    }
}

// The exact result by the kind, if it has one: 1 clears, 7 keeps, 6 adds.
fn mac_result(kind: u16, v: i64, p: i64) -> Option<i64>
    requires v_value { is_accumulator v ≡ true }
    requires p_bound { unsigned_abs p ≤ 65535 * 65535 * 2 }
    ensures { (t : Target) (square : ℤ) → 1 ≤ kind → kind ≤ 7 → SquareIs kind square p → exact_of t result ≡ exact_by (action_of kind) t v p square }
{
    match kind {
        1 => Some(0),
        6 => Some(accumulated(3, v, p)),
        7 => None,
        _ => Some(accumulated(kind, v, p)),
    }
}

impl<'a> MacWords<'a> {
    // The product of m and n, words 2 and 3, by IF of the mode word.
    pub fn product(self, mode: u16, w: &[u16; 14]) -> i64
        ensures value { result ≡ mac_product (mode_of mode) (mac_in self.entry.coded.code.now self.entry.coded.at) w.now }
        ensures result_bound { unsigned_abs result ≤ 65535 * 65535 * 2 }
    {
        let m = register(w, self.coded.word(2));
        let n = register(w, self.coded.word(3));
        let taken = Mode::of(mode);
        product(taken.integer, factor(mode, m), factor(mode, n))
    }

    // The words of both prefetches arrive, or their difference.
    fn arrive(self, x: u16, y: u16, w: &mut [u16; 14])
        ensures { w.new ≡ arrived (mac_in self.entry.coded.code.now self.entry.coded.at) x y w.old }
    {
        let which = self.coded.kind();
        let xto = self.coded.word(8);
        let yto = self.coded.word(9);
        let first = self.coded.word(4);
        let second = self.coded.word(6);
        if (which == 5) | (which == 6) {
            set_register(w, xto, x.wrapping_sub(y));
        } else {
            load(first, xto, x, w);
            load(second, yto, y, w);
        }
    }

    // Pointers change, then the words read through the old ones arrive.
    fn step(self, settings: Settings, f: Fetched, w: &mut [u16; 14])
        ensures { (memory : List ℕ) → Fetches settings self.entry.coded.code.now self.entry.coded.at w.old memory f → w.new ≡ mac_registers (mac_in self.entry.coded.code.now self.entry.coded.at) (mac_accesses settings (mac_in self.entry.coded.code.now self.entry.coded.at) w.old (length memory)) w.old memory }
    {
        step_prefetch(
            Space::X,
            settings,
            self.coded.word(4),
            f.xa,
            self.coded.word(5),
            w,
        );
        step_prefetch(
            Space::Y,
            settings,
            self.coded.word(6),
            f.ya,
            self.coded.word(7),
            w,
        );
        step_back(settings, self.coded.word(10), f.ba, w);
        self.arrive(f.x, f.y, w);
    }

    // The X read, the Y read and the write's trap, in this order.
    fn fetch(self, settings: Settings, w: &[u16; 14], memory: &[u16]) -> Result<Fetched, Trap>
        requires xwords_in_bounds { settings.xwords ≤ length memory.now }
        ensures { Fetching settings self.entry.coded.code.now self.entry.coded.at w.now memory.now result }
    {
        let first = self.coded.word(4);
        let second = self.coded.word(6);
        let xa = ByteAddress(register(w, first));
        let ya = ByteAddress(register(w, second));
        let ba = ByteAddress(w[13]);
        let xword = prefetch(Space::X, settings, first, xa, w, memory)?;
        let yword = prefetch(Space::Y, settings, second, ya, w, memory)?;
        reach_back(self.coded.word(10), ba, memory.len())?;
        Ok(Fetched {
            xa,
            ya,
            ba,
            x: xword,
            y: yword,
        })
    }

    // With no trap: registers, write-back and result.
    fn carry_out(
        self,
        settings: Settings,
        mode: u16,
        f: Fetched,
        acc: &[i64; 2],
        w: &mut [u16; 14],
        memory: &mut [u16],
    ) -> Option<i64>
        requires accumulators { Accumulators acc.now }
        requires fetches { Fetches settings self.coded.code.now self.coded.at w.old memory.old f }
        ensures { Carries settings mode self.entry.coded.code.now self.entry.coded.at acc.now w.old memory.old w.new memory.new (Ok result) }
    {
        let t = self.coded.target();
        let p = self.product(mode, w);
        self.step(settings, f, w);
        write_back(mode, self.coded.word(10), f.ba, t, acc, w, memory);
        mac_result(self.coded.kind(), acc[t], p)
    }
}

// Kinds 2 to 4 with two reads at pointers and no write-back: most steps of a filter.
pub fn is_pair(coded: Coded) -> bool
    ensures { result ≡ is_pair coded.entry.code.now coded.entry.at }
{
    let k = coded.kind();
    let x = coded.word(4);
    let y = coded.word(6);
    let back = coded.word(10);
    (2 <= k) & (k <= 4) & (x / 2 == 4) & (y / 2 == 5) & (back == 0)
}

// The words of such a pair.
#[derive(Clone, Copy)]
pub struct PairWords<'a> {
    pub coded: Coded<'a>,
    pub ghost pair: { is_pair coded.code.now coded.at ≡ true },
}

impl<'a> PairWords<'a> {
    // What it reads. It asks for no space, sum or write-back, so it stands beside that of all kinds for its speed.
    pub fn fetch(self, settings: Settings, w: &[u16; 14], memory: &[u16]) -> Result<Fetched, Trap>
        requires xwords_in_bounds { settings.xwords ≤ length memory.now }
        ensures { Fetching settings self.entry.coded.code.now self.entry.coded.at w.now memory.now result }
    {
        let xa = ByteAddress(register(w, self.coded.word(4)));
        let ya = ByteAddress(register(w, self.coded.word(6)));
        let ba = ByteAddress(w[13]);
        let x = read_at(Region::x_part(settings.xwords), xa, memory)?;
        let y = read_at(Region::y_part(settings.xwords, memory.len()), ya, memory)?;
        Ok(Fetched { xa, ya, ba, x, y })
    }

    // Its words arrive.
    pub fn arrive(self, x: u16, y: u16, w: &mut [u16; 14])
        ensures { w.new ≡ arrived (mac_in self.entry.coded.code.now self.entry.coded.at) x y w.old }
    {
        set_register(w, self.coded.word(8), x);
        set_register(w, self.coded.word(9), y);
    }
}

// A pair is carried out. It has a result, and memory stays.
pub fn pair(
    coded: Coded,
    settings: Settings,
    mode: u16,
    acc: &[i64; 2],
    w: &mut [u16; 14],
    memory: &[u16],
) -> Result<i64, Trap>
    requires at_value { is_pair coded.code.now coded.at ≡ true }
    requires xwords_in_bounds { settings.xwords ≤ length memory.now }
    requires accumulators { Accumulators acc.now }
    ensures { Carries settings mode coded.entry.code.now coded.entry.at acc.now w.old memory.now w.new memory.now (always result) }
{
    let words = PairWords { coded };
    let f = words.fetch(settings, w, memory)?;
    let t = coded.target();
    let p = MacWords { coded }.product(mode, w);
    step_pointer(settings.x, coded.word(4), f.xa, coded.word(5), w);
    step_pointer(settings.y, coded.word(6), f.ya, coded.word(7), w);
    words.arrive(f.x, f.y, w);
    Ok(accumulated(coded.kind(), acc[t], p))
}

// Kinds 1 to 7: the operation is carried out.
pub fn mac(
    coded: Coded,
    settings: Settings,
    mode: u16,
    acc: &[i64; 2],
    w: &mut [u16; 14],
    memory: &mut [u16],
) -> Result<Option<i64>, Trap>
    requires at_bound { kind_in coded.code.now coded.at ≤ 7 }
    requires xwords_in_bounds { settings.xwords ≤ length memory.old }
    requires accumulators { Accumulators acc.now }
    ensures { Carries settings mode coded.entry.code.now coded.entry.at acc.now w.old memory.old w.new memory.new result }
{
    if is_pair(coded) {
        return Ok(Some(pair(coded, settings, mode, acc, w, memory)?));
    }
    let words = MacWords { coded };
    let f = words.fetch(settings, w, memory)?;
    Ok(words.carry_out(settings, mode, f, acc, w, memory))
}
