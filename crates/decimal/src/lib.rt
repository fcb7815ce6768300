// Numbers in decimal, one by one and in lists: each has one spelling, which is read and written. The writers are no `Display`, and take the
// slice with a place in it, since each byte that they write and all that stays of the slice is promised (`Wrote`).
#![tactic(auto)]

ghost use Rattle.std.specs.Prelude.{◌≡◌, ◌+◌, ◌*◌, ◌≤◌, ℕ, List, [], ◌∷◌, leb, nat_abs, length, get_or, MatchOption, ◌<◌, ◌≢◌, ◌⊎◌};
ghost use Rattle.std.proofs.Common.{lit≤};
ghost use Rattle.limits.specs.Limits.{most_placements, largest_written};
ghost use Rattle.decimal.specs.Spelling.{decimal, signed, largest_word, line, Word, Small, Each};
ghost use Rattle.decimal.specs.Scan.{Got, digit_of, got_of, number, signed_number, read_list, ListRead};
ghost use Rattle.decimal.specs.Scans.{Scans};
ghost use Rattle.decimal.specs.NumberLaws.{numbers};
ghost use Rattle.decimal.specs.SignedLaws.{signed_numbers};
ghost use Rattle.decimal.specs.Written.{all_small, separator_of, Wrote};

// The least number that may have a sign.
const LEAST_WRITTEN: i32 = -limits::LARGEST_WRITTEN;

// The largest such number without its sign.
const LARGEST_SIZE: u32 = limits::LARGEST_WRITTEN as u32;

// A number as a record spells it. What is spelt is read, and what is read was spelt.
pub trait Spelled: Copy {
    // which values have a spelling
    ghost Fits: { Self → Type 0 };

    ghost spell: { Self → List ℕ };

    ghost scan: { List ℕ → Got Self };

    // the most bytes that a spelling has
    ghost most: { ℕ };

    // The number at the front of the part and the place behind it.
    fn read(part: &[u8]) -> Option<(Self, usize)>
        ensures { got_of result ≡ scan part.now };

    // How many bytes the number has.
    fn width(self) -> usize
        requires { Fits self }
        ensures { (result ≡ length (spell self)) × (result ≤ most) };

    // Writes the number at the place, and answers the place behind it.
    fn write(self, out: &mut [u8], at: usize) -> usize
        requires { Fits self × (at + length (spell self) ≤ length out.old) }
        ensures { Wrote (spell self) out.old at out.new result };

    ghost laws: { Scans Fits spell scan };

    // so sums of widths do not wrap
    ghost most_is_small: { most ≤ 11 };
}

impl Spelled for u32 {
    ghost Fits = { Word };

    ghost spell = { decimal };

    ghost scan = { number };

    ghost most = { 10 };

    ghost laws = { numbers };

    ghost most_is_small = { lit≤ tt };

    fn read(part: &[u8]) -> Option<(u32, usize)> {
        read_u32(part)
    }

    fn width(self) -> usize {
        width(self)
    }

    fn write(self, out: &mut [u8], at: usize) -> usize {
        write_u32(out, at, self)
    }
}

impl Spelled for i32 {
    ghost Fits = { Small };

    ghost spell = { signed };

    ghost scan = { signed_number };

    ghost most = { 11 };

    ghost laws = { signed_numbers };

    ghost most_is_small = { lit≤ tt };

    fn read(part: &[u8]) -> Option<(i32, usize)> {
        read_signed(part)
    }

    fn width(self) -> usize {
        signed_width(self)
    }

    fn write(self, out: &mut [u8], at: usize) -> usize {
        write_signed(out, at, self)
    }
}

// The byte at the place. Past the end it is 0, which stands in no record.
pub fn byte_at(part: &[u8], at: usize) -> u8
    ensures { result ≡ get_or part.now at 0 }
{
    part.get(at).copied().unwrap_or(0)
}

// The value of a digit.
#[tactic(auto, unfolding(crate::specs::Scan::digit_of))]
fn digit(b: u8) -> Option<u32>
    ensures { MatchOption result (9 < digit_of b) (λ d. (d ≡ digit_of b) × (d ≤ 9)) }
{
    match b {
        b'0'..=b'9' => Some(u32::from(b - b'0')),
        _ => None,
    }
}

// The number v with the digit d behind it: none where v is 0, which has no other spelling, or where it is too large.
fn with_digit(v: u32, d: u32) -> Option<u32>
    ensures { MatchOption result ((v ≡ 0) ⊎ (largest_word < v * 10 + d)) (λ n. (v ≢ 0) × (n ≡ v * 10 + d) × Word n) }
{
    if v == 0 {
        return None;
    }
    v.checked_mul(10)?.checked_add(d)
}

// The number at the front of the part, and the place behind it. It ends where no digit follows.
pub fn read_u32(part: &[u8]) -> Option<(u32, usize)>
    ensures { got_of result ≡ number part.now }
{
    let (first, more) = part.split_first()?;
    let mut v = digit(*first)?;
    for (i, b) in more.iter().enumerate() {
        let Some(d) = digit(*b) else {
            return Some((v, i + 1));
        };
        v = with_digit(v, d)?;
    }
    Some((v, part.len()))
}

// How many digits v has. The bound rules out that sums of widths wrap.
#[tactic(auto, using(crate::specs::NumberLaws::length_small, crate::proofs::Writes::width_more))]
pub fn width(v: u32) -> usize
    ensures { (result ≡ length (decimal v)) × (result ≤ 10) }
{
    if v < 10 {
        return 1;
    }
    width(v / 10) + 1
}

// Writes the byte at the place, and answers the place behind it, as each writer here does.
pub fn write_byte(out: &mut [u8], at: usize, b: u8) -> usize
    requires { at + 1 ≤ length out.old }
    ensures { Wrote (b ∷ []) out.old at out.new result }
{
    out[at] = b;
    at + 1
}

// Writes v at the place, and answers the place behind it.
#[tactic(auto, using(crate::specs::NumberLaws::length_small, crate::specs::NumberLaws::length_more))]
pub fn write_u32(out: &mut [u8], at: usize, v: u32) -> usize
    requires { at + length (decimal v) ≤ length out.old }
    ensures { Wrote (decimal v) out.old at out.new result }
{
    if v < 10 {
        return write_byte(out, at, b'0' + v as u8);
    }
    let p = write_u32(out, at, v / 10);
    write_byte(out, p, b'0' + (v % 10) as u8)
}

// The number from -999 to 999 at the front of the part, and the place behind it.
pub fn read_signed(part: &[u8]) -> Option<(i32, usize)>
    ensures { got_of result ≡ signed_number part.now }
{
    if let Some(behind) = part.strip_prefix(b"-") {
        let (n, end) = read_u32(behind)?;
        if !(1..=LARGEST_SIZE).contains(&n) {
            return None;
        }
        return Some((-(n as i32), end + 1));
    }
    let (v, end) = read_u32(part)?;
    if LARGEST_SIZE < v {
        return None;
    }
    Some((v as i32, end))
}

// Whether z is from -999 to 999.
fn small(z: &i32) -> bool
    ensures { result ≡ leb (nat_abs z.now) largest_written }
{
    (LEAST_WRITTEN..=limits::LARGEST_WRITTEN).contains(z)
}

// How many bytes z has, with its sign.
#[tactic(auto, unfolding(crate::specs::Spelling::signed))]
pub fn signed_width(z: i32) -> usize
    requires { Small z }
    ensures { (result ≡ length (signed z)) × (result ≤ 11) }
{
    let n = width(z.unsigned_abs());
    if z < 0 { n + 1 } else { n }
}

// Writes z at the place, and answers the place behind it.
#[tactic(auto, using(crate::proofs::Writes::wrote_then), unfolding(crate::specs::Spelling::signed))]
pub fn write_signed(out: &mut [u8], at: usize, z: i32) -> usize
    requires { Small z × (at + length (signed z) ≤ length out.old) }
    ensures { Wrote (signed z) out.old at out.new result }
{
    let size = z.unsigned_abs();
    if z < 0 {
        let p = write_byte(out, at, b'-');
        return write_u32(out, p, size);
    }
    write_u32(out, at, size)
}

// Whether each of the numbers is from -999 to 999.
pub fn each_small(zs: &[i32]) -> bool
    ensures { result ≡ all_small zs.now }
{
    zs.iter().all(small)
}

// Reads the line of numbers at the front of the part into the front of out, which holds as many as may come: how many numbers, and the
// place behind the line feed.
pub fn read_list<T: Spelled>(part: &[u8], out: &mut [T]) -> Option<(usize, usize)>
    ensures { ListRead (read_list T.scan (length out.old) part.now) result out.new }
{
    let mut at = 0;
    for (n, x) in out.iter_mut().enumerate() {
        let rest = &part[at..];
        // No `?`: this is the form that document 01 names for a list with a bad number.
        let Some(found) = T::read(rest) else {
            return None;
        };
        let (v, k) = found;
        let b = byte_at(rest, k);
        *x = v;
        at += k + 1;
        match b {
            b'\n' => return Some((n + 1, at)),
            b',' => {}
            _ => return None,
        }
    }
    None
}

// What stands behind the first i of n numbers: a line feed behind the last, a comma behind any other.
#[tactic(auto, unfolding(crate::specs::Written::separator_of))]
fn separator(i: usize, n: usize) -> u8
    ensures { result ≡ separator_of i n }
{
    if i == n { b'\n' } else { b',' }
}

// How many bytes the line of the numbers has. (That each has a spelling stays a clause: lists are lent as plain slices.)
pub fn list_width<T: Spelled>(xs: &[T]) -> usize
    requires { (length xs.now ≤ most_placements) × Each T.Fits xs.now }
    ensures { (result ≡ length (line T.spell xs.now)) × (result ≤ most_placements * (T.most + 1)) }
{
    let mut n = 0;
    for x in xs {
        n += x.width() + 1;
    }
    n
}

// Writes the line of the numbers at the place, and answers the place behind it.
pub fn write_list<T: Spelled>(out: &mut [u8], at: usize, xs: &[T]) -> usize
    requires { Each T.Fits xs.now × (at + length (line T.spell xs.now) ≤ length out.old) }
    ensures { Wrote (line T.spell xs.now) out.old at out.new result }
{
    let mut p = at;
    for (i, x) in xs.iter().enumerate() {
        p = x.write(out, p);
        p = write_byte(out, p, separator(i + 1, xs.len()));
    }
    p
}
