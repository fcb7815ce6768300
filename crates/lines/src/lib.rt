// Lines of a record: a key, and a number or a list of numbers behind it.
#![tactic(auto)]

ghost use Rattle.std.specs.Prelude.{◌≡◌, ◌+◌, ◌≤◌, length};
ghost use Rattle.limits.specs.Limits.{most_placements};
ghost use Rattle.decimal.specs.Spelling.{Each};
ghost use Rattle.decimal.specs.Scan.{got_of, number, read_list, ListRead};
ghost use Rattle.decimal.specs.Written.{Wrote};
ghost use Rattle.lines.specs.Lines.{number_line, list_line, refused_line, head_text, mark_text};
ghost use Rattle.lines.specs.Scan.{starts, one_line, keyed, head, mark, head_of};

use decimal::Spelled;

// The first two lines: modulus, degree and the place behind them.
#[derive(Clone, Copy, Debug, PartialEq, Eq)]
pub struct Head {
    pub modulus: u32,
    pub degree: u32,
    pub end: usize,
}

// Whether the text starts with the key.
#[tactic(auto, using(crate::proofs::Steps::starts_is))]
pub fn has_key(text: &[u8], key: &[u8]) -> bool
    ensures { result ≡ starts key.now text.now }
{
    text.starts_with(key)
}

// Reads a key, a number and a line feed at the front of the text, and answers the number and the place behind them.
pub fn read_number_line(text: &[u8], key: &[u8]) -> Option<(u32, usize)>
    ensures { got_of result ≡ keyed key.now (one_line number) text.now }
{
    let rest = text.strip_prefix(key)?;
    let (v, at) = decimal::read_u32(rest)?;
    if decimal::byte_at(rest, at) != b'\n' {
        return None;
    }
    Some((v, key.len() + at + 1))
}

// Reads a key and a line of numbers into the front of out: how many numbers, and the place behind the line.
pub fn read_list_line<T: Spelled>(text: &[u8], key: &[u8], out: &mut [T]) -> Option<(usize, usize)>
    ensures { ListRead (keyed key.now (read_list T.scan (length out.old)) text.now) result out.new }
{
    let rest = text.strip_prefix(key)?;
    let (n, at) = decimal::read_list(rest, out)?;
    Some((n, key.len() + at))
}

// Writes the bytes at the place, and answers the place behind them, as each writer here does.
#[tactic(auto, using(crate::proofs::Writes::copied))]
pub fn write_bytes(out: &mut [u8], at: usize, bytes: &[u8]) -> usize
    requires { at + length bytes.now ≤ length out.old }
    ensures { Wrote bytes.now out.old at out.new result }
{
    let end = at + bytes.len();
    out[at..end].copy_from_slice(bytes);
    end
}

pub fn write_number_line(out: &mut [u8], at: usize, key: &[u8], v: u32) -> usize
    requires { at + length (number_line key.now v) ≤ length out.old }
    ensures { Wrote (number_line key.now v) out.old at out.new result }
{
    let a = write_bytes(out, at, key);
    let b = decimal::write_u32(out, a, v);
    decimal::write_byte(out, b, b'\n')
}

pub fn write_list_line<T: Spelled>(out: &mut [u8], at: usize, key: &[u8], xs: &[T]) -> usize
    requires { Each T.Fits xs.now × (at + length (list_line T.spell key.now xs.now) ≤ length out.old) }
    ensures { Wrote (list_line T.spell key.now xs.now) out.old at out.new result }
{
    let a = write_bytes(out, at, key);
    decimal::write_list(out, a, xs)
}

// The one line that a program answers where it refuses. (Its promise, `refused_line`, is of every number: a `Refusal` would ask more.)
#[tactic(auto, unfolding(crate::specs::Lines::refused_line, crate::specs::Lines::bytes))]
pub fn write_refused(out: &mut [u8], code: u32) -> usize
    requires { length (refused_line code) ≤ length out.old }
    ensures { Wrote (refused_line code) out.old 0 out.new result }
{
    write_number_line(out, 0, b"refused=", code)
}

// Reads the first two lines.
pub fn read_head(text: &[u8]) -> Option<Head>
    ensures { head_of result ≡ head text.now }
{
    let (modulus, at) = read_number_line(text, b"modulus=")?;
    let (degree, next) = read_number_line(&text[at..], b"degree=")?;
    Some(Head {
        modulus,
        degree,
        end: at + next,
    })
}

// Reads the line of the mark, and answers the mark and the place behind the line.
#[tactic(auto, unfolding(crate::specs::Scan::mark, crate::specs::Lines::mark_text, crate::specs::Lines::bytes))]
pub fn read_mark(text: &[u8]) -> Option<(bool, usize)>
    ensures { got_of result ≡ mark text.now }
{
    if has_key(text, b"simple=yes\n") {
        return Some((true, 11));
    }
    if has_key(text, b"simple=no\n") {
        return Some((false, 10));
    }
    None
}

#[tactic(auto, using(crate::proofs::Writes::head_length))]
pub fn head_len(modulus: u32, degree: usize) -> usize
    requires { degree ≤ most_placements }
    ensures { (result ≡ length (head_text modulus degree)) × (result ≤ 37) }
{
    let a = 8 + (decimal::width(modulus) + 1);
    a + (7 + (decimal::width(degree as u32) + 1))
}

// Writes the first two lines at the front of out, which has room for them, and answers the place behind them.
#[tactic(auto, using(decimal::proofs::Writes::room_first, decimal::proofs::Writes::room_then), unfolding(crate::specs::Lines::head_text, crate::specs::Lines::bytes))]
pub fn write_head(out: &mut [u8], modulus: u32, degree: usize) -> usize
    requires { (degree ≤ most_placements) × (0 + length (head_text modulus degree) ≤ length out.old) }
    ensures { Wrote (head_text modulus degree) out.old 0 out.new result }
{
    let at = write_number_line(out, 0, b"modulus=", modulus);
    write_number_line(out, at, b"degree=", degree as u32)
}

#[tactic(auto, unfolding(crate::specs::Lines::mark_text, crate::specs::Lines::bytes))]
pub fn mark_len(simple: bool) -> usize
    ensures { (result ≡ length (mark_text simple)) × (result ≤ 11) }
{
    if simple { 11 } else { 10 }
}

#[tactic(auto, unfolding(crate::specs::Lines::mark_text, crate::specs::Lines::bytes))]
pub fn write_mark(out: &mut [u8], at: usize, simple: bool) -> usize
    requires { at + length (mark_text simple) ≤ length out.old }
    ensures { Wrote (mark_text simple) out.old at out.new result }
{
    if simple {
        return write_bytes(out, at, b"simple=yes\n");
    }
    write_bytes(out, at, b"simple=no\n")
}
