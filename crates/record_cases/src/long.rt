// Texts whose lists are long.
use std::fmt;
use std::io::Write;

// A number, and how many times it stands, with commas between.
#[derive(Clone, Copy)]
pub struct Repeated(pub i64, pub usize);

impl fmt::Display for Repeated {
    fn fmt<W: fmt::Write>(&self, f: &mut fmt::Formatter<W>) -> fmt::Result {
        let Repeated(number, times) = *self;
        for i in 0..times {
            if i > 0 {
                f.write_str(",")?;
            }
            write!(f, "{number}")?;
        }
        Ok(())
    }
}

// What is shown, as a text at the front of room; what has no room is left out.
pub fn text<'a>(room: &'a mut [u8], shown: impl fmt::Display + Drop) -> &'a [u8] {
    let most = room.len();
    let mut rest = &mut room[..];
    let _ = write!(rest, "{shown}");
    let len = most.saturating_sub(rest.len());
    &room[..len]
}
