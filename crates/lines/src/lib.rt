// Text in lent bytes, which go to standard output when they are full, so that a run of lines costs few calls of the system.
#![tactic(auto)]

ghost use Rattle.std.specs.Prelude.{◌≡◌, ◌≤◌, ◌-◌, [], ◌++◌, Some, codes, length, option_map, take, unwrap_or};
ghost use Rattle.std.specs.Fmt.{decimal};

use std::fmt;
use std::fmt::Write;

#[derive(Drop)]
pub struct Page<'r, 'b, P: Print> {
    rt: &'r P,
    bytes: &'b mut [u8],
    // How many of the bytes are written.
    at: usize,
    ghost within: { at ≤ length bytes.now },
}

impl<'r, 'b, P: Print> Page<'r, 'b, P> {
    pub fn new(rt: &'r P, bytes: &'b mut [u8]) -> Self
        ensures { take result.at result.bytes.now ≡ [] }
    {
        Page { rt, bytes, at: 0 }
    }

    // What stands on the page goes to standard output.
    pub fn flush(&mut self)
        ensures { take self.new.at self.new.bytes.now ≡ [] }
    {
        let _ = self.rt.write_all(&self.bytes[..self.at]);
        self.at = 0;
    }

    fn put(&mut self, text: &[u8])
        requires { length text.now ≤ length self.old.bytes.now - self.old.at }
        ensures { take self.new.at self.new.bytes.now ≡ take self.old.at self.old.bytes.now ++ text.now }
    {
        let end = self.at + text.len();
        self.bytes[self.at..end].copy_from_slice(text);
        self.at = end;
    }

    // A text that fits stands behind what stands there. A page is filled to its last byte before it goes to standard output; what is left of a
    // text then, and is longer than a page, goes there by itself.
    pub fn write_bytes(&mut self, text: &[u8])
        ensures { length text.now ≤ length self.old.bytes.now - self.old.at → take self.new.at self.new.bytes.now ≡ take self.old.at self.old.bytes.now ++ text.now }
    {
        let room = self.bytes.len() - self.at;
        if text.len() <= room {
            self.put(text);
            return;
        }
        let (front, rest) = text.split_at(room);
        self.put(front);
        self.flush();
        if rest.len() <= self.bytes.len() {
            self.put(rest);
        } else {
            let _ = self.rt.write_all(rest);
        }
    }

    // `print!` and `println!` of a page call these. No text is refused.
    pub fn print(&mut self, text: impl fmt::Display + Drop) {
        let _ = self.write(text);
    }

    pub fn println(&mut self, text: impl fmt::Display + Drop) {
        let _ = self.writeln(text);
    }
}

impl<P: Print> fmt::Write for Page<'_, '_, P> {
    // A text that fits stands behind what stands there.
    ghost write_str_gives = { λ old text new.
        length text ≤ length old.bytes.now - old.at
        → take new.at new.bytes.now ≡ take old.at old.bytes.now ++ text };

    fn write_str(&mut self, text: &str) -> fmt::Result {
        self.write_bytes(text.as_bytes());
        Ok(())
    }
}

// A number, or a dash where there is none.
#[derive(Clone, Copy)]
pub struct Dashed(pub Option<u64>);

impl fmt::Display for Dashed {
    ghost output = { λ d. Some (unwrap_or (option_map decimal d.0) (codes "-")) };

    fn fmt<W: fmt::Write>(&self, f: &mut fmt::Formatter<W>) -> fmt::Result {
        match self.0 {
            Some(number) => write!(f, "{number}"),
            None => write!(f, "-"),
        }
    }
}
