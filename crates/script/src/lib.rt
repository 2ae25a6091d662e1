// A script's line, read byte by byte. What has been read is a small record, so a line of any length needs no room: `feed` takes a
// byte of it, and `finish` says which call it is. The law of specs/Claims says that feeding all the bytes of a line and finishing gives
// `line_means` of those bytes.
#![tactic(auto)]

pub mod arguments;
pub mod commands;
pub mod table;

ghost use Rattle.std.specs.Prelude.{◌≡◌};
ghost use Rattle.script.specs.Lines.{start_of, blank, ended_of, longer_of, feed_of, finish_of};

use self::commands::Command;
use words::Token;

// So many of its words are whole, six where there are more, and the first five stand in their places: the name and its arguments. `current` is
// one more, not ended yet, and `comment` says that the rest of the line is none.
#[derive(Clone, Copy)]
pub struct Line {
    pub count: u8,
    pub words: [Token; 5],
    pub current: Option<Token>,
    pub comment: bool,
}

// Words are parted by spaces, tabs and carriage returns.
fn is_blank(byte: u8) -> bool
    ensures { result ≡ blank byte }
{
    matches!(byte, b' ' | b'\t' | b'\r')
}

impl Line {
    // Nothing is read.
    pub fn start() -> Line
        ensures { result ≡ start_of }
    {
        Line {
            count: 0,
            words: [Token::Other; 5],
            current: None,
            comment: false,
        }
    }

    // The current word is whole.
    fn end(&mut self)
        ensures { self.new ≡ ended_of self.old }
    {
        if let Some(word) = self.current {
            if self.count < 5 {
                self.words[self.count as usize] = word;
            }
            self.count = self.count.saturating_add(1).min(6);
            self.current = None;
        }
    }

    // The current word has one byte more, or begins with it.
    fn grow(&mut self, byte: u8)
        ensures { self.new ≡ longer_of self.old byte }
    {
        let word = match self.current {
            Some(word) => word.grow(byte),
            None => Token::begin(byte),
        };
        self.current = Some(word);
    }

    // The line has one byte more; that is none of its end.
    pub fn feed(&mut self, byte: u8)
        ensures { self.new ≡ feed_of self.old byte }
    {
        if self.comment {
            return;
        }
        if byte == b'#' {
            self.end();
            self.comment = true;
        } else if is_blank(byte) {
            self.end();
        } else {
            self.grow(byte);
        }
    }

    // The call that the line is.
    pub fn finish(mut self) -> Command
        ensures { result ≡ finish_of self }
    {
        self.end();
        commands::called(self.count, self.words)
    }
}
