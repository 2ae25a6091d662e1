// A word of a script, read byte by byte: a name, a number or a dash. `token_of` of specs/ says what a whole word is, and its law that
// beginning with the first byte and growing by the others gives just that.
#![tactic(auto)]

ghost use Rattle.std.specs.Prelude.{◌≡◌};
ghost use Rattle.words.specs.Tokens.{lettered_of, begin_of, grow_of, appended_of, code_of};

// A name has lower-case letters alone, at most ten, and is held as two octal digits a letter, since no memory is lent for its bytes; a
// number fits 64 bits. `Other` is a word that is none of these, and grows on.
#[derive(Clone, Copy)]
pub enum Token {
    Name(u64),
    Number(u64),
    Dash,
    Negative(u64),
    Other,
}

// Below this a name has room for one more letter.
const NAME_ROOM: u64 = 1 << 54;

// A number with one digit more, if that is a digit and fits.
fn append(value: u64, byte: u8) -> Option<u64>
    ensures { result ≡ appended_of value byte }
{
    match byte {
        b'0'..=b'9' => value.checked_mul(10)?.checked_add(u64::from(byte - b'0')),
        _ => None,
    }
}

impl Token {
    fn lettered(code: u64, byte: u8) -> Self
        ensures { result ≡ lettered_of code byte }
    {
        match byte {
            b'a'..=b'z' if code < NAME_ROOM => Token::Name(code * 64 + u64::from(byte - b'a') + 1),
            _ => Token::Other,
        }
    }

    // A word of one byte.
    pub fn begin(byte: u8) -> Self
        ensures { result ≡ begin_of byte }
    {
        match byte {
            b'-' => Token::Dash,
            _ => append(0, byte).map_or_else(|| Token::lettered(0, byte), Token::Number),
        }
    }

    // A word with one byte more.
    pub fn grow(self, byte: u8) -> Self
        ensures { result ≡ grow_of self byte }
    {
        match self {
            Token::Name(code) => Token::lettered(code, byte),
            Token::Number(value) => append(value, byte).map_or(Token::Other, Token::Number),
            Token::Dash => append(0, byte).map_or(Token::Other, Token::Negative),
            Token::Negative(value) => append(value, byte).map_or(Token::Other, Token::Negative),
            Token::Other => Token::Other,
        }
    }

    // The number of a name, and 0, which no name has, for any other word.
    #[tactic(auto, unfolding(crate::specs::Tokens::code_of))]
    pub fn code(self) -> u64
        ensures { result ≡ code_of self }
    {
        match self {
            Token::Name(letters) => letters,
            _ => 0,
        }
    }
}
