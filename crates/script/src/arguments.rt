// A word of a script as an argument of its kind, in plain numbers, and the words of a call that a line's arguments are.
ghost use Rattle.std.specs.Prelude.{◌≡◌};
ghost use Rattle.script.specs.Arguments.{most_of, number_of, dash_of, below_of, figure_of, parts_of, argument_of};
ghost use Rattle.script.specs.Arguments.{put, before_of, words_of};

use super::table::{Kind, Means};
use words::Token;

// It is marked where a number is below zero, or where there is none.
#[derive(Clone, Copy)]
pub struct Argument {
    pub value: u64,
    pub marked: bool,
}

// The words of a call behind its row.
#[derive(Clone, Copy)]
pub struct Words(pub u64, pub u64, pub u64, pub u64, pub u64);

// As far below zero as a number may be.
const LEAST: u64 = 1 << 63;

// The largest number of a kind.
fn most(kind: Kind) -> u64
    ensures { result ≡ most_of kind }
{
    match kind {
        Kind::Long | Kind::Optional => 18_446_744_073_709_551_615,
        Kind::Middle => 4_294_967_295,
        Kind::Short => 65_535,
        Kind::Octet | Kind::Flag => 255,
        Kind::Timer => 5,
        Kind::Signed => 9_223_372_036_854_775_807,
        Kind::Parts => 0,
    }
}

// Of a flag 0 is no, and every other number is yes.
fn number(kind: Kind, n: u64) -> Option<Argument>
    ensures { result ≡ number_of kind n }
{
    if n > most(kind) {
        return None;
    }
    let value = if kind == Kind::Flag { n.min(1) } else { n };
    Some(Argument {
        value,
        marked: false,
    })
}

fn dash(kind: Kind) -> Option<Argument>
    ensures { result ≡ dash_of kind }
{
    match kind {
        Kind::Optional => Some(Argument {
            value: 0,
            marked: true,
        }),
        _ => None,
    }
}

// A number below zero is told by how much below -1.
fn below(kind: Kind, n: u64) -> Option<Argument>
    ensures { result ≡ below_of kind n }
{
    match (kind, n) {
        (Kind::Signed, 0) => Some(Argument {
            value: 0,
            marked: false,
        }),
        (Kind::Signed, 1..=LEAST) => Some(Argument {
            value: n - 1,
            marked: true,
        }),
        _ => None,
    }
}

fn figure(kind: Kind, token: Token) -> Option<Argument>
    ensures { result ≡ figure_of kind token }
{
    match token {
        Token::Number(n) => number(kind, n),
        Token::Dash => dash(kind),
        Token::Negative(n) => below(kind, n),
        Token::Name(_) | Token::Other => None,
    }
}

fn parts(name: u64) -> Option<Argument>
    ensures { result ≡ parts_of name }
{
    match super::table::find(name, 0)?.3 {
        Means::Part(value) => Some(Argument {
            value,
            marked: false,
        }),
        _ => None,
    }
}

fn read(kind: Kind, token: Token) -> Option<Argument>
    ensures { result ≡ argument_of kind token }
{
    match kind {
        Kind::Parts => parts(token.code()),
        _ => figure(kind, token),
    }
}

impl Words {
    // One more in front.
    fn put(self, word: u64) -> Words
        ensures { result ≡ put word self }
    {
        Words(word, self.0, self.1, self.2, self.3)
    }
}

// What is no argument adds no word.
fn before(kind: Option<Kind>, token: Token, rest: Words) -> Option<Words>
    ensures { result ≡ before_of kind token rest }
{
    let Some(kind) = kind else {
        return Some(rest);
    };
    let Argument { value, marked } = read(kind, token)?;
    match kind {
        Kind::Signed | Kind::Optional => Some(rest.put(marked as u64).put(value)),
        _ => Some(rest.put(value)),
    }
}

// The words that the arguments of a line are, by the kinds of its row; the first of its words is the name.
pub fn words_of(kinds: [Option<Kind>; 4], words: [Token; 5]) -> Option<Words>
    ensures { result ≡ words_of kinds words }
{
    let last = before(kinds[3], words[4], Words(0, 0, 0, 0, 0))?;
    let more = before(kinds[2], words[3], last)?;
    let most = before(kinds[1], words[2], more)?;
    before(kinds[0], words[1], most)
}
