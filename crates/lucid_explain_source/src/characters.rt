//! What is said of a character that isn't ASCII.
ghost use Rattle.std.specs.Prelude.{◌≡◌, map};
ghost use Rattle.lucid_explain_source.specs.Characters.{bytes_and_advice, begins, characters, character_advice};

// A character's bytes, and what is said of it.
type Character = (&'static [u8], &'static [u8]);

const WIDE: &[u8] = b"This file is UTF-16: save it as ASCII or UTF-8.\n";

const SPACE: &[u8] = b"A blank that doesn't break stands here: write a plain one.\n";

const WORD: &[u8] =
    b"Here stands a typographic quotation mark: a word stands between two plain \", as in \"red\".\n";

const QUOTE: &[u8] =
    b"Here stands a typographic quotation mark: a string begins with a backquote and ends with a plain ', as `two words'.\n";

const DASH: &[u8] = b"Here stands a dash: minus is the plain `-`.\n";

pub(crate) const DIFFERS: &[u8] = b"Write `ne`.\n";

const POWER: &[u8] = b"A power is written with `**`, as in `n ** 2`.\n";

const UNSEEN: &[u8] = b"A character that isn't seen stands here: leave it out.\n";

const PRODUCT: &[u8] = b"A product is written with `*`.\n";

const CHARACTERS: [Character; 32] = [
    (
        b"\xef\xbb\xbf",
        b"A byte order mark stands here: save the file without it.\n",
    ),
    (b"\xff\xfe", WIDE),
    (b"\xfe\xff", WIDE),
    (b"\xc2\xa0", SPACE),
    (b"\xe2\x80\xaf", SPACE),
    (b"\xe2\x80\x9c", WORD),
    (b"\xe2\x80\x9d", WORD),
    (b"\xe2\x80\x9e", WORD),
    (b"\xc2\xab", WORD),
    (b"\xc2\xbb", WORD),
    (b"\xe2\x80\x98", QUOTE),
    (b"\xe2\x80\x99", QUOTE),
    (b"\xe2\x80\x90", DASH),
    (b"\xe2\x80\x91", DASH),
    (b"\xe2\x80\x93", DASH),
    (b"\xe2\x80\x94", DASH),
    (b"\xe2\x88\x92", DASH),
    (b"\xe2\x89\xa4", b"Write `<=`.\n"),
    (b"\xe2\x89\xa5", b"Write `>=`.\n"),
    (b"\xe2\x89\xa0", DIFFERS),
    (b"\xc3\x97", PRODUCT),
    (b"\xc2\xb7", PRODUCT),
    (
        b"\xc3\xb7",
        b"Whole division is `div`, and what it leaves over is `mod`.\n",
    ),
    (b"\xc2\xb2", POWER),
    (b"\xc2\xb3", POWER),
    (b"\xc2\xb4", QUOTE),
    (b"\xe2\x88\xa7", b"Write `and`.\n"),
    (b"\xe2\x88\xa8", b"Write `or`.\n"),
    (b"\xc2\xac", b"Write `not` before a truth.\n"),
    (b"\xe2\x80\x8b", UNSEEN),
    (b"\xc2\xad", UNSEEN),
    (
        b"\xef\xbc",
        b"A wide character stands here: write the plain one.\n",
    ),
];

// The characters of which something is said.
fn characters() -> &'static [Character]
    ensures { map bytes_and_advice result.now ≡ characters }
{
    &CHARACTERS
}

/// Whether the bytes begin with those.
pub fn begins(rest: &[u8], bytes: &[u8]) -> bool
    ensures { result ≡ begins rest.now bytes.now }
{
    rest.starts_with(bytes)
}

/// What is said of bytes that begin with none of ASCII.
pub(crate) fn character_advice(rest: &[u8]) -> &'static [u8]
    ensures { result.now ≡ character_advice rest.now }
{
    let characters = characters();
    for (bytes, advice) in characters {
        if begins(rest, bytes) {
            return advice;
        }
    }
    b"Only in comments may other bytes stand than printable ASCII, tabs and line ends. A name has the letters a to z and A to Z, digits and `_`.\n"
}
