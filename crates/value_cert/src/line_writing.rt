// The text of a line.
ghost use Rattle.std.specs.Prelude.{◌≡◌, ◌+◌, ◌≤◌, [], ◌∷◌, ◌++◌, length, codes};
ghost use Rattle.arrayvec.specs.ArrayVec.{array_vec_len};
ghost use Rattle.decision_model.specs.Kind.{kind_word};
ghost use Rattle.value_cert.specs.Lines.{number_word, head_words, line_text};

use crate::line::CertLine;
use crate::numbers::is_unit_fraction;
use crate::piece::{Piece, put, put_number};
use decision_model::Kind;

fn kind_name(kind: Kind) -> &'static [u8]
    ensures word { result.now ≡ kind_word kind }
    ensures bound { length result.now ≤ 10 }
{
    kind.word().as_bytes()
}

// The head without a discount.
fn put_plain_head(kind: Kind, piece: &mut Piece)
    requires { array_vec_len piece.old + 128 ≤ 16384 }
    ensures { piece.new.items ≡ piece.old.items ++ codes "certificate 1 " ++ kind_word kind ++ 10 ∷ [] }
{
    put(piece, b"certificate 1 ");
    put(piece, kind_name(kind));
    put(piece, b"\n");
}

// The head with a discount.
fn put_discount_head(kind: Kind, num: i128, den: i128, piece: &mut Piece)
    requires { array_vec_len piece.old + 128 ≤ 16384 }
    ensures { piece.new.items ≡ piece.old.items ++ codes "certificate 2 " ++ kind_word kind ++ number_word num ++ number_word den ++ 10 ∷ [] }
{
    put(piece, b"certificate 2 ");
    put(piece, kind_name(kind));
    put_number(piece, num);
    put_number(piece, den);
    put(piece, b"\n");
}

fn put_head(kind: Kind, num: i128, den: i128, piece: &mut Piece)
    requires { array_vec_len piece.old + 128 ≤ 16384 }
    ensures { piece.new.items ≡ piece.old.items ++ head_words kind num den ++ 10 ∷ [] }
{
    if is_unit_fraction(num, den) {
        put_plain_head(kind, piece);
    } else {
        put_discount_head(kind, num, den, piece);
    }
}

// A line of a tag and a number.
pub(crate) fn put_one(tag: &[u8], number: i128, piece: &mut Piece)
    requires tag { length tag.now ≤ 4 }
    requires room { array_vec_len piece.old + 128 ≤ 16384 }
    ensures { piece.new.items ≡ piece.old.items ++ tag.now ++ number_word number ++ 10 ∷ [] }
{
    put(piece, tag);
    put_number(piece, number);
    put(piece, b"\n");
}

// A line of a tag and two numbers.
pub(crate) fn put_two(tag: &[u8], first: i128, second: i128, piece: &mut Piece)
    requires tag { length tag.now ≤ 4 }
    requires room { array_vec_len piece.old + 128 ≤ 16384 }
    ensures { piece.new.items ≡ piece.old.items ++ tag.now ++ number_word first ++ number_word second ++ 10 ∷ [] }
{
    put(piece, tag);
    put_number(piece, first);
    put_number(piece, second);
    put(piece, b"\n");
}

// A line of a tag and three numbers.
pub(crate) fn put_three(tag: &[u8], first: i128, second: i128, third: i128, piece: &mut Piece)
    requires tag { length tag.now ≤ 4 }
    requires room { array_vec_len piece.old + 128 ≤ 16384 }
    ensures { piece.new.items ≡ piece.old.items ++ tag.now ++ number_word first ++ number_word second ++ number_word third ++ 10 ∷ [] }
{
    put(piece, tag);
    put_number(piece, first);
    put_number(piece, second);
    put_number(piece, third);
    put(piece, b"\n");
}

/// Appends the text of a line, its line feed included.
pub(crate) fn put_line(line: &CertLine, piece: &mut Piece)
    requires { array_vec_len piece.old + 128 ≤ 16384 }
    ensures { piece.new.items ≡ piece.old.items ++ line_text line.now }
{
    match *line {
        CertLine::Head(kind, num, den) => put_head(kind, num, den, piece),
        CertLine::Level(level) => put_one(b"q", level, piece),
        CertLine::Order(order, dual) => put_two(b"o", order, dual, piece),
        CertLine::Cost(cost) => put_one(b"cost", cost, piece),
        CertLine::Period(period) => put_one(b"t", period, piece),
        CertLine::Value(at, to, value) => put_three(b"v", at, to, value, piece),
        CertLine::Gain(num, den) => put_two(b"g", num, den, piece),
        CertLine::Pair(low, high) => put_two(b"s", low, high, piece),
        CertLine::Point(at, lower, upper) => put_three(b"p", at, lower, upper, piece),
        CertLine::Echelon(echelon, level) => put_two(b"e", echelon, level, piece),
        CertLine::Part(at, value) => put_two(b"f", at, value, piece),
        CertLine::End => put(piece, b"end\n"),
    }
}
