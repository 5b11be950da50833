// Fields of a line, parted by a separator. A line has one field more than it has separators, so no field is ever missing but the
// ones past the last, and an empty line is one empty field.
#![tactic(auto)]

ghost use Rattle.std.specs.Prelude.{◌≡◌, [], ◌-◌, ◌≤◌, length, get_or, take, drop};
ghost use Rattle.text_fields.specs.Field.{split, field_end, ends_of};

use byte_scan as scan;

// Where the first six fields of a line end: each at a separator or at the line's end, where all after it end too.
#[derive(Clone, Copy)]
pub struct Ends {
    pub first: usize,
    pub second: usize,
    pub third: usize,
    pub fourth: usize,
    pub fifth: usize,
    pub sixth: usize,
}

// Counts the fields of s: one more than its separators.
pub fn field_count(s: &[u8], separator: u8) -> usize
    ensures { result ≡ length (split separator s.now) }
{
    let mut n = 1;
    for b in s {
        if *b == separator {
            n += 1;
        }
    }
    n
}

// Gives where the field of s that starts at `from` ends; behind the end of s, that end.
fn field_end(s: &[u8], from: usize, separator: u8) -> usize
    ensures { (result ≡ field_end separator from s.now) × (result ≤ length s.now) }
{
    if s.len() < from {
        return s.len();
    }
    scan::find(s, from, s.len(), separator)
}

// Gives where field number k of s starts, counted from 0; behind the end of s where it has no such field.
fn field_start(s: &[u8], k: usize, separator: u8) -> usize
    ensures { get_or (split separator s.now) k [] ≡ get_or (split separator (drop result s.now)) 0 [] }
{
    let mut from = 0;
    for _ in 0..k {
        from = field_end(s, from, separator) + 1;
    }
    from
}

// Gives the part of s from `from` to `to`, an empty one where it would start behind its end.
fn part<'a>(s: &'a [u8], from: usize, to: usize) -> &'a [u8]
    requires { to ≤ length s.now }
    ensures { result.now ≡ take (to - from) (drop from s.now) }
{
    if to < from { &[] } else { &s[from..to] }
}

// Gives field number k of s, counted from 0, as a part of s; an empty part where s has no such field.
pub fn field<'a>(s: &'a [u8], k: usize, separator: u8) -> &'a [u8]
    ensures { result.now ≡ get_or (split separator s.now) k [] }
{
    let from = field_start(s, k, separator);
    let end = field_end(s, from, separator);
    part(s, from, end)
}

// Finds where the first six fields of s end, in one walk, so that no field is sought again.
pub fn find_ends(s: &[u8], separator: u8) -> Ends
    ensures { result ≡ ends_of separator s.now }
{
    let first = field_end(s, 0, separator);
    let second = field_end(s, first + 1, separator);
    let third = field_end(s, second + 1, separator);
    let fourth = field_end(s, third + 1, separator);
    let fifth = field_end(s, fourth + 1, separator);
    let sixth = field_end(s, fifth + 1, separator);
    Ends {
        first,
        second,
        third,
        fourth,
        fifth,
        sixth,
    }
}

// Gives field number k of s, as `field` does, by where the first six end.
pub fn field_at<'a>(s: &'a [u8], ends: Ends, k: usize, separator: u8) -> &'a [u8]
    requires { ends ≡ ends_of separator s.now }
    ensures { result.now ≡ get_or (split separator s.now) k [] }
{
    match k {
        0 => part(s, 0, ends.first),
        1 => part(s, ends.first + 1, ends.second),
        2 => part(s, ends.second + 1, ends.third),
        3 => part(s, ends.third + 1, ends.fourth),
        4 => part(s, ends.fourth + 1, ends.fifth),
        5 => part(s, ends.fifth + 1, ends.sixth),
        _ => field(s, k, separator),
    }
}

// Counts the fields of s, as `field_count` does, by where the first six end.
pub fn count_at(s: &[u8], ends: Ends, separator: u8) -> usize
    requires { ends ≡ ends_of separator s.now }
    ensures { result ≡ length (split separator s.now) }
{
    if s.len() <= ends.first {
        return 1;
    }
    if s.len() <= ends.second {
        return 2;
    }
    if s.len() <= ends.third {
        return 3;
    }
    if s.len() <= ends.fourth {
        return 4;
    }
    if s.len() <= ends.fifth {
        return 5;
    }
    if s.len() <= ends.sixth {
        return 6;
    }
    field_count(s, separator)
}
