// Searches, lists and refusals that every later crate cites. But for the reasons of a refusal nothing here knows of railways.
#![tactic(auto)]

ghost use Rattle.std.specs.Prelude.{◌≡◌, ◌+◌, ◌-◌, ◌<◌, ◌≤◌, length, take, drop, Some};
ghost use Rattle.common.specs.Lists.{same, byte_at};
ghost use Rattle.common.specs.Digits.{digit_of, number_of, is_within};
ghost use Rattle.common.specs.Ranks.{rank_of, rank_limit};
ghost use Rattle.common.specs.Checks.{refuse};
ghost use Rattle.common.specs.RefusalText.{refusal_text};
ghost use Rattle.common.specs.Helpers.{four_bytes, four_at};

pub mod check_digit;
mod reasons;

pub use reasons::{NoReason, Reason};
use std::fmt;

// Why work is turned away, with its place and its detail.
#[derive(Clone, Copy)]
pub struct Refusal {
    pub reason: Reason,
    pub place: usize,
    pub detail: usize,
}

// Its number, place and detail, with a blank between them.
impl fmt::Display for Refusal {
    ghost output = { λ why. Some (refusal_text why) };

    fn fmt<W: fmt::Write>(&self, f: &mut fmt::Formatter<W>) -> fmt::Result {
        let number = u8::from(self.reason);
        let place = self.place;
        let detail = self.detail;
        write!(f, "{number} {place} {detail}")
    }
}

// A function `refusal` would clash with the struct's name.
pub fn refuse(reason: Reason, place: usize, detail: usize) -> Refusal
    ensures { result ≡ refuse reason place detail }
{
    Refusal {
        reason,
        place,
        detail,
    }
}

// The `len` bytes from `start` on, or as many of them as there are.
pub fn part(s: &[u8], start: usize, len: usize) -> &[u8]
    ensures { result.now ≡ take len (drop start s.now) }
{
    let n = s.len();
    if n <= start {
        return &s[n..n];
    }
    if n - start <= len {
        return &s[start..n];
    }
    let end = start + len;
    &s[start..end]
}

// The byte at a position, counted from 1; 0 past the end.
pub fn byte_at(s: &[u8], position: usize) -> u8
    ensures { result ≡ byte_at position s.now }
{
    s.get(position.saturating_sub(1)).copied().unwrap_or(0)
}

// Whether two slices have the same bytes: four at a time while there are four, then one at a time. With `==` in its place a verdict took some 5 % longer.
pub fn same_bytes<'a>(a: &'a [u8], b: &'a [u8]) -> bool
    ensures { result ≡ same a.now b.now }
{
    if a.len() != b.len() {
        return false;
    }
    let n = a.len();
    let mut i = 0;
    while 4 <= n - i {
        if four_at(a, i) != four_at(b, i) {
            return false;
        }
        i += 4;
    }
    for k in i..n {
        if a[k] != b[k] {
            return false;
        }
    }
    true
}

// Four bytes as one number, which a machine loads and compares at once.
fn four_at(s: &[u8], i: usize) -> u32
    requires { i + 4 ≤ length s.now }
    ensures { result ≡ four_at i s.now }
{
    four(s[i], s[i + 1], s[i + 2], s[i + 3])
}

fn four(lowest: u8, low: u8, high: u8, highest: u8) -> u32
    ensures { result ≡ four_bytes lowest low high highest }
{
    lowest as u32 + low as u32 * 256 + high as u32 * 65536 + highest as u32 * 16777216
}

// One number for a few bytes: the same for the same bytes, and among digits greater for what comes later in their order. 0 for more than twelve bytes.
pub fn rank(s: &[u8]) -> u64
    ensures { (result ≡ rank_of s.now) × (result < rank_limit) }
{
    if 12 < s.len() {
        return 0;
    }
    let mut v: u64 = 0;
    for b in s {
        v = v * 19 + *b as u64;
    }
    v
}

// What a byte says as a digit: below the digits the difference wraps, so that one comparison tells.
fn digit(b: u8) -> Option<u32>
    ensures { result ≡ digit_of b }
{
    let d = (b as u32).wrapping_sub(48);
    if 9 < d {
        return None;
    }
    Some(d)
}

// The number that one to nine digits say.
pub fn number(s: &[u8]) -> Option<u32>
    ensures { result ≡ number_of s.now }
{
    if 9 < s.len() {
        return None;
    }
    let mut v: u32 = 0;
    for b in s {
        v = v * 10 + digit(*b)?;
    }
    Some(v)
}

pub fn within(n: Option<u32>, least: u32, most: u32) -> bool
    ensures { result ≡ is_within least most n }
{
    n.is_some_and(|v| least <= v && v <= most)
}
