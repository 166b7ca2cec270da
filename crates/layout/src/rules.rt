// The rules of the fields, and what each asks of a field's bytes.
ghost use Rattle.std.specs.Prelude.{◌≡◌};
ghost use Rattle.common.specs.Lists.{every};
ghost use Rattle.layout.specs.Bytes.{is_text, is_blank};
ghost use Rattle.layout.specs.Rules.{is_flag, is_rounding, number_or_blank, flag_or_blank, most_persons, factor_rule, last_day_rule};

// What is asked of a field: a number is held to its limits.
#[derive(Clone, Copy)]
pub enum Rule {
    Text,
    Transferor,
    Railway,
    Number { least: u32, most: u32 },
    NumberOrBlank { least: u32, most: u32 },
    Flag,
    FlagOrBlank,
    MostPersons,
    Rounding,
    Factor,
    FirstDay,
    LastDay,
    // A rule that the layout does not have: no field keeps it.
    Unlisted,
}

fn text_byte(b: u8) -> bool
    ensures { result ≡ is_text b }
{
    matches!(b, 32..=126 | 160..)
}

// No early way out: the loop has no branch, so that it runs at the speed of reading.
pub fn text(s: &[u8]) -> bool
    ensures { result ≡ every is_text s.now }
{
    let mut good = true;
    for b in s {
        good &= text_byte(*b);
    }
    good
}

pub fn blank(s: &[u8]) -> bool
    ensures { result ≡ every is_blank s.now }
{
    s.iter().all(|b| *b == b' ')
}

#[tactic(auto, unfolding(crate::specs::Rules::number_or_blank))]
pub fn number_or_blank(s: &[u8], least: u32, most: u32) -> bool
    ensures { result ≡ number_or_blank least most s.now }
{
    blank(s) || common::within(common::number(s), least, most)
}

pub fn flag(b: u8) -> bool
    ensures { result ≡ is_flag b }
{
    matches!(b, b'Y' | b'N')
}

pub fn flag_or_blank(b: u8) -> bool
    ensures { result ≡ flag_or_blank b }
{
    b == b' ' || flag(b)
}

// Most persons: blank, or 01 to 99 and, if below 99, not below the least.
#[tactic(auto, unfolding(crate::specs::Rules::most_persons))]
pub fn most_persons<'a>(least: &'a [u8], s: &'a [u8]) -> bool
    ensures { result ≡ most_persons least.now s.now }
{
    if blank(s) {
        return true;
    }
    match common::number(s) {
        Some(99) => true,
        Some(most) => matches!(most, 1..=98) && common::number(least).unwrap_or(0) <= most,
        None => false,
    }
}

pub fn rounding(b: u8) -> bool
    ensures { result ≡ is_rounding b }
{
    matches!(b, b'+' | b'-' | b'0' | b'N')
}

// The factor after its rounding byte: 000 only under N.
#[tactic(auto, unfolding(crate::specs::Rules::factor_rule))]
pub fn factor(mode: u8, s: &[u8]) -> bool
    ensures { result ≡ factor_rule mode s.now }
{
    let least = if mode == b'N' { 0 } else { 1 };
    common::within(common::number(s), least, 999)
}

pub fn first_day(s: &[u8]) -> bool
    ensures { result ≡ Rattle.layout.specs.Rules.first_day_rule s.now }
{
    super::dates::is_day(common::number(s).unwrap_or(0))
}

// The last day, not before the first.
#[tactic(auto, unfolding(crate::specs::Rules::last_day_rule, crate::specs::Rules::first_day_rule))]
pub fn last_day<'a>(first: &'a [u8], s: &'a [u8]) -> bool
    ensures { result ≡ last_day_rule first.now s.now }
{
    let last = common::number(s).unwrap_or(0);
    super::dates::is_day(last) && common::number(first).unwrap_or(0) <= last
}
