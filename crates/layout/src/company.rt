// Company codes: four digits, of which 0000 stands for all railways.
ghost use Rattle.std.specs.Prelude.{◌≡◌};
ghost use Rattle.layout.specs.Company.{is_company, is_all_railways, is_transferor, company_of, is_railway};

// Where a company stands it has four digits; told so, the compiler reads them with no loop.
pub fn is_company(s: &[u8]) -> bool
    ensures { result ≡ is_company s.now }
{
    if s.len() != 4 {
        return common::within(common::number(s), 0, 9999);
    }
    common::within(common::number(&s[0..4]), 0, 9999)
}

pub fn is_all_railways(s: &[u8]) -> bool
    ensures { result ≡ is_all_railways s.now }
{
    common::same_bytes(s, b"0000")
}

#[tactic(auto, unfolding(crate::specs::Company::is_transferor))]
pub fn is_transferor(s: &[u8]) -> bool
    ensures { result ≡ is_transferor s.now }
{
    !is_all_railways(s) && is_company(s)
}

// The number that questions and books give a company by.
pub fn company_of(s: &[u8]) -> u32
    ensures { result ≡ company_of s.now }
{
    common::number(s).unwrap_or(0)
}

// Whether a railway may be asked for by a number.
#[tactic(auto, unfolding(crate::specs::Company::is_railway))]
pub fn is_railway(railway: u32) -> bool
    ensures { result ≡ is_railway railway }
{
    matches!(railway, 1..=9999)
}
