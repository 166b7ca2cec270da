// The record that is used for a leg.
#![tactic(auto)]

ghost use Rattle.std.specs.Prelude.{◌≡◌};
ghost use Rattle.layout.specs.Numbered.{of_named};
ghost use Rattle.bundle.specs.Records.{rec, records_of};
ghost use Rattle.choice.specs.Choice.{of_table, choice_of};
ghost use Rattle.choice.specs.declared.Choice.TheVariants.{Nothing};
ghost use Rattle.choice.specs.Helpers.{at_place, whose_of, fit_of, noted_at};

use bundle::walk::Step;
use layout::Table;
use layout::named::NamesTable;

// What is wanted of a record: its table, and the offer, railway, code and day that are asked for. The code of a table that has none is not looked at.
#[derive(Clone, Copy)]
pub struct Wanted<T = Table> {
    pub table: T,
    pub offer: u32,
    pub railway: u32,
    pub code: u32,
    pub day: u32,
}

// The place of its mark in the bundle; or there are some, of which none is valid that day; or there is none.
#[derive(Clone, Copy)]
pub enum Choice {
    At(usize),
    NotThatDay,
    Nothing,
}

// What a record is to a leg: another's, one for all railways, the railway's own, or one of these two that is not valid that day.
#[derive(Clone, Copy)]
enum Role {
    Other,
    General,
    Own,
    OffItsDays,
}

// Whether a record is the railway's own, one for all railways, or another.
fn whose(wanted: Wanted, table: Table, body: &[u8]) -> Role
    ensures { result ≡ whose_of wanted (rec table body.now) }
{
    if table != wanted.table {
        return Role::Other;
    }
    if layout::fields::offer_number(body) != wanted.offer {
        return Role::Other;
    }
    if !layout::fields::code_fits(table, wanted.code, body) {
        return Role::Other;
    }
    let railway = layout::fields::railway(body);
    if layout::company::company_of(railway) == wanted.railway {
        return Role::Own;
    }
    if layout::company::is_all_railways(railway) {
        return Role::General;
    }
    Role::Other
}

// The same, and whether it is valid that day if it is one of these two.
fn fit(wanted: Wanted, table: Table, body: &[u8]) -> Role
    ensures { result ≡ fit_of wanted (rec table body.now) }
{
    let whose = whose(wanted, table, body);
    if let Role::Other = whose {
        return Role::Other;
    }
    if layout::fields::holds_day(wanted.table, body, wanted.day) {
        return whose;
    }
    Role::OffItsDays
}

// What is chosen as long as no own record is met, once the record at a place was looked at.
fn noted(before: Choice, f: Role, place: usize) -> Choice
    ensures { result ≡ noted_at before f place }
{
    // most records are others: these are passed first
    if let Role::Other = f {
        return before;
    }
    if let Choice::At(_) = before {
        return before;
    }
    if let Role::General = f {
        return Choice::At(place);
    }
    Choice::NotThatDay
}

// Nothing where what is wanted is of no table.
pub fn choose<T: NamesTable>(bundle: &[u8], wanted: Wanted<T>) -> Choice
    ensures { result ≡ of_named Nothing (λ t. at_place bundle.now (choice_of (records_of bundle.now) (of_table t wanted))) (T.named wanted.table) }
{
    let Ok(table) = wanted.table.named() else {
        return Choice::Nothing;
    };
    let wanted = Wanted {
        table,
        offer: wanted.offer,
        railway: wanted.railway,
        code: wanted.code,
        day: wanted.day,
    };
    let mut chosen = Choice::Nothing;
    let mut at = 0;
    while let Step::Whole(table, start, next) = bundle::walk::step_at(bundle, at) {
        let f = fit(wanted, table, &bundle[start..next]);
        if let Role::Own = f {
            return Choice::At(at);
        }
        chosen = noted(chosen, f, at);
        at = next;
    }
    chosen
}
