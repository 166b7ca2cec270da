// The records that a leg is priced by.
ghost use Rattle.std.specs.Prelude.{◌≡◌, map};
ghost use Rattle.bundle.specs.Records.{records_of};
ghost use Rattle.choice.specs.Helpers.{at_place};
ghost use Rattle.fares.specs.Legs.{wanted_for, card_for, cards_for};
ghost use Rattle.fares.specs.Helpers.{place_of, placed};

use super::{Leg, Question};
use arrayvec::ArrayVec;
use choice::{Choice, Wanted};
use layout::Table;

// The AR records that apply, in the order of the cards, by the places of their marks.
pub type Cards = ArrayVec<usize, 4>;

// The CO by the place of its mark, and the AR records that apply.
#[derive(Drop)]
pub struct LegRecords {
    pub conditions: Choice,
    pub cards: Cards,
}

// What is wanted of a record for a leg.
fn wanted_for(table: Table, code: u32, q: Question, leg: Leg) -> Wanted
    ensures { result ≡ wanted_for table code q leg }
{
    Wanted {
        table,
        offer: q.offer,
        railway: leg.railway,
        code,
        day: q.day,
    }
}

// The AR of a card, if one is given.
fn card_for(bundle: &[u8], q: Question, leg: Leg, card: u32) -> Choice
    ensures { result ≡ at_place bundle.now (card_for (records_of bundle.now) q leg card) }
{
    if card == 0 {
        return Choice::Nothing;
    }
    choice::choose(bundle, wanted_for(Table::Ar, card, q, leg))
}

fn cards_for(bundle: &[u8], q: Question, leg: Leg) -> Cards
    ensures { result.items ≡ map (place_of bundle.now) (cards_for (records_of bundle.now) q leg) }
{
    let mut places = Cards::new();
    for card in q.cards {
        if let Choice::At(place) = card_for(bundle, q, leg, card) {
            places.push(place);
        }
    }
    places
}

// The cards count only if flag 33 of the CO is Y.
pub fn choose(bundle: &[u8], q: Question, leg: Leg) -> LegRecords
    ensures { result ≡ placed bundle.now q leg }
{
    let conditions = choice::choose(bundle, wanted_for(Table::Co, 0, q, leg));
    let Choice::At(place) = conditions else {
        return LegRecords {
            conditions,
            cards: Cards::new(),
        };
    };
    if !layout::fields::is_yes(bundle::walk::body_at(bundle, place), 33) {
        return LegRecords {
            conditions,
            cards: Cards::new(),
        };
    }
    LegRecords {
        conditions,
        cards: cards_for(bundle, q, leg),
    }
}
