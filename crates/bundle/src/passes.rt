// The two passes over a bundle's records.
ghost use Rattle.std.specs.Prelude.{◌≡◌};
ghost use Rattle.bundle.specs.Helpers.{first_tells, second_tells};

use super::hints::Hints;
use super::walk::Step;
use common::{Reason, Refusal};
use seen::Slots;

// Each record by itself: 2, then 3, then 4. What it keeps on the stack is free again before the second pass takes its room there.
#[inline(never)]
pub fn first_pass(bundle: &[u8]) -> Result<usize, Refusal>
    ensures { result ≡ first_tells bundle.now }
{
    let rows = layout::rows::all();
    let n = bundle.len();
    let mut at = 0;
    let mut i = 0;
    while at < n {
        let here = super::walk::step_at(bundle, at);
        match here {
            Step::Unknown => {
                return Err(common::refuse(Reason::MarkUnknown, i, 0));
            }
            Step::Short => {
                return Err(common::refuse(Reason::RecordShort, i, 0));
            }
            Step::Whole(table, start, next) => {
                let own = layout::rows::of_table(&rows, table);
                if let Some(field) = layout::rows::broken_field(own, &bundle[start..next]) {
                    return Err(common::refuse(Reason::FieldBroken, i, field));
                }
                at = next;
                i += 1;
            }
        }
    }
    Ok(i)
}

// Each record beside the others: 5, then 6, then 7, before the next record.
pub fn second_pass(hints: &mut Hints<'_>, mut slots: Slots) -> Result<usize, Refusal>
    ensures { result ≡ second_tells hints.old.bundle.now }
{
    let bundle = hints.bundle;
    let transferor = super::keys::first_transferor(bundle);
    let mut is_kept = true;
    let mut at = 0;
    let mut i = 0;
    let verdict = 'records: loop {
        let here = super::walk::step_at(bundle, at);
        let Step::Whole(table, start, next) = here else {
            break 'records Ok(i);
        };
        let r = &bundle[start..next];
        if !common::same_bytes(layout::fields::transferor(r), transferor) {
            break 'records Err(common::refuse(Reason::OtherTransferor, i, 0));
        }
        let mut p = 0;
        let mut first = 0;
        if is_kept {
            is_kept = super::apart::is_apart(bundle, &mut slots, table, r, at);
        }
        if is_kept {
            p = at;
            first = i;
        }
        for j in first..i {
            let there = super::walk::step_at(bundle, p);
            // every record before this one was whole, so that this is never reached
            let Step::Whole(t, s, e) = there else {
                break 'records Ok(j);
            };
            if super::keys::clashes(table, r, t, &bundle[s..e]) {
                break 'records Err(common::refuse(Reason::KeyRepeated, i, j));
            }
            p = e;
        }
        if let Some(link) = super::links::missing_link(hints, table, r) {
            break 'records Err(common::refuse(Reason::LinkMissing, i, link.detail));
        }
        at = next;
        i += 1;
    };
    verdict
}
