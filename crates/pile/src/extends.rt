//! Whether one layout extends another.
ghost use Rattle.std.specs.Prelude.{◌≡◌, ◌≤◌, length, IfOk, IfErr, MatchBool, MatchResult};
ghost use Rattle.layout.specs.Views.{governor_meaning};
ghost use Rattle.pile.specs.Extends.{HangsAbove, Extends as Extending, ExtendsIsOrder, TopmostExtends, UplinksArePile};
ghost use Rattle.pile.specs.Reasons.{AlikeBelow, Reason, ReasonsExclude};

use crate::compare::difference;
use crate::fault::ExtendsFault;
use layout::items::Items;
use layout::kind::Governor;
use layout::lawful::{LawfulLayout, lawful};
use layout::layout::Layout;

/// Two lawful layouts of one type, to be compared.
#[derive(Drop)]
struct Comparison<'l, 'u, L: Layout, U: Layout> {
    lower: LawfulLayout<'l, L>,
    upper: LawfulLayout<'u, U>,
    ghost typed: { (L.meaning lower.layout.now).pdu_type ≡ (U.meaning upper.layout.now).pdu_type },
}

/// Whether both layouts are lawful and of one type.
#[tactic(auto, using(crate::proofs::Deciding::lawful_layout))]
fn check_both<'l, 'u, L: Layout, U: Layout>(
    lower: &'l L,
    upper: &'u U,
) -> Result<Comparison<'l, 'u, L, U>, ExtendsFault>
    ensures lower { IfOk result (λ b. b.lower.layout.now ≡ lower.now) }
    ensures upper { IfOk result (λ b. b.upper.layout.now ≡ upper.now) }
    ensures reason { IfErr result (λ f. Reason L.source U.source (L.meaning lower.now) (U.meaning upper.now) f) }
{
    let lower = lawful(lower).map_err(ExtendsFault::Lower)?;
    let upper = lawful(upper).map_err(ExtendsFault::Upper)?;
    let below = lower.layout.pdu_type();
    let above = upper.layout.pdu_type();
    if below != above {
        return Err(ExtendsFault::PduType {
            lower: below,
            upper: above,
        });
    }
    Ok(Comparison { lower, upper })
}

impl<L: Layout, U: Layout> Comparison<'_, '_, L, U> {
    /// Compares the items of the lower layout with those in their places above.
    fn compare_items(&self) -> Result<(), ExtendsFault>
        ensures { MatchResult result (λ _. AlikeBelow (L.meaning self.now.lower.layout.now).items (U.meaning self.now.upper.layout.now).items self.now.lower.count) (λ f. Reason L.source U.source (L.meaning self.now.lower.layout.now) (U.meaning self.now.upper.layout.now) f) }
    {
        for (item, below) in self.lower.items().enumerate() {
            let Some(above) = self.upper.layout.item(item) else {
                return Err(ExtendsFault::Missing { item });
            };
            if let Some(part) = difference(&below, &above) {
                return Err(ExtendsFault::Unlike { item, part });
            }
        }
        Ok(())
    }

    /// Whether a governor lies above the lower layout: its bit is spare there, or in an item that is not there.
    fn lies_above(&self, governor: Option<Governor>) -> bool
        ensures { MatchBool result (HangsAbove (L.meaning self.now.lower.layout.now).items (governor_meaning governor)) (HangsAbove (L.meaning self.now.lower.layout.now).items (governor_meaning governor) → ⊥) }
    {
        let Some(g) = governor else {
            return false;
        };
        let lower = self.lower.layout.item(usize::from(g.item));
        lower.is_none_or(|item| (item.mask >> g.bit) % 2 == 0)
    }

    /// Looks at the governor of each item of the upper layout behind the lower's.
    #[tactic(auto, using(crate::proofs::Deciding::comparable, crate::proofs::Deciding::further_more, crate::proofs::Deciding::extends_from))]
    fn check_further(&self) -> Result<(), ExtendsFault>
        requires { AlikeBelow (L.meaning self.now.lower.layout.now).items (U.meaning self.now.upper.layout.now).items self.now.lower.count }
        ensures { MatchResult result (λ _. Extending (L.meaning self.now.lower.layout.now) (U.meaning self.now.upper.layout.now)) (λ f. Reason L.source U.source (L.meaning self.now.lower.layout.now) (U.meaning self.now.upper.layout.now) f) }
    {
        let further = Items {
            layout: self.upper.layout,
            at: self.lower.count,
            count: self.upper.count,
        };
        for (k, item) in further.enumerate() {
            if !self.lies_above(item.governor) {
                return Err(ExtendsFault::Stray {
                    item: self.lower.count + k,
                });
            }
        }
        Ok(())
    }
}

/// Whether the upper layout extends the lower, and if not, where it first fails.
#[tactic(auto, using(crate::proofs::Ordering::extends_is_order, crate::proofs::Ordering::topmost_extends, crate::proofs::Uplinks::uplinks_are_pile))]
pub fn extends<L: Layout, U: Layout>(lower: &L, upper: &U) -> Result<(), ExtendsFault>
    ensures answer { MatchResult result (λ _. Extending (L.meaning lower.now) (U.meaning upper.now)) (λ f. Reason L.source U.source (L.meaning lower.now) (U.meaning upper.now) f) }
    ensures exclude { ReasonsExclude }
    ensures order { ExtendsIsOrder }
    ensures topmost { TopmostExtends }
    ensures published { UplinksArePile }
{
    let comparison = check_both(lower, upper)?;
    comparison.compare_items()?;
    comparison.check_further()
}
