//! Which components count: those whose intervals tile the generations from 1 on.

ghost use Rattle.std.specs.Prelude.{◌≡◌, ◌≤◌, true, false, List, ◌∷◌, None, Ok, All, IfOk, IfSome};
ghost use Rattle.tc_recover.specs.declared.interval.Interval.{Interval as Generations};
ghost use Rattle.tc_recover.specs.Tilings.{Ascend, IsTiling};
ghost use Rattle.tc_recover.specs.Placing.{IsPlaced};

use crate::interval::Interval;
use std::alloc::Global;
use tc_bytes::Memory;

/// Of these intervals those that lie in no other one, the oldest first, where they tile the generations from 1 on, without a
/// gap and without an overlap; else `None`. Looks at each interval once. Errs only for want of memory.
pub(crate) fn tiling_of(
    alloc: Global,
    intervals: &[Interval],
) -> Result<Option<Vec<Interval>>, Memory>
    requires order { All (λ i. i.from ≤ i.to) intervals.now }
    requires ascend { Ascend intervals.now }
    ensures some { IfOk result (λ found. IfSome found (λ tiles. IsTiling intervals.now tiles.items)) }
    ensures none { result ≡ Ok None → (tiles : List Generations) → IsTiling intervals.now tiles → ⊥ }
{
    let mut tiles = Vec::new(alloc);
    let mut rest = intervals;
    while let Some((next, behind)) = rest.split_first() {
        if !place(&mut tiles, *next)? {
            return Ok(None);
        }
        rest = behind;
    }
    Ok(Some(tiles))
}

/// Places the next interval: behind the last tile, in place of it, or nowhere since it lies in it. `false` where it does none
/// of these, and then no intervals that have it and these tiles among them have a tiling.
fn place(tiles: &mut Vec<Interval>, next: Interval) -> Result<bool, Memory>
    requires { next.from ≤ next.to }
    ensures placed { IfOk result (λ fits. fits ≡ true → (all rest : List Generations) → IsPlaced all (next ∷ rest) tiles.old.items → IsPlaced all rest tiles.new.items) }
    ensures out { IfOk result (λ fits. fits ≡ false → (all rest others : List Generations) → IsPlaced all (next ∷ rest) tiles.old.items → IsTiling all others → ⊥) }
{
    let Some(last) = tiles.pop() else {
        if next.from != 1 {
            return Ok(false);
        }
        tiles.push(next)?;
        return Ok(true);
    };
    if last.from == next.from {
        tiles.push(next)?;
        return Ok(true);
    }
    tiles.push(last)?;
    if next.to <= last.to {
        return Ok(true);
    }
    if next.from <= last.to || next.from - last.to != 1 {
        return Ok(false);
    }
    tiles.push(next)?;
    Ok(true)
}
