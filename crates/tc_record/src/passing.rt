//! Tokens that are passed over: no more is read of them than tells where the next one stands.

ghost use Rattle.std.specs.Prelude.{◌≡◌, ◌≢◌, ◌<◌, true, IsTrue, is_some, option_map, if◌then◌else◌};
ghost use Rattle.tc_record.specs.Behind.{behind_close};
ghost use Rattle.tc_record.specs.Held.{tokens_left};
ghost use Rattle.tc_record.specs.Record.{close_tag};
ghost use Rattle.tc_record.specs.Moves.{known_moves};
ghost use Rattle.tc_record.specs.WalkView.{columns_of, format_of};
ghost use Rattle.tc_record.specs.Stack.{kinds_of};

use crate::judging_numbers::passes_value;
use crate::tags::CLOSE_TAG;
use crate::walking::Walk;
use tc_bytes::u8_at;

/// The tags behind the close of the innermost array or object that is open, with the walk moved on. Where nothing is open, these
/// are all tags.
pub(crate) fn tags_behind_close<'a>(tags: &'a [u8], walk: &mut Walk<'_>) -> &'a [u8]
    requires { IsTrue (is_some (tokens_left true tags.now walk.old)) }
    ensures { tokens_left true result.now walk.new ≡ option_map behind_close (tokens_left true tags.now walk.old) }
{
    if walk.kinds.depth == 0 {
        return tags;
    }
    let outer = walk.kinds.depth - 1;
    // a copy, since what each token moves on stays in registers then
    let mut here = *walk;
    let mut left = tags;
    while let Some((tag, rest)) = u8_at(left) {
        left = rest;
        if tag == CLOSE_TAG {
            here.kinds.close();
            if here.kinds.depth == outer {
                break;
            }
        } else if !passes_value_in(&mut here, tag) {
            break;
        }
    }
    *walk = here;
    left
}

/// Whether a value of this tag, or the opening of one, stands next, with the walk moved on past it.
#[inline(always)]
fn passes_value_in(walk: &mut Walk<'_>, tag: u8) -> bool
    requires inside { 0 < walk.old.kinds.depth }
    requires value { tag ≢ close_tag }
    ensures moves { known_moves (format_of walk.old.format) tag (kinds_of walk.old.kinds.arrays walk.old.kinds.depth) (columns_of walk.old.columns) ≡ (if result then Some (kinds_of walk.new.kinds.arrays walk.new.kinds.depth, columns_of walk.new.columns) else None) }
    ensures format { walk.new.format ≡ walk.old.format }
{
    if !walk.format.named {
        return passes_value(walk.format, tag, &mut walk.kinds, &mut walk.columns);
    }
    match walk.step(tag) {
        None => false,
        Some(_token) => true,
    }
}
