//! The bit size of an object in AC1014 (Open Design Specification, "Common entity data" and "Common non-entity object format"): what stands
//! before it is skipped, so that no memory is taken.

ghost use Rattle.std.specs.Prelude.{◌≡◌, None, IfNone};
ghost use Rattle.dwg_bits.specs.Cursor.{rest};
ghost use Rattle.dwg_grammar.specs.Codes.{rc};
ghost use Rattle.dwg_grammar.specs.Combinators.{items};
ghost use Rattle.dwg_grammar.specs.Versions.{given};
ghost use Rattle.dwg_common.specs.AppList.{app_item, app_list};
ghost use Rattle.dwg_common.specs.BitSizes.{ReadsSize};
ghost use Rattle.dwg_common.specs.Parsing.{Keeps};
ghost use Rattle.dwg_common.specs.Pictures.{graphic};
ghost use Rattle.dwg_common.specs.Skipping.{FindsSize, Skips};

use crate::part_reading::{parse_code, parse_ref};
use dwg_base::Handle;
use dwg_bits::BitCursor;
use dwg_codes::{CodeB, CodeBS, CodeRL};

/// Skips so many bytes. None exactly where fewer are left.
#[tactic(auto, using(crate::proofs::SkipLemmas::bytes_skipped, crate::proofs::SkipLemmas::bytes_missing, dwg_bits::proofs::BitLaws::length_of_bits_between))]
fn skip_bytes(count: u32, cursor: &mut BitCursor<'_>) -> Option<()>
    ensures skipped { Skips (items rc count) result cursor.old cursor.new }
    ensures kept { Keeps cursor.old cursor.new }
{
    let Some(_span) = cursor.run(8 * u64::from(count)) else {
        return None;
    };
    Some(())
}

/// Skips an item of application data of so many bytes.
fn skip_item(size: u16, cursor: &mut BitCursor<'_>, base: Handle) -> Option<()>
    ensures skipped { Skips (app_item base size) result cursor.old cursor.new }
    ensures kept { Keeps cursor.old cursor.new }
{
    let Some(_application) = parse_ref(cursor, base) else {
        return None;
    };
    skip_bytes(u32::from(size), cursor)
}

/// Skips application data.
#[tactic(auto, unfolding(crate::specs::AppList::app_list, dwg_grammar::specs::Combinators::until), using(crate::proofs::UntilReading::after_none))]
fn skip_items(cursor: &mut BitCursor<'_>, base: Handle) -> Option<()>
    ensures skipped { Skips (app_list base) result cursor.old cursor.new }
    ensures kept { Keeps cursor.old cursor.new }
{
    'items: loop {
        let Some(size) = parse_code::<CodeBS>(&(), cursor) else {
            return None;
        };
        if size == 0 {
            return Some(());
        }
        let Some(()) = skip_item(size, cursor, base) else {
            return None;
        };
    }
}

/// Skips the picture of an entity.
#[tactic(auto, unfolding(crate::specs::Pictures::graphic), using(crate::proofs::SkipLemmas::picture_skipped, crate::proofs::SkipLemmas::picture_uncounted, crate::proofs::SkipLemmas::no_picture_skipped))]
fn skip_graphic(cursor: &mut BitCursor<'_>) -> Option<()>
    ensures skipped { Skips graphic result cursor.old cursor.new }
    ensures kept { Keeps cursor.old cursor.new }
{
    let Some(there) = parse_code::<CodeB>(&(), cursor) else {
        return None;
    };
    if !there {
        return Some(());
    }
    let Some(size) = parse_code::<CodeRL>(&(), cursor) else {
        return None;
    };
    skip_bytes(size, cursor)
}

/// Skips the picture, which entities alone have.
fn skip_picture(entity: bool, cursor: &mut BitCursor<'_>) -> Option<()>
    ensures skipped { Skips (given entity None graphic) result cursor.old cursor.new }
    ensures kept { Keeps cursor.old cursor.new }
{
    if !entity {
        return Some(());
    }
    skip_graphic(cursor)
}

/// Finds the bit size after what stands before it.
#[tactic(auto, using(crate::proofs::SkipLemmas::size_found, crate::proofs::SkipLemmas::no_items, crate::proofs::SkipLemmas::no_picture))]
fn find_size(entity: bool, cursor: &mut BitCursor<'_>, base: Handle) -> Option<u32>
    ensures found { FindsSize entity base result cursor.old cursor.new }
    ensures kept { Keeps cursor.old cursor.new }
{
    let Some(()) = skip_items(cursor, base) else {
        return None;
    };
    let Some(()) = skip_picture(entity, cursor) else {
        return None;
    };
    parse_code::<CodeRL>(&(), cursor)
}

/// Reads the bit size of an object of AC1014, in bits, from after its own handle, which is `base`: application data, of an entity its
/// picture, and an RL, which is the size; and moves after them. None, with nothing moved, exactly where no prefix of the rest is so
/// spelled. It takes no memory.
#[tactic(auto, using(crate::proofs::SkipLemmas::size_read, crate::proofs::SkipLemmas::size_unread))]
pub fn read_size(cursor: &mut BitCursor<'_>, entity: bool, base: Handle) -> Option<u32>
    ensures reads { ReadsSize entity base result (rest cursor.old) (rest cursor.new) }
    ensures unmoved { IfNone result (cursor.new.place ≡ cursor.old.place) }
    ensures same_bytes { cursor.new.bytes.now ≡ cursor.old.bytes.now }
    ensures same_end { cursor.new.end ≡ cursor.old.end }
{
    let mut ahead = *cursor;
    let size = find_size(entity, &mut ahead, base)?;
    *cursor = ahead;
    Some(size)
}
