//! Groups.

ghost use Rattle.std.specs.Prelude.{◌≡◌, IfOk};
ghost use Rattle.dwg_common.specs.Parsing.{Keeps, Parses};
ghost use Rattle.dwg_more.specs.Groups.{group_body, group_main};
ghost use Rattle.dwg_more.specs.MoreLaws.{group_is_body};

use dwg_base::{ByteRun, Handle, Items, NoMemory};
use dwg_bits::{BitCursor, BitSink};
use dwg_codes::{BitCode, CodeBL, CodeBS};
use dwg_common::{
    BodyCode, Layout, Lengths, count_bits, count_fits, parse_code, parse_refs, parse_tv, tv_bits,
    tv_fits, write_count, write_tv,
};
use dwg_handles::{Ref, refs_bits, refs_fit, write_refs};
use std::alloc::Global;

/// Objects that are selected together (Open Design Specification, "GROUP").
#[derive(Drop)]
pub struct Group {
    /// Its name, at most 65,535 bytes.
    pub name: ByteRun,
    /// 1 where it has no name.
    pub unnamed: u16,
    /// 1 where it can be selected.
    pub selectable: u16,
    /// Its objects, fewer than 2^32.
    pub entries: Items<Ref>,
}

/// What the main bits of a group give, as its definition has it: name, unnamed, selectable, and the count of its entries.
type Parsed = (ByteRun, (u16, (u16, u32)));

/// Reads what the main bits of a group give, as it is parsed. Err: out of memory, which is taken only for bytes
/// that are there.
fn read_parsed(alloc: Global, cursor: &mut BitCursor<'_>) -> Result<Option<Parsed>, NoMemory>
    ensures parsed { IfOk result (λ found. Parses group_main found cursor.old cursor.new) }
    ensures kept { Keeps cursor.old cursor.new }
{
    let Some(name) = parse_tv(alloc, cursor)? else {
        return Ok(None);
    };
    let Some(unnamed) = parse_code::<CodeBS>(&(), cursor) else {
        return Ok(None);
    };
    let Some(selectable) = parse_code::<CodeBS>(&(), cursor) else {
        return Ok(None);
    };
    let Some(count) = parse_code::<CodeBL>(&(), cursor) else {
        return Ok(None);
    };
    Ok(Some((name, (unnamed, (selectable, count)))))
}

impl BodyCode for Group {
    ghost grammar = { λ layout. group_body };

    #[tactic(auto, unfolding(crate::specs::Groups::group_body))]
    fn parse(
        alloc: Global,
        _layout: Layout,
        main: &mut BitCursor<'_>,
        refs: &mut BitCursor<'_>,
        base: Handle,
    ) -> Result<Option<Group>, NoMemory> {
        let Some((name, (unnamed, (selectable, count)))) = read_parsed(alloc, main)? else {
            return Ok(None);
        };
        let Some(entries) = parse_refs(alloc, refs, base, count)? else {
            return Ok(None);
        };
        Ok(Some(Group {
            name,
            unnamed,
            selectable,
            entries,
        }))
    }

    #[tactic(auto, unfolding(crate::specs::Groups::group_body, dwg_grammar::specs::Combinators::chain))]
    fn fits_in(&self, _layout: Layout, base: Handle) -> bool {
        let _unnamed = self.unnamed;
        let _selectable = self.selectable;
        if !tv_fits(self.name.as_slice()) {
            return false;
        }
        if !count_fits(self.entries.as_slice()) {
            return false;
        }
        refs_fit(self.entries.as_slice(), base)
    }

    #[tactic(auto, unfolding(crate::specs::Groups::group_body, dwg_grammar::specs::Combinators::chain))]
    fn lengths_in(&self, _layout: Layout, base: Handle) -> Lengths {
        Lengths {
            main: tv_bits(self.name.as_slice())
                + CodeBS::length(&(), &self.unnamed)
                + CodeBS::length(&(), &self.selectable)
                + count_bits(self.entries.as_slice()),
            refs: refs_bits(self.entries.as_slice(), base),
        }
    }

    #[tactic(auto, unfolding(crate::specs::Groups::group_body))]
    fn write_main_in(&self, _layout: Layout, _base: Handle, sink: &mut BitSink) {
        write_tv(self.name.as_slice(), sink);
        CodeBS::write(&(), &self.unnamed, sink);
        CodeBS::write(&(), &self.selectable, sink);
        write_count(self.entries.as_slice(), sink);
    }

    #[tactic(auto, unfolding(crate::specs::Groups::group_body, dwg_grammar::specs::Combinators::chain))]
    fn write_refs_in(&self, _layout: Layout, base: Handle, sink: &mut BitSink) {
        write_refs(self.entries.as_slice(), base, sink);
    }

    ghost laws = { λ layout base few small. group_is_body base small };
}
