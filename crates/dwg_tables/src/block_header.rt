//! Headers of blocks.

ghost use Rattle.dwg_base.specs.declared.version.Version.TheVariants.{Ac1014};
ghost use Rattle.dwg_common.proofs.LayoutLemmas.{same_alike};
ghost use Rattle.dwg_tables.specs.BlockHeaderBody.{block_header_body};
ghost use Rattle.dwg_tables.specs.BlockHeaderLaws.{block_header_is_body, block_header_narrower};

use crate::block_content::{content_bits, content_fits, read_content, write_content};
use crate::block_flags::{flags_bits, flags_fit, read_flags, write_flags};
use crate::block_names::{block_names_bits, block_names_fit, read_block_names, write_block_names};
use crate::entry::{Entry, entry_of};
use crate::entry_start::{read_title, title_bits, title_fits, write_title};
use crate::members::join_all;
use dwg_base::{ByteRun, Handle, Items, NoMemory};
use dwg_bits::{BitCursor, BitSink};
use dwg_codes::Point3;
use dwg_common::{BodyCode, BodyCode14, Layout, Lengths};
use dwg_handles::Ref;
use std::alloc::Global;

/// The mark of an insert of a block (Open Design Specification, "BLOCK HEADER").
#[derive(Clone, Copy, Debug, PartialEq, Eq)]
pub struct InsertMark {
    /// Its byte among the main bits: from 1 on in what is read and in what can be written, since a 0 ends the marks.
    pub count: u8,
    /// The insert.
    pub target: Ref,
}

/// The entities of a block, which stand one after the other (Open Design Specification, "BLOCK HEADER").
#[derive(Clone, Copy, Debug, PartialEq, Eq)]
pub struct Ends {
    /// The first of them.
    pub first: Ref,
    /// The last of them.
    pub last: Ref,
}

/// The header of a block (Open Design Specification, "BLOCK HEADER").
#[derive(Drop)]
pub struct BlockHeader {
    /// Its name, and where it is from.
    pub entry: Entry,
    /// Whether its name was made up.
    pub anonymous: bool,
    /// Whether definitions of attributes are among its entities.
    pub has_attributes: bool,
    /// Whether it stands for another drawing.
    pub is_xref: bool,
    /// Whether it is laid over this drawing alone, and not over those that take it in.
    pub overlaid: bool,
    /// Not set where the other drawing is loaded, as the specification has it.
    pub loaded: bool,
    /// The point of it that stands at the place of an insert.
    pub base: Point3,
    /// The path of the other drawing, at most 65,535 bytes.
    pub path: ByteRun,
    /// The marks of its inserts.
    pub inserts: Items<InsertMark>,
    /// What it is, in words, at most 65,535 bytes.
    pub description: ByteRun,
    /// A picture of it, below 2^32 bytes, kept without meaning.
    pub preview: ByteRun,
    /// Its begin.
    pub block: Ref,
    /// Its entities, there exactly where neither `is_xref` nor `overlaid` is set.
    pub ends: Option<Ends>,
    /// Its end.
    pub endblk: Ref,
    /// Its layout; it may be null.
    pub layout: Ref,
}

/// What single bits of a header give.
#[derive(Clone, Copy)]
pub(crate) struct BlockFlags {
    /// Whether its name was made up.
    pub(crate) anonymous: bool,
    /// Whether definitions of attributes are among its entities.
    pub(crate) has_attributes: bool,
    /// Whether it stands for another drawing.
    pub(crate) is_xref: bool,
    /// Whether it is laid over this drawing alone.
    pub(crate) overlaid: bool,
    /// Not set where the other drawing is loaded.
    pub(crate) loaded: bool,
}

/// What the main bits of a header give after these.
#[derive(Drop)]
pub(crate) struct BlockContent {
    /// The point of it that stands at the place of an insert.
    pub(crate) base: Point3,
    /// The path of the other drawing.
    pub(crate) path: ByteRun,
    /// What AC1015 alone gives.
    pub(crate) extras: BlockExtras,
}

/// What AC1015 alone gives of the content of a header: in AC1014 all three are empty.
#[derive(Drop)]
pub(crate) struct BlockExtras {
    /// The count of each of its marks.
    pub(crate) counts: Items<u8>,
    /// What it is, in words.
    pub(crate) description: ByteRun,
    /// A picture of it.
    pub(crate) preview: ByteRun,
}

/// What a header names.
#[derive(Drop)]
pub(crate) struct BlockNames {
    /// The block of the external reference that it is of.
    pub(crate) xref: Ref,
    /// Its begin.
    pub(crate) block: Ref,
    /// Its entities.
    pub(crate) ends: Option<Ends>,
    /// Its end.
    pub(crate) endblk: Ref,
    /// The insert of each of its marks.
    pub(crate) targets: Items<Ref>,
    /// Its layout.
    pub(crate) layout: Ref,
}

#[tactic(auto, unfolding(crate::specs::BlockHeaderBody::block_header_body))]
impl BodyCode for BlockHeader {
    ghost grammar = { λ layout. block_header_body layout.version };

    fn parse(
        alloc: Global,
        layout: Layout,
        main: &mut BitCursor<'_>,
        refs: &mut BitCursor<'_>,
        base: Handle,
    ) -> Result<Option<BlockHeader>, NoMemory> {
        let Some(title) = read_title(alloc, main)? else {
            return Ok(None);
        };
        let Some(flags) = read_flags(layout.version, main) else {
            return Ok(None);
        };
        let Some(content) = read_content(alloc, layout.version, main)? else {
            return Ok(None);
        };
        let Some(names) = read_block_names(alloc, layout.version, flags, &content, refs, base)?
        else {
            return Ok(None);
        };
        let inserts = join_all(
            alloc,
            content.extras.counts.as_slice(),
            names.targets.as_slice(),
        )?;
        Ok(Some(BlockHeader {
            entry: entry_of(title, names.xref),
            anonymous: flags.anonymous,
            has_attributes: flags.has_attributes,
            is_xref: flags.is_xref,
            overlaid: flags.overlaid,
            loaded: flags.loaded,
            base: content.base,
            path: content.path,
            inserts,
            description: content.extras.description,
            preview: content.extras.preview,
            block: names.block,
            ends: names.ends,
            endblk: names.endblk,
            layout: names.layout,
        }))
    }

    fn fits_in(&self, layout: Layout, base: Handle) -> bool {
        if !title_fits(&self.entry) {
            return false;
        }
        if !flags_fit(layout.version, self) {
            return false;
        }
        if !content_fits(layout.version, self) {
            return false;
        }
        block_names_fit(layout.version, self, base)
    }

    fn lengths_in(&self, layout: Layout, base: Handle) -> Lengths {
        Lengths {
            main: title_bits(&self.entry)
                + flags_bits(layout.version, self)
                + content_bits(layout.version, self),
            refs: block_names_bits(layout.version, self, base),
        }
    }

    fn write_main_in(&self, layout: Layout, _base: Handle, sink: &mut BitSink) {
        write_title(&self.entry, sink);
        write_flags(layout.version, self, sink);
        write_content(layout.version, self, sink);
    }

    fn write_refs_in(&self, layout: Layout, base: Handle, sink: &mut BitSink) {
        write_block_names(layout.version, self, base, sink);
    }

    ghost laws = { λ layout base few small. block_header_is_body layout.version base small };
}

impl BodyCode14 for BlockHeader {
    ghost narrower = { block_header_narrower };

    ghost sizes_alike = { λ size base value. same_alike (block_header_body Ac1014 base) value };
}
