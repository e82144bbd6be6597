//! The attributes of an insert, as a code (Open Design Specification, "INSERT").

ghost use Rattle.std.specs.Prelude.{◌≡◌, ◌^◌, ◌<◌, ◌↔◌, is_some, IsTrue};
ghost use Rattle.dwg_grammar.specs.Combinators.{when};
ghost use Rattle.dwg_common.specs.Parsing.{Keeps, Parses};
ghost use Rattle.dwg_entities.specs.BodiesLaws.{attributes_is_part};
ghost use Rattle.dwg_entities.specs.InsertBody.{attributes};

use crate::insert::Attributes;
use dwg_base::Handle;
use dwg_bits::{BitCursor, BitSink};
use dwg_codes::BitCode;
use dwg_common::parse_code;
use dwg_handles::{CodeH, ref_bits};

/// Reads the attributes of an insert of the handle `base`, as they are parsed.
fn read_attributes(cursor: &mut BitCursor<'_>, base: Handle) -> Option<Attributes>
    ensures parsed { Parses (attributes base).grammar result cursor.old cursor.new }
    ensures kept { Keeps cursor.old cursor.new }
{
    let first = parse_code::<CodeH>(&base, cursor)?;
    let last = parse_code::<CodeH>(&base, cursor)?;
    let seqend = parse_code::<CodeH>(&base, cursor)?;
    Some(Attributes {
        first,
        last,
        seqend,
    })
}

/// Whether attributes can be given from the insert of the handle `base`: each reference reaches its target.
#[tactic(auto, unfolding(dwg_grammar::specs::ReferenceCodes::reference))]
fn attributes_fit(value: &Attributes, base: Handle) -> bool
    ensures { IsTrue result ↔ (attributes base).grammar.IsValue value.now }
{
    if !value.first.fits(base) {
        return false;
    }
    if !value.last.fits(base) {
        return false;
    }
    value.seqend.fits(base)
}

/// Whether the attributes of an insert can be given from it, where it has some.
pub(crate) fn attributes_fit_where_there(value: &Option<Attributes>, base: Handle) -> bool
    ensures { IsTrue result ↔ (when (is_some value.now) (attributes base).grammar).IsValue value.now }
{
    match value {
        Some(inner) => attributes_fit(inner, base),
        None => true,
    }
}

/// The attributes of an insert of a handle: three references, the first, the last and the end after them.
pub(crate) struct CodeAttributes;

impl BitCode for CodeAttributes {
    type Context = Handle;

    type Value = Attributes;

    ghost grammar = { λ base. (attributes base).grammar };

    ghost IsContext = { λ base. base < 2 ^ 63 };

    #[tactic(auto, using(crate::proofs::InsertReading::attributes_read, crate::proofs::InsertReading::attributes_unread, crate::proofs::InsertReading::attributes_value))]
    fn read(context: &Handle, cursor: &mut BitCursor<'_>) -> Option<Attributes> {
        // The laws of references ask that their base is a handle's number, which one after a reference doesn't give.
        let _base = context.value();
        let mut ahead = *cursor;
        let attributes = read_attributes(&mut ahead, *context)?;
        *cursor = ahead;
        Some(attributes)
    }

    #[tactic(auto, unfolding(dwg_grammar::specs::ReferenceCodes::reference))]
    fn length(context: &Handle, value: &Attributes) -> u64 {
        ref_bits(value.first, *context)
            + ref_bits(value.last, *context)
            + ref_bits(value.seqend, *context)
    }

    fn write(context: &Handle, value: &Attributes, sink: &mut BitSink) {
        CodeH::write(context, &value.first, sink);
        CodeH::write(context, &value.last, sink);
        CodeH::write(context, &value.seqend, sink);
    }

    ghost laws = { λ base small. (attributes_is_part base small).is_code };
}
