//! Kinds as values: the numbers that stand for them, the names that are printed of them, and which are entities.

ghost use Rattle.std.specs.Prelude.{◌≡◌};
ghost use Rattle.dwg_kinds.specs.Kinds.{fixed_kind_of, is_entity_kind, kind_name, same_kind};
ghost use Rattle.dwg_kinds.specs.Needs.{owner_need};

use crate::field::Need;

/// What an object is (Open Design Specification, "R13 to R2000 file layout, object data"). The last three are a rule of this
/// project: objects of which no more is reported than whether they are entities, or not even that.
#[derive(Clone, Copy, Debug, PartialEq, Eq)]
pub enum Kind {
    /// A line of text.
    Text,
    /// An attribute of an insert.
    Attrib,
    /// The definition of an attribute in a block.
    Attdef,
    /// The begin of a block.
    Block,
    /// The end of a block.
    EndBlk,
    /// The end of the entities that belong to another.
    SeqEnd,
    /// A block that is inserted.
    Insert,
    /// A block that is inserted in columns and rows.
    MInsert,
    /// A vertex of a polyline in space.
    Vertex3d,
    /// A polyline in space.
    Polyline3d,
    /// An arc of a circle.
    Arc,
    /// A circle.
    Circle,
    /// A line.
    Line,
    /// A point.
    Point,
    /// A face with three or four corners in space.
    Face3d,
    /// A filled area with three or four corners.
    Solid,
    /// A line with a width, by the corners of the area that it fills.
    Trace,
    /// An ellipse or an arc of one.
    Ellipse,
    /// A line that begins at a point and doesn't end.
    Ray,
    /// A line without begin and end.
    XLine,
    /// A dictionary: names with objects.
    Dictionary,
    /// The table of the blocks.
    BlockControl,
    /// A block in its table.
    BlockHeader,
    /// The table of the layers.
    LayerControl,
    /// A layer.
    Layer,
    /// The table of the text styles.
    StyleControl,
    /// A text style.
    Style,
    /// The table of the linetypes.
    LtypeControl,
    /// A linetype.
    Ltype,
    /// The table of the applications.
    AppIdControl,
    /// An application.
    AppId,
    /// Objects under one name.
    Group,
    /// A polyline in a plane.
    LwPolyline,
    /// A record of free data.
    XRecord,
    /// Any other entity.
    PlainEntity,
    /// Any other object that is no entity.
    PlainObject,
    /// An object of which not even that is reported.
    Unknown,
}

/// All kinds, a row for each: the number that stands for it, where one does; its name, as it is printed; whether it is one of
/// entities; and what must own an object of it.
///
/// - `by_row!(kind number; ..)`: the kind of a number, and after the `;` the arms for numbers of no row;
/// - `by_row!(row kind)`: the row of a kind.
macro_rules! by_row {
    (kind $of:ident; $($others:tt)*) => {
        by_row!(rows kind_of [$of $($others)*])
    };
    (row $of:ident) => {
        by_row!(rows row_of [$of])
    };
    (rows $then:ident [$($given:tt)*]) => {
        by_row!($then [$($given)*]
            1 Text "TEXT" true Some(Need::Is(Kind::BlockHeader));
            2 Attrib "ATTRIB" true Some(Need::Attributed);
            3 Attdef "ATTDEF" true Some(Need::Is(Kind::BlockHeader));
            4 Block "BLOCK" true Some(Need::Is(Kind::BlockHeader));
            5 EndBlk "ENDBLK" true Some(Need::Is(Kind::BlockHeader));
            6 SeqEnd "SEQEND" true Some(Need::Attributed);
            7 Insert "INSERT" true Some(Need::Is(Kind::BlockHeader));
            8 MInsert "MINSERT" true Some(Need::Is(Kind::BlockHeader));
            11 Vertex3d "VERTEX 3D" true Some(Need::Is(Kind::Polyline3d));
            16 Polyline3d "POLYLINE 3D" true Some(Need::Is(Kind::BlockHeader));
            17 Arc "ARC" true Some(Need::Is(Kind::BlockHeader));
            18 Circle "CIRCLE" true Some(Need::Is(Kind::BlockHeader));
            19 Line "LINE" true Some(Need::Is(Kind::BlockHeader));
            27 Point "POINT" true Some(Need::Is(Kind::BlockHeader));
            28 Face3d "3DFACE" true Some(Need::Is(Kind::BlockHeader));
            31 Solid "SOLID" true Some(Need::Is(Kind::BlockHeader));
            32 Trace "TRACE" true Some(Need::Is(Kind::BlockHeader));
            35 Ellipse "ELLIPSE" true Some(Need::Is(Kind::BlockHeader));
            40 Ray "RAY" true Some(Need::Is(Kind::BlockHeader));
            41 XLine "XLINE" true Some(Need::Is(Kind::BlockHeader));
            42 Dictionary "DICTIONARY" false Some(Need::NullOrAny);
            48 BlockControl "BLOCK CONTROL" false Some(Need::Null);
            49 BlockHeader "BLOCK HEADER" false Some(Need::Is(Kind::BlockControl));
            50 LayerControl "LAYER CONTROL" false Some(Need::Null);
            51 Layer "LAYER" false Some(Need::Is(Kind::LayerControl));
            52 StyleControl "STYLE CONTROL" false Some(Need::Null);
            53 Style "STYLE" false Some(Need::Is(Kind::StyleControl));
            56 LtypeControl "LTYPE CONTROL" false Some(Need::Null);
            57 Ltype "LTYPE" false Some(Need::Is(Kind::LtypeControl));
            66 AppIdControl "APPID CONTROL" false Some(Need::Null);
            67 AppId "APPID" false Some(Need::Is(Kind::AppIdControl));
            72 Group "GROUP" false Some(Need::Any);
            77 LwPolyline "LWPOLYLINE" true Some(Need::Is(Kind::BlockHeader));
            79 XRecord "XRECORD" false Some(Need::Any);
            PlainEntity "ENTITY" true None;
            PlainObject "OBJECT" false None;
            Unknown "UNKNOWN" false None;
        )
    };
    (kind_of [$of:ident $($others:tt)*] $($($number:literal)? $kind:ident $name:literal $is_entity:literal $owner:expr;)*) => {
        match $of {
            $($($number => Kind::$kind,)?)*
            $($others)*
        }
    };
    (row_of [$of:ident] $($($number:literal)? $kind:ident $name:literal $is_entity:literal $owner:expr;)*) => {
        match $of {
            $(Kind::$kind => row($name, $is_entity, $owner),)*
        }
    };
}

/// What is reported of a kind: its name, as it is printed, whether it is one of entities, and what must own an object of it.
#[derive(Clone, Copy)]
struct KindRow {
    name: &'static str,
    is_entity: bool,
    owner: Option<Need>,
}

/// A row in one line.
fn row(name: &'static str, is_entity: bool, owner: Option<Need>) -> KindRow
    ensures name { result.name.now ≡ name.now }
    ensures is_entity { result.is_entity ≡ is_entity }
    ensures owner { result.owner ≡ owner }
{
    KindRow {
        name,
        is_entity,
        owner,
    }
}

/// The row of a kind.
#[tactic(auto, unfolding(crate::specs::Kinds::kind_name, crate::specs::Kinds::is_entity_kind, crate::specs::Needs::owner_need))]
fn row_of(kind: Kind) -> KindRow
    ensures name { result.name.now ≡ kind_name kind }
    ensures is_entity { result.is_entity ≡ is_entity_kind kind }
    ensures owner { result.owner ≡ owner_need kind }
{
    by_row!(row kind)
}

/// The kind of a number that no class can have.
#[tactic(auto, unfolding(crate::specs::Kinds::fixed_kind_of, crate::specs::Kinds::TYPED_KINDS, crate::specs::Kinds::PLAIN_ENTITIES, crate::specs::Kinds::PLAIN_OBJECTS))]
pub(crate) fn fixed_kind(number: u16) -> Kind
    ensures { result ≡ fixed_kind_of number }
{
    by_row!(kind number;
        10 | 12..=15 | 20..=26 | 29..=30 | 33..=34 | 36..=39 | 43..=47 | 74 | 78 | 498 => Kind::PlainEntity,
        60..=65 | 68..=71 => Kind::PlainObject,
        _ => Kind::Unknown,
    )
}

/// The name of a kind, as it is printed.
pub fn name_of(kind: Kind) -> &'static str
    ensures { result.now ≡ kind_name kind }
{
    row_of(kind).name
}

/// Whether objects of this kind are entities.
pub fn is_entity(kind: Kind) -> bool
    ensures { result ≡ is_entity_kind kind }
{
    row_of(kind).is_entity
}

/// What owns an object of a kind.
pub(crate) fn needed_owner(kind: Kind) -> Option<Need>
    ensures { result ≡ owner_need kind }
{
    row_of(kind).owner
}

/// Whether two kinds are one.
#[tactic(auto, unfolding(crate::specs::Kinds::same_kind))]
pub fn is_same(kind: Kind, other: Kind) -> bool
    ensures { result ≡ same_kind kind other }
{
    kind == other
}
