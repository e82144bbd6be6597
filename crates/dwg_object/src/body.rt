//! What an object has of its own, by its kind.

ghost use Rattle.std.specs.Prelude.{◌≡◌, Bool, List, Some, None, IfOk};
ghost use Rattle.dwg_common.specs.Parsing.{ParsesBody};
ghost use Rattle.dwg_base.specs.declared.version.Version.TheVariants.{Ac1014, Ac1015};
ghost use Rattle.dwg_object.specs.Forms.{layout_of};
ghost use Rattle.dwg_object.specs.OwnBodies.{body_kind, own_body};

use dwg_base::{Handle, NoMemory, Version};
use dwg_bits::BitCursor;
use dwg_common::{BodyCode, Layout};
use dwg_dicts::{
    AppIdControl, BlockControl, Dictionary, LayerControl, LtypeControl, StyleControl, XRecord,
};
use dwg_entities::{Attdef, Attrib, Block, EndBlk, Insert, MInsert, SeqEnd, Text};
use dwg_kinds::Kind;
use dwg_more::{Ellipse, Face3d, Group, Polyline3d, Ray, Solid, Trace, Vertex3d, XLine};
use dwg_shapes::{Arc, Circle, Line, LwPolyline, Point};
use dwg_tables::{AppId, BlockHeader, Layer, Ltype, Style};
use std::alloc::Global;

/// What an object has of its own after its common part, by its kind (Open Design Specification, the sections of the kinds).
pub enum Body {
    /// A line of text.
    Text(Text),
    /// An attribute of an insert.
    Attrib(Attrib),
    /// The definition of an attribute in a block.
    Attdef(Attdef),
    /// The beginning of a block.
    Block(Block),
    /// The end of a block.
    EndBlk(EndBlk),
    /// The end of the entities that belong to another.
    SeqEnd(SeqEnd),
    /// A block that is inserted.
    Insert(Insert),
    /// A block that is inserted in columns and rows.
    MInsert(MInsert),
    /// An arc of a circle.
    Arc(Arc),
    /// A circle.
    Circle(Circle),
    /// A line.
    Line(Line),
    /// A point.
    Point(Point),
    /// A polyline in a plane.
    LwPolyline(LwPolyline),
    /// A vertex of a polyline in space.
    Vertex3d(Vertex3d),
    /// A polyline in space.
    Polyline3d(Polyline3d),
    /// A face with three or four corners in space.
    Face3d(Face3d),
    /// A filled area with three or four corners.
    Solid(Solid),
    /// A line with a width, by the corners of the area that it fills.
    Trace(Trace),
    /// An ellipse or an arc of one.
    Ellipse(Ellipse),
    /// A line that begins at a point and doesn't end.
    Ray(Ray),
    /// A line without begin and end.
    XLine(XLine),
    /// A dictionary: names with objects.
    Dictionary(Dictionary),
    /// The table of the blocks.
    BlockControl(BlockControl),
    /// A block in its table.
    BlockHeader(BlockHeader),
    /// The table of the layers.
    LayerControl(LayerControl),
    /// A layer.
    Layer(Layer),
    /// The table of the text styles.
    StyleControl(StyleControl),
    /// A text style.
    Style(Style),
    /// The table of the linetypes.
    LtypeControl(LtypeControl),
    /// A linetype.
    Ltype(Ltype),
    /// The table of the applications.
    AppIdControl(AppIdControl),
    /// An application.
    AppId(AppId),
    /// A record of free data.
    XRecord(XRecord),
    /// Objects under one name.
    Group(Group),
}

/// What is done by kind, for all kinds that have a body: here alone do they stand in lists, first those of both versions, then those
/// of AC1015 alone.
///
/// - `match_body!(body of, held => done)`: what is done with the body that is held, whichever it is;
/// - `match_body!(kind of)`: the kind of a body;
/// - `match_body!(parse kind, ..)`, in this file alone: the body of a kind as it is parsed, `Ok(None)` for each kind that has none in
///   the version.
#[macro_export]
macro_rules! match_body {
    (body $of:expr, $held:ident => $done:expr) => {
        $crate::match_body!(names done_with $of, $held => $done)
    };
    (kind $of:expr) => {
        $crate::match_body!(names kind_held $of)
    };
    (parse $kind:expr, $alloc:expr, $version:expr, $main:expr, $refs:expr, $base:expr) => {
        $crate::match_body!(names parse_as $kind, $alloc, $version, $main, $refs, $base)
    };
    (names $then:ident $($given:tt)*) => {
        $crate::match_body!($then [
            Text Attrib Attdef Block EndBlk SeqEnd Insert Arc Circle Line Point LwPolyline Dictionary BlockControl BlockHeader
            LayerControl Layer StyleControl Style LtypeControl Ltype AppIdControl AppId XRecord
        ] [
            MInsert Vertex3d Polyline3d Face3d Solid Trace Ellipse Ray XLine Group
        ] $($given)*)
    };
    (done_with [$($name:ident)*] [$($newer:ident)*] $of:expr, $held:ident => $done:expr) => {
        match $of {
            $($crate::Body::$name($held) => $done,)*
            $($crate::Body::$newer($held) => $done,)*
        }
    };
    (kind_held [$($name:ident)*] [$($newer:ident)*] $of:expr) => {
        match $of {
            $($crate::Body::$name(_) => Kind::$name,)*
            $($crate::Body::$newer(_) => Kind::$newer,)*
        }
    };
    (parse_as [$($name:ident)*] [$($newer:ident)*] $kind:expr, $alloc:expr, $version:expr, $main:expr, $refs:expr, $base:expr) => {
        match $kind {
            $(Kind::$name => parse_held::<$name, _>($alloc, $version, Kind::$name, $main, $refs, $base, $crate::Body::$name),)*
            $(Kind::$newer => parse_newer::<$newer, _>($alloc, $version, Kind::$newer, $main, $refs, $base, $crate::Body::$newer),)*
            _ => Ok(None),
        }
    };
}

/// Reads what is parsed of a body, and answers it as `held` holds it among the bodies of all kinds. What is parsed of the kind is what is parsed of
/// the body, so held. Err: out of memory.
fn parse_held<B: BodyCode, H: FnOnce(B) -> Body>(
    alloc: Global,
    version: Version,
    kind: Kind,
    main: &mut BitCursor<'_>,
    refs: &mut BitCursor<'_>,
    base: Handle,
    held: H,
) -> Result<Option<Body>, NoMemory>
    requires callable { H.IsAlwaysCallable held }
    requires some { (body : B) (one : Body) → H.post held body one → (bits references : List Bool) (left : List Bool × List Bool) →
        (B.grammar (layout_of version) base).parse bits references ≡ Some (body, left) → (own_body version kind base).parse bits references ≡ Some (one, left) }
    requires none { (bits references : List Bool) → (B.grammar (layout_of version) base).parse bits references ≡ None → (own_body version kind base).parse bits references ≡ None }
    ensures parsed { IfOk result (λ found. ParsesBody (own_body version kind base) found main.old main.new refs.old refs.new) }
{
    // In a function of its own, since the prover goes through a call for each kind much sooner than through a match for each.
    match B::parse(alloc, Layout { version, size: 0 }, main, refs, base)? {
        Some(body) => Ok(Some(held(body))),
        None => Ok(None),
    }
}

/// The same of a body that AC1015 alone has: in AC1014 none is parsed.
fn parse_newer<B: BodyCode, H: FnOnce(B) -> Body>(
    alloc: Global,
    version: Version,
    kind: Kind,
    main: &mut BitCursor<'_>,
    refs: &mut BitCursor<'_>,
    base: Handle,
    held: H,
) -> Result<Option<Body>, NoMemory>
    requires callable { H.IsAlwaysCallable held }
    requires some { (body : B) (one : Body) → H.post held body one → (bits references : List Bool) (left : List Bool × List Bool) →
        (B.grammar (layout_of Ac1015) base).parse bits references ≡ Some (body, left) → (own_body Ac1015 kind base).parse bits references ≡ Some (one, left) }
    requires none { (bits references : List Bool) → (B.grammar (layout_of Ac1015) base).parse bits references ≡ None → (own_body Ac1015 kind base).parse bits references ≡ None }
    requires older { (bits references : List Bool) → (own_body Ac1014 kind base).parse bits references ≡ None }
    ensures parsed { IfOk result (λ found. ParsesBody (own_body version kind base) found main.old main.new refs.old refs.new) }
{
    match version {
        Version::Ac1014 => Ok(None),
        Version::Ac1015 => parse_held::<B, _>(alloc, Version::Ac1015, kind, main, refs, base, held),
    }
}

impl Drop for Body {
    // Written, since who lets go of a body would go through a derived one kind by kind, in a proof of its own.
    fn drop(self) {
        match_body!(body self, _held => ())
    }
}

impl Body {
    /// Reads what is parsed of a kind's own in a version in the object of the handle `base`, and moves both cursors as far as it
    /// came. None exactly where no prefixes of the main bits and of the reference bits spell it, and so for each kind that is no
    /// variant of `Body`, and in AC1014 for those of AC1015 alone. Err: out of memory.
    #[tactic(auto, unfolding(crate::specs::OwnBodies::own_body))]
    pub(crate) fn parse(
        alloc: Global,
        version: Version,
        kind: Kind,
        main: &mut BitCursor<'_>,
        refs: &mut BitCursor<'_>,
        base: Handle,
    ) -> Result<Option<Body>, NoMemory>
        ensures parsed { IfOk result (λ found. ParsesBody (own_body version kind base) found main.old main.new refs.old refs.new) }
    {
        match_body!(parse kind, alloc, version, main, refs, base)
    }

    /// The kind of what is held.
    pub(crate) fn kind(&self) -> Kind
        ensures { result ≡ body_kind self.now }
    {
        match_body!(kind self)
    }
}
