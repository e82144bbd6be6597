//! The entities that follow the fixed objects, drawn by random numbers.

ghost use Rattle.std.specs.Prelude.{◌≡◌, ◌≤◌, ◌<◌, ◌++◌, map, codes, decimal, string_bytes, IfOk, OnOk};
ghost use Rattle.std.specs.List.{range_with_len};
ghost use Rattle.dwg_object.specs.Objects.{value_of};
ghost use Rattle.dwg_object.specs.declared.body.Body.TheVariants as bodies;
ghost use Rattle.dwg_make.specs.RandomEntities.{drawn_body, drawn_entity, further_body, further_entity, further_layer, further_links, further_number};
ghost use Rattle.dwg_make.specs.Parts.{flat_point, plain_text};

use crate::making::Making;
use crate::objects::{links, model_entity};
use crate::random::{Draw, Random};
use crate::references::{ONE, flat_point, point};
use crate::texts::plain_text;
use dwg_base::{ByteRun, Items, NoMemory};
use dwg_codes::Point2;
use dwg_common::Links;
use dwg_entities::Text;
use dwg_object::{Body, Object};
use dwg_shapes::{Arc, Circle, Line, LwPolyline, Point};
use std::alloc::{AllocError, Global};

/// The handle of the insert, from which the entities after it are counted.
const INSERT: u64 = 0x30;

/// The type number of a choice.
fn number_of(choice: u32) -> u16
    requires { choice < 6 }
    ensures { result ≡ further_number choice }
{
    match choice {
        0 => 19,
        1 => 27,
        2 => 18,
        3 => 17,
        4 => 1,
        5 => 77,
        _ => unreachable!(),
    }
}

/// What the text of a number says. Err: out of memory.
fn label_of(alloc: Global, number: u32) -> Result<String, AllocError>
    ensures { IfOk result (λ label. string_bytes label ≡ codes "T" ++ decimal number) }
{
    let label = format!(in alloc; "T{number}")?;
    Ok(label)
}

/// The text of a number. Err: out of memory.
fn text_of(alloc: Global, number: u32, draw: &Draw) -> Result<Text, NoMemory>
    ensures { IfOk result (λ text. text ≡ plain_text (flat_point draw.now.w2 draw.now.w3) draw.now.w4 (codes "T" ++ decimal number)) }
{
    let label = label_of(alloc, number)?;
    let bytes = ByteRun::from_vec(label.into_bytes());
    Ok(plain_text(flat_point(draw.w2, draw.w3), draw.w4, bytes))
}

/// The polyline of four points. Err: out of memory.
fn polyline_of(alloc: Global, draw: &Draw) -> Result<LwPolyline, NoMemory>
    ensures { IfOk result (λ polyline. bodies.LwPolyline polyline ≡ further_body 5 0 draw.now.w2 draw.now.w3 draw.now.w4 draw.now.w5 draw.now.w6 draw.now.w7 draw.now.w8 draw.now.w9) }
{
    let mut points = Items::new(alloc);
    points.try_push(flat_point(draw.w2, draw.w3))?;
    points.try_push(flat_point(draw.w4, draw.w5))?;
    points.try_push(flat_point(draw.w6, draw.w7))?;
    points.try_push(flat_point(draw.w8, draw.w9))?;
    Ok(LwPolyline {
        flag: 0,
        width: None,
        elevation: None,
        thickness: None,
        normal: None,
        points,
        bulges: None,
        widths: None,
    })
}

/// The body that a draw gives the entity of a number. Err: out of memory.
fn body_of(alloc: Global, number: u32, draw: &Draw) -> Result<Body, NoMemory>
    requires { draw.now.choice < 6 }
    ensures { IfOk result (λ body. body ≡ drawn_body number draw.now) }
{
    let thickness = 0;
    let extrusion = point(0, 0, ONE);
    let place = point(draw.w2, draw.w3, 0);
    match draw.choice {
        0 => Ok(Body::Line(Line {
            start: place,
            end: point(draw.w4, draw.w5, 0),
            thickness,
            extrusion,
        })),
        1 => Ok(Body::Point(Point {
            place,
            thickness,
            extrusion,
            angle: 0,
        })),
        2 => Ok(Body::Circle(Circle {
            centre: place,
            radius: draw.w4,
            thickness,
            extrusion,
        })),
        3 => Ok(Body::Arc(Arc {
            centre: place,
            radius: draw.w4,
            thickness,
            extrusion,
            start_angle: draw.w5,
            end_angle: draw.w6,
        })),
        4 => Ok(Body::Text(text_of(alloc, number, draw)?)),
        5 => Ok(Body::LwPolyline(polyline_of(alloc, draw)?)),
        _ => unreachable!(),
    }
}

/// The links of the entity of a number, where there are so many: the last alone has some.
fn links_of(count: u32, number: u32) -> Option<Links>
    requires { 0 < number }
    ensures { result ≡ further_links count number }
{
    if number == count {
        Some(links(INSERT + u64::from(number) - 1, 0))
    } else {
        None
    }
}

/// The layer of the entity of a number.
fn layer_of(number: u32) -> u64
    ensures reported { result ≡ further_layer number }
    ensures small { result ≤ 0x17 }
{
    if number % 2 == 1 { 0x10 } else { 0x17 }
}

/// The entity of a number that a draw gives, where there are so many. Err: out of memory.
#[tactic(auto, unfolding(crate::specs::RandomEntities::drawn_entity))]
fn entity_of(
    alloc: Global,
    count: u32,
    number: u32,
    draw: &Draw,
) -> Result<Object<'static>, NoMemory>
    requires choice { draw.now.choice < 6 }
    requires number { 0 < number }
    ensures { IfOk result (λ object. value_of object ≡ drawn_entity count number draw.now) }
{
    let body = body_of(alloc, number, draw)?;
    let own = INSERT + u64::from(number);
    Ok(model_entity(
        alloc,
        number_of(draw.choice),
        own,
        links_of(count, number),
        layer_of(number),
        body,
    ))
}

/// Makes so many entities, by the random numbers of a seed. Err: out of memory.
pub(crate) fn make_further(
    alloc: Global,
    count: u32,
    seed: u32,
    making: &mut Making,
) -> Result<(), NoMemory>
    ensures { OnOk result (making.new ≡ making.old ++ map (further_entity count seed) (range_with_len 1 count)) }
{
    let mut random = Random::new(seed);
    'entities: for done in 0..count {
        let draw = random.draw();
        making.push(entity_of(alloc, count, done + 1, &draw)?)?;
    }
    Ok(())
}
