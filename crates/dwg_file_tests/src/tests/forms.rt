//! The forms of objects: all fields where the kind has a body, the common part where it doesn't, the bytes where that fails too.

use crate::tests::objects::ObjectCases;
use dwg_testkit::hold;
use std::test::Fail;

#[test]
fn an_entity_of_a_kind_with_fields_is_read_by_them(rt: HostRuntime) -> Result<(), Fail> {
    let cases = "
        # A text 'A' whose optional parts are absent; an attribute of that text and the tag 'B'; its definition, with an empty prompt; the
        # begin of the block '*A', and an end; an end of attributes; a block inserted at the origin, without attributes; an arc of radius
        # 1.0 from 0 to 1.0; a circle of radius 1.0; a line that ends where it starts; a point at the origin; a polyline of no points.
        frame 15 | 1 80 : ENTITY FF ^ ^ '1 '1 ^ '01 01 41 / 3.0 5.10 5.11 | 1 x80 TEXT typed 47
        frame 15 | 2 80 : ENTITY FF ^ ^ '1 '1 ^ '01 01 41 '01 01 42 '10 00 / 3.0 5.10 5.11 | 2 x80 ATTRIB typed 51
        frame 15 | 3 80 : ENTITY FF ^ ^ '1 '1 ^ '01 01 41 '01 01 42 '10 00 '10 / 3.0 5.10 5.11 | 3 x80 ATTDEF typed 51
        frame 15 | 4 80 : ENTITY '01 02 2A41 / 3.0 5.10 | 4 x80 BLOCK typed 21
        frame 15 | 5 80 : ENTITY / 3.0 5.10 | 5 x80 ENDBLK typed 18
        frame 15 | 6 80 : ENTITY / 3.0 5.10 | 6 x80 SEQEND typed 18
        frame 15 | 7 80 : ENTITY '10 '10 '10 '11 '10 '10 '10 '01 '0 / 3.0 5.10 5.12 | 7 x80 INSERT typed 22
        frame 15 | 17 80 : ENTITY '10 '10 '10 '01 '1 '1 '10 '01 / 3.0 5.10 | 17 x80 ARC typed 20
        frame 15 | 18 80 : ENTITY '10 '10 '10 '01 '1 '1 / 3.0 5.10 | 18 x80 CIRCLE typed 19
        frame 15 | 19 80 : ENTITY '1 0000D1B1DAE95040 '00 0000FC40CC9C5040 '00 '1 '1 / 3.0 5.10 \
            | 19 x80 LINE typed x4050E9DAB1D10000 x40509CCC40FC0000 0 x4050E9DAB1D10000 x40509CCC40FC0000 0 35
        frame 15 | 27 80 : ENTITY '10 '10 '10 '1 '1 '10 / 3.0 5.10 | 27 x80 POINT typed 19
        frame 15 | 77 80 : ENTITY '10 '10 / 3.0 5.10 | 77 x80 LWPOLYLINE typed 18";
    hold::<ObjectCases>(rt.alloc(), cases)
}

#[test]
fn ellipses_faces_polylines_in_space_and_groups_are_read_by_their_fields(
    rt: HostRuntime,
) -> Result<(), Fail> {
    let cases = "
        # A block inserted twice in three rows, without attributes and with them; a vertex at (1.0, 0, 0), and a polyline; a face whose
        # corners are one; a solid and a trace whose corners are the origin; an ellipse around the origin, and the same by its bytes, which
        # report that 108 bits stand before its references; a ray and a line without ends, both through the origin; a group 'G' of an object
        # and null.
        frame 15 | 8 80 : ENTITY '10 '10 '10 '11 '10 '10 '10 '01 '0 '01 02 '01 03 '01 '10 / 3.0 5.10 5.12 | 8 x80 MINSERT typed 25
        frame 15 | 8 80 : ENTITY '10 '10 '10 '11 '10 '10 '10 '01 '1 '01 02 '01 03 '01 '10 / 3.0 5.10 5.12 4.81 4.82 3.83 | 8 x80 MINSERT typed 31
        frame 15 | 11 80 : ENTITY 20 '01 '10 '10 / 3.0 5.10 | 11 x80 VERTEX 3D typed 20
        frame 15 | 16 80 : ENTITY 00 01 / 3.0 5.10 4.81 4.82 3.83 | 16 x80 POLYLINE 3D typed 26
        frame 15 | 28 80 : ENTITY '1 '1 ^F03F ^ '000000 '000000 '000000 / 3.0 5.10 | 28 x80 3DFACE typed 36
        frame 15 | 31 80 : ENTITY '1 '10 ^ ^ ^ ^ ^ ^ ^ ^ '1 / 3.0 5.10 | 31 x80 SOLID typed 82
        frame 15 | 32 80 : ENTITY '1 '10 ^ ^ ^ ^ ^ ^ ^ ^ '1 / 3.0 5.10 | 32 x80 TRACE typed 82
        frame 15 | 35 80 : ENTITY A9 AA 59 / 3.0 5.10 | 35 x80 ELLIPSE typed 21
        frame 15 | 1100 48DB0000000060257421DA9AA593051100 08C5 | 35 x80 ELLIPSE typed 21
        frame 15 | 40 80 : ENTITY '10 '10 '10 '01 '10 '10 / 3.0 5.10 | 40 x80 RAY typed 19
        frame 15 | 41 80 : ENTITY '10 '10 '10 '01 '10 '10 / 3.0 5.10 | 41 x80 XLINE typed 19
        frame 15 | 72 90 : '10 '10 '01 01 47 '01 01 '10 '01 02 / 4.0 3.0 5.80 5.0 | 72 x90 GROUP typed 22
        # The ellipse with one bit more of its own, with four fewer, and with one reference more; the polyline with one reference fewer.
        frame 15 | 35 80 : ENTITY A9 AA 59 '1 / 3.0 5.10 | 35 x80 ELLIPSE plain 25 0 21
        frame 15 | 35 80 : ENTITY A9 AA '0101 / 3.0 5.10 | 35 x80 ELLIPSE plain 20 0 20
        frame 15 | 35 80 : ENTITY A9 AA 59 / 3.0 5.10 3.0 | 35 x80 ELLIPSE plain 24 1 22
        frame 15 | 16 80 : ENTITY 00 01 / 3.0 5.10 4.81 4.82 | 16 x80 POLYLINE 3D plain 16 2 24";
    hold::<ObjectCases>(rt.alloc(), cases)
}

#[test]
fn layers_and_headers_of_blocks_are_read_with_what_ac1014_fixes(
    rt: HostRuntime,
) -> Result<(), Fail> {
    let cases = "
        # A layer, whose values are four bits; the header of a block, and of one that is an xref; a dictionary and a record without cloning.
        frame 14 | 51 90 : '10 size '10 '01 01 30 '0 '10 '0 '1111 '01 07 / 4.0 3.0 5.0 5.16 | 51 x90 LAYER typed 22
        frame 14 | 49 90 : '10 size '10 '01 01 41 '0 '10 '0 '0 '0 '0 '0 '10 '10 '10 '10 / 4.0 3.0 5.0 3.20 4.0 4.0 3.21 | 49 x90 BLOCK HEADER typed 25
        frame 14 | 49 90 : '10 size '10 '01 01 41 '0 '10 '0 '0 '0 '1 '0 '10 '10 '10 '01 01 70 / 4.0 3.0 5.0 3.20 3.21 | 49 x90 BLOCK HEADER typed 25
        frame 14 | 42 90 : '10 size '10 '10 00 / 4.0 3.0 | 42 x90 DICTIONARY typed 15
        frame 14 | 79 90 : '10 size '10 '10 / 4.0 3.0 4.10 5.0 | 79 x90 XRECORD typed 17
        # The layer with a plot style among its references, and with values as AC1015 has them; the header with a layout, and with all that
        # AC1015 has; the dictionary with cloning.
        frame 14 | 51 90 : '10 size '10 '01 01 30 '0 '10 '0 '0101 '01 07 / 4.0 3.0 5.0 5.0 5.16 | 51 x90 LAYER plain 36 3 23
        frame 14 | 51 90 : '10 size '10 '01 01 30 '0 '10 '0 '10 '01 07 / 4.0 3.0 5.0 5.0 5.16 | 51 x90 LAYER plain 34 3 22
        frame 14 | 49 90 : '10 size '10 '01 01 41 '0 '10 '0 '0 '0 '0 '0 '10 '10 '10 '10 / 4.0 3.0 5.0 3.20 4.0 4.0 3.21 5.0 \
            | 49 x90 BLOCK HEADER plain 34 6 26
        frame 14 | 49 90 : '10 size '10 '01 01 41 '0 '10 '0 '0 '0 '0 '0 '0 '10 '10 '10 '10 00 '10 '10 / 4.0 3.0 5.0 3.20 4.0 4.0 3.21 5.0 \
            | 49 x90 BLOCK HEADER plain 47 6 28
        frame 14 | 42 90 : '10 size '10 '10 '10 00 / 4.0 3.0 | 42 x90 DICTIONARY plain 12 0 16";
    hold::<ObjectCases>(rt.alloc(), cases)
}

#[test]
fn kinds_of_ac1015_alone_are_plain_in_ac1014(rt: HostRuntime) -> Result<(), Fail> {
    let cases = "
        # What AC1015 reads by its fields are own bits and references here; a line, which both read by them; an entity and an object that
        # neither does.
        frame 14 | 35 80 : '10 '0 size OLDER A9 AA 59 / 3.0 5.10 | 35 x80 ELLIPSE plain 24 0 20
        frame 14 | 8 80 : '10 '0 size OLDER '10 '10 '10 '11 '10 '10 '10 '01 '0 '01 02 '01 03 '01 '10 / 3.0 5.10 5.12 | 8 x80 MINSERT plain 41 1 24
        frame 14 | 11 80 : '10 '0 size OLDER 20 '01 '10 '10 / 3.0 5.10 | 11 x80 VERTEX 3D plain 14 0 18
        frame 14 | 16 80 : '10 '0 size OLDER 00 01 / 3.0 5.10 4.81 4.82 3.83 | 16 x80 POLYLINE 3D plain 16 3 25
        frame 14 | 28 80 : '10 '0 size OLDER '1 '1 ^F03F ^ '000000 '000000 '000000 / 3.0 5.10 | 28 x80 3DFACE plain 148 0 35
        frame 14 | 31 80 : '10 '0 size OLDER '1 '10 / 3.0 5.10 | 31 x80 SOLID plain 3 0 17
        frame 14 | 32 80 : '10 '0 size OLDER '1 '10 / 3.0 5.10 | 32 x80 TRACE plain 3 0 17
        frame 14 | 40 80 : '10 '0 size OLDER '10 '10 '10 '01 '10 '10 / 3.0 5.10 | 40 x80 RAY plain 12 0 18
        frame 14 | 41 80 : '10 '0 size OLDER '10 '10 '10 '01 '10 '10 / 3.0 5.10 | 41 x80 XLINE plain 12 0 18
        frame 14 | 72 90 : '10 size '10 '01 01 47 '01 01 '10 '01 02 / 4.0 3.0 5.80 5.0 | 72 x90 GROUP plain 40 2 22
        frame 14 | 19 80 : '10 '0 size OLDER A9 AA '1001 / 3.0 5.10 | 19 x80 LINE typed 0 0 0 x3FF^ 0 0 19
        frame 14 | 45 80 : '10 '0 size OLDER '101 / 3.0 5.10 | 45 x80 ENTITY plain 3 0 17
        frame 14 | 200 80 : '10 '0 size OLDER '101 / 3.0 5.10 | 200 x80 UNKNOWN raw 13 17";
    hold::<ObjectCases>(rt.alloc(), cases)
}

#[test]
fn an_object_is_read_in_the_strongest_form_that_it_has(rt: HostRuntime) -> Result<(), Fail> {
    let cases = "
        # The line: its type number in 18 bits and the words of its end in full; with ones after its references; with one further bit before
        # them; with one further reference. Entities of type 45 and 200 with three bits of their own; and one of type 500, of which no class
        # speaks, with the four bits of a polyline.
        frame 15 | 3000 04C018C040000060257421D800068D8ED74A82060001A363B5D2A0800001F8819938A08180007E20664E2820660A2200 026B \
            | 19 x80 LINE typed x4050E9DAB1D10000 x40509CCC40FC0000 0 x4050E9DAB1D10000 x40509CCC40FC0000 0 52
        frame 15 | 19 80 : ENTITY '1 0000D1B1DAE95040 '00 0000FC40CC9C5040 '00 '1 '1 / 3.0 5.10 '11111 \
            | 19 x80 LINE typed x4050E9DAB1D10000 x40509CCC40FC0000 0 x4050E9DAB1D10000 x40509CCC40FC0000 0 35
        frame 15 | 19 80 : ENTITY '1 0000D1B1DAE95040 '00 0000FC40CC9C5040 '00 '1 '1 '1 / 3.0 5.10 | 19 x80 LINE plain 136 0 35
        frame 15 | 19 80 : ENTITY '1 0000D1B1DAE95040 '00 0000FC40CC9C5040 '00 '1 '1 / 3.0 5.10 3.0 | 19 x80 LINE plain 135 1 36
        frame 15 | 45 80 : ENTITY '101 / 3.0 5.10 | 45 x80 ENTITY plain 3 0 18
        frame 15 | 200 80 : ENTITY '101 / 3.0 5.10 | 200 x80 UNKNOWN raw 14 18
        frame 15 | 500 80 : ENTITY '10 '10 / 3.0 5.10 | 500 x80 UNKNOWN raw 15 19";
    hold::<ObjectCases>(rt.alloc(), cases)
}

#[test]
fn a_class_says_what_its_objects_are(rt: HostRuntime) -> Result<(), Fail> {
    let cases = "
        # An entity of type 500 with the four bits of a polyline, and an object of that type with those of a record.
        frame 15 | 500 80 : ENTITY '10 '10 / 3.0 5.10 | 500 LWPOLYLINE 498 | 500 x80 LWPOLYLINE typed 19
        frame 15 | 500 80 : ENTITY '10 '10 / 3.0 5.10 | 500 HATCH 498 | 500 x80 ENTITY plain 4 0 19
        frame 15 | 500 90 : '10 '10 '10 '10 / 4.0 3.0 | 500 XRECORD 499 | 500 x90 XRECORD typed 16
        frame 15 | 500 90 : '10 '10 '10 '10 / 4.0 3.0 | 500 PLACEHOLDER 499 | 500 x90 OBJECT plain 4 0 16";
    hold::<ObjectCases>(rt.alloc(), cases)
}

#[test]
fn an_object_of_a_kind_with_a_body_is_read_by_it(rt: HostRuntime) -> Result<(), Fail> {
    let cases = "
        # A dictionary without items; the table of no blocks; the header of the block 'A', without inserts; the table of no layers; the
        # layer '0'; the table of one style; the style 'S'; the table of no linetypes but two; the linetype 'L', without dashes; the table
        # of no applications; the application 'ACAD'; a record of no bytes and two targets.
        frame 15 | 42 90 : '10 '10 '10 '10 00 / 4.0 3.0 | 42 x90 DICTIONARY typed 16
        frame 15 | 48 90 : '10 '10 '10 / 4.0 3.0 5.1F 5.1B | 48 x90 BLOCK CONTROL typed 18
        frame 15 | 49 90 : '10 '10 '01 01 41 '0 '10 '0 '0 '0 '0 '0 '0 '10 '10 '10 '10 00 '10 '10 / 4.0 3.0 5.0 3.20 4.0 4.0 3.21 5.0 \
            | 49 x90 BLOCK HEADER typed 28
        frame 15 | 50 90 : '10 '10 '10 / 4.0 3.0 | 50 x90 LAYER CONTROL typed 14
        frame 15 | 51 90 : '10 '10 '01 01 30 '0 '10 '0 '10 '01 07 / 4.0 3.0 5.0 5.0 5.16 | 51 x90 LAYER typed 22
        frame 15 | 52 90 : '10 '10 '01 01 / 4.0 3.0 2.11 | 52 x90 STYLE CONTROL typed 17
        frame 15 | 53 90 : '10 '10 '01 01 53 '0 '10 '0 '0 '0 '10 '01 '10 00 '10 '01 03 747874 '10 / 4.0 3.0 5.0 | 53 x90 STYLE typed 25
        frame 15 | 56 90 : '10 '10 '10 / 4.0 3.0 5.14 5.15 | 56 x90 LTYPE CONTROL typed 18
        frame 15 | 57 90 : '10 '10 '01 01 4C '0 '10 '0 '10 '10 41 00 00*256 / 4.0 3.0 5.0 | 57 x90 LTYPE typed 276
        frame 15 | 66 90 : '10 '10 '10 / 4.0 3.0 | 66 x90 APPID CONTROL typed 14
        frame 15 | 67 90 : '10 '10 '01 04 41434144 '0 '10 '0 00 / 4.0 3.0 5.0 | 67 x90 APPID typed 22
        frame 15 | 79 90 : '10 '10 '10 '10 / 4.0 3.0 4.10 5.0 | 79 x90 XRECORD typed 18";
    hold::<ObjectCases>(rt.alloc(), cases)
}

#[test]
fn fewer_than_eight_bits_may_follow_the_references_of_a_record(
    rt: HostRuntime,
) -> Result<(), Fail> {
    let cases = "
        # Six ones after the target of a record; and eight bits that are no reference.
        frame 15 | 79 90 : '10 '10 '10 '10 / 4.0 3.0 4.10 '111111 | 79 x90 XRECORD typed 17
        frame 15 | 79 90 : '10 '10 '10 '10 / 4.0 3.0 4.10 F0 | 79 x90 XRECORD raw 14 18";
    hold::<ObjectCases>(rt.alloc(), cases)
}
