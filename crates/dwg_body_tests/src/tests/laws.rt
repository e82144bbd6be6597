//! The laws of bodies.

use dwg_common::{EntityCommon, ObjectCommon, body_laws, common_laws, older_laws};
use dwg_dicts::{Dictionary, dict_laws};
use dwg_entities::{Text, entity_laws};
use dwg_more::more_laws;
use dwg_part_laws::{
    commons_as_defined, dicts_as_defined, entities_as_defined, more_as_defined, shapes_as_defined,
    size_laws, tables_as_defined,
};
use dwg_shapes::shape_laws;
use dwg_tables::{BlockHeader, Layer, table_laws};

/// Each law can be called.
#[test]
fn the_laws_of_bodies_hold(_rt: HostRuntime) {
    shape_laws();
    entity_laws();
    table_laws();
    dict_laws();
    more_laws();
}

/// So can those on which definition each part goes by, and on the bit size.
#[test]
fn each_part_goes_by_its_definition(_rt: HostRuntime) {
    commons_as_defined();
    shapes_as_defined();
    entities_as_defined();
    tables_as_defined();
    dicts_as_defined();
    more_as_defined();
    size_laws();
}

/// And those of what any body owes, in each version.
#[test]
fn bodies_owe_the_laws_of_bodies(_rt: HostRuntime) {
    common_laws();
    body_laws::<EntityCommon>();
    body_laws::<ObjectCommon>();
    body_laws::<Text>();
    body_laws::<Layer>();
    body_laws::<BlockHeader>();
    body_laws::<Dictionary>();
    older_laws::<EntityCommon>();
    older_laws::<ObjectCommon>();
    older_laws::<Text>();
    older_laws::<Layer>();
    older_laws::<BlockHeader>();
    older_laws::<Dictionary>();
}
