//! The laws, each the contract of a function without code.

use dwg_appitems::item_laws;
use dwg_bits::bit_laws;
use dwg_check::{check_word_laws, short_damage_laws};
use dwg_classes::classes_laws;
use dwg_codes::{byte_code_laws, byte_run_laws, plain_spellings};
use dwg_handles::reference_laws;
use dwg_sections::{file_header_laws, framed_laws};

#[test]
fn laws_ask_for_nothing() {
    bit_laws();
    check_word_laws();
    short_damage_laws();
    byte_code_laws();
    plain_spellings();
    byte_run_laws();
    reference_laws();
    file_header_laws();
    framed_laws();
    classes_laws();
    item_laws();
}
