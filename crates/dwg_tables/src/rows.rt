//! What is done with the fields of an entry whose codes this crate alone knows.

/// What is done with one field of an entry: `Title` and `Form` are what an entry begins with and the form of letters, `Values` are
/// those of a layer, all others are words of `field`.
#[macro_export]
macro_rules! table_field {
    (parse Title, $field:ident, $alloc:expr, $version:expr, $main:expr) => {
        let Some($field) = crate::entry_start::read_title($alloc, $main)? else {
            return Ok(None);
        };
    };
    (parse Form, $field:ident, $alloc:expr, $version:expr, $main:expr) => {
        let Some($field) = crate::letter_form::read_form($main) else {
            return Ok(None);
        };
    };
    (parse Values, $field:ident, $alloc:expr, $version:expr, $main:expr) => {
        let Some($field) = crate::layer_values::read_values($version, $main) else {
            return Ok(None);
        };
    };
    (fits Title, $of:expr, $field:ident, $version:expr) => {
        if !crate::entry_start::title_fits(&$of.$field) {
            return false;
        }
    };
    (fits Form, $of:expr, $field:ident, $version:expr) => {
        crate::letter_form::known_form($of);
    };
    (fits Values, $of:expr, $field:ident, $version:expr) => {
        if !crate::layer_values::values_fit($version, $of.$field) {
            return false;
        }
    };
    (bits Title, $of:expr, $field:ident, $version:expr) => {
        crate::entry_start::title_bits(&$of.$field)
    };
    (bits Form, $of:expr, $field:ident, $version:expr) => {
        crate::letter_form::form_bits($of)
    };
    (bits Values, $of:expr, $field:ident, $version:expr) => {
        crate::layer_values::values_bits($version, $of.$field)
    };
    (write Title, $of:expr, $field:ident, $version:expr, $sink:expr) => {
        crate::entry_start::write_title(&$of.$field, $sink);
    };
    (write Form, $of:expr, $field:ident, $version:expr, $sink:expr) => {
        crate::letter_form::write_form($of, $sink);
    };
    (write Values, $of:expr, $field:ident, $version:expr, $sink:expr) => {
        crate::layer_values::write_values($version, $of.$field, $sink);
    };
    ($($done:tt)*) => {
        field!($($done)*)
    };
}
