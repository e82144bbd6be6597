//! What is done with the fields of a body, field by field: a row has them in the order of their bits, once.

/// What is done with a row: the main fields of a body in the order of their bits, each with its code, after them its references in
/// their order, and before them the body that is made of them. Where that is a struct of just these fields, it is written with their
/// codes alone.
///
/// - `parse alloc, version, main, refs, base`: the body as it is parsed, `Ok(None)` where there is none;
/// - `read version, cursor`: an `Option`, of fields that are codes alone;
/// - `fits of, version, base`: whether all fit, as a block whose value is the answer;
/// - `known of, version`: fields that all fit, as statements;
/// - `bits of, version` and `refs_bits of, version, base`: their lengths, of at least one field;
/// - `write of, version, sink` and `write_refs of, version, base, sink`.
///
/// A name before the row is that of the macro that knows its words, [`field`] where none stands there.
#[macro_export]
macro_rules! row {
    ([$name:ident { $($field:ident: $code:ident),* $(,)? }] $($done:tt)*) => {
        row!(field [$name { $($field),* }; $($field: $code),*] $($done)*)
    };
    ([$($row:tt)*] $($done:tt)*) => {
        row!(field [$($row)*] $($done)*)
    };
    ($by:ident [$made:expr; $($field:ident: $code:ident),* $(; $($name:ident = $($path:ident).+ $(since $since:ident)?),*)?] parse $alloc:expr, $version:expr, $main:expr, $refs:expr, $base:expr) => {{
        $($by!(parse $code, $field, $alloc, $version, $main);)*
        $($(reference!(parse $name, $version, $refs, $base $(, $since)?);)*)?
        Ok(Some($made))
    }};
    ($by:ident [$made:expr; $($field:ident: $code:ident),*] read $version:expr, $cursor:expr) => {{
        $($by!(read $code, $field, $version, $cursor);)*
        Some($made)
    }};
    ($by:ident [$made:expr; $($field:ident: $code:ident),* $(; $($name:ident = $($path:ident).+ $(since $since:ident)?),*)?] fits $of:expr, $version:expr, $base:expr) => {{
        $($by!(fits $code, $of, $field, $version);)*
        $($(reference!(fits $of.$($path).+, $version, $base $(, $since)?);)*)?
        true
    }};
    ($by:ident [$made:expr; $($field:ident: $code:ident),*] known $of:expr, $version:expr) => {
        $($by!(fits $code, $of, $field, $version);)*
    };
    ($by:ident [$made:expr; $first:ident: $first_code:ident $(, $field:ident: $code:ident)* $(; $($rest:tt)*)?] bits $of:expr, $version:expr) => {
        $by!(bits $first_code, $of, $first, $version) $(+ $by!(bits $code, $of, $field, $version))*
    };
    ($by:ident [$made:expr; $($field:ident: $code:ident),*; $first:ident = $($first_path:ident).+ $(since $first_since:ident)? $(, $name:ident = $($path:ident).+ $(since $since:ident)?)*] refs_bits $of:expr, $version:expr, $base:expr) => {
        reference!(bits $of.$($first_path).+, $version, $base $(, $first_since)?) $(+ reference!(bits $of.$($path).+, $version, $base $(, $since)?))*
    };
    ($by:ident [$made:expr; $($field:ident: $code:ident),* $(; $($rest:tt)*)?] write $of:expr, $version:expr, $sink:expr) => {
        $($by!(write $code, $of, $field, $version, $sink);)*
    };
    ($by:ident [$made:expr; $($field:ident: $code:ident),*; $($name:ident = $($path:ident).+ $(since $since:ident)?),*] write_refs $of:expr, $version:expr, $base:expr, $sink:expr) => {
        $(reference!(write $of.$($path).+, $version, $base, $sink $(, $since)?);)*
    };
}

/// What is done with one field, by its code: `Tv` is a text, all others are types that implement `BitCode`, whose context is the
/// version where the versions differ.
#[macro_export]
macro_rules! field {
    (context CodeThickness, $version:expr) => {
        &$version
    };
    (context CodeExtrusion, $version:expr) => {
        &$version
    };
    (context $code:ident, $version:expr) => {
        &()
    };
    (parse Tv, $field:ident, $alloc:expr, $version:expr, $main:expr) => {
        let Some($field) = dwg_common::parse_tv($alloc, $main)? else {
            return Ok(None);
        };
    };
    (parse $code:ident, $field:ident, $alloc:expr, $version:expr, $main:expr) => {
        let Some($field) = dwg_common::parse_code::<$code>(field!(context $code, $version), $main) else {
            return Ok(None);
        };
    };
    (read $code:ident, $field:ident, $version:expr, $cursor:expr) => {
        let $field = dwg_common::parse_code::<$code>(field!(context $code, $version), $cursor)?;
    };
    (fits Tv, $of:expr, $field:ident, $version:expr) => {
        if !dwg_common::tv_fits($of.$field.as_slice()) {
            return false;
        }
    };
    (fits Code3BD, $of:expr, $field:ident, $version:expr) => {
        dwg_common::point_with_range(&$of.$field);
    };
    (fits CodeThickness, $of:expr, $field:ident, $version:expr) => {
        dwg_common::known_thickness($version, $of.$field);
    };
    (fits CodeExtrusion, $of:expr, $field:ident, $version:expr) => {
        dwg_common::known_extrusion($version, &$of.$field);
    };
    (fits $code:ident, $of:expr, $field:ident, $version:expr) => {
        let _known = $of.$field;
    };
    (bits Tv, $of:expr, $field:ident, $version:expr) => {
        dwg_common::tv_bits($of.$field.as_slice())
    };
    (bits $code:ident, $of:expr, $field:ident, $version:expr) => {
        <$code as dwg_codes::BitCode>::length(field!(context $code, $version), &$of.$field)
    };
    (write Tv, $of:expr, $field:ident, $version:expr, $sink:expr) => {
        dwg_common::write_tv($of.$field.as_slice(), $sink);
    };
    (write $code:ident, $of:expr, $field:ident, $version:expr, $sink:expr) => {
        <$code as dwg_codes::BitCode>::write(field!(context $code, $version), &$of.$field, $sink);
    };
}

/// What is done with one reference; with `AC1015` at the end one that this version alone spells.
#[macro_export]
macro_rules! reference {
    (parse $name:ident, $version:expr, $refs:expr, $base:expr) => {
        let Some($name) = dwg_common::parse_ref($refs, $base) else {
            return Ok(None);
        };
    };
    (parse $name:ident, $version:expr, $refs:expr, $base:expr, AC1015) => {
        let Some($name) = dwg_common::parse_ref_since($version, $refs, $base) else {
            return Ok(None);
        };
    };
    (fits $ref:expr, $version:expr, $base:expr) => {
        if !$ref.fits($base) {
            return false;
        }
    };
    (fits $ref:expr, $version:expr, $base:expr, AC1015) => {
        if !dwg_common::ref_since_fits($version, &$ref, $base) {
            return false;
        }
    };
    (bits $ref:expr, $version:expr, $base:expr) => {
        dwg_handles::ref_bits($ref, $base)
    };
    (bits $ref:expr, $version:expr, $base:expr, AC1015) => {
        dwg_common::ref_since_bits($version, &$ref, $base)
    };
    (write $ref:expr, $version:expr, $base:expr, $sink:expr) => {
        dwg_handles::write_ref($ref, $base, $sink);
    };
    (write $ref:expr, $version:expr, $base:expr, $sink:expr, AC1015) => {
        dwg_common::write_ref_since($version, &$ref, $base, $sink);
    };
}
