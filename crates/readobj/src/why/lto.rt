//! Objects for link-time optimization, which are objects without code.

use crate::why::look::{header_count, section_name};
use elfobj::Object;
use elfobj::section::SectionKind;

/// How the names of the sections begin that gcc makes for link-time optimization.
const PREFIX: &[u8] = b".gnu.lto_";

/// Whether gcc made an object for link-time optimization alone, so that it has neither code nor data.
pub fn is_slim(object: &Object) -> bool {
    let has_contents = object.sections().iter().any(|section| section.size > 0
        && section.kind != SectionKind::Note);
    if has_contents {
        return false;
    }
    let bytes = object.data();
    (0..header_count(bytes)).any(|number| match section_name(bytes, number) {
        Some(name) => name.as_bytes().starts_with(PREFIX),
        None => false,
    })
}
