//! Tags of texts.
use osm_base::{Memory, Text};
use osm_element::Tags;
use std::alloc::Global;

fn pair(alloc: Global, key: &str, value: &str) -> Result<(Text, Text), Memory> {
    let key = Text::of(alloc, key)?;
    Ok((key, Text::of(alloc, value)?))
}

/// Tags of these keys and values, if the keys rise.
pub fn labels(alloc: Global, pairs: &[(&str, &str)]) -> Result<Option<Tags>, Memory> {
    let mut texts = Vec::new(alloc);
    for (key, value) in pairs {
        texts.push(pair(alloc, key, value)?)?;
    }
    Tags::of(alloc, texts.as_slice())
}
