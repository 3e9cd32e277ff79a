//! How often each route was answered, and how often each refusal came.
use http_link::Reply;
use osm_base::Memory;
use row_lines::word_of;
use std::alloc::Global;
use std::io;

/// Words, each with how often it came.
#[derive(Drop)]
pub struct Counts {
    words: Vec<(String, u64)>,
}

/// Adds a part of a path, or `N` where it is a number.
fn add_part(route: &mut String, part: &str) -> Result<(), Memory> {
    let is_number = part.as_bytes().first().is_some_and(u8::is_ascii_digit);
    route.push_str(if is_number { "N" } else { part })?;
    Ok(())
}

fn add_path(route: &mut String, path: &str) -> Result<(), Memory> {
    let mut parts = path.split('/');
    add_part(route, parts.next().unwrap_or(""))?;
    for part in parts {
        route.push('/')?;
        add_part(route, part)?;
    }
    Ok(())
}

/// Adds the route of a request: its method, its path, and the name of its first parameter.
fn add_route(route: &mut String, method: &str, target: &str) -> Result<(), Memory> {
    let (path, query) = target.split_once('?').unwrap_or((target, ""));
    route.push_str(method)?;
    route.push(' ')?;
    add_path(route, path.strip_suffix(".json").unwrap_or(path))?;
    if let Some((name, _)) = query.split_once('=') {
        route.push('?')?;
        route.push_str(name)?;
    }
    Ok(())
}

/// The word of a refusal: the member `error` of its body.
fn refusal(body: &[u8]) -> &str {
    let text = str::from_utf8(body).unwrap_or("");
    let word = text.split("\"error\":\"").nth(1).unwrap_or("");
    word.split('"').next().unwrap_or("")
}

impl Counts {
    pub fn none(alloc: Global) -> Counts {
        Counts {
            words: Vec::new(alloc),
        }
    }

    fn add(&mut self, alloc: Global, word: &str) -> Result<(), Memory> {
        for (known, count) in self.words.iter_mut() {
            if known.as_str() == word {
                *count = count.saturating_add(1);
                return Ok(());
            }
        }
        self.words.push((String::from_str(alloc, word)?, 1))?;
        Ok(())
    }

    /// Notes a reply to a line: the refusal, or the route of `CALLER METHOD PATH` where it was answered
    /// with 200. A request of bytes has no route.
    pub fn note(&mut self, alloc: Global, line: &str, reply: &Reply) -> Result<(), Memory> {
        if reply.status != 200 {
            return self.add(alloc, refusal(reply.body.as_slice()));
        }
        if line.starts_with('>') {
            return Ok(());
        }
        self.note_route(alloc, line)
    }

    fn note_route(&mut self, alloc: Global, line: &str) -> Result<(), Memory> {
        let (_, rest) = word_of(line);
        let (method, rest) = word_of(rest);
        let (target, _) = word_of(rest);
        let mut route = String::new(alloc);
        match add_route(&mut route, method, target) {
            Ok(()) => self.add(alloc, route.as_str()),
            Err(Memory) => Err(Memory),
        }
    }

    /// Says how often each came, by their names.
    pub fn tell<R: Print>(&mut self, rt: &R) -> io::Result<()> {
        self.words.sort_unstable();
        for (word, count) in &self.words {
            println!(rt; "{count} {word}")?;
        }
        Ok(())
    }
}
