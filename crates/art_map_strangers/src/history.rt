//! An index of releases: by the number of a host, the name of a program, and the newest first.
use art_map::Map;
use std::alloc::{AllocError, Global};
use std::cmp::Reverse;

type Key = (u32, String, Reverse<u64>);

type Releases = Map<Key, String>;

fn add(releases: &mut Releases, host: u32, name: String, time: u64, text: String) -> bool {
    releases.insert((host, name, Reverse(time)), text).is_ok()
}

pub fn add_two(
    releases: &mut Releases,
    name: String,
    other: String,
    text: String,
    note: String,
) -> bool {
    add(releases, 1, name, 7, text) && add(releases, 2, other, 7, note)
}

pub fn text_of<'a>(releases: &'a Releases, host: u32, name: &str, time: u64) -> Option<&'a String> {
    releases.get((&host, name, &Reverse(time)))
}

pub fn forget(releases: &mut Releases, host: u32, name: &str, time: u64) -> Option<String> {
    releases.remove((&host, name, &Reverse(time)))
}

pub fn newest(releases: &Releases) -> Option<u64> {
    let (key, _) = releases.first_key_value()?;
    Some(key.2.0)
}

/// The ten newest texts of a host and a name.
pub fn newest_ten<'a>(
    releases: &'a Releases,
    host: u32,
    name: &str,
    alloc: Global,
) -> Result<Vec<&'a String>, AllocError> {
    let mut newest = Vec::new(alloc);
    for (_, text) in releases.prefix((&host, name)).take(10) {
        newest.push(text)?;
    }
    Ok(newest)
}

/// The same, as a chain.
pub fn newest_texts<'a>(
    releases: &'a Releases,
    host: u32,
    name: &str,
    alloc: Global,
) -> Result<Vec<&'a String>, AllocError> {
    releases
        .prefix((&host, name))
        .take(10)
        .map(|(_, text)| text)
        .collect(alloc)
}

/// How many of these ten are not older than this.
pub fn count_since(releases: &Releases, host: u32, name: &str, time: u64) -> u32 {
    let mut count: u32 = 0;
    let newest = (&host, name, &Reverse(u64::MAX));
    let oldest = (&host, name, &Reverse(time));
    for _ in releases.within(newest..=oldest).take(10) {
        count = count.saturating_add(1);
    }
    count
}

pub fn count_of_host(releases: &Releases, host: u32) -> u32 {
    let mut count: u32 = 0;
    for (key, _) in releases.iter() {
        if key.0 == host {
            count = count.saturating_add(1);
        }
    }
    count
}

/// Owned by a struct with methods that call one another.
#[derive(Drop)]
pub struct History {
    releases: Releases,
    last: u64,
}

impl History {
    pub fn new(alloc: Global) -> History {
        History {
            releases: Map::new(alloc),
            last: 0,
        }
    }

    pub fn record(&mut self, host: u32, name: String, text: String) -> bool {
        self.last = self.last.saturating_add(1);
        add(&mut self.releases, host, name, self.last, text)
    }

    pub fn record_two(&mut self, name: String, other: String, text: String, note: String) -> bool {
        self.record(1, name, text) && self.record(1, other, note)
    }

    pub fn newest(&self) -> Option<u64> {
        newest(&self.releases)
    }
}
